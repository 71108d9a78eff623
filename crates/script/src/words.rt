// The words that begin the lines of a script.
ghost use Rattle.std.specs.Prelude.{◌≡◌};
ghost use Rattle.script.specs.Words.{spelling, takes_argument, Names, ToldApart};

/// A word of a script: five that set up, and thirteen calls.
// Beside `Line`, since a word is found before its argument is read.
#[derive(Clone, Copy, PartialEq, Eq, Debug)]
pub enum Word {
    New,
    Style,
    Memory,
    Sink,
    Level,
    Open,
    Field,
    Text,
    /// `none`, the missing value
    Nothing,
    Variant,
    Wrapped,
    Row,
    VariantRow,
    Record,
    VariantRecord,
    End,
    Finish,
    Abandon,
}

const WORDS: [Word; 18] = [
    Word::New,
    Word::Style,
    Word::Memory,
    Word::Sink,
    Word::Level,
    Word::Open,
    Word::Field,
    Word::Text,
    Word::Nothing,
    Word::Variant,
    Word::Wrapped,
    Word::Row,
    Word::VariantRow,
    Word::Record,
    Word::VariantRecord,
    Word::End,
    Word::Finish,
    Word::Abandon,
];

impl Word {
    /// How it is written.
    pub fn spelling(self) -> &'static [u8]
        ensures value { result.now ≡ spelling self }
    {
        match self {
            Word::New => b"new",
            Word::Style => b"style",
            Word::Memory => b"memory",
            Word::Sink => b"sink",
            Word::Level => b"level",
            Word::Open => b"open",
            Word::Field => b"field",
            Word::Text => b"text",
            Word::Nothing => b"none",
            Word::Variant => b"variant",
            Word::Wrapped => b"wrapped",
            Word::Row => b"row",
            Word::VariantRow => b"variant-row",
            Word::Record => b"record",
            Word::VariantRecord => b"variant-record",
            Word::End => b"end",
            Word::Finish => b"finish",
            Word::Abandon => b"abandon",
        }
    }

    /// Whether an argument may stand after it.
    pub fn takes_argument(self) -> bool
        ensures value { result ≡ takes_argument self }
    {
        !matches!(
            self,
            Word::New | Word::Nothing | Word::Row | Word::End | Word::Finish | Word::Abandon
        )
    }

    /// The word that is written like this.
    // No table of pairs as for the settings: a word's spelling is a match, and `Names` says that `WORDS` leaves none out.
    pub fn find(text: &[u8]) -> Option<Word>
        ensures names { Names result text.now }
    {
        WORDS.iter().find(|word| text == word.spelling()).copied()
    }
}

/// No two words are written alike, so a line has one word at most.
// No code in it, since a contract is what names a theorem.
pub fn law_words_told_apart()
    ensures law { ToldApart }
{}
