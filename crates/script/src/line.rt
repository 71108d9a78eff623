// What the lines of a script say.
ghost use Rattle.std.specs.Prelude.{◌≡◌, true, false, [], is_some, None, MatchResult};
ghost use Rattle.std.specs.Option.{option_copied, unwrap_or};
ghost use Rattle.script.specs.declared.fault.Fault.TheVariants.{UnwantedArgument};
ghost use Rattle.script.specs.Cuts.{blank};
ghost use Rattle.script.specs.Words.{takes_argument};
ghost use Rattle.script.specs.Settings.{Wrong};
ghost use Rattle.script.specs.Order.{role};
ghost use Rattle.script.specs.Says.{Means, Says, Faulty};

use crate::cuts::cut;
use crate::escapes::unescape;
use crate::fault::Fault;
use crate::order::Role;
use crate::settings::{Layout, SinkChoice, Sizes, layout_of, level_of, sink_of, sizes_of};
use crate::words::Word;
use std::alloc::Global;
use xml::QuoteLevel;

/// A line, its argument with the escapes read.
#[derive(PartialEq, Eq, Debug, Drop)]
pub enum Line {
    /// an empty line or a comment
    Blank,
    New,
    Style(Layout),
    Memory(Sizes),
    Sink(SinkChoice),
    Level(QuoteLevel),
    Open(Vec<u8>),
    Field(Vec<u8>),
    Text(Vec<u8>),
    /// `none`, the missing value
    Nothing,
    Variant(Vec<u8>),
    Wrapped(Vec<u8>),
    Row,
    VariantRow(Vec<u8>),
    Record(Vec<u8>),
    VariantRecord(Vec<u8>),
    End,
    Finish,
    Abandon,
}

/// A line with its number, counted from 1.
#[derive(PartialEq, Eq, Debug, Drop)]
pub struct Numbered {
    pub number: usize,
    pub line: Line,
}

impl Line {
    /// What it does to the order of set-up words and calls.
    pub fn role(&self) -> Role
        ensures value { result ≡ role self.now }
    {
        match self {
            Line::New => Role::Starts,
            Line::Style(_) | Line::Memory(_) | Line::Sink(_) => Role::Sets,
            Line::Blank | Line::Level(_) => Role::Anywhere,
            _ => Role::Calls,
        }
    }
}

fn is_blank(line: &[u8]) -> bool
    ensures value { result ≡ blank line.now }
{
    matches!(line, [] | [b'#', ..])
}

// What a word says with its argument, which is empty for a word that takes none.
fn line_of(word: Word, argument: Vec<u8>) -> Result<Line, Fault>
    ensures cases { MatchResult result (λ l. Means l word argument.items) (λ e. Wrong word argument.items e) }
{
    Ok(match word {
        Word::New => Line::New,
        Word::Style => Line::Style(layout_of(&argument)?),
        Word::Memory => Line::Memory(sizes_of(&argument)?),
        Word::Sink => Line::Sink(sink_of(&argument)?),
        Word::Level => Line::Level(level_of(&argument)?),
        Word::Open => Line::Open(argument),
        Word::Field => Line::Field(argument),
        Word::Text => Line::Text(argument),
        Word::Nothing => Line::Nothing,
        Word::Variant => Line::Variant(argument),
        Word::Wrapped => Line::Wrapped(argument),
        Word::Row => Line::Row,
        Word::VariantRow => Line::VariantRow(argument),
        Word::Record => Line::Record(argument),
        Word::VariantRecord => Line::VariantRecord(argument),
        Word::End => Line::End,
        Word::Finish => Line::Finish,
        Word::Abandon => Line::Abandon,
    })
}

// The argument as it is written.
fn argument_text(word: Word, rest: Option<&[u8]>) -> Result<&[u8], Fault>
    ensures cases { MatchResult result (λ text. (text.now ≡ unwrap_or (option_copied rest.entry) []) × (takes_argument word ≡ false → option_copied rest.entry ≡ None)) (λ e. (e ≡ UnwantedArgument) × (takes_argument word ≡ false) × (is_some (option_copied rest.entry) ≡ true)) }
{
    match rest {
        None => Ok(b""),
        Some(text) if word.takes_argument() => Ok(text),
        Some(_) => Err(Fault::UnwantedArgument),
    }
}

/// What a line says; it is given without its line feed.
pub fn read_line(heap: Global, line: &[u8]) -> Result<Line, Fault>
    ensures cases { MatchResult result (λ l. Says l line.now) (λ e. Faulty e line.now) }
{
    if is_blank(line) {
        return Ok(Line::Blank);
    }
    let (text, rest) = cut(b' ', line);
    let word = Word::find(text).ok_or(Fault::UnknownWord)?;
    let written = argument_text(word, rest)?;
    let argument = unescape(heap, written)?;
    line_of(word, argument)
}
