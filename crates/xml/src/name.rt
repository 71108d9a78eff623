// Names of elements and attributes: production 5 of XML 1.0, Fifth Edition.
ghost use Rattle.std.specs.Prelude.{◌≡◌, ◌&&◌, true, Some, None, MatchResult, nat_lt};
ghost use Rattle.std.specs.Str.{chars, IsAscii};
ghost use Rattle.refusal.specs.Refusals.{number, offset};
ghost use Rattle.xml.specs.Names.{is_start, is_name_char, is_name, stray_from, name_fault, Name, FirstAtFault, Faults};

use refusal::Refusal;

/// A borrowed name. Its characters are a name, always: `try_from` alone makes one.
#[derive(Clone, Copy, PartialEq, Eq, Debug)]
pub struct XmlName<'n> {
    name: &'n str,
    ghost faultless: { name_fault name.now ≡ None },
}

fn is_name_start_char(c: char) -> bool
    ensures { result ≡ is_start c }
{
    matches!(
        c,
        ':' | 'A'..='Z'
            | '_'
            | 'a'..='z'
            | '\u{C0}'..='\u{D6}'
            | '\u{D8}'..='\u{F6}'
            | '\u{F8}'..='\u{2FF}'
            | '\u{370}'..='\u{37D}'
            | '\u{37F}'..='\u{1FFF}'
            | '\u{200C}'..='\u{200D}'
            | '\u{2070}'..='\u{218F}'
            | '\u{2C00}'..='\u{2FEF}'
            | '\u{3001}'..='\u{D7FF}'
            | '\u{F900}'..='\u{FDCF}'
            | '\u{FDF0}'..='\u{FFFD}'
            | '\u{10000}'..='\u{EFFFF}'
    )
}

fn is_name_char(c: char) -> bool
    ensures { result ≡ is_name_char c }
{
    is_name_start_char(c)
        || matches!(c, '-' | '.' | '0'..='9' | '\u{B7}' | '\u{300}'..='\u{36F}' | '\u{203F}'..='\u{2040}')
}

// The offset of the first character that stands in no name, if there is one.
// A loop that breaks with it: the name check is to walk a name by hand (docs/DECISIONS.md).
fn first_stray(name: &str) -> Option<usize>
    ensures { result ≡ stray_from (chars name.now) 0 }
{
    let mut stray = None;
    for (at, c) in name.char_indices() {
        if !is_name_char(c) {
            stray = Some(at);
            break;
        }
    }
    stray
}

// Whether a byte is an ASCII character that begins a name. One that is not may still belong to a character that does.
fn is_plain_start(byte: u8) -> bool
    ensures start { result ≡ true → (nat_lt byte 128 && is_start byte) ≡ true }
{
    byte.is_ascii_alphabetic() || matches!(byte, b'_' | b':')
}

// The same of a character that stands in a name.
fn is_plain(byte: u8) -> bool
    ensures inside { result ≡ true → (nat_lt byte 128 && is_name_char byte) ≡ true }
{
    // Letters first, as nearly all are.
    byte.is_ascii_alphabetic() || matches!(byte, b'0'..=b'9' | b'_' | b':' | b'-' | b'.')
}

// Whether these bytes are a name for sure, as nearly every name is: no character has to be decoded then.
fn is_plain_name(bytes: &[u8]) -> bool
    ensures plain { result ≡ true → (is_name bytes.now ≡ true) × IsAscii bytes.now }
{
    let [first, rest @ ..] = bytes else {
        return false;
    };
    // The first byte first: where it is at fault, nothing behind it is read.
    if !is_plain_start(*first) {
        return false;
    }
    for byte in rest {
        if !is_plain(*byte) {
            return false;
        }
    }
    true
}

// The offset of the first character at fault: a name also has to begin, and with a start character.
fn first_fault(name: &str) -> Option<usize>
    ensures value { result ≡ name_fault name.now }
    ensures faults { Faults result name.now }
{
    if is_plain_name(name.as_bytes()) {
        None
    } else if name.starts_with(is_name_start_char) {
        first_stray(name)
    } else {
        Some(0)
    }
}

/// The name that these characters are, or refusal 5 with the offset of the first character at fault: `XmlName::try_from` for code
/// over the library's trait.
impl<'n> TryFrom<&'n str> for XmlName<'n> {
    type Error = Refusal;

    ghost try_from_gives = { λ name r. MatchResult r (λ n. (n.name.now ≡ name.now) × Name name.now) (λ e. (number e ≡ 5) × (name_fault name.now ≡ Some (offset e)) × FirstAtFault name.now (offset e) × (Name name.now → ⊥)) };

    fn try_from(name: &'n str) -> Result<XmlName<'n>, Refusal> {
        XmlName::try_from(name)
    }
}

impl<'n> XmlName<'n> {
    /// The name that these characters are, or refusal 5 with the offset of the first character at fault.
    // Beside the trait's, since it also takes what is lent as a `&str`: a `&String`, or a `&&str`.
    pub fn try_from(name: &'n str) -> Result<XmlName<'n>, Refusal>
        ensures cases { MatchResult result (λ n. (n.name.now ≡ name.now) × Name name.now) (λ e. (number e ≡ 5) × (name_fault name.now ≡ Some (offset e)) × FirstAtFault name.now (offset e) × (Name name.now → ⊥)) }
    {
        match first_fault(name) {
            None => Ok(XmlName { name }),
            Some(at) => Err(Refusal::Name(at)),
        }
    }

    #[tactic(auto, using(crate::proofs::Naming::name_from_no_fault))]
    pub fn as_str(&self) -> &'n str
        ensures value { result.now ≡ self.now.name.now }
        ensures name { Name result.now }
    {
        self.name
    }
}
