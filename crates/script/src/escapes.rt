// Escapes in arguments: `\n`, `\r`, `\t`, `\\` and `\xHH`.
ghost use Rattle.std.specs.Prelude.{◌≡◌, ◌⊎◌, Some, None, MatchResult};
ghost use Rattle.script.specs.Escapes.{hex_digit, escape_step, unescaped, Sound, LeadsSoundly};
ghost use Rattle.script.specs.Pieces.{ReadByPieces, AnyBytes};
ghost use Rattle.script.specs.declared.fault.Fault.TheVariants.{BadEscape, Memory};

use crate::fault::Fault;
use std::alloc::Global;

// Where a reader of an argument stands.
#[derive(Clone, Copy, PartialEq, Eq, Debug)]
pub enum Place {
    Outside,
    /// behind a backslash
    Slash,
    /// behind `\x`
    Digits,
    /// behind `\x` and a digit of this value
    Digit(u8),
}

// What one more byte gives.
#[derive(Clone, Copy, PartialEq, Eq, Debug)]
pub enum Step {
    /// a byte of the argument
    Byte(u8),
    /// a place within an escape
    On(Place),
}

fn hex_digit(c: u8) -> Option<u8>
    ensures value { result ≡ hex_digit c }
{
    char::from(c).to_digit(16).map(|digit| digit as u8)
}

// The step that a byte makes, unless no escape goes on like this.
fn next_step(place: Place, c: u8) -> Option<Step>
    requires { Sound place }
    ensures value { result ≡ escape_step place c }
    ensures sound { LeadsSoundly result }
{
    Some(match (place, c) {
        (Place::Outside, b'\\') => Step::On(Place::Slash),
        (Place::Outside, _) => Step::Byte(c),
        (Place::Slash, b'n') => Step::Byte(b'\n'),
        (Place::Slash, b'r') => Step::Byte(b'\r'),
        (Place::Slash, b't') => Step::Byte(b'\t'),
        (Place::Slash, b'\\') => Step::Byte(b'\\'),
        (Place::Slash, b'x') => Step::On(Place::Digits),
        (Place::Slash, _) => return None,
        (Place::Digits, _) => Step::On(Place::Digit(hex_digit(c)?)),
        (Place::Digit(high), _) => Step::Byte(high * 16 + hex_digit(c)?),
    })
}

/// The bytes that an argument stands for.
pub fn unescape(heap: Global, text: &[u8]) -> Result<Vec<u8>, Fault>
    ensures cases { MatchResult result (λ v. unescaped text.now ≡ Some v.items) (λ e. (e ≡ Memory) ⊎ ((e ≡ BadEscape) × (unescaped text.now ≡ None))) }
{
    let mut bytes = Vec::new(heap);
    let mut place = Place::Outside;
    for c in text {
        match next_step(place, *c).ok_or(Fault::BadEscape)? {
            Step::Byte(byte) => {
                bytes.push(byte)?;
                place = Place::Outside;
            }
            Step::On(next) => place = next,
        }
    }
    match place {
        Place::Outside => Ok(bytes),
        _ => Err(Fault::BadEscape),
    }
}

/// An argument is read as its pieces say, and one that does not fall into pieces is not read.
// No code in the two, since a contract is what names a theorem.
pub fn law_read_by_pieces()
    ensures law { ReadByPieces }
{}

/// Any bytes at all can be written as an argument, within one line.
pub fn law_any_bytes()
    ensures law { AnyBytes }
{}
