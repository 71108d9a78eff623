// Escaping: the rule that says which bytes are replaced, its three levels, and the one text that replaces them.
ghost use Rattle.std.specs.Prelude.{◌≡◌, ℕ, ◌+◌, ◌-◌, ◌^◌, ◌<◌, ◌≤◌, min, Bool, true, length};
ghost use Rattle.xml.specs.declared.escape.Use.{Use};
ghost use Rattle.xml.specs.Escaping.{nine, asked, added, level_chooses, escaped};
ghost use Rattle.xml.specs.Back.{Writes, Escapes};
ghost use Rattle.xml.specs.Levels.{level_within, level_enough};

use crate::chosen::{Chosen, most};
use memory::Piece;
use refusal::Refusal;

/// What a string is written for.
#[derive(Clone, Copy, PartialEq, Eq, Debug)]
pub enum Use {
    /// A text between tags.
    Text,
    /// The value of an attribute.
    Attribute,
    /// One item of a list that is a text: white space separates items, so an item has none.
    TextItem,
    /// One item of a list that is the value of an attribute.
    AttributeItem,
}

/// Which bytes are replaced beyond those that every rule has to.
#[derive(Clone, Copy, PartialEq, Eq, Debug)]
pub enum QuoteLevel {
    /// Also `>`, `'` and `"`, wherever they stand.
    Full,
    /// Also `>`, wherever it stands.
    Partial,
    /// No more than has to be.
    Minimal,
}

/// An escaping rule: for each use, the set of bytes that are replaced.
pub trait EscapeRule {
    ghost chooses: { Self → Use → ℕ → Bool };

    fn replaces(&self, target: Use, byte: u8) -> bool
        ensures value { result ≡ chooses self.now target byte };

    // only the nine bytes that have a replacement
    ghost within: { (rule : Self) (u : Use) (b : ℕ) → chooses rule u b ≡ true → nine b ≡ true };

    // at least what keeps the value readable as it was
    ghost enough: { (rule : Self) (u : Use) (b : ℕ) → asked u b ≡ true → chooses rule u b ≡ true };
}

impl EscapeRule for QuoteLevel {
    ghost chooses = { level_chooses };

    ghost within = { level_within };

    ghost enough = { level_enough };

    fn replaces(&self, target: Use, byte: u8) -> bool {
        asked_for(target, byte) | added_by(*self, byte)
    }
}

// What every rule replaces.
fn asked_for(target: Use, byte: u8) -> bool
    ensures { result ≡ asked target byte }
{
    match target {
        Use::Text => matches!(byte, b'&' | b'<' | b'>' | b'\r'),
        Use::Attribute => matches!(byte, b'&' | b'<' | b'"' | b'\t' | b'\n' | b'\r'),
        Use::TextItem => matches!(byte, b'&' | b'<' | b'>' | b'\t' | b'\n' | b'\r' | b' '),
        Use::AttributeItem => matches!(byte, b'&' | b'<' | b'"' | b'\t' | b'\n' | b'\r' | b' '),
    }
}

// What a level replaces besides.
fn added_by(level: QuoteLevel, byte: u8) -> bool
    ensures { result ≡ added level byte }
{
    match level {
        QuoteLevel::Full => matches!(byte, b'>' | b'\'' | b'"'),
        QuoteLevel::Partial => byte == b'>',
        QuoteLevel::Minimal => false,
    }
}

/// A string, and the rule that it is escaped by wherever it is written. No `Debug`, since a rule need not have it.
#[derive_where(Clone, Copy)]
pub struct Unescaped<'a, R> {
    pub value: &'a [u8],
    pub rule: &'a R,
}

impl<'a, R> Unescaped<'a, R> {
    /// The same, written for a use.
    pub fn escaped(self, target: Use) -> Escaped<'a, R>
        ensures value { result.value.now ≡ self.entry.value.now }
        ensures rule { result.rule.now ≡ self.entry.rule.now }
        ensures target { result.target ≡ target }
    {
        Escaped {
            value: self.value,
            rule: self.rule,
            target,
        }
    }
}

/// A value as it is written for a use: each byte replaced that the rule chooses.
#[derive_where(Clone, Copy)]
pub struct Escaped<'a, R> {
    pub value: &'a [u8],
    pub rule: &'a R,
    pub target: Use,
}

impl<R: EscapeRule> Piece for Escaped<'_, R> {
    ghost bytes = { λ e. escaped (R.chooses e.rule.now e.target) e.value.now };

    fn size(&self) -> usize {
        escaped_len(self.value, self.rule, self.target)
    }

    fn bound(&self) -> usize {
        most(self.value)
    }

    #[inline(always)]
    fn lay(&self, out: &mut [u8], at: usize) -> usize {
        match escape_into(out, at, self.value, self.rule, self.target) {
            Ok(end) => end,
            // Whoever lays a piece has seen that it fits.
            Err(_) => unreachable!(),
        }
    }
}

// Value, rule and use come one by one in these two, as a caller names them; a piece that holds them is an `Escaped`.
/// How many bytes `escape_into` writes for a value; the largest `usize` where it would be more than that.
pub fn escaped_len<R: EscapeRule>(value: &[u8], rule: &R, target: Use) -> usize
    ensures value { result ≡ min (length (escaped (R.chooses rule.now target) value.now)) (2 ^ 64 - 1) }
{
    Chosen::by(rule, target).size_of(value)
}

/// Writes a value for a use into `out` from `at` on, each byte that the rule chooses replaced, and answers where it ends.
/// Where it would end past `out`, nothing is written, under refusal 8.
/// What stands there then is read back as the value: in a text, in an attribute or as one item of a list, as the use says.
// Inlined wherever a piece is laid, where it is known that the value fits.
#[inline(always)]
pub fn escape_into<R: EscapeRule>(
    out: &mut [u8],
    at: usize,
    value: &[u8],
    rule: &R,
    target: Use,
) -> Result<usize, Refusal>
    ensures escapes { Escapes target (R.chooses rule.now target) value.now at result out.old out.new }
{
    if out.len() < at {
        return Err(Refusal::Stage);
    }
    let room = out.len() - at;
    let chosen = Chosen::by(rule, target);
    // The value is measured only where its bound does not fit.
    if most(value) <= room || chosen.fits(value, room) {
        Ok(chosen.lay(value, out, at))
    } else {
        Err(Refusal::Stage)
    }
}
