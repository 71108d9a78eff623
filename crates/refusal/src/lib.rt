// The refusals: the one error type of every call, with the number, the offset and the word of each.
#![tactic(auto)]

ghost use Rattle.std.specs.Prelude.{◌≡◌, Some};
ghost use Rattle.refusal.specs.Refusals.{number, offset, word, shows, ToldApart};

use std::fmt;

/// Why a call was refused. The order is that of the table: where several grounds hold, the first decides.
#[derive(Clone, Copy, PartialEq, Eq, Debug)]
pub enum Refusal {
    /// The call is not allowed at this place.
    Order,
    /// The bytes given are not well-formed UTF-8; holds the length of their longest beginning of whole characters.
    Bytes(usize),
    /// The place does not take this kind of value.
    Shape,
    /// Text comes to a content place that allows none.
    RunOn,
    /// What is to name a tag or an attribute is no name; holds the offset of the first character at fault.
    Name(usize),
    /// The name stack has fewer free bytes than the name.
    Stack,
    /// Every frame is open, and the call takes one.
    Depth,
    /// The stage has fewer free bytes than the call adds.
    Stage,
    /// The sink's room is less than the record's length.
    Sink,
    /// The indent byte is neither tab nor space, or the indent size is too large.
    Style,
}

impl Refusal {
    /// The number in the table, from 1 on.
    // A match, since a variant that holds an offset has no discriminant to cast.
    pub fn number(&self) -> u8
        ensures value { result ≡ number self.now }
        ensures apart { ToldApart }
    {
        match self {
            Refusal::Order => 1,
            Refusal::Bytes(_) => 2,
            Refusal::Shape => 3,
            Refusal::RunOn => 4,
            Refusal::Name(_) => 5,
            Refusal::Stack => 6,
            Refusal::Depth => 7,
            Refusal::Stage => 8,
            Refusal::Sink => 9,
            Refusal::Style => 10,
        }
    }

    /// Where in the bytes given the fault lies, and 0 where the ground is not in the bytes.
    // A number and no Option, since it is printed always.
    pub fn offset(&self) -> usize
        ensures value { result ≡ offset self.now }
    {
        match self {
            Refusal::Bytes(whole) => *whole,
            Refusal::Name(at) => *at,
            _ => 0,
        }
    }

    /// The table's word for it.
    // Spelt out, since a derived `Debug` would say `RunOn` and put the offset beside the name.
    pub fn word(&self) -> &'static str
        ensures value { result.now ≡ word self.now }
    {
        match self {
            Refusal::Order => "Order",
            Refusal::Bytes(_) => "Bytes",
            Refusal::Shape => "Shape",
            Refusal::RunOn => "Run-on",
            Refusal::Name(_) => "Name",
            Refusal::Stack => "Stack",
            Refusal::Depth => "Depth",
            Refusal::Stage => "Stage",
            Refusal::Sink => "Sink",
            Refusal::Style => "Style",
        }
    }
}

/// As in `refusal 5 Name at 12`.
impl fmt::Display for Refusal {
    ghost output = { λ e. Some (shows e) };

    fn fmt<W: fmt::Write>(&self, f: &mut fmt::Formatter<W>) -> fmt::Result {
        let number = self.number();
        let word = self.word();
        let offset = self.offset();
        write!(f, "refusal {number} {word} at {offset}")
    }
}

#[cfg(test)]
mod tests;
