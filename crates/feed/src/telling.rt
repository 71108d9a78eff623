// The lines that tell what became of calls and sinks.
ghost use Rattle.std.specs.Prelude.{◌≡◌, Some, IfOk, string_bytes};
ghost use Rattle.feed.specs.Telling.{traced, counted, told, bytes_told};

use refusal::Refusal;
use std::alloc::{AllocError, Global};
use std::fmt;
use writer::Answer;

/// An answer in a trace, as in `accepted` or `refused 5 12`.
#[derive(Clone, Copy, PartialEq, Eq, Debug)]
pub struct Traced(pub Answer);

impl fmt::Display for Traced {
    ghost output = { λ t. Some (traced t.0) };

    fn fmt<W: fmt::Write>(&self, f: &mut fmt::Formatter<W>) -> fmt::Result {
        match self.0 {
            Ok(()) => f.write_str("accepted"),
            Err(refusal) => {
                let number = refusal.number();
                let offset = refusal.offset();
                write!(f, "refused {number} {offset}")
            }
        }
    }
}

/// What a sink answers, in a trace: as in `sink 14 65522`.
#[derive(Clone, Copy, PartialEq, Eq, Debug)]
pub struct Counted {
    pub held: usize,
    pub room: usize,
}

impl fmt::Display for Counted {
    ghost output = { λ c. Some (counted c.held c.room) };

    fn fmt<W: fmt::Write>(&self, f: &mut fmt::Formatter<W>) -> fmt::Result {
        write!(f, "sink {} {}", self.held, self.room)
    }
}

/// A refusal and the line of the call, as in `line 7: refusal 5 Name at 12`.
#[derive(Clone, Copy, PartialEq, Eq, Debug)]
pub struct Told {
    pub line: usize,
    pub refusal: Refusal,
}

impl fmt::Display for Told {
    ghost output = { λ t. Some (told t.line t.refusal) };

    fn fmt<W: fmt::Write>(&self, f: &mut fmt::Formatter<W>) -> fmt::Result {
        write!(f, "line {}: {}", self.line, self.refusal)
    }
}

/// What a sink holds, in a trace: as in `bytes 3c612f3e`.
pub fn bytes_line(heap: Global, held: &[u8]) -> Result<String, AllocError>
    ensures value { IfOk result (λ line. string_bytes line ≡ bytes_told held.now) }
{
    let digits = hex::encode(heap, held)?;
    format!(in heap; "bytes {digits}")
}
