// Errors of a script: what is wrong, and in which line.
ghost use Rattle.std.specs.Prelude.{◌≡◌, Some};
ghost use Rattle.script.specs.declared.fault.Fault.TheVariants.{Memory};
ghost use Rattle.script.specs.Faults.{message, told};

use std::alloc::{AllocError, AllocFailed};
use std::fmt;

/// What is wrong with a line.
#[derive(Clone, Copy, PartialEq, Eq, Debug)]
pub enum Fault {
    /// The line begins with no word of a script.
    UnknownWord,
    /// Something stands after a word that takes no argument, be it one space.
    UnwantedArgument,
    /// A backslash begins none of the escapes.
    BadEscape,
    /// A number is missing, or is none, or is past its limit.
    BadNumber,
    /// No such form, sink or level.
    BadSetting,
    /// `style`, `memory` or `sink` after a call.
    TooLate,
    /// There is no memory left for the argument.
    Memory,
}

impl Fault {
    /// What is wrong, in words.
    pub fn message(&self) -> &'static str
        ensures value { result.now ≡ message self.now }
    {
        match *self {
            Fault::UnknownWord => "unknown word",
            Fault::UnwantedArgument => "this word takes no argument, not even a space",
            Fault::BadEscape => "a backslash begins no escape",
            Fault::BadNumber => "a number is missing, too large or no number",
            Fault::BadSetting => "no such form, sink or level",
            Fault::TooLate => "style, memory and sink stand before the first call",
            Fault::Memory => "not enough memory",
        }
    }

    /// The same in a line of a script.
    pub fn at_line(self, line: usize) -> ScriptError
        ensures line { result.line ≡ line }
        ensures fault { result.fault ≡ self }
    {
        ScriptError { line, fault: self }
    }
}

impl From<AllocError> for Fault {
    ghost from_gives = { λ _ r. r ≡ Memory };

    fn from(_e: AllocError) -> Fault {
        Fault::Memory
    }
}

impl<T: Drop> From<AllocFailed<T>> for Fault {
    ghost from_gives = { λ _ r. r ≡ Memory };

    fn from(_e: AllocFailed<T>) -> Fault {
        Fault::Memory
    }
}

impl fmt::Display for Fault {
    ghost output = { λ e. Some (message e) };

    fn fmt<W: fmt::Write>(&self, f: &mut fmt::Formatter<W>) -> fmt::Result {
        f.write_str(self.message())
    }
}

/// A fault with the number of its line, counted from 1.
#[derive(Clone, Copy, PartialEq, Eq, Debug)]
pub struct ScriptError {
    pub line: usize,
    pub fault: Fault,
}

/// As in `line 3: unknown word`.
impl fmt::Display for ScriptError {
    ghost output = { λ e. Some (told e.line e.fault) };

    fn fmt<W: fmt::Write>(&self, f: &mut fmt::Formatter<W>) -> fmt::Result {
        write!(f, "line {}: {}", self.line, self.fault)
    }
}
