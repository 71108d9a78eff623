// What a run wants memory for, and the line at which a want of it is told.
ghost use Rattle.runner.specs.Running.{IsTold};

use feed::Setup;
use script::{Fault, ScriptError};

/// What there is no memory for.
#[derive(Clone, Copy, PartialEq, Eq, Debug)]
pub enum Want {
    /// the memories of the writer, its calls or their answers
    Writer,
    /// the buffer of the sink, or a copy of the bytes that it holds
    Sink,
}

impl Want {
    /// It is told at the line that sets what is wanted.
    pub fn told(self, setup: &Setup) -> ScriptError
        ensures told { IsTold self setup.now result }
    {
        match self {
            Want::Writer => Fault::Memory.at_line(setup.memory.line),
            Want::Sink => Fault::Memory.at_line(setup.sink.line),
        }
    }
}
