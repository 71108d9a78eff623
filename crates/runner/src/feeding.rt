// Takes a script line by line, runs each writer where the next begins or the script ends, and prints what became of it.
ghost use Rattle.std.specs.Prelude.{◌≡◌, OnOk, IfErr};
ghost use Rattle.runner.specs.Feeding.{holds, Gains, written_of, Ends, BreaksOff, Takes, Feeds, Fails, HasGround};

use crate::outlet::Outlet;
use crate::printing::{print_refusals, print_trace, print_xml};
use crate::running::{Outcome, run};
use crate::stop::Stop;
use feed::Batch;
use script::{Fault, Numbered, Script, ScriptError};
use std::alloc::Global;
use std::io;

/// What is written of each writer.
#[derive(Clone, Copy, PartialEq, Eq, Debug)]
pub enum Output {
    /// the XML that its sink holds
    Plain,
    /// its answers, and what its sink holds
    Trace,
}

/// Where the output goes, and which it is.
#[derive(Drop)]
pub struct Feeding<O, E> {
    heap: Global,
    output: Output,
    out: O,
    err: E,
}

impl<O: Outlet + Drop, E: Outlet + Drop> Feeding<O, E> {
    pub fn new(heap: Global, output: Output, out: O, err: E) -> Feeding<O, E>
        ensures output { result.output ≡ output }
        ensures out { result.out ≡ out }
        ensures err { result.err ≡ err }
    {
        Feeding {
            heap,
            output,
            out,
            err,
        }
    }

    /// Gives the two outputs back.
    pub fn into_outputs(self) -> (O, E)
        ensures out { result.0 ≡ self.out }
        ensures err { result.1 ≡ self.err }
    {
        (self.out, self.err)
    }

    // What became of a writer.
    fn print(&mut self, batch: &Batch, outcome: &Outcome) -> io::Result<()>
        ensures output { self.new.output ≡ self.old.output }
        ensures gains { OnOk result (Gains (holds O.contents E.contents self.old) (holds O.contents E.contents self.new) (written_of self.old.output batch.now outcome.now)) }
        ensures io { IfErr result (Fails self.old.output O.gives E.gives) }
    {
        match self.output {
            Output::Plain => {
                print_refusals(&mut self.err, batch, outcome)?;
                print_xml(&mut self.out, outcome)
            }
            Output::Trace => print_trace(self.heap, &mut self.out, outcome),
        }
    }

    // A writer is done.
    fn end(&mut self, batch: &Batch) -> Result<(), Stop>
        ensures output { self.new.output ≡ self.old.output }
        ensures ends { Ends self.old.output batch.now result (holds O.contents E.contents self.old) (holds O.contents E.contents self.new) }
        ensures io { HasGround self.old.output O.gives E.gives result }
    {
        if batch.reported {
            let outcome = run(self.heap, batch)?;
            self.print(batch, &outcome)?;
        }
        Ok(())
    }

    // An error of the script stops a writer, and is the answer: nothing of the writer goes to the output, but its calls so
    // far are made, and those refused are told.
    fn break_off(&mut self, batch: &Batch, error: ScriptError) -> Result<(), Stop>
        ensures output { self.new.output ≡ self.old.output }
        ensures breaks { BreaksOff self.old.output batch.now error result (holds O.contents E.contents self.old) (holds O.contents E.contents self.new) }
        ensures io { HasGround self.old.output O.gives E.gives result }
    {
        match self.output {
            Output::Plain => {
                let outcome = run(self.heap, batch)?;
                print_refusals(&mut self.err, batch, &outcome)?;
            }
            Output::Trace => {}
        }
        Err(Stop::Script(error))
    }

    // One line. A call that there is no memory for is an error of the script.
    fn take(&mut self, batch: &mut Batch, numbered: Numbered) -> Result<(), Stop>
        ensures output { self.new.output ≡ self.old.output }
        ensures takes { Takes self.old.output batch.old numbered batch.new result (holds O.contents E.contents self.old) (holds O.contents E.contents self.new) }
        ensures io { HasGround self.old.output O.gives E.gives result }
    {
        let line = numbered.number;
        match batch.take(self.heap, numbered) {
            Ok(Some(done)) => self.end(&done),
            Ok(None) => Ok(()),
            Err(_) => self.break_off(batch, Fault::Memory.at_line(line)),
        }
    }

    /// Runs a script: what its writers give is written, one after another, up to its end or to the error that it stops at.
    /// Where something cannot be written, the error is that of an output, or want of memory for a line of a trace.
    pub fn feed(&mut self, text: &[u8]) -> Result<(), Stop>
        ensures output { self.new.output ≡ self.old.output }
        ensures feeds { Feeds self.old.output text.now result (holds O.contents E.contents self.old) (holds O.contents E.contents self.new) }
        ensures io { HasGround self.old.output O.gives E.gives result }
    {
        let mut script = Script::new(text);
        let mut batch = Batch::at_start(self.heap);
        loop {
            match script.next_line(self.heap) {
                Ok(Some(numbered)) => self.take(&mut batch, numbered)?,
                Ok(None) => return self.end(&batch),
                Err(error) => return self.break_off(&batch, error),
            }
        }
    }
}

#[cfg(test)]
mod tests;
