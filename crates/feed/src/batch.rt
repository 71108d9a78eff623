// What a script says of one writer.
ghost use Rattle.std.specs.Prelude.{◌≡◌, ◌↔◌, true, false, OnOk, OnErr, IfOk};
ghost use Rattle.script.specs.declared.line.Line.TheVariants.{Blank};
ghost use Rattle.script.specs.Order.{role};
ghost use Rattle.script.specs.declared.order.Role.TheVariants.{Calls};
ghost use Rattle.feed.specs.Batches.{says_something, Begins, AddsCall, Sets, Stays, Goes};
ghost use Rattle.feed.specs.Sections.{IsBatchOf, InOneWay, CallsInOrder, at_start, Extends};

use crate::call_line::CallLine;
use crate::setup::Setup;
use script::{Line, Numbered, Role};
use std::alloc::{AllocError, Global};
use std::mem;

/// The settings of one writer, and its calls with their lines.
#[derive(PartialEq, Eq, Debug, Drop)]
pub struct Batch {
    pub setup: Setup,
    pub calls: Vec<CallLine>,
    /// Whether a trace tells of the writer: of the one at the start only where anything was said of it.
    pub reported: bool,
}

// Whether a line says anything.
fn says_something(line: &Line) -> bool
    ensures value { result ≡ says_something line.now }
    ensures blank { (result ≡ false) ↔ (line.now ≡ Blank) }
{
    !matches!(line, Line::Blank)
}

impl Batch {
    // The batch of a writer that begins at this line.
    fn beginning(heap: Global, line: usize, reported: bool) -> Batch
        ensures begins { Begins result line reported }
    {
        Batch {
            setup: Setup::new(line),
            calls: Vec::new(heap),
            reported,
        }
    }

    /// The batch of the writer that is there at the start.
    pub fn at_start(heap: Global) -> Batch
        ensures begins { Begins result 1 false }
        ensures section { IsBatchOf at_start result }
    {
        Batch::beginning(heap, 1, false)
    }

    // Takes a line that makes a call.
    fn add_call(&mut self, numbered: Numbered) -> Result<(), AllocError>
        requires calls { role numbered.line ≡ Calls }
        ensures ok { OnOk result (AddsCall self.old numbered.number numbered.line self.new) }
        ensures err { OnErr result (Stays self.old self.new) }
    {
        self.calls.push(CallLine {
            number: numbered.number,
            line: numbered.line,
            level: self.setup.level,
        })?;
        self.reported = true;
        Ok(())
    }

    // Takes a line that makes none.
    fn set(&mut self, numbered: &Numbered)
        ensures sets { Sets self.old numbered.now.number numbered.now.line self.new }
    {
        self.setup = self.setup.after(numbered);
        self.reported |= says_something(&numbered.line);
    }

    /// Takes a line. Where it is `new`, the batch of the writer before it is handed out, and this is the new writer's.
    /// Only a call can want memory, and is not taken then.
    pub fn take(&mut self, heap: Global, numbered: Numbered) -> Result<Option<Batch>, AllocError>
        ensures goes { IfOk result (λ done. Goes done self.old numbered.number numbered.line self.new) }
        ensures section { IfOk result (λ done. Extends done self.old numbered self.new) }
        ensures err { OnErr result (Stays self.old self.new) }
        ensures calls { OnErr result (role numbered.line ≡ Calls) }
    {
        match numbered.line.role() {
            Role::Starts => {
                let next = Batch::beginning(heap, numbered.number, true);
                Ok(Some(mem::replace(self, next)))
            }
            Role::Calls => {
                self.add_call(numbered)?;
                Ok(None)
            }
            Role::Sets | Role::Anywhere => {
                self.set(&numbered);
                Ok(None)
            }
        }
    }
}

/// The lines of a script fall into the sections of its writers in one way. The calls of a writer stand in the order of their
/// lines, each with the rule that holds there, and no other line adds one.
// No code in it, since a contract is what names a theorem.
pub fn law_sections()
    ensures one_way { InOneWay }
    ensures calls { CallsInOrder }
{}
