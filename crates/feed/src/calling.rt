// All calls of a writer, as the steps of a run.
ghost use Rattle.std.specs.Prelude.{IfOk};
ghost use Rattle.xml.specs.Escaping.{level_chooses};
ghost use Rattle.writer.specs.Spelled.{CallsAre};
ghost use Rattle.writer.specs.Replayed.{calls_of};
ghost use Rattle.feed.specs.Making.{calls_made, CallsOnly, OneCallEach};

use crate::call_line::CallLine;
use std::alloc::{AllocError, Global};
use writer::Step;
use xml::QuoteLevel;

/// The calls that lines make, one for each, still to be made.
pub fn steps_of(heap: Global, lines: &[CallLine]) -> Result<Vec<Step<'_, QuoteLevel>>, AllocError>
    ensures made { IfOk result (λ steps. CallsAre level_chooses (calls_of steps.items) (calls_made lines.now)) }
{
    // A loop: as a `collect` it was tried, and the proof did not close.
    let mut steps = Vec::with_capacity(heap, lines.len())?;
    for line in lines {
        steps.push(Step::new(line.call()))?;
    }
    Ok(steps)
}

/// A line makes a call exactly where it is one, and each line of a writer makes one, in the order of the lines.
// No code in it, since a contract is what names a theorem.
pub fn law_one_call_each()
    ensures only { CallsOnly }
    ensures each { OneCallEach }
{}
