// The ends of rows and of lists that are texts: the frame is free again, and the value is complete in what is open around it.
ghost use Rattle.std.specs.Prelude.{◌≡◌, ℕ, Some};
ghost use Rattle.model.specs.Calls.{call_end};
ghost use Rattle.engine.specs.Memory.{mem, Safe};
ghost use Rattle.engine.specs.Lays.{Does};
ghost use Rattle.nests.specs.Frames.{row_kind, Pops};

use engine::Core;
use model::{Frame, Kind};
use refusal::Refusal;

// Frees the top frame and answers it, if it is that of a row of this kind; an end there is out of order else.
fn pop_row(core: &mut Core<'_>, kind: Kind) -> Result<Frame, Refusal>
    requires { Safe (mem core.old) }
    ensures pops { Pops result kind (mem core.old) (mem core.new) }
{
    if core.frames.used < 2 {
        return Err(Refusal::Order);
    }
    let top = core.top();
    if top.kind != kind {
        return Err(Refusal::Order);
    }
    core.frames.used -= 1;
    Ok(top)
}

/// An end at the place of the next item of a row or list of this kind: it is that row's or list's, or out of order.
pub fn end_row(core: &mut Core<'_>, kind: Kind) -> Result<(), Refusal>
    requires safe { Safe (mem core.old) }
    requires place { row_kind core.old.place ≡ Some kind }
    ensures does { (room : ℕ) → Does call_end room result (mem core.old) (mem core.new) }
{
    let row = pop_row(core, kind)?;
    core.settle(row.last);
    Ok(())
}
