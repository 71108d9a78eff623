// The step that each of these calls ends with.
ghost use Rattle.std.specs.Prelude.{◌<◌, ◌≤◌, length};
ghost use Rattle.memory.specs.Lending.{usable};
ghost use Rattle.engine.specs.Memory.{mem, frame_at};
ghost use Rattle.attributes.specs.Inserts.{Inserts};

use engine::Core;
use memory::Piece;
use model::Place;
use refusal::Refusal;

/// Puts a piece in at the end of the open tag of the record whose frame stands at `frame`; the next call goes to `next`.
pub(crate) fn insert<P: Piece>(
    core: &mut Core<'_>,
    frame: usize,
    piece: &P,
    next: Place,
) -> Result<(), Refusal>
    requires used { core.old.stage.used ≤ length (usable core.old.stage) }
    requires within { frame < length (usable core.old.frames) }
    requires tag { (frame_at (mem core.old) frame).tag ≤ core.old.stage.used }
    ensures inserts { Inserts result frame (P.bytes piece.now) next (mem core.old) (mem core.new) }
{
    core.put_in_tag(frame, piece)?;
    core.place = next;
    Ok(())
}
