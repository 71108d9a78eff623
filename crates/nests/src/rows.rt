// Rows and lists open: each takes a frame.
ghost use Rattle.std.specs.Prelude.{◌≡◌, ℕ, ◌<◌, Bool};
ghost use Rattle.model.specs.declared.place.Place.TheVariants.{Element as ElementPlace, Content as ContentPlace};
ghost use Rattle.model.specs.Calls.{call_value, val_row};
ghost use Rattle.engine.specs.Memory.{mem, Safe};
ghost use Rattle.engine.specs.Lays.{Does};
ghost use Rattle.nests.specs.Frames.{Pushes, TakesList};

use engine::Core;
use model::{Frame, Place};
use refusal::Refusal;

/// Takes a frame, if one is free.
pub fn take_frame(core: &mut Core<'_>, frame: Frame, place: Place) -> Result<(), Refusal>
    requires { Safe (mem core.old) }
    ensures pushes { Pushes result frame place (mem core.old) (mem core.new) }
{
    core.frame_free()?;
    core.push(frame);
    core.place = place;
    Ok(())
}

/// A row at an element place: each item becomes an element of the name there.
pub fn row_at_element(core: &mut Core<'_>, from: usize) -> Result<(), Refusal>
    requires safe { Safe (mem core.old) }
    requires open { 0 < core.old.frames.used }
    requires place { core.old.place ≡ ElementPlace from }
    ensures does { (room : ℕ) → Does (call_value val_row) room result (mem core.old) (mem core.new) }
{
    let frame = Frame::named_row(core.top().flag, core.names.used, from);
    take_frame(core, frame, Place::Element(from))
}

/// A row at a content place: its items stand among the children.
pub fn row_at_content(core: &mut Core<'_>) -> Result<(), Refusal>
    requires safe { Safe (mem core.old) }
    requires open { 0 < core.old.frames.used }
    ensures does { (room : ℕ) (texts : Bool) → core.old.place ≡ ContentPlace texts → Does (call_value val_row) room result (mem core.old) (mem core.new) }
{
    let frame = Frame::content_row(core.top().flag, core.names.used);
    let texts = !core.wordy;
    take_frame(core, frame, Place::Content(texts))
}

// Beside the list at the attribute place and that of a row of variants: each is a row of the places, and all share `take_frame`.
/// A row at the text place or at the simple place: a list, which is one text.
pub fn row_as_list(core: &mut Core<'_>) -> Result<(), Refusal>
    requires safe { Safe (mem core.old) }
    requires place { TakesList core.old.place }
    ensures does { (room : ℕ) → Does (call_value val_row) room result (mem core.old) (mem core.new) }
{
    take_frame(core, Frame::list(), Place::TextItem(false))
}
