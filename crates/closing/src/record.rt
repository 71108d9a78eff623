// The end of a record: an empty tag, or `>` behind its start tag and an end tag behind its children.
ghost use Rattle.std.specs.Prelude.{◌≡◌, ℕ, ◌<◌, ◌≤◌, length};
ghost use Rattle.model.specs.declared.place.Place.TheVariants.{Field as FieldPlace};
ghost use Rattle.model.specs.Calls.{call_end};
ghost use Rattle.model.specs.Marks.{shut};
ghost use Rattle.memory.specs.Lending.{usable};
ghost use Rattle.engine.specs.Memory.{mem, Safe, top_frame};
ghost use Rattle.engine.specs.Lays.{Does};
ghost use Rattle.rows.specs.Pieces.{name_of};
ghost use Rattle.closing.specs.Ends.{Left, Ends, stage_shut, end_of};

use engine::{Core, put};
use model::Place;
use refusal::Refusal;
use rows::shut;
use style::WriteResult;

// Frees the record's frame: the root is complete, and any other record is an element in the one around it.
fn leave_record(core: &mut Core<'_>)
    requires open { 0 < core.old.frames.used }
    requires within { core.old.frames.used ≤ length (usable core.old.frames) }
    requires records { 0 < core.old.records }
    ensures left { Left (mem core.old) (mem core.new) }
{
    core.wordy = false;
    core.frames.used -= 1;
    if core.frames.used == 0 {
        core.names.used = 0;
        core.records = 0;
        core.place = Place::Complete;
    } else {
        core.records -= 1;
        core.settle(WriteResult::Element);
    }
}

// The end of a record without child bytes.
fn end_empty(core: &mut Core<'_>) -> Result<(), Refusal>
    requires safe { Safe (mem core.old) }
    requires open { 0 < core.old.frames.used }
    requires records { 0 < core.old.records }
    requires name { (top_frame (mem core.old)).from ≤ core.old.names.used }
    ensures ends { Ends result 0 (shut (mem core.old).form (name_of (mem core.old) (top_frame (mem core.old)).from)) (mem core.old).stage (mem core.old) (mem core.new) }
{
    let form = core.style.empty_elements();
    let from = core.top().from;
    let name = core.names.tail(from);
    put(&mut core.stage, &shut(form, name))?;
    leave_record(core);
    Ok(())
}

// The end of a record with child bytes.
fn end_full(core: &mut Core<'_>) -> Result<(), Refusal>
    requires safe { Safe (mem core.old) }
    requires open { 0 < core.old.frames.used }
    requires records { 0 < core.old.records }
    requires name { (top_frame (mem core.old)).from ≤ core.old.names.used }
    requires tag { (top_frame (mem core.old)).tag ≤ core.old.stage.used }
    ensures ends { Ends result 1 (end_of (mem core.old) (top_frame (mem core.old)).from) (stage_shut (top_frame (mem core.old)).tag (mem core.old)) (mem core.old) (mem core.new) }
{
    let top = core.top();
    let lead = core.lead(core.records - 1);
    let name = core.names.tail(top.from);
    let end_tag = (lead, (*b"/", (name, *b">")));
    if !core.stage.fits(&(*b">", end_tag)) {
        return Err(Refusal::Stage);
    }
    core.stage.insert(top.tag, b">");
    core.stage.append(&end_tag);
    leave_record(core);
    Ok(())
}

/// The end of the innermost record.
pub fn end_record(core: &mut Core<'_>) -> Result<(), Refusal>
    requires safe { Safe (mem core.old) }
    requires place { core.old.place ≡ FieldPlace }
    requires open { 0 < core.old.frames.used }
    requires records { 0 < core.old.records }
    requires name { (top_frame (mem core.old)).from ≤ core.old.names.used }
    ensures does { (room : ℕ) → Does call_end room result (mem core.old) (mem core.new) }
{
    if core.top().tag < core.stage.used {
        end_full(core)
    } else {
        end_empty(core)
    }
}
