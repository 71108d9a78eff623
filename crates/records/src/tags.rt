// Records at a value place: a tag opens behind the children, and its record's fields come next.
ghost use Rattle.std.specs.Prelude.{◌≡◌, ℕ, ◌<◌, ◌≤◌, Bool};
ghost use Rattle.model.specs.declared.place.Place.TheVariants.{Element as ElementPlace, Content as ContentPlace};
ghost use Rattle.model.specs.Calls.{Value, call_value, val_record, val_variant_record};
ghost use Rattle.engine.specs.Memory.{mem, Safe};
ghost use Rattle.engine.specs.Lays.{Does};
ghost use Rattle.records.specs.Names.{RecordValue};

use engine::{Core, check_bytes, is_text_name, put};
use refusal::Refusal;

// Beside `Core::open_record`: here the name stands on the name stack already.
/// A record at an element place: its tag has the name there.
pub fn record_at_element(core: &mut Core<'_>, from: usize, name: &[u8]) -> Result<(), Refusal>
    requires safe { Safe (mem core.old) }
    requires open { 0 < core.old.frames.used }
    requires name { from ≤ core.old.names.used }
    requires place { core.old.place ≡ ElementPlace from }
    ensures does { (room : ℕ) → Does (call_value (val_record name.now)) room result (mem core.old) (mem core.new) }
{
    check_bytes(name)?;
    core.frame_free()?;
    let lead = core.lead(core.records);
    let tag_name = core.names.tail(from);
    put(&mut core.stage, &(lead, tag_name))?;
    core.begin_record(from);
    Ok(())
}

// A record whose tag has this name, at a content place.
fn enter(core: &mut Core<'_>, name: &str) -> Result<(), Refusal>
    requires safe { Safe (mem core.old) }
    requires open { 0 < core.old.frames.used }
    ensures does { (room : ℕ) (texts : Bool) (c : Value) → core.old.place ≡ ContentPlace texts → RecordValue c name.now → Does (call_value c) room result (mem core.old) (mem core.new) }
{
    let lead = core.lead(core.records);
    core.open_record(lead, name)
}

/// A record at a content place: its tag has the record's own name.
pub fn record_at_content(core: &mut Core<'_>, name: &[u8]) -> Result<(), Refusal>
    requires safe { Safe (mem core.old) }
    requires open { 0 < core.old.frames.used }
    ensures does { (room : ℕ) (texts : Bool) → core.old.place ≡ ContentPlace texts → Does (call_value (val_record name.now)) room result (mem core.old) (mem core.new) }
{
    let name = check_bytes(name)?;
    enter(core, name)
}

// Beside `record_at_content`: the name for text is refused here, by another number than that of a name's fault.
/// A variant that is a record, at a content place: its tag has the variant's name, which is not the one for text.
pub fn variant_record_at_content(core: &mut Core<'_>, name: &[u8]) -> Result<(), Refusal>
    requires safe { Safe (mem core.old) }
    requires open { 0 < core.old.frames.used }
    ensures does { (room : ℕ) (texts : Bool) → core.old.place ≡ ContentPlace texts → Does (call_value (val_variant_record name.now)) room result (mem core.old) (mem core.new) }
{
    let text = check_bytes(name)?;
    if is_text_name(name) {
        return Err(Refusal::Shape);
    }
    enter(core, text)
}
