// The items of a list that is an attribute's value, and its end: the record's frame stands just below the list's.
ghost use Rattle.std.specs.Prelude.{◌≡◌, ℕ, ◌-◌, ◌<◌, ◌≤◌, Bool};
ghost use Rattle.model.specs.declared.place.Place.TheVariants.{AttributeItem as AttributeItemPlace};
ghost use Rattle.model.specs.Calls.{Rule, Value, call_value, call_end};
ghost use Rattle.engine.specs.Memory.{mem, Safe, frame_at};
ghost use Rattle.engine.specs.Lays.{IsString, Does};

use crate::tag::insert;
use engine::{Core, check_bytes};
use model::Place;
use refusal::Refusal;
use rows::gap;
use xml::{EscapeRule, Unescaped, Use};

/// A string as an item of an attribute's list: a text, or the name of a variant. An empty one writes nothing.
pub fn string_at_attribute_item<R: EscapeRule>(
    core: &mut Core<'_>,
    written: bool,
    string: Unescaped<'_, R>,
) -> Result<(), Refusal>
    requires safe { Safe (mem core.old) }
    requires open { 1 < core.old.frames.used }
    requires tag { (frame_at (mem core.old) (core.old.frames.used - 2)).tag ≤ core.old.stage.used }
    requires place { core.old.place ≡ AttributeItemPlace written }
    ensures does { (room : ℕ) (ρ : Rule) (c : Value) → ρ.chooses ≡ R.chooses string.entry.rule.now → IsString c ρ string.entry.value.now → Does (call_value c) room result (mem core.old) (mem core.new) }
{
    check_bytes(string.value)?;
    if string.value.is_empty() {
        return Ok(());
    }
    let at = core.frames.used - 2;
    let item = string.escaped(Use::AttributeItem);
    insert(core, at, &(gap(written), item), Place::AttributeItem(true))
}

/// The end of an attribute's list: the closing quote completes the attribute, and the list's frame is free again.
pub fn end_attribute_list(core: &mut Core<'_>) -> Result<(), Refusal>
    requires safe { Safe (mem core.old) }
    requires open { 1 < core.old.frames.used }
    requires tag { (frame_at (mem core.old) (core.old.frames.used - 2)).tag ≤ core.old.stage.used }
    ensures does { (room : ℕ) (written : Bool) → core.old.place ≡ AttributeItemPlace written → Does call_end room result (mem core.old) (mem core.new) }
{
    let at = core.frames.used - 2;
    insert(core, at, b"\"", Place::Field)?;
    core.frames.used -= 1;
    Ok(())
}
