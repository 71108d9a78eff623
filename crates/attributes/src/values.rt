// The attribute place: a value goes in at the end of the open tag, and its closing quote behind it.
ghost use Rattle.std.specs.Prelude.{◌≡◌, ℕ, ◌<◌, ◌≤◌};
ghost use Rattle.model.specs.declared.place.Place.TheVariants.{Attribute as AttributePlace};
ghost use Rattle.model.specs.Calls.{Rule, Value, call_value, val_none, val_row};
ghost use Rattle.engine.specs.Memory.{mem, Safe, top_frame};
ghost use Rattle.engine.specs.Lays.{IsString, Does};

use crate::tag::insert;
use engine::{Core, check_bytes};
use model::{Frame, Place};
use nests::take_frame;
use refusal::Refusal;
use xml::{EscapeRule, Unescaped, Use};

/// None at the attribute place: an empty value.
pub fn none_at_attribute(core: &mut Core<'_>) -> Result<(), Refusal>
    requires safe { Safe (mem core.old) }
    requires open { 0 < core.old.frames.used }
    requires tag { (top_frame (mem core.old)).tag ≤ core.old.stage.used }
    requires place { core.old.place ≡ AttributePlace }
    ensures does { (room : ℕ) → Does (call_value val_none) room result (mem core.old) (mem core.new) }
{
    let at = core.frames.used - 1;
    insert(core, at, b"\"", Place::Field)
}

/// A string at the attribute place: a text, or the name of a variant.
pub fn string_at_attribute<R: EscapeRule>(
    core: &mut Core<'_>,
    string: Unescaped<'_, R>,
) -> Result<(), Refusal>
    requires safe { Safe (mem core.old) }
    requires open { 0 < core.old.frames.used }
    requires tag { (top_frame (mem core.old)).tag ≤ core.old.stage.used }
    requires place { core.old.place ≡ AttributePlace }
    ensures does { (room : ℕ) (ρ : Rule) (c : Value) → ρ.chooses ≡ R.chooses string.entry.rule.now → IsString c ρ string.entry.value.now → Does (call_value c) room result (mem core.old) (mem core.new) }
{
    check_bytes(string.value)?;
    let at = core.frames.used - 1;
    let value = string.escaped(Use::Attribute);
    insert(core, at, &(value, *b"\""), Place::Field)
}

/// A row at the attribute place: a list, which is the attribute's value.
pub fn row_at_attribute(core: &mut Core<'_>) -> Result<(), Refusal>
    requires safe { Safe (mem core.old) }
    requires place { core.old.place ≡ AttributePlace }
    ensures does { (room : ℕ) → Does (call_value val_row) room result (mem core.old) (mem core.new) }
{
    take_frame(core, Frame::list(), Place::AttributeItem(false))
}
