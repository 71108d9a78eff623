// The element place: the value becomes an element of the name on top of the name stack.
ghost use Rattle.std.specs.Prelude.{◌≡◌, ℕ, ◌<◌, ◌≤◌};
ghost use Rattle.model.specs.declared.place.Place.TheVariants.{Element as ElementPlace};
ghost use Rattle.model.specs.Calls.{Rule, call_value, val_text, val_none, val_variant};
ghost use Rattle.engine.specs.Memory.{mem, Safe};
ghost use Rattle.engine.specs.Lays.{Does};

use crate::elements::{write_empty, write_text};
use engine::{Core, check_bytes, is_text_name};
use refusal::Refusal;
use xml::{EscapeRule, Unescaped};

/// None at the element place.
pub fn none_at_element(core: &mut Core<'_>, from: usize) -> Result<(), Refusal>
    requires safe { Safe (mem core.old) }
    requires open { 0 < core.old.frames.used }
    requires name { from ≤ core.old.names.used }
    requires place { core.old.place ≡ ElementPlace from }
    ensures does { (room : ℕ) → Does (call_value val_none) room result (mem core.old) (mem core.new) }
{
    write_empty(core, from)
}

/// A text at the element place.
// Inlined into the match on place and value, where a string and its rule need not be put together in memory.
#[inline(always)]
pub fn text_at_element<R: EscapeRule>(
    core: &mut Core<'_>,
    from: usize,
    text: Unescaped<'_, R>,
) -> Result<(), Refusal>
    requires safe { Safe (mem core.old) }
    requires open { 0 < core.old.frames.used }
    requires name { from ≤ core.old.names.used }
    requires place { core.old.place ≡ ElementPlace from }
    ensures does { (room : ℕ) (ρ : Rule) → ρ.chooses ≡ R.chooses text.entry.rule.now → Does (call_value (val_text ρ text.entry.value.now)) room result (mem core.old) (mem core.new) }
{
    check_bytes(text.value)?;
    if text.value.is_empty() {
        write_empty(core, from)
    } else {
        write_text(core, from, text)
    }
}

/// A variant at the element place. Beside the text: there the empty string is an empty tag, and here `$text`.
// Inlined into the match on place and value, where a string and its rule need not be put together in memory.
#[inline(always)]
pub fn variant_at_element<R: EscapeRule>(
    core: &mut Core<'_>,
    from: usize,
    name: Unescaped<'_, R>,
) -> Result<(), Refusal>
    requires safe { Safe (mem core.old) }
    requires open { 0 < core.old.frames.used }
    requires name { from ≤ core.old.names.used }
    requires place { core.old.place ≡ ElementPlace from }
    ensures does { (room : ℕ) (ρ : Rule) → ρ.chooses ≡ R.chooses name.entry.rule.now → Does (call_value (val_variant ρ name.entry.value.now)) room result (mem core.old) (mem core.new) }
{
    check_bytes(name.value)?;
    if is_text_name(name.value) {
        write_empty(core, from)
    } else {
        write_text(core, from, name)
    }
}
