// Texts among the children: at the content place, at the text place of a text field, and in place of a wrapped value.
ghost use Rattle.std.specs.Prelude.{◌≡◌, ℕ, ◌<◌, ◌⊎◌, Bool, not, ◌||◌};
ghost use Rattle.style.specs.declared.result.WriteResult.TheVariants.{SensitiveText as SensitiveTextResult};
ghost use Rattle.xml.specs.Escaping.{escaped};
ghost use Rattle.xml.specs.declared.escape.Use.TheVariants.{Text as TextUse};
ghost use Rattle.model.specs.declared.place.Place.TheVariants.{Content as ContentPlace, Text as TextPlace, Simple as SimplePlace};
ghost use Rattle.model.specs.Strings.{null};
ghost use Rattle.model.specs.Calls.{Rule, call_value, val_text, val_none, val_variant};
ghost use Rattle.engine.specs.Memory.{mem, Safe};
ghost use Rattle.engine.specs.Lays.{Does};
ghost use Rattle.rows.specs.Pieces.{Writes};

use engine::{Core, check_bytes, is_text_name, put};
use refusal::Refusal;
use style::WriteResult;
use xml::{EscapeRule, Unescaped, Use};

/// A text behind the children; the value is complete then.
pub fn write_words<R: EscapeRule>(
    core: &mut Core<'_>,
    text: Unescaped<'_, R>,
) -> Result<(), Refusal>
    requires safe { Safe (mem core.old) }
    requires open { 0 < core.old.frames.used }
    ensures writes { Writes result (escaped (R.chooses text.entry.rule.now TextUse) text.entry.value.now) SensitiveTextResult (not (null (escaped (R.chooses text.entry.rule.now TextUse) text.entry.value.now)) || core.old.wordy) (mem core.old) (mem core.new) }
{
    let before = core.stage.used;
    put(&mut core.stage, &text.escaped(Use::Text))?;
    core.wordy |= before < core.stage.used;
    core.settle(WriteResult::SensitiveText);
    Ok(())
}

// Beside `none_as_words`: two rows of the places, which share no more than that a value is complete.
/// None at the content place.
pub fn none_at_content(core: &mut Core<'_>) -> Result<(), Refusal>
    requires safe { Safe (mem core.old) }
    requires open { 0 < core.old.frames.used }
    ensures does { (room : ℕ) (texts : Bool) → core.old.place ≡ ContentPlace texts → Does (call_value val_none) room result (mem core.old) (mem core.new) }
{
    core.settle(WriteResult::SensitiveNothing);
    Ok(())
}

/// A text at the content place, which has to allow it.
// Inlined into the match on place and value, where a string and its rule need not be put together in memory.
#[inline(always)]
pub fn text_at_content<R: EscapeRule>(
    core: &mut Core<'_>,
    allowed: bool,
    text: Unescaped<'_, R>,
) -> Result<(), Refusal>
    requires safe { Safe (mem core.old) }
    requires open { 0 < core.old.frames.used }
    requires place { core.old.place ≡ ContentPlace allowed }
    ensures does { (room : ℕ) (ρ : Rule) → ρ.chooses ≡ R.chooses text.entry.rule.now → Does (call_value (val_text ρ text.entry.value.now)) room result (mem core.old) (mem core.new) }
{
    check_bytes(text.value)?;
    if allowed || text.value.is_empty() {
        write_words(core, text)
    } else {
        Err(Refusal::RunOn)
    }
}

/// None where only text may stand: at the text place, or in place of a wrapped value.
pub fn none_as_words(core: &mut Core<'_>) -> Result<(), Refusal>
    requires safe { Safe (mem core.old) }
    requires open { 0 < core.old.frames.used }
    requires place { (core.old.place ≡ TextPlace) ⊎ (core.old.place ≡ SimplePlace) }
    ensures does { (room : ℕ) → Does (call_value val_none) room result (mem core.old) (mem core.new) }
{
    core.settle(WriteResult::SensitiveText); // no bytes, and a text all the same
    Ok(())
}

/// A string where only text may stand: a text, and in place of a wrapped value a variant too.
// Inlined into the match on place and value, where a string and its rule need not be put together in memory.
#[inline(always)]
pub fn string_as_words<R: EscapeRule>(
    core: &mut Core<'_>,
    string: Unescaped<'_, R>,
) -> Result<(), Refusal>
    requires safe { Safe (mem core.old) }
    requires open { 0 < core.old.frames.used }
    requires place { (core.old.place ≡ TextPlace) ⊎ (core.old.place ≡ SimplePlace) }
    ensures text { (room : ℕ) (ρ : Rule) → ρ.chooses ≡ R.chooses string.entry.rule.now → Does (call_value (val_text ρ string.entry.value.now)) room result (mem core.old) (mem core.new) }
    ensures variant { core.old.place ≡ SimplePlace → (room : ℕ) (ρ : Rule) → ρ.chooses ≡ R.chooses string.entry.rule.now → Does (call_value (val_variant ρ string.entry.value.now)) room result (mem core.old) (mem core.new) }
{
    check_bytes(string.value)?;
    write_words(core, string)
}

/// A variant at the text place of a text field: `$text` writes nothing.
// Inlined into the match on place and value, where a string and its rule need not be put together in memory.
#[inline(always)]
pub fn variant_at_text<R: EscapeRule>(
    core: &mut Core<'_>,
    name: Unescaped<'_, R>,
) -> Result<(), Refusal>
    requires safe { Safe (mem core.old) }
    requires open { 0 < core.old.frames.used }
    requires place { core.old.place ≡ TextPlace }
    ensures does { (room : ℕ) (ρ : Rule) → ρ.chooses ≡ R.chooses name.entry.rule.now → Does (call_value (val_variant ρ name.entry.value.now)) room result (mem core.old) (mem core.new) }
{
    check_bytes(name.value)?;
    if is_text_name(name.value) {
        core.settle(WriteResult::SensitiveText);
        Ok(())
    } else {
        write_words(core, name)
    }
}
