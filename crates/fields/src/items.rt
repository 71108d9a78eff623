// Items of a list that is a text: each stands behind the children, one space after the one before it.
ghost use Rattle.std.specs.Prelude.{◌≡◌, ℕ, ◌++◌};
ghost use Rattle.xml.specs.Escaping.{escaped};
ghost use Rattle.xml.specs.declared.escape.Use.TheVariants.{TextItem as TextItemUse};
ghost use Rattle.model.specs.declared.place.Place.TheVariants.{TextItem as TextItemPlace};
ghost use Rattle.model.specs.Calls.{Rule, Value, call_value};
ghost use Rattle.model.specs.Step.{gap};
ghost use Rattle.engine.specs.Memory.{mem, Safe};
ghost use Rattle.engine.specs.Lays.{IsString, Does};
ghost use Rattle.fields.specs.Items.{Adds};

use engine::{Core, check_bytes, put};
use model::Place;
use refusal::Refusal;
use rows::gap;
use xml::{EscapeRule, Unescaped, Use};

// An item that is not empty, behind those written before.
fn append_item<R: EscapeRule>(
    core: &mut Core<'_>,
    written: bool,
    string: Unescaped<'_, R>,
) -> Result<(), Refusal>
    requires { Safe (mem core.old) }
    ensures adds { Adds result (gap written ++ escaped (R.chooses string.entry.rule.now TextItemUse) string.entry.value.now) (mem core.old) (mem core.new) }
{
    let item = (gap(written), string.escaped(Use::TextItem));
    put(&mut core.stage, &item)?;
    core.wordy = true;
    core.place = Place::TextItem(true);
    Ok(())
}

// Beside `string_at_attribute_item` of attributes: one grows the children, the other the open tag before them.
/// A text or a variant as an item of a list that is a text; an empty one writes nothing.
// Inlined into the match on place and value, where a string and its rule need not be put together in memory.
#[inline(always)]
pub fn string_as_item<R: EscapeRule>(
    core: &mut Core<'_>,
    written: bool,
    string: Unescaped<'_, R>,
) -> Result<(), Refusal>
    requires safe { Safe (mem core.old) }
    requires place { core.old.place ≡ TextItemPlace written }
    ensures does { (room : ℕ) (ρ : Rule) (c : Value) → ρ.chooses ≡ R.chooses string.entry.rule.now → IsString c ρ string.entry.value.now → Does (call_value c) room result (mem core.old) (mem core.new) }
{
    check_bytes(string.value)?;
    if string.value.is_empty() {
        Ok(())
    } else {
        append_item(core, written, string)
    }
}
