// A variant at a content place, which is an empty element of the variant's name.
ghost use Rattle.std.specs.Prelude.{◌≡◌, ℕ, ◌<◌, Bool, false};
ghost use Rattle.style.specs.declared.result.WriteResult.TheVariants.{Element as ElementResult};
ghost use Rattle.model.specs.declared.place.Place.TheVariants.{Content as ContentPlace};
ghost use Rattle.model.specs.Calls.{Rule, call_value, val_variant};
ghost use Rattle.engine.specs.Memory.{mem, Safe};
ghost use Rattle.engine.specs.Lays.{Does};
ghost use Rattle.rows.specs.Pieces.{empty_bytes, Writes};

use engine::{Core, check_bytes, check_name, is_text_name, put};
use refusal::Refusal;
use rows::shut;
use style::WriteResult;

// An empty element of this name; the value is complete then. The like function for an element place cannot be this one: its
// name lies in the core, which this one changes.
fn write_element(core: &mut Core<'_>, name: &[u8]) -> Result<(), Refusal>
    requires safe { Safe (mem core.old) }
    requires open { 0 < core.old.frames.used }
    ensures writes { Writes result (empty_bytes (mem core.old) name.now) ElementResult false (mem core.old) (mem core.new) }
{
    let form = core.style.empty_elements();
    let lead = core.lead(core.records);
    put(&mut core.stage, &(lead, (name, shut(form, name))))?;
    core.wordy = false;
    core.settle(WriteResult::Element);
    Ok(())
}

/// A variant at a content place: an empty element of its name; the name for text writes nothing.
pub fn variant_at_content(core: &mut Core<'_>, name: &[u8]) -> Result<(), Refusal>
    requires safe { Safe (mem core.old) }
    requires open { 0 < core.old.frames.used }
    ensures does { (room : ℕ) (texts : Bool) (ρ : Rule) → core.old.place ≡ ContentPlace texts → Does (call_value (val_variant ρ name.now)) room result (mem core.old) (mem core.new) }
{
    let text = check_bytes(name)?;
    if is_text_name(name) {
        core.settle(WriteResult::Nothing);
        return Ok(());
    }
    check_name(text)?;
    write_element(core, name)
}
