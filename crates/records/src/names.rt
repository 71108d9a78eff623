// Values at a content place that bring a name: wrapped values and rows of variants.
ghost use Rattle.std.specs.Prelude.{◌≡◌, ℕ, ◌<◌, Bool, true, false};
ghost use Rattle.model.specs.declared.place.Place.TheVariants.{Content as ContentPlace};
ghost use Rattle.model.specs.Calls.{call_value, val_wrapped, val_variant_row, is_text_name};
ghost use Rattle.engine.specs.Memory.{mem, Safe};
ghost use Rattle.engine.specs.Lays.{Does};
ghost use Rattle.records.specs.Names.{TextAnnounced};

use engine::{Core, check_bytes, is_text_name};
use model::{Frame, Place};
use nests::take_frame;
use refusal::Refusal;

// The name of an element; none where it announces a text, which is refused where none may stand.
fn element_name(name: &[u8], texts: bool) -> Result<Option<&str>, Refusal>
    ensures announced { TextAnnounced (λ s. s.now) result name.now texts }
{
    let element = check_bytes(name)?;
    if !is_text_name(name) {
        return Ok(Some(element));
    }
    if !texts {
        return Err(Refusal::RunOn);
    }
    Ok(None)
}

/// A wrapped value at a content place: a text, or an element of the variant's name.
pub fn wrapped_at_content(core: &mut Core<'_>, texts: bool, name: &[u8]) -> Result<(), Refusal>
    requires safe { Safe (mem core.old) }
    requires place { core.old.place ≡ ContentPlace texts }
    ensures does { (room : ℕ) → Does (call_value (val_wrapped name.now)) room result (mem core.old) (mem core.new) }
{
    if let Some(name) = element_name(name, texts)? {
        return core.await_element(name);
    }
    core.place = Place::Simple;
    Ok(())
}

// A row in which each item is an element of this name.
fn open_named(core: &mut Core<'_>, text: &str) -> Result<(), Refusal>
    requires safe { Safe (mem core.old) }
    requires open { 0 < core.old.frames.used }
    requires element { is_text_name text.now ≡ false }
    ensures does { (room : ℕ) (texts : Bool) → core.old.place ≡ ContentPlace texts → Does (call_value (val_variant_row text.now)) room result (mem core.old) (mem core.new) }
{
    let name = core.fitting_name(text)?;
    core.frame_free()?;
    let flag = core.top().flag;
    let from = core.push_name(name.as_str().as_bytes());
    core.push(Frame::named_row(flag, core.names.used, from));
    core.place = Place::Element(from);
    Ok(())
}

/// A row of a variant at a content place: a list, or a row of elements of the variant's name.
pub fn variant_row_at_content(core: &mut Core<'_>, texts: bool, name: &[u8]) -> Result<(), Refusal>
    requires safe { Safe (mem core.old) }
    requires open { 0 < core.old.frames.used }
    requires place { core.old.place ≡ ContentPlace texts }
    ensures does { (room : ℕ) → Does (call_value (val_variant_row name.now)) room result (mem core.old) (mem core.new) }
{
    if let Some(name) = element_name(name, texts)? {
        return open_named(core, name);
    }
    take_frame(core, Frame::list(), Place::TextItem(false))
}
