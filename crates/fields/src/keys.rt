// A field begins: its key says where its value goes.
ghost use Rattle.std.specs.Prelude.{◌≡◌, ℕ, ◌<◌, ◌≤◌, List, ◌∷◌, ◌≢◌};
ghost use Rattle.model.specs.declared.place.Place.TheVariants.{Field as FieldPlace};
ghost use Rattle.model.specs.Calls.{call_field};
ghost use Rattle.engine.specs.Memory.{mem, Safe, top_frame};
ghost use Rattle.engine.specs.Lays.{Does};

use engine::{Core, check_bytes, check_name, is_text_name, is_value_name};
use model::Place;
use refusal::Refusal;

// A field whose key does not begin with '@'.
fn child_field(core: &mut Core<'_>, key: &str) -> Result<(), Refusal>
    requires safe { Safe (mem core.old) }
    requires place { core.old.place ≡ FieldPlace }
    requires plain { (rest : List ℕ) → key.now ≢ 64 ∷ rest }
    ensures does { (room : ℕ) → Does (call_field key.now) room result (mem core.old) (mem core.new) }
{
    let bytes = key.as_bytes();
    if is_text_name(bytes) {
        core.place = Place::Text;
    } else if is_value_name(bytes) {
        core.place = Place::Content(true);
    } else {
        core.await_element(key)?;
    }
    Ok(())
}

// A field whose key is '@' and then this name: the attribute begins at the end of the open tag.
fn attribute_field(core: &mut Core<'_>, name: &str) -> Result<(), Refusal>
    requires safe { Safe (mem core.old) }
    requires open { 0 < core.old.frames.used }
    requires tag { (top_frame (mem core.old)).tag ≤ core.old.stage.used }
    requires place { core.old.place ≡ FieldPlace }
    ensures does { (room : ℕ) → Does (call_field (64 ∷ name.now)) room result (mem core.old) (mem core.new) }
{
    // The '@' is counted.
    check_name(name).map_err(|fault| Refusal::Name(1 + fault.offset()))?;
    core.put_in_tag(core.frames.used - 1, &(*b" ", (name.as_bytes(), *b"=\"")))?;
    core.place = Place::Attribute;
    Ok(())
}

/// A field of this key.
pub fn field(core: &mut Core<'_>, key: &[u8]) -> Result<(), Refusal>
    requires safe { Safe (mem core.old) }
    requires open { 0 < core.old.frames.used }
    requires tag { (top_frame (mem core.old)).tag ≤ core.old.stage.used }
    requires place { core.old.place ≡ FieldPlace }
    ensures does { (room : ℕ) → Does (call_field key.now) room result (mem core.old) (mem core.new) }
{
    let text = check_bytes(key)?;
    match key {
        // What follows the '@' of a text is a text: nothing is refused here.
        [b'@', name @ ..] => attribute_field(core, check_bytes(name)?),
        _ => child_field(core, text),
    }
}
