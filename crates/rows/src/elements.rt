// Whole elements behind the children: an empty tag, or a text between two tags.
ghost use Rattle.std.specs.Prelude.{◌≡◌, ℕ, ◌+◌, ◌<◌, ◌≤◌, false, length};
ghost use Rattle.style.specs.declared.result.WriteResult.TheVariants.{Element as ElementResult};
ghost use Rattle.xml.specs.Escaping.{escaped};
ghost use Rattle.xml.specs.declared.escape.Use.TheVariants.{Text as TextUse};
ghost use Rattle.model.specs.Marks.{shut};
ghost use Rattle.engine.specs.Memory.{mem, Safe};
ghost use Rattle.rows.specs.Pieces.{name_of, empty_bytes, text_bytes, Writes};

use engine::{Core, put};
use memory::Piece;
use refusal::Refusal;
use style::{EmptyElementHandling, WriteResult};
use xml::{EscapeRule, Unescaped, Use};

/// The end of an empty tag.
pub type Shut<'n> = (&'static [u8], Option<(&'n [u8], [u8; 1])>);

/// The end of an empty tag of this name.
pub fn shut(form: EmptyElementHandling, name: &[u8]) -> Shut<'_>
    ensures value { ⟦<Shut<'static> as Piece>⟧.bytes result ≡ shut form name.now }
    ensures small { length (⟦<Shut<'static> as Piece>⟧.bytes result) ≤ length name.now + 4 }
{
    match form {
        EmptyElementHandling::SelfClosed => (b"/>", None),
        EmptyElementHandling::SelfClosedWithSpace => (b" />", None),
        EmptyElementHandling::Expanded => (b"></", Some((name, *b">"))),
    }
}

/// An empty element whose name is on top of the name stack; the value is complete then.
pub fn write_empty(core: &mut Core<'_>, from: usize) -> Result<(), Refusal>
    requires safe { Safe (mem core.old) }
    requires open { 0 < core.old.frames.used }
    requires name { from ≤ core.old.names.used }
    ensures writes { Writes result (empty_bytes (mem core.old) (name_of (mem core.old) from)) ElementResult false (mem core.old) (mem core.new) }
{
    let form = core.style.empty_elements();
    let lead = core.lead(core.records);
    let name = core.names.tail(from);
    put(&mut core.stage, &(lead, (name, shut(form, name))))?;
    core.wordy = false;
    core.settle(WriteResult::Element);
    Ok(())
}

/// A text between two tags whose name is on top of the name stack; the value is complete then.
pub fn write_text<R: EscapeRule>(
    core: &mut Core<'_>,
    from: usize,
    text: Unescaped<'_, R>,
) -> Result<(), Refusal>
    requires safe { Safe (mem core.old) }
    requires open { 0 < core.old.frames.used }
    requires name { from ≤ core.old.names.used }
    ensures writes { Writes result (text_bytes (mem core.old) (name_of (mem core.old) from) (escaped (R.chooses text.entry.rule.now TextUse) text.entry.value.now)) ElementResult false (mem core.old) (mem core.new) }
{
    let start = core.lead(core.records);
    let name = core.names.tail(from);
    let start_tag = (start, (name, *b">"));
    let end_tag = (*b"</", (name, *b">"));
    put(
        &mut core.stage,
        &(start_tag, (text.escaped(Use::Text), end_tag)),
    )?;
    core.wordy = false;
    core.settle(WriteResult::Element);
    Ok(())
}
