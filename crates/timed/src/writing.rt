// One record, into the sink whole or not at all.
ghost use Rattle.std.specs.Prelude.{◌≡◌, ℕ, ◌<◌, length, map};
ghost use Rattle.model.specs.Model.{State};
ghost use Rattle.model.specs.Run.{new};
ghost use Rattle.engine.specs.Memory.{mem};
ghost use Rattle.engine.specs.Lays.{Lays, Does, setting};
ghost use Rattle.writer.specs.Served.{session};
ghost use Rattle.timed.specs.Steps.{call_of_part, calls_of};
ghost use Rattle.timed.specs.Whole.{Filled, Whole, Leaves, over};

use crate::record::{Part, Record};
use model::Frame;
use refusal::Refusal;
use sink::{BufferSink, Sink};
use style::Style;
use writer::Writer;

// One call.
fn serve(writer: &mut Writer<'_>, part: &Part<'_>) -> Result<(), Refusal>
    ensures does { (room : ℕ) → Does (call_of_part part.now) room result (mem writer.old.core) (mem writer.new.core) }
{
    match part {
        Part::Field(key) => writer.field(key),
        Part::Value(value) => writer.value(value),
        Part::End => writer.end(),
    }
}

// The calls behind the first, up to one that is refused.
fn fill(writer: &mut Writer<'_>, parts: &[Part<'_>]) -> Result<(), Refusal>
    ensures filled { Filled (map call_of_part parts.now) result (mem writer.old.core) (mem writer.new.core) }
{
    for part in parts {
        serve(writer, part)?;
    }
    Ok(())
}

// One record, into the sink where none of its calls is refused.
fn write<S: Sink>(writer: &mut Writer<'_>, sink: &mut S, sheet: &Record<'_>)
    ensures whole { (m : State) → Lays m (mem writer.old.core) → Whole (setting (mem writer.old.core)) (calls_of sheet.now) (session m (S.held sink.old) (S.room sink.old)) (S.held sink.new) (S.room sink.new) }
{
    let Ok(ticket) = writer.open(sheet.name) else {
        return;
    };
    if fill(writer, &sheet.parts).is_err() {
        return writer.close(Some(ticket));
    }
    let left = writer.finish(ticket, sink).err().map(|refused| refused.1);
    writer.close(left);
}

/// Writes it so many times, each time by a new writer over the same memory into the front of `out`, and answers how many bytes
/// stand there in the end.
pub fn write_times(
    style: Style,
    sheet: &Record<'_>,
    stage: &mut [u8],
    names: &mut [u8],
    out: &mut [u8],
    times: usize,
) -> usize
    ensures none { times ≡ 0 → result ≡ 0 }
    ensures leaves { 0 < times → Leaves (over style.empty_elements style.indentation (length stage.old) (length names.old)) (calls_of sheet.now) (new (length out.old)) result }
{
    let mut frames = [Frame::list(); 64];
    let mut len = 0;
    for _ in 0..times {
        let mut sink = BufferSink::new(out);
        let mut writer = Writer::new(style, stage, names, &mut frames);
        write(&mut writer, &mut sink, sheet);
        len = sink.held().len();
    }
    len
}
