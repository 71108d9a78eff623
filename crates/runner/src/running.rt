// Runs the calls of one writer, on memory from the heap that is free again when the run is over.
ghost use Rattle.std.specs.Prelude.{◌≡◌, ℕ, List, [], take, length, IfOk, IfErr};
ghost use Rattle.script.specs.declared.fault.Fault.TheVariants.{Memory};
ghost use Rattle.script.specs.declared.settings.SinkChoice.TheVariants.{Buffer, Pages};
ghost use Rattle.xml.specs.Escaping.{level_chooses};
ghost use Rattle.sink.specs.Pages.{flat};
ghost use Rattle.model.specs.Calls as meant;
ghost use Rattle.writer.specs.Spelled.{CallsAre};
ghost use Rattle.writer.specs.Served.{all_answered};
ghost use Rattle.writer.specs.Replayed.{calls_of, answers_of};
ghost use Rattle.feed.specs.Making.{calls_made};
ghost use Rattle.runner.specs.declared.want.Want.TheVariants as wants;
ghost use Rattle.runner.specs.Running.{set_up, Made, IsRunOf, Becomes, WantsMemory};

use crate::want::Want;
use feed::{Batch, steps_of};
use model::Frame;
use refusal::Refusal;
use script::{Fault, ScriptError, SinkChoice, Sizes};
use sink::{BufferSink, PageSink, Sink};
use std::alloc::{AllocError, Global};
use style::Style;
use writer::{Answer, Step, Writer};
use xml::QuoteLevel;

/// The answers to a writer's calls, and what its sink holds and has room for in the end.
#[derive(PartialEq, Eq, Debug, Drop)]
pub struct Ran {
    pub answers: Vec<Answer>,
    pub bytes: Vec<u8>,
    pub room: usize,
}

/// What became of a writer; where its style was refused, its calls were passed over.
pub type Outcome = Result<Ran, Refusal>;

// The answers that are stored in steps.
fn answers_of(heap: Global, steps: &[Step<'_, QuoteLevel>]) -> Result<Vec<Answer>, AllocError>
    ensures value { IfOk result (λ answers. answers.items ≡ answers_of steps.now) }
{
    let mut answers = Vec::with_capacity(heap, steps.len())?;
    for step in steps {
        answers.push(step.answer)?;
    }
    Ok(answers)
}

// A new writer over memory of these sizes makes the calls, on an empty sink.
fn run_on<S: Sink>(
    heap: Global,
    style: Style,
    sizes: Sizes,
    sink: &mut S,
    steps: Vec<Step<'_, QuoteLevel>>,
) -> Result<Vec<Answer>, Fault>
    ensures made { IfOk result (λ answers. S.held sink.old ≡ [] → (cs : List meant.Call) → CallsAre level_chooses (calls_of steps.entry.items) cs → Made (set_up style.empty_elements style.indentation sizes) cs (S.room sink.old) (S.held sink.new) (S.room sink.new) (all_answered answers.items)) }
    ensures err { IfErr result (λ fault. fault ≡ Memory) }
{
    let mut steps = steps;
    let mut stage = vec![in heap; 0; sizes.stage]?;
    let mut names = vec![in heap; 0; sizes.names]?;
    let mut frames = vec![in heap; Frame::list(); sizes.frames]?;
    let mut writer = Writer::new(style, &mut stage, &mut names, &mut frames);
    let ticket = writer.replay(None, sink, &mut steps);
    writer.close(ticket);
    Ok(answers_of(heap, &steps)?)
}

// The batch on a sink that is empty: what its calls are answered.
fn answers_on<S: Sink>(
    heap: Global,
    style: Style,
    batch: &Batch,
    sink: &mut S,
) -> Result<Vec<Answer>, Want>
    ensures made { IfOk result (λ answers. S.held sink.old ≡ [] → Made (set_up style.empty_elements style.indentation batch.now.setup.memory.value) (calls_made batch.now.calls.items) (S.room sink.old) (S.held sink.new) (S.room sink.new) (all_answered answers.items)) }
    ensures err { IfErr result (λ want. want ≡ wants.Writer) }
{
    let sizes = batch.setup.memory.value;
    let steps = steps_of(heap, &batch.calls).map_err(|_| Want::Writer)?;
    run_on(heap, style, sizes, sink, steps).map_err(|_| Want::Writer)
}

// Memory for a sink.
fn buffer_of(heap: Global, size: usize) -> Result<Vec<u8>, Want>
    ensures size { IfOk result (λ buffer. length buffer.items ≡ size) }
    ensures err { IfErr result (λ want. want ≡ wants.Sink) }
{
    vec![in heap; 0; size].map_err(|_| Want::Sink)
}

// A copy of the bytes that a sink holds in one slice.
fn copy_of(heap: Global, held: &[u8]) -> Result<Vec<u8>, Want>
    ensures value { IfOk result (λ bytes. bytes.items ≡ held.now) }
    ensures err { IfErr result (λ want. want ≡ wants.Sink) }
{
    held.to_vec(heap).map_err(|_| Want::Sink)
}

// Beside `in_pages`, since the two sinks hand out their bytes in different ways. The style is that of the batch.
fn in_buffer(heap: Global, style: Style, batch: &Batch, size: usize) -> Result<Ran, Want>
    requires form { style.empty_elements ≡ batch.now.setup.style.value.empty_elements }
    requires indentation { style.indentation ≡ batch.now.setup.style.value.indentation }
    ensures run { IfOk result (IsRunOf batch.now (Buffer size)) }
{
    let mut memory = buffer_of(heap, size)?;
    let mut sink = BufferSink::new(&mut memory);
    let answers = answers_on(heap, style, batch, &mut sink)?;
    let (_, room) = sink.counts();
    let bytes = copy_of(heap, sink.held())?;
    Ok(Ran {
        answers,
        bytes,
        room,
    })
}

// All bytes that a paged sink holds.
fn bytes_of(heap: Global, sink: &PageSink) -> Result<Vec<u8>, Want>
    ensures value { IfOk result (λ bytes. bytes.items ≡ take sink.now.len (flat sink.now.pages.pages)) }
    ensures err { IfErr result (λ want. want ≡ wants.Sink) }
{
    let (len, _) = sink.counts();
    let mut bytes = buffer_of(heap, len)?;
    // Byte by byte, since a paged sink has no slice of them all.
    for at in 0..len {
        if let Some(byte) = sink.get(at) {
            bytes[at] = byte;
        }
    }
    Ok(bytes)
}

fn in_pages(heap: Global, style: Style, batch: &Batch) -> Result<Ran, Want>
    requires form { style.empty_elements ≡ batch.now.setup.style.value.empty_elements }
    requires indentation { style.indentation ≡ batch.now.setup.style.value.indentation }
    ensures run { IfOk result (IsRunOf batch.now Pages) }
{
    let mut sink = PageSink::new();
    let answers = answers_on(heap, style, batch, &mut sink)?;
    let (_, room) = sink.counts();
    let bytes = bytes_of(heap, &sink)?;
    Ok(Ran {
        answers,
        bytes,
        room,
    })
}

// In the sink of the batch.
fn in_sink(heap: Global, style: Style, batch: &Batch) -> Result<Ran, Want>
    requires form { style.empty_elements ≡ batch.now.setup.style.value.empty_elements }
    requires indentation { style.indentation ≡ batch.now.setup.style.value.indentation }
    ensures run { IfOk result (IsRunOf batch.now batch.now.setup.sink.value) }
{
    match batch.setup.sink.value {
        SinkChoice::Buffer(size) => in_buffer(heap, style, batch, size),
        SinkChoice::Pages => in_pages(heap, style, batch),
    }
}

/// Makes the calls of a batch on a new writer. Only want of memory is an error, told at the line that sets what is wanted.
pub fn run(heap: Global, batch: &Batch) -> Result<Outcome, ScriptError>
    ensures becomes { IfOk result (Becomes batch.now) }
    ensures err { IfErr result (WantsMemory batch.now) }
{
    let layout = batch.setup.style.value;
    let style = match Style::new(layout.empty_elements, layout.indentation) {
        Ok(style) => style,
        Err(refusal) => return Ok(Err(refusal)),
    };
    match in_sink(heap, style, batch) {
        Ok(ran) => Ok(Ok(ran)),
        Err(want) => Err(want.told(&batch.setup)),
    }
}
