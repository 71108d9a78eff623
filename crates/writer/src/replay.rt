// Runs a list of calls on a writer and a sink, and stores the answer of each beside it.
ghost use Rattle.std.specs.Prelude.{◌≡◌, ◌&&◌, List};
ghost use Rattle.std.specs.Option.{is_some};
ghost use Rattle.std.specs.Result.{is_err};
ghost use Rattle.model.specs.Calls as meant;
ghost use Rattle.engine.specs.Memory.{mem};
ghost use Rattle.writer.specs.Spelled.{CallIs, CallsAre};
ghost use Rattle.writer.specs.Served.{Serves, answered, all_answered, holds_on, holds_after};
ghost use Rattle.writer.specs.Handed.{SinkAfter};
ghost use Rattle.writer.specs.Replayed.{calls_of, answers_of, Replayed};

use crate::call::Call;
use crate::ticket::{Ticket, spend};
use crate::writer::Writer;
use refusal::Refusal;
use sink::Sink;
use xml::EscapeRule;

/// How a call is answered.
pub type Answer = Result<(), Refusal>;

/// A call of a run, and the place of its answer.
#[derive(Clone, Copy, PartialEq, Eq, Debug, Drop)]
pub struct Step<'a, R> {
    pub call: Call<'a, R>,
    /// How the call was answered, once the run is over; what stands here before it says nothing.
    pub answer: Answer,
}

impl<'a, R> Step<'a, R> {
    /// A call that is still to be made.
    pub fn new(call: Call<'a, R>) -> Step<'a, R>
        ensures call { result.call ≡ call.entry }
    {
        Step {
            call,
            answer: Ok(()),
        }
    }
}

// After an accepted finish or abandon the ticket has done its work. Beside the ticket's own `spent_on`, since a run may hold none.
fn spent_on(answer: Answer, held: Option<Ticket>) -> (Answer, Option<Ticket>)
    ensures answer { result.0 ≡ answer }
    ensures ticket { is_some result.1 ≡ (is_err answer && is_some held) }
{
    if answer.is_err() {
        return (answer, held);
    }
    spend(held);
    (answer, None)
}

// One call.
fn serve<R: EscapeRule, S: Sink>(
    writer: &mut Writer<'_>,
    sink: &mut S,
    held: Option<Ticket>,
    call: &Call<'_, R>,
) -> (Answer, Option<Ticket>)
    ensures serves { (c : meant.Call) → CallIs R.chooses call.now c → Serves c result.0 (mem writer.old.core) (mem writer.new.core) (S.held sink.old) (S.room sink.old) (S.held sink.new) (S.room sink.new) }
    ensures sink { (c : meant.Call) → CallIs R.chooses call.now c → SinkAfter S.leaves c result.0 (mem writer.old.core) sink.old sink.new }
    ensures ticket { (c : meant.Call) → CallIs R.chooses call.now c → is_some result.1 ≡ holds_on c (answered result.0) (is_some held) }
{
    match call {
        Call::Open(name) => match writer.open(name) {
            Ok(ticket) => {
                spend(held);
                (Ok(()), Some(ticket))
            }
            Err(refusal) => (Err(refusal), held),
        },
        Call::Field(key) => (writer.field(key), held),
        Call::Value(value) => (writer.value(value), held),
        Call::End => (writer.end(), held),
        Call::Finish => spent_on(writer.send_record(sink), held),
        Call::Abandon => spent_on(writer.drop_record(), held),
    }
}

impl Writer<'_> {
    /// Makes the calls of the steps one after another, each with its own rule value, on this writer and a sink, and stores
    /// the answer of each in its step. Hands out the ticket of the record that is open then: an accepted open hands one out,
    /// and an accepted finish or abandon takes it. `held` is the ticket of a record that is open now.
    ///
    /// Whatever calls led from a new writer and an empty sink to this writer and this sink: after those and these together,
    /// unindented, what the sink holds is read as exactly the trees of the records finished into it; each indent is as deep as
    /// elements are open around its tag, and another indentation changes only the indents; and an '@' field and the child
    /// field next to it may change places.
    pub fn replay<R: EscapeRule, S: Sink>(
        &mut self,
        held: Option<Ticket>,
        sink: &mut S,
        steps: &mut [Step<'_, R>],
    ) -> Option<Ticket>
        ensures calls { calls_of steps.new ≡ calls_of steps.old }
        ensures meant { (cs : List meant.Call) × CallsAre R.chooses (calls_of steps.old) cs }
        ensures ticket { (cs : List meant.Call) → CallsAre R.chooses (calls_of steps.old) cs → is_some result ≡ holds_after cs (all_answered (answers_of steps.new)) (is_some held) }
        ensures replayed { (cs : List meant.Call) → CallsAre R.chooses (calls_of steps.old) cs → Replayed S.held S.room S.leaves cs (answers_of steps.new) (mem self.old.core) sink.old (mem self.new.core) sink.new }
    {
        let mut held = held;
        for i in 0..steps.len() {
            let (answer, next) = serve(self, sink, held, &steps[i].call);
            steps[i].answer = answer;
            held = next;
        }
        held
    }
}
