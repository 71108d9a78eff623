// A complete record goes to the sink at one stroke, and the writer is idle again.
ghost use Rattle.model.specs.Calls.{call_finish};
ghost use Rattle.engine.specs.Memory.{mem, Safe};
ghost use Rattle.writer.specs.Served.{Serves};
ghost use Rattle.writer.specs.Handed.{Handed};

use engine::Core;
use model::Place;
use refusal::Refusal;
use sink::Sink;

/// Puts the whole record into the sink.
pub fn send<S: Sink>(core: &mut Core<'_>, sink: &mut S) -> Result<(), Refusal>
    requires { Safe (mem core.old) }
    ensures serves { Serves call_finish result (mem core.old) (mem core.new) (S.held sink.old) (S.room sink.old) (S.held sink.new) (S.room sink.new) }
    ensures handed { Handed S.leaves result (mem core.old) sink.old sink.new }
{
    if core.place != Place::Complete {
        return Err(Refusal::Order);
    }
    sink.put(core.stage.tail(0))?;
    core.clear();
    Ok(())
}
