// The first call on a record, and the one that drops it.
ghost use Rattle.std.specs.Prelude.{◌≡◌, ℕ};
ghost use Rattle.model.specs.declared.place.Place.TheVariants.{Idle as IdlePlace};
ghost use Rattle.model.specs.Calls.{call_open, call_abandon};
ghost use Rattle.engine.specs.Memory.{mem, Safe};
ghost use Rattle.engine.specs.Lays.{Does};

use engine::{Core, check_bytes};
use model::Place;
use refusal::Refusal;

/// Drops the record, wherever it stands.
pub fn abandon(core: &mut Core<'_>) -> Result<(), Refusal>
    requires { Safe (mem core.old) }
    ensures does { (room : ℕ) → Does call_abandon room result (mem core.old) (mem core.new) }
{
    if core.place == Place::Idle {
        return Err(Refusal::Order);
    }
    core.clear();
    Ok(())
}

/// Opens a root record of this name.
pub fn open(core: &mut Core<'_>, name: &[u8]) -> Result<(), Refusal>
    requires safe { Safe (mem core.old) }
    requires place { core.old.place ≡ IdlePlace }
    ensures does { (room : ℕ) → Does (call_open name.now) room result (mem core.old) (mem core.new) }
{
    let text = check_bytes(name)?;
    core.open_record((None, *b"<"), text)
}
