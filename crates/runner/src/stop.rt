// What ends a run before the script's end.
ghost use Rattle.std.specs.Prelude.{◌≡◌};
ghost use Rattle.runner.specs.declared.stop.Stop.TheVariants as stops;

use script::ScriptError;
use std::io;

#[derive(Debug, Drop)]
pub enum Stop {
    /// The script has an error, or a writer did not get the memory that it asks for.
    Script(ScriptError),
    /// Something could not be written.
    Io(io::Error),
}

impl From<ScriptError> for Stop {
    ghost from_gives = { λ e s. s ≡ stops.Script e };

    fn from(error: ScriptError) -> Stop {
        Stop::Script(error)
    }
}

impl From<io::Error> for Stop {
    ghost from_gives = { λ e s. s ≡ stops.Io e };

    fn from(error: io::Error) -> Stop {
        Stop::Io(error)
    }
}
