// Where set-up words may stand: before the first call of their writer.
ghost use Rattle.std.specs.Prelude.{◌≡◌};
ghost use Rattle.script.specs.Order.{follows, SetUpFirst};

use crate::fault::Fault;

/// What a line does to the order.
#[derive(Clone, Copy, PartialEq, Eq, Debug)]
pub enum Role {
    /// It begins a new writer.
    Starts,
    /// It sets up the writer, and stands before the calls.
    Sets,
    /// It may stand anywhere.
    Anywhere,
    /// It is a call.
    Calls,
}

/// How far the writer has come.
#[derive(Clone, Copy, PartialEq, Eq, Debug)]
pub enum Phase {
    /// no call yet
    SettingUp,
    Calling,
}

impl Phase {
    /// The phase after a line.
    pub fn follow(self, role: Role) -> Result<Phase, Fault>
        ensures value { result ≡ follows self role }
    {
        match (self, role) {
            (Phase::Calling, Role::Sets) => Err(Fault::TooLate),
            (_, Role::Starts) => Ok(Phase::SettingUp),
            (_, Role::Calls) => Ok(Phase::Calling),
            (phase, Role::Sets | Role::Anywhere) => Ok(phase),
        }
    }
}

/// A script is stopped for its order exactly where a set-up word stands behind a call of the same writer.
// No code in it, since a contract is what names a theorem.
pub fn law_set_up_first()
    ensures law { SetUpFirst }
{}
