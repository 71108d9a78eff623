// The ticket of an open record: whoever holds it owes the writer a finish or an abandon.

ghost use Rattle.std.specs.Prelude.{◌≡◌};
ghost use Rattle.writer.specs.Served.{refusal_of};

use refusal::Refusal;

/// Handed out by an accepted `open`. It can be neither copied nor let go: `finish` or `abandon` takes it, and a refusal
/// gives it back. Any ticket serves, since the writer's place alone decides.
pub struct Ticket {
    mark: (),
}

impl Ticket {
    pub(crate) fn new() -> Ticket {
        Ticket { mark: () }
    }

    /// Ends the ticket.
    pub(crate) fn spend(self) {
        let Ticket { mark: _ } = self;
    }

    /// Ends the ticket where the call that took it was accepted; a refusal gives it back.
    pub(crate) fn spent_on(self, answer: Result<(), Refusal>) -> Result<(), (Refusal, Ticket)>
        ensures answer { refusal_of result ≡ answer }
    {
        match answer {
            Ok(()) => {
                self.spend();
                Ok(())
            }
            Err(refusal) => Err((refusal, self)),
        }
    }
}

/// Ends a ticket, if there is one.
pub(crate) fn spend(held: Option<Ticket>) {
    if let Some(ticket) = held {
        ticket.spend();
    }
}
