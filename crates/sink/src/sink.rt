// What every sink promises: it means the bytes that it holds and the room that it has left.
ghost use Rattle.std.specs.Prelude.{◌≡◌, ℕ, List, length, Result};
ghost use Rattle.refusal.specs.declared.Refusal.{Refusal};
ghost use Rattle.sink.specs.Puts.{Puts};

use refusal::Refusal;

// Two ghosts and no state of both, since each fact tells what one of them becomes, and would take a pair apart.
pub trait Sink {
    ghost held: { Self → List ℕ };

    ghost room: { Self → ℕ };

    // What a put of these bytes, so answered, leaves of the sink besides: memory of its own. A sink without any says `⊤`.
    ghost leaves: { Self → List ℕ → Result (Unit {0}) Refusal → Self → Type 0 };

    /// How many bytes it holds, and how many it still takes.
    fn counts(&self) -> (usize, usize)
        ensures value { (result.0 ≡ length (held self.now)) × (result.1 ≡ room self.now) };

    /// Appends all of the bytes, or none of them under refusal 9.
    fn put(&mut self, bytes: &[u8]) -> Result<(), Refusal>
        ensures puts { Puts result bytes.now (held self.old) (room self.old) (held self.new) (room self.new) }
        ensures leaves { leaves self.old bytes.now result self.new };
}
