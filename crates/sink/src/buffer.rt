// A sink over a buffer that the caller lends.
ghost use Rattle.std.specs.Prelude.{◌≡◌, ℕ, ◌-◌, ◌≤◌, List, [], length, take, Result};
ghost use Rattle.refusal.specs.declared.Refusal.{Refusal};
ghost use Rattle.sink.specs.Puts.{Puts, KeepsLent};

use crate::sink::Sink;
use memory::lay;
use refusal::Refusal;

// No equality, as for the paged sink.
/// Its size is the buffer's. What lies behind the bytes held keeps what it held.
// The slice and the length side by side, and no `Lent`: of a slice in a struct that stands in another one, no proof tells the
// lender what it holds once the outer one is gone.
#[derive(Drop)]
pub struct BufferSink<'a> {
    buffer: &'a mut [u8],
    used: usize,
    ghost fits: { used ≤ length buffer.now },
}

impl<'a> BufferSink<'a> {
    pub fn new(buffer: &'a mut [u8]) -> BufferSink<'a>
        ensures held { take result.used result.buffer.now ≡ [] }
        ensures room { length result.buffer.now - result.used ≡ length buffer.old }
        ensures memory { result.buffer.now ≡ buffer.old }
        ensures reference { result.buffer.ghost_name ≡ buffer.entry.ghost_name }
    {
        BufferSink { buffer, used: 0 }
    }
}

impl BufferSink<'_> {
    /// What it holds.
    pub fn held(&self) -> &[u8]
        ensures value { result.now ≡ take self.now.used self.now.buffer.now }
    {
        &self.buffer[0..self.used]
    }
}

impl Sink for BufferSink<'_> {
    ghost held = { λ s. take s.used s.buffer.now };

    ghost room = { λ s. length s.buffer.now - s.used };

    ghost leaves = { λ s bytes r s'. KeepsLent r bytes s.buffer s.used s'.buffer };

    fn counts(&self) -> (usize, usize) {
        (self.used, self.buffer.len() - self.used)
    }

    fn put(&mut self, bytes: &[u8]) -> Result<(), Refusal>
        ensures puts { Puts result bytes.now (take self.old.used self.old.buffer.now) (length self.old.buffer.now - self.old.used) (take self.new.used self.new.buffer.now) (length self.new.buffer.now - self.new.used) }
        ensures memory { KeepsLent result bytes.now self.old.buffer self.old.used self.new.buffer }
    {
        if self.buffer.len() - self.used < bytes.len() {
            return Err(Refusal::Sink);
        }
        self.used = lay(self.buffer, self.used, bytes);
        Ok(())
    }
}
