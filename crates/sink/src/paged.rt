// A sink of sixteen pages of 256 bytes, in memory of its own.
ghost use Rattle.std.specs.Prelude.{◌≡◌, ℕ, ◌-◌, ◌≤◌, List, [], length, replicate, take, if◌then◌else◌, Some, None, nat_lt, slice_index};
ghost use Rattle.sink.specs.Puts.{Puts, Keeps};
ghost use Rattle.sink.specs.Pages.{flat};

use crate::pages::Pages;
use crate::sink::Sink;
use refusal::Refusal;

// The sixteen pages together.
const SIZE: usize = 4096;

/// Its size is 4,096 bytes. What lies behind the bytes held keeps what it held.
// A length beside memory of a fixed size, since no sink takes from the heap; and no one generic sink over a buffer or pages,
// since the two share no more than the trait says.
// No equality and no Debug, since what lies behind the bytes held is no part of what it says.
#[derive(Clone, Copy)]
pub struct PageSink {
    pages: Pages,
    len: usize,
    ghost fits: { len ≤ 4096 },
    ghost whole: { length (flat pages.pages) ≡ 4096 },
}

impl PageSink {
    pub fn new() -> PageSink
        ensures held { take result.len (flat result.pages.pages) ≡ [] }
        ensures room { 4096 - result.len ≡ 4096 }
        ensures memory { flat result.pages.pages ≡ replicate 4096 0 }
    {
        PageSink {
            pages: Pages::new(),
            len: 0,
        }
    }

    /// The byte at a place, if it holds that many.
    pub fn get(&self, at: usize) -> Option<u8>
        ensures value { result ≡ (if nat_lt at self.now.len then Some (slice_index (flat self.now.pages.pages) at) else None) }
    {
        if at < self.len {
            Some(self.pages.get(at))
        } else {
            None
        }
    }
}

impl Sink for PageSink {
    ghost held = { λ s. take s.len (flat s.pages.pages) };

    ghost room = { λ s. 4096 - s.len };

    ghost leaves = { λ s bytes r s'. Keeps r bytes (flat s.pages.pages) s.len (flat s'.pages.pages) };

    fn counts(&self) -> (usize, usize) {
        (self.len, SIZE - self.len)
    }

    fn put(&mut self, bytes: &[u8]) -> Result<(), Refusal>
        ensures puts { Puts result bytes.now (take self.old.len (flat self.old.pages.pages)) (4096 - self.old.len) (take self.new.len (flat self.new.pages.pages)) (4096 - self.new.len) }
        ensures memory { Keeps result bytes.now (flat self.old.pages.pages) self.old.len (flat self.new.pages.pages) }
    {
        if SIZE - self.len < bytes.len() {
            return Err(Refusal::Sink);
        }
        self.len = self.pages.write(self.len, bytes);
        Ok(())
    }
}
