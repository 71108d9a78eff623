// The sixteen pages of a paged sink, as one run of bytes.
ghost use Rattle.std.specs.Prelude.{◌≡◌, ◌+◌, ◌<◌, ◌≤◌, ◌++◌, length, replicate, take, slice_index, slice_set};
ghost use Rattle.memory.specs.Laid.{laid};
ghost use Rattle.sink.specs.Pages.{flat};

use crate::page::Page;

/// Its length is said by each call: with an invariant of `Pages`, which was tried, a store into one of the pages gets no proof.
#[derive(Clone, Copy, PartialEq, Eq, Debug)]
pub struct Pages {
    pages: [Page; 16],
}

impl Pages {
    pub(crate) fn new() -> Pages
        ensures bytes { flat result.pages ≡ replicate 4096 0 }
        ensures len { length (flat result.pages) ≡ 4096 }
    {
        Pages {
            pages: [Page::new(); 16],
        }
    }

    pub(crate) fn get(&self, at: usize) -> u8
        requires { at < 4096 }
        ensures value { result ≡ slice_index (flat self.now.pages) at }
    {
        self.pages[at / 256].bytes[at % 256]
    }

    pub(crate) fn store(&mut self, at: usize, byte: u8)
        requires { at < 4096 }
        ensures bytes { flat self.new.pages ≡ slice_set (flat self.old.pages) at byte }
        ensures len { length (flat self.new.pages) ≡ 4096 }
    {
        self.pages[at / 256].store(at % 256, byte);
    }

    /// Lays `src` over the bytes from `from` on, and answers where it ends.
    pub(crate) fn write(&mut self, from: usize, src: &[u8]) -> usize
        requires room { from + length src.now ≤ 4096 }
        requires whole { length (flat self.old.pages) ≡ 4096 }
        ensures end { result ≡ from + length src.now }
        ensures bytes { flat self.new.pages ≡ laid (flat self.old.pages) from src.now }
        ensures front { take result (flat self.new.pages) ≡ take from (flat self.old.pages) ++ src.now }
        ensures len { length (flat self.new.pages) ≡ 4096 }
    {
        // Byte by byte, since a page is stored to by its own call.
        for (i, byte) in src.iter().enumerate() {
            self.store(from + i, *byte);
        }
        from + src.len()
    }
}
