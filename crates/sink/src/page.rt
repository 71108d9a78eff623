// One page of a paged sink.
ghost use Rattle.std.specs.Prelude.{◌≡◌, ◌<◌, length, replicate, slice_set};

#[derive(Clone, Copy, PartialEq, Eq, Debug)]
pub struct Page {
    pub bytes: [u8; 256],
    ghost size: { length bytes ≡ 256 },
}

impl Page {
    pub fn new() -> Page
        ensures bytes { result.bytes ≡ replicate 256 0 }
    {
        Page { bytes: [0; 256] }
    }

    pub fn store(&mut self, at: usize, byte: u8)
        requires { at < 256 }
        ensures bytes { self.new.bytes ≡ slice_set self.old.bytes at byte }
    {
        self.bytes[at] = byte;
    }
}
