// What can be written into lent bytes: it is measured first, and then laid.
ghost use Rattle.std.specs.Prelude.{◌≡◌, ℕ, ◌+◌, ◌-◌, ◌^◌, ◌≤◌, List, [], ◌++◌, length, min, replicate, Some, None};
ghost use Rattle.std.specs.Option.{unwrap_or, option_map};
ghost use Rattle.memory.specs.Laid.{laid, some_or_none};

use crate::{fill, lay};

/// A piece of bytes: a slice, one byte many times, a piece or none, or one piece behind another.
pub trait Piece {
    ghost bytes: { Self → List ℕ };

    /// How many bytes it has; the largest `usize` where they are more than that.
    fn size(&self) -> usize
        ensures value { result ≡ min (length (bytes self.now)) (2 ^ 64 - 1) };

    /// No fewer than it has, told without a walk over it: where so many fit, it need not be measured.
    fn bound(&self) -> usize
        ensures value { min (length (bytes self.now)) (2 ^ 64 - 1) ≤ result };

    /// Lays it over `out` from `at` on, and answers where it ends.
    fn lay(&self, out: &mut [u8], at: usize) -> usize
        requires { at + length (bytes self.now) ≤ length out.old }
        ensures end { result ≡ at + length (bytes self.now) }
        ensures bytes { out.new ≡ laid out.old at (bytes self.now) };
}

impl Piece for &[u8] {
    ghost bytes = { λ s. s.now };

    fn size(&self) -> usize {
        self.len()
    }

    fn bound(&self) -> usize {
        self.len()
    }

    fn lay(&self, out: &mut [u8], at: usize) -> usize {
        lay(out, at, self)
    }
}

// Beside the slice, so that the marks of a tag are pieces as they are written: `*b"</"`.
impl<const N: usize> Piece for [u8; N] {
    ghost bytes = { λ a. a };

    fn size(&self) -> usize {
        self.len()
    }

    fn bound(&self) -> usize {
        self.len()
    }

    fn lay(&self, out: &mut [u8], at: usize) -> usize {
        lay(out, at, self)
    }
}

/// One byte, so many times.
#[derive(Clone, Copy, PartialEq, Eq, Debug)]
pub struct Run {
    pub byte: u8,
    pub count: usize,
}

impl Piece for Run {
    ghost bytes = { λ r. replicate r.count r.byte };

    fn size(&self) -> usize {
        self.count
    }

    fn bound(&self) -> usize {
        self.count
    }

    fn lay(&self, out: &mut [u8], at: usize) -> usize {
        fill(out, at, self.count, self.byte)
    }
}

impl<P: Piece> Piece for Option<P> {
    ghost bytes = { some_or_none P.bytes };

    fn size(&self) -> usize {
        match self {
            Some(piece) => piece.size(),
            None => 0,
        }
    }

    fn bound(&self) -> usize {
        match self {
            Some(piece) => piece.bound(),
            None => 0,
        }
    }

    fn lay(&self, out: &mut [u8], at: usize) -> usize {
        match self {
            Some(piece) => piece.lay(out, at),
            None => at,
        }
    }
}

impl<A: Piece, B: Piece> Piece for (A, B) {
    ghost bytes = { λ p. A.bytes p.0 ++ B.bytes p.1 };

    fn size(&self) -> usize {
        self.0.size().saturating_add(self.1.size())
    }

    fn bound(&self) -> usize {
        self.0.bound().saturating_add(self.1.bound())
    }

    fn lay(&self, out: &mut [u8], at: usize) -> usize {
        let middle = self.0.lay(out, at);
        self.1.lay(out, middle)
    }
}
