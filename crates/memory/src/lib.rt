// Bytes that a caller lends, and the stores into them that the other crates share.
// The callers know that what they store fits; they ask the length first.
#![tactic(auto)]

ghost use Rattle.std.specs.Prelude.{◌≡◌, ◌+◌, ◌-◌, ◌≤◌, ◌++◌, length, take, drop, replicate};
ghost use Rattle.memory.specs.Laid.{laid};
ghost use Rattle.memory.specs.Opened.{shifted};

mod lent;
mod piece;

pub use lent::Lent;
pub use piece::{Piece, Run};

/// Lays `src` over `out` from `at` on, and answers where it ends.
pub fn lay(out: &mut [u8], at: usize, src: &[u8]) -> usize
    requires { at + length src.now ≤ length out.old }
    ensures end { result ≡ at + length src.now }
    ensures bytes { out.new ≡ laid out.old at src.now }
    ensures front { take result out.new ≡ take at out.old ++ src.now }
    ensures len { length out.new ≡ length out.old }
{
    let end = at + src.len();
    out[at..end].copy_from_slice(src);
    end
}

/// Writes `byte` over `count` bytes of `out` from `at` on, and answers where they end.
pub fn fill(out: &mut [u8], at: usize, count: usize, byte: u8) -> usize
    requires { at + count ≤ length out.old }
    ensures end { result ≡ at + count }
    ensures bytes { out.new ≡ laid out.old at (replicate count byte) }
    ensures len { length out.new ≡ length out.old }
{
    let end = at + count;
    out[at..end].fill(byte);
    end
}

/// Moves the bytes from `from` up to `end` on by `by`, and answers where they end then.
pub fn shift(out: &mut [u8], from: usize, end: usize, by: usize) -> usize
    requires order { from ≤ end }
    requires within { end + by ≤ length out.old }
    ensures end { result ≡ end + by }
    ensures bytes { out.new ≡ shifted out.old from end by }
    ensures len { length out.new ≡ length out.old }
{
    out.copy_within(from..end, from + by);
    end + by
}
