// The bytes that a rule replaces for one use. The rule is asked once for each byte that has a replacement, and not at each byte
// of a value: a value is walked at the cost of one bit's test a byte.
ghost use Rattle.std.specs.Prelude.{◌≡◌, ℕ, ◌+◌, ◌-◌, ◌^◌, ◌<◌, ◌≤◌, Bool, true, false, length, min, take, slice_index_or, nat_le};
ghost use Rattle.memory.specs.Laid.{laid};
ghost use Rattle.xml.specs.Escaping.{nine, replacement, escaped};
ghost use Rattle.xml.specs.Marked.{marked};

use crate::escape::{EscapeRule, Use};
use memory::lay;

// The bytes that have a replacement; all are below 64.
const NINE: [u8; 9] = *b"<>'&\"\t\n\r ";

// How many bytes stand for one at most.
const LONGEST: usize = 6;

/// No fewer bytes than a value has once it is escaped by any rule, told without a walk over it.
pub fn most(value: &[u8]) -> usize
    ensures value { (chosen : ℕ → Bool) → min (length (escaped chosen value.now)) (2 ^ 64 - 1) ≤ result }
{
    value.len().saturating_mul(LONGEST)
}

/// A set of bytes that have a replacement, one bit for each.
#[derive(Clone, Copy, PartialEq, Eq, Debug)]
pub struct Chosen {
    bits: u64,
    ghost within: { (b : ℕ) → marked bits b ≡ true → nine b ≡ true },
}

// The fixed bytes that stand for one of the nine.
#[inline(always)]
fn replacement_of(byte: u8) -> &'static [u8]
    requires { nine byte ≡ true }
    ensures { result.now ≡ replacement byte }
{
    match byte {
        b'<' => b"&lt;",
        b'>' => b"&gt;",
        b'\'' => b"&apos;",
        b'&' => b"&amp;",
        b'"' => b"&quot;",
        b'\t' => b"&#9;",
        b'\n' => b"&#10;",
        b'\r' => b"&#13;",
        _ => b"&#32;",
    }
}

// A run of bytes that stay, laid as it is. Between two replaced bytes it is empty, and then nothing is copied.
#[inline(always)]
fn lay_run(out: &mut [u8], at: usize, run: &[u8]) -> usize
    requires { at + length run.now ≤ length out.old }
    ensures end { result ≡ at + length run.now }
    ensures bytes { out.new ≡ laid out.old at run.now }
    ensures len { length out.new ≡ length out.old }
{
    if run.is_empty() {
        return at;
    }
    lay(out, at, run)
}

impl Chosen {
    /// The bytes that this rule replaces for a use.
    pub fn by<R: EscapeRule>(rule: &R, target: Use) -> Chosen
        ensures marks { (b : ℕ) → marked result.bits b ≡ R.chooses rule.now target b }
    {
        let mut bits = 0u64;
        for byte in NINE {
            if rule.replaces(target, byte) {
                bits |= 1 << byte;
            }
        }
        Chosen { bits }
    }

    // Whether this byte is replaced.
    fn has(self, byte: u8) -> bool
        ensures value { result ≡ marked self.bits byte }
    {
        byte < 64 && self.bits & (1 << byte) != 0
    }

    /// How many bytes a value has once they are replaced; the largest `usize` where they are more than that.
    pub fn size_of(self, value: &[u8]) -> usize
        ensures value { result ≡ min (length (escaped (marked self.bits) value.now)) (2 ^ 64 - 1) }
    {
        let mut len = value.len();
        for byte in value {
            if self.has(*byte) {
                len = len.saturating_add(replacement_of(*byte).len() - 1);
            }
        }
        len
    }

    /// Whether a value has no more than so many bytes once they are replaced, told by a walk.
    // Apart from where a value is laid: there its bound nearly always fits.
    #[cold]
    #[inline(never)]
    pub fn fits(self, value: &[u8], room: usize) -> bool
        ensures value { result ≡ nat_le (min (length (escaped (marked self.bits) value.now)) (2 ^ 64 - 1)) room }
    {
        self.size_of(value) <= room
    }

    // Whether this byte, or one that differs from it in its two highest bits alone, is replaced.
    fn may_have(self, byte: u8) -> bool
        ensures otherwise { result ≡ false → marked self.bits byte ≡ false }
    {
        self.bits & (1 << (byte & 63)) != 0
    }

    // Which of four bytes is the first that may be replaced; 4 where none is.
    #[inline(always)]
    fn first_of(self, a: u8, b: u8, c: u8, d: u8) -> usize
        ensures within { result ≤ 4 }
        ensures a { 0 < result → marked self.bits a ≡ false }
        ensures b { 1 < result → marked self.bits b ≡ false }
        ensures c { 2 < result → marked self.bits c ≡ false }
        ensures d { 3 < result → marked self.bits d ≡ false }
    {
        if self.may_have(a) {
            0
        } else if self.may_have(b) {
            1
        } else if self.may_have(c) {
            2
        } else if self.may_have(d) {
            3
        } else {
            4
        }
    }

    // How many bytes stay for sure, up to the next that may be replaced. Loops of their own, of one test a byte, and four bytes at
    // a time: most bytes of a text are letters, and few of them come near one that is replaced.
    fn sure_len(self, value: &[u8]) -> usize
        ensures within { result ≤ length value.now }
        ensures stays { escaped (marked self.bits) (take result value.now) ≡ take result value.now }
    {
        let mut rest = value;
        while let [a, b, c, d, later @ ..] = rest {
            let n = self.first_of(*a, *b, *c, *d);
            if n < 4 {
                return value.len() - rest.len() + n;
            }
            rest = later;
        }
        for (i, byte) in rest.iter().enumerate() {
            if self.may_have(*byte) {
                return value.len() - rest.len() + i;
            }
        }
        value.len()
    }

    // How many bytes stay as they are, up to the first that is replaced.
    fn run_len(self, value: &[u8]) -> usize
        ensures within { result ≤ length value.now }
        ensures stays { escaped (marked self.bits) (take result value.now) ≡ take result value.now }
        ensures next { result < length value.now → marked self.bits (slice_index_or value.now result 0) ≡ true }
    {
        let mut len = 0;
        loop {
            len += self.sure_len(&value[len..]);
            if len == value.len() || self.has(value[len]) {
                return len;
            }
            len += 1;
        }
    }

    /// Lays a value over `out` from `at` on, each of these bytes replaced, and answers where it ends. What stands between two
    /// of them is laid as one run.
    // Not inlined, while what calls it is: so a piece that holds a value stays small.
    #[inline(never)]
    pub fn lay(self, value: &[u8], out: &mut [u8], at: usize) -> usize
        requires { at + length (escaped (marked self.bits) value.now) ≤ length out.old }
        ensures end { result ≡ at + length (escaped (marked self.bits) value.now) }
        ensures bytes { out.new ≡ laid out.old at (escaped (marked self.bits) value.now) }
    {
        let mut rest = value;
        let mut end = at;
        loop {
            let (run, behind) = rest.split_at(self.run_len(rest));
            end = lay_run(out, end, run);
            let [byte, behind @ ..] = behind else {
                return end;
            };
            end = lay(out, end, replacement_of(*byte));
            rest = behind;
        }
    }
}
