// Memory that a caller lends, and how much of it is in use.
ghost use Rattle.std.specs.Prelude.{◌≡◌, ◌+◌, ◌-◌, ◌<◌, ◌≤◌, ◌++◌, length, take, drop, slice_set, slice_index_or, nat_le, MatchOption};
ghost use Rattle.memory.specs.Laid.{laid};
ghost use Rattle.memory.specs.Opened.{opened};
ghost use Rattle.memory.specs.Lending.{usable, StaysLent};

use crate::piece::Piece;
use crate::shift;

/// A lent slice, and how much of it may be used at most; what is in use stands at its front. The whole slice is kept, and no
/// part of it, so that it stays the very reference that was lent. That no more is in use than there is, is no invariant: a step
/// of the writer goes back to a length that a frame keeps, and does not know by itself that it lies within.
#[derive(Drop)]
pub struct Lent<'a, T> {
    pub all: &'a mut [T],
    pub most: usize,
    pub used: usize,
}

impl<'a, T> Lent<'a, T> {
    /// A slice of which no more than the first `most` may be used, and nothing is in use yet.
    pub fn first(all: &'a mut [T], most: usize) -> Lent<'a, T>
        ensures reference { result.all.ghost_name ≡ all.entry.ghost_name }
        ensures all { result.all.now ≡ all.old }
        ensures most { result.most ≡ most }
        ensures used { result.used ≡ 0 }
    {
        Lent { all, most, used: 0 }
    }
}

impl<T: Copy> Lent<'_, T> {
    /// How much of it may be used.
    pub fn len(&self) -> usize
        ensures value { result ≡ length (usable self.now) }
    {
        self.all.len().min(self.most)
    }

    /// How much is free.
    pub fn room(&self) -> usize
        requires { self.now.used ≤ length (usable self.now) }
        ensures value { result + self.now.used ≡ length (usable self.now) }
    {
        self.len() - self.used
    }

    pub fn get(&self, k: usize) -> T
        requires { k < length (usable self.now) }
        ensures value { (past : T) → result ≡ slice_index_or (usable self.now) k past }
    {
        self.all[k]
    }

    pub fn set(&mut self, at: usize, item: T)
        requires { at < length (usable self.old) }
        ensures all { usable self.new ≡ slice_set (usable self.old) at item }
        ensures used { self.new.used ≡ self.old.used }
        ensures len { length (usable self.new) ≡ length (usable self.old) }
        ensures stays { StaysLent self.old self.new }
    {
        self.all[at] = item;
    }

    /// Puts one more behind what is in use.
    pub fn push(&mut self, item: T)
        requires { self.old.used < length (usable self.old) }
        ensures all { usable self.new ≡ slice_set (usable self.old) self.old.used item }
        ensures used { self.new.used ≡ self.old.used + 1 }
        ensures len { length (usable self.new) ≡ length (usable self.old) }
        ensures stays { StaysLent self.old self.new }
    {
        self.set(self.used, item);
        self.used += 1;
    }

    /// A part of it, from `from` up to `end`.
    pub fn part(&self, from: usize, end: usize) -> &[T]
        requires order { from ≤ end }
        requires within { end ≤ length (usable self.now) }
        ensures value { result.now ≡ take (end - from) (drop from (usable self.now)) }
        ensures len { length result.now ≡ end - from }
    {
        &self.all[from..end]
    }

    /// What is in use of it from `from` on.
    pub fn tail(&self, from: usize) -> &[T]
        requires order { from ≤ self.now.used }
        requires within { self.now.used ≤ length (usable self.now) }
        ensures value { result.now ≡ take (self.now.used - from) (drop from (usable self.now)) }
        ensures len { length result.now ≡ self.now.used - from }
    {
        self.part(from, self.used)
    }
}

impl Lent<'_, u8> {
    /// Whether a piece fits behind what is in use.
    pub fn fits<P: Piece>(&self, piece: &P) -> bool
        requires { self.now.used ≤ length (usable self.now) }
        ensures fits { result ≡ nat_le (self.now.used + length (P.bytes piece.now)) (length (usable self.now)) }
    {
        let room = self.room();
        piece.bound() <= room || piece.size() <= room
    }

    /// The size of a piece that fits behind what is in use; none where it does not fit.
    // Always measured: `fits` asks the bound first, and has no size to tell.
    pub fn fitting_size<P: Piece>(&self, piece: &P) -> Option<usize>
        requires { self.now.used ≤ length (usable self.now) }
        ensures size { MatchOption result (length (usable self.now) < self.now.used + length (P.bytes piece.now)) (λ size. (size ≡ length (P.bytes piece.now)) × (self.now.used + length (P.bytes piece.now) ≤ length (usable self.now))) }
    {
        let size = piece.size();
        (size <= self.room()).then_some(size)
    }

    /// Lays a piece behind what is in use.
    pub fn append<P: Piece>(&mut self, piece: &P)
        requires { self.old.used + length (P.bytes piece.now) ≤ length (usable self.old) }
        ensures all { usable self.new ≡ laid (usable self.old) self.old.used (P.bytes piece.now) }
        ensures used { self.new.used ≡ self.old.used + length (P.bytes piece.now) }
        ensures front { take self.new.used (usable self.new) ≡ take self.old.used (usable self.old) ++ P.bytes piece.now }
        ensures len { length (usable self.new) ≡ length (usable self.old) }
        ensures stays { StaysLent self.old self.new }
    {
        self.used = piece.lay(self.all, self.used);
    }

    /// Puts a piece in at `at`: what is in use from there on comes behind it. Answers where it ends.
    pub fn insert<P: Piece>(&mut self, at: usize, piece: &P) -> usize
        requires within { at ≤ self.old.used }
        requires room { self.old.used + length (P.bytes piece.now) ≤ length (usable self.old) }
        ensures end { result ≡ at + length (P.bytes piece.now) }
        ensures all { usable self.new ≡ opened (usable self.old) at self.old.used (P.bytes piece.now) }
        ensures used { self.new.used ≡ self.old.used + length (P.bytes piece.now) }
        ensures len { length (usable self.new) ≡ length (usable self.old) }
        ensures stays { StaysLent self.old self.new }
    {
        self.insert_sized(at, piece, piece.size())
    }

    /// Puts a piece of this size in at `at`, for a caller that has measured it: what is in use from there on comes behind it.
    /// Answers where it ends.
    pub fn insert_sized<P: Piece>(&mut self, at: usize, piece: &P, size: usize) -> usize
        requires within { at ≤ self.old.used }
        requires room { self.old.used + length (P.bytes piece.now) ≤ length (usable self.old) }
        requires size { size ≡ length (P.bytes piece.now) }
        ensures end { result ≡ at + length (P.bytes piece.now) }
        ensures all { usable self.new ≡ opened (usable self.old) at self.old.used (P.bytes piece.now) }
        ensures used { self.new.used ≡ self.old.used + length (P.bytes piece.now) }
        ensures len { length (usable self.new) ≡ length (usable self.old) }
        ensures stays { StaysLent self.old self.new }
    {
        self.used = shift(self.all, at, self.used, size);
        piece.lay(self.all, at)
    }
}
