// The small steps on the writer's memory.
// `put` and `put_in_tag` refuse what does not fit; a caller of the others has asked for the room first.
ghost use Rattle.std.specs.Prelude.{◌≡◌, ℕ, ◌+◌, ◌<◌, ◌≤◌, Bool, length};
ghost use Rattle.memory.specs.Lending.{usable};
ghost use Rattle.engine.specs.Frames.{next_place};
ghost use Rattle.engine.specs.Memory.{mem, buf, Put, PutInTag, lead_among, pushed, settled, emptied, top_frame, frame_at};

use crate::frames::{lengthen_tag, settle_frame};
use crate::state::Core;
use memory::{Lent, Piece, Run};
use model::{Frame, Kind, Place};
use refusal::Refusal;
use style::WriteResult;

/// The `<` of a tag, and before it an indent or none: a line feed and a run of the indent byte.
pub type Lead = (Option<([u8; 1], Run)>, [u8; 1]);

/// Puts a piece behind what is in use of the stage, or refuses it where it does not fit.
// Inlined, since else the piece is put together in memory first.
#[inline(always)]
pub fn put<P: Piece>(stage: &mut Lent<'_, u8>, piece: &P) -> Result<(), Refusal>
    requires { stage.old.used ≤ length (usable stage.old) }
    ensures puts { Put result (P.bytes piece.now) (buf stage.old) (buf stage.new) }
{
    if !stage.fits(piece) {
        return Err(Refusal::Stage);
    }
    stage.append(piece);
    Ok(())
}

// Where the next field or item of this open thing goes.
fn place_in(frame: Frame, wordy: bool) -> Place
    ensures value { result ≡ next_place frame.kind wordy frame.from }
{
    match frame.kind {
        Kind::Record => Place::Field,
        Kind::Named => Place::Element(frame.from),
        Kind::Content => Place::Content(!wordy),
        Kind::List => Place::Field,
    }
}

impl Core<'_> {
    /// The frame of the innermost open thing.
    pub fn top(&self) -> Frame
        requires open { 0 < self.now.frames.used }
        requires within { self.now.frames.used ≤ length (usable self.now.frames) }
        ensures value { result ≡ top_frame (mem self.now) }
    {
        self.frames.get(self.frames.used - 1)
    }

    /// The `<` of a tag in the innermost open thing, with or without an indent before it; `around` is how many records are open
    /// around the tag.
    pub fn lead(&self, around: usize) -> Lead
        requires open { 0 < self.now.frames.used }
        requires within { self.now.frames.used ≤ length (usable self.now.frames) }
        requires small { around ≤ 64 }
        ensures value { ⟦<Lead as Piece>⟧.bytes result ≡ lead_among (mem self.now) around }
        ensures small { length (⟦<Lead as Piece>⟧.bytes result) ≤ 1026 }
    {
        let indented = self.top().flag & !self.wordy;
        match self.style.indentation() {
            Some(indent) if indented => {
                let run = Run {
                    byte: indent.byte,
                    count: indent.size * around,
                };
                (Some((*b"\n", run)), *b"<")
            }
            _ => (None, *b"<"),
        }
    }

    /// Puts a piece in at the end of the open tag of the record whose frame stands at `frame`, before its children, or refuses
    /// it where it does not fit.
    pub fn put_in_tag<P: Piece>(&mut self, frame: usize, piece: &P) -> Result<(), Refusal>
        requires used { self.old.stage.used ≤ length (usable self.old.stage) }
        requires within { frame < length (usable self.old.frames) }
        requires tag { (frame_at (mem self.old) frame).tag ≤ self.old.stage.used }
        ensures puts { PutInTag result frame (P.bytes piece.now) (mem self.old) (mem self.new) }
    {
        // Measured once, since the children move by its size.
        let size = self.stage.fitting_size(piece).ok_or(Refusal::Stage)?;
        let tag = self.frames.get(frame).tag;
        let end = self.stage.insert_sized(tag, piece, size);
        lengthen_tag(self.frames.all, frame, end);
        Ok(())
    }

    /// Takes a frame.
    pub fn push(&mut self, frame: Frame)
        requires { self.old.frames.used < length (usable self.old.frames) }
        ensures memory { mem self.new ≡ pushed frame (mem self.old) }
    {
        self.frames.push(frame);
    }

    /// A value with this result is complete.
    pub fn settle(&mut self, res: WriteResult)
        requires open { 0 < self.old.frames.used }
        requires within { self.old.frames.used ≤ length (usable self.old.frames) }
        ensures memory { mem self.new ≡ settled res (mem self.old) }
    {
        let at = self.frames.used - 1;
        let frame = settle_frame(self.frames.all, at, res);
        self.names.used = frame.keep;
        self.place = place_in(frame, self.wordy);
    }

    /// Nothing is in use any more.
    pub fn clear(&mut self)
        ensures memory { mem self.new ≡ emptied (mem self.old) }
    {
        self.stage.used = 0;
        self.names.used = 0;
        self.frames.used = 0;
        self.records = 0;
        self.place = Place::Idle;
    }
}
