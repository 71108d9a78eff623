// The writer without its property: the caller's memory, how much of it is in use, and where the writer stands.
use memory::Lent;
use model::{Frame, Place};
use style::Style;

/// A writer's memory and where it stands. What the calls rely on is no part of the type: it does not hold after each small
/// step, but only once a call is answered.
#[derive(Drop)]
pub struct Core<'a> {
    /// Each open tag followed by its children so far, from the outermost open record inward.
    pub stage: Lent<'a, u8>,
    /// The names of what is open.
    pub names: Lent<'a, u8>,
    /// What is open, outermost first.
    pub frames: Lent<'a, Frame>,
    /// How many of the frames in use are records; counted, so that no call walks the frames.
    pub records: usize,
    pub place: Place,
    /// Whether a text's bytes stand last in the innermost record.
    pub wordy: bool,
    pub style: Style,
}
