// The writer and what is always true of it.
ghost use Rattle.std.specs.Prelude.{◌≡◌};
ghost use Rattle.engine.specs.Memory.{mem};
ghost use Rattle.places.specs.Sound.{Sound, Sizes};
ghost use Rattle.writer.specs.Starting.{starting};

use engine::Core;
use memory::Lent;
use model::{Frame, Place};
use style::Style;

mod calls;

// No more of the caller's memory is ever used.
const STAGE: usize = 65536;

const NAMES: usize = 4096;

const FRAMES: usize = 64;

/// A writer over the caller's memory. What the caller lends holds, at every moment, the record that the accepted calls
/// have put together so far, and nothing else of it ever changes.
#[derive(Drop)]
pub struct Writer<'a> {
    core: Core<'a>,
    ghost sound: { Sound (mem core) },
    ghost sizes: { Sizes (mem core) },
}

impl<'a> Writer<'a> {
    /// A new writer, which is idle. It keeps the very slices that are lent, and uses the first 65,536 bytes of the stage, the
    /// first 4,096 bytes of the name stack and the first 64 frames at most.
    pub fn new(
        style: Style,
        stage: &'a mut [u8],
        names: &'a mut [u8],
        frames: &'a mut [Frame],
    ) -> Writer<'a>
        ensures memory { mem result.core ≡ starting style.empty_elements style.indentation stage.entry names.entry frames.entry }
    {
        Writer {
            core: Core {
                stage: Lent::first(stage, STAGE),
                names: Lent::first(names, NAMES),
                frames: Lent::first(frames, FRAMES),
                records: 0,
                place: Place::Idle,
                wordy: false,
                style,
            },
        }
    }
}
