// Names that come on the name stack, and records that open.
ghost use Rattle.std.specs.Prelude.{◌≡◌, ◌+◌, ◌<◌, ◌≤◌, ◌++◌, length, IfOk};
ghost use Rattle.memory.specs.Lending.{usable};
ghost use Rattle.engine.specs.Memory.{mem, Safe, name_put};
ghost use Rattle.engine.specs.Opening.{FrameFree, Named, Awaits, begun, Opens};

use crate::checks::check_name;
use crate::kernel::{Lead, put};
use crate::state::Core;
use memory::Piece;
use model::{Frame, Place};
use refusal::Refusal;
use xml::XmlName;

impl Core<'_> {
    /// Whether a frame is free.
    pub fn frame_free(&self) -> Result<(), Refusal>
        requires { self.now.frames.used ≤ length (usable self.now.frames) }
        ensures free { FrameFree result (mem self.now) }
    {
        if self.frames.room() == 0 {
            return Err(Refusal::Depth);
        }
        Ok(())
    }

    /// The name that this text is, if it is one and the name stack has room for it.
    pub fn fitting_name<'n>(&self, text: &'n str) -> Result<XmlName<'n>, Refusal>
        requires { self.now.names.used ≤ length (usable self.now.names) }
        ensures same { IfOk result (λ name. name.name.now ≡ text.now) }
        ensures named { Named result text.now (mem self.now) }
    {
        let name = check_name(text)?;
        if !self.names.fits(&text.as_bytes()) {
            return Err(Refusal::Stack);
        }
        Ok(name)
    }

    /// Puts a name on the name stack, and answers where it begins there.
    pub fn push_name(&mut self, name: &[u8]) -> usize
        requires { self.old.names.used + length name.now ≤ length (usable self.old.names) }
        ensures start { result ≡ self.old.names.used }
        ensures memory { mem self.new ≡ name_put name.now (mem self.old) }
    {
        let from = self.names.used;
        self.names.append(&name);
        from
    }

    /// The next value becomes an element of this name.
    pub fn await_element(&mut self, text: &str) -> Result<(), Refusal>
        requires { self.old.names.used ≤ length (usable self.old.names) }
        ensures awaits { Awaits result text.now (mem self.old) (mem self.new) }
    {
        let name = self.fitting_name(text)?;
        let from = self.push_name(name.as_str().as_bytes());
        self.place = Place::Element(from);
        Ok(())
    }

    /// A record begins whose tag's start stands last on the stage and whose name stands last on the name stack, from `from` on:
    /// it has no children yet, and its first field is awaited.
    pub fn begin_record(&mut self, from: usize)
        requires free { self.old.frames.used < length (usable self.old.frames) }
        requires records { self.old.records ≤ 64 }
        ensures memory { mem self.new ≡ begun from (mem self.old) }
    {
        self.push(Frame::record(self.stage.used, self.names.used, from));
        self.records += 1;
        self.wordy = false;
        self.place = Place::Field;
    }

    /// Opens a record of this name, if it is one: the start of its tag is the lead and the name. A refusal changes nothing, so the
    /// tag is written first, and the name goes on the name stack once nothing more can be refused.
    pub fn open_record(&mut self, lead: Lead, text: &str) -> Result<(), Refusal>
        requires safe { Safe (mem self.old) }
        ensures opens { Opens result (⟦<Lead as Piece>⟧.bytes lead) text.now (mem self.old) (mem self.new) }
    {
        let name = self.fitting_name(text)?;
        self.frame_free()?;
        put(&mut self.stage, &(lead, text.as_bytes()))?;
        let from = self.push_name(name.as_str().as_bytes());
        self.begin_record(from);
        Ok(())
    }
}
