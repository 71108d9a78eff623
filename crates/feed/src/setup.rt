// The settings of a writer, each with the line that a want of it is told at.
ghost use Rattle.std.specs.Prelude.{◌≡◌};
ghost use Rattle.feed.specs.Setups.{defaults, setup_after, LastCounts};

use script::{Layout, Line, Numbered, SinkChoice, Sizes};
use style::EmptyElementHandling;
use xml::QuoteLevel;

/// A setting, and the line that it comes from: a default comes from the line that the writer begins at.
#[derive(Clone, Copy, PartialEq, Eq, Debug)]
pub struct Setting<T> {
    pub value: T,
    pub line: usize,
}

/// What a writer is made of, and the escaping rule of the calls that come next.
#[derive(Clone, Copy, PartialEq, Eq, Debug)]
pub struct Setup {
    pub style: Setting<Layout>,
    pub memory: Setting<Sizes>,
    pub sink: Setting<SinkChoice>,
    pub level: QuoteLevel,
}

impl Setup {
    /// The defaults, for a writer that begins at this line.
    pub fn new(line: usize) -> Setup
        ensures value { result ≡ defaults line }
    {
        let layout = Layout {
            empty_elements: EmptyElementHandling::SelfClosed,
            indentation: None,
        };
        let sizes = Sizes {
            stage: 65536,
            names: 4096,
            frames: 64,
        };
        Setup {
            style: Setting {
                value: layout,
                line,
            },
            memory: Setting { value: sizes, line },
            sink: Setting {
                value: SinkChoice::Buffer(65536),
                line,
            },
            level: QuoteLevel::Partial,
        }
    }

    /// What holds after a line.
    pub fn after(self, numbered: &Numbered) -> Setup
        ensures value { result ≡ setup_after self numbered.now.number numbered.now.line }
    {
        let line = numbered.number;
        match numbered.line {
            Line::New => Setup::new(line),
            Line::Style(value) => Setup {
                style: Setting { value, line },
                ..self
            },
            Line::Memory(value) => Setup {
                memory: Setting { value, line },
                ..self
            },
            Line::Sink(value) => Setup {
                sink: Setting { value, line },
                ..self
            },
            Line::Level(level) => Setup { level, ..self },
            _ => self,
        }
    }
}

/// Of several lines that set the same the last one counts, and a line leaves what it does not set.
// No code in it, since a contract is what names a theorem.
pub fn law_last_counts()
    ensures law { LastCounts }
{}
