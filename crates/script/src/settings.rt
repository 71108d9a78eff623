// The arguments of the set-up words.
ghost use Rattle.std.specs.Prelude.{◌≡◌, map};
ghost use Rattle.script.specs.Settings.{one_of, form_of, level_of, indentation_of, layout_of, sizes_of, sink_of};

use crate::cuts::{cut, part};
use crate::fault::Fault;
use crate::numbers::number;
use style::{EmptyElementHandling, Indentation};
use xml::QuoteLevel;

/// What `style` says. No style is made of it here, so it may yet be refused.
#[derive(Clone, Copy, PartialEq, Eq, Debug)]
pub struct Layout {
    pub empty_elements: EmptyElementHandling,
    pub indentation: Option<Indentation>,
}

/// What `memory` says: how many bytes, bytes and frames the writer is lent.
#[derive(Clone, Copy, PartialEq, Eq, Debug)]
pub struct Sizes {
    pub stage: usize,
    pub names: usize,
    pub frames: usize,
}

/// What `sink` says. Two kinds by name, and no Option: a number alone would not say what it sizes.
#[derive(Clone, Copy, PartialEq, Eq, Debug)]
pub enum SinkChoice {
    /// a buffer of so many bytes
    Buffer(usize),
    Pages,
}

const FORMS: [(&[u8], EmptyElementHandling); 3] = [
    (b"self-closed", EmptyElementHandling::SelfClosed),
    (
        b"self-closed-with-space",
        EmptyElementHandling::SelfClosedWithSpace,
    ),
    (b"expanded", EmptyElementHandling::Expanded),
];

const LEVELS: [(&[u8], QuoteLevel); 3] = [
    (b"full", QuoteLevel::Full),
    (b"partial", QuoteLevel::Partial),
    (b"minimal", QuoteLevel::Minimal),
];

// The setting that is written like this.
fn one_of<T: Copy>(text: &[u8], settings: &[(&[u8], T)]) -> Result<T, Fault>
    ensures value { result ≡ one_of text.now (map (λ s. (s.0.now, s.1)) settings.now) }
{
    settings
        .iter()
        .find(|setting| text == setting.0)
        .map(|setting| setting.1)
        .ok_or(Fault::BadSetting)
}

fn form_of(text: &[u8]) -> Result<EmptyElementHandling, Fault>
    ensures value { result ≡ form_of text.now }
{
    one_of(text, &FORMS)
}

/// `LEVEL`
pub fn level_of(text: &[u8]) -> Result<QuoteLevel, Fault>
    ensures value { result ≡ level_of text.now }
{
    one_of(text, &LEVELS)
}

fn indentation_of(text: &[u8]) -> Result<Indentation, Fault>
    ensures value { result ≡ indentation_of text.now }
{
    let (byte, size) = part(b' ', text);
    let byte = number(byte, 255)? as u8;
    let size = number(size, 65535)?;
    Ok(Indentation { byte, size })
}

/// `FORM` or `FORM BYTE SIZE`
pub fn layout_of(text: &[u8]) -> Result<Layout, Fault>
    ensures value { result ≡ layout_of text.now }
{
    let (form, indent) = cut(b' ', text);
    let empty_elements = form_of(form)?;
    let indentation = indent.map(indentation_of).transpose()?;
    Ok(Layout {
        empty_elements,
        indentation,
    })
}

/// `STAGE NAMES FRAMES`
pub fn sizes_of(text: &[u8]) -> Result<Sizes, Fault>
    ensures value { result ≡ sizes_of text.now }
{
    let (stage, rest) = part(b' ', text);
    let (names, frames) = part(b' ', rest);
    Ok(Sizes {
        stage: number(stage, usize::MAX)?,
        names: number(names, usize::MAX)?,
        frames: number(frames, usize::MAX)?,
    })
}

/// `pages` or `buffer N`
pub fn sink_of(text: &[u8]) -> Result<SinkChoice, Fault>
    ensures value { result ≡ sink_of text.now }
{
    // No table, since only `buffer` takes a number.
    if text == b"pages".as_slice() {
        return Ok(SinkChoice::Pages);
    }
    let (kind, size) = part(b' ', text);
    if kind != b"buffer".as_slice() {
        return Err(Fault::BadSetting);
    }
    Ok(SinkChoice::Buffer(number(size, usize::MAX)?))
}
