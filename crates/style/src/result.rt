// What a written value was, as far as the layout of what follows depends on it.
ghost use Rattle.std.specs.Prelude.{◌≡◌};
ghost use Rattle.style.specs.Results.{allows_indent, says_text};

/// Classification of what a value wrote.
#[derive(Clone, Copy, PartialEq, Eq, Debug)]
pub enum WriteResult {
    /// Text in which spaces do not matter.
    Text,
    /// A tag.
    Element,
    /// Nothing, and an indent may follow.
    Nothing,
    /// Text in which every space matters: no indent may follow.
    SensitiveText,
    /// Nothing, as for a missing value, and an indent after it could change what is said.
    SensitiveNothing,
}

impl WriteResult {
    /// Whether an indent may be written after it.
    pub fn allow_indent(&self) -> bool
        ensures value { result ≡ allows_indent self.now }
    {
        matches!(self, WriteResult::Element | WriteResult::Nothing)
    }

    /// Whether it was text.
    pub fn is_text(&self) -> bool
        ensures value { result ≡ says_text self.now }
    {
        matches!(self, WriteResult::Text | WriteResult::SensitiveText)
    }
}
