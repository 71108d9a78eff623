// The style of a writer. It is made before any writer, and only here can refusal 10 arise.
ghost use Rattle.std.specs.Prelude.{◌≡◌, true, false, MatchResult};
ghost use Rattle.style.specs.Indents.{allowed};
ghost use Rattle.refusal.specs.Refusals.{Refuses};

use crate::indentation::Indentation;
use refusal::Refusal;

/// How a tag without content is written.
#[derive(Clone, Copy, PartialEq, Eq, Debug)]
pub enum EmptyElementHandling {
    /// `<n/>`
    SelfClosed,
    /// `<n />`
    SelfClosedWithSpace,
    /// `<n></n>`
    Expanded,
}

/// The form of empty tags and the indentation. Its indent byte is a tab or a space and its size at most 16, always.
#[derive(Clone, Copy, PartialEq, Eq, Debug)]
pub struct Style {
    empty_elements: EmptyElementHandling,
    indentation: Option<Indentation>,
    ghost narrow: { allowed indentation ≡ true },
}

impl Style {
    pub fn new(
        empty_elements: EmptyElementHandling,
        indentation: Option<Indentation>,
    ) -> Result<Style, Refusal>
        ensures cases { MatchResult result (λ s. (s.empty_elements ≡ empty_elements) × (s.indentation ≡ indentation)) (λ e. (allowed indentation ≡ false) × Refuses 10 0 e) }
    {
        let barred = |indent: Indentation| !matches!(indent.byte, b'\t' | b' ') || indent.size > 16;
        if indentation.is_some_and(barred) {
            return Err(Refusal::Style);
        }
        Ok(Style {
            empty_elements,
            indentation,
        })
    }

    pub fn empty_elements(&self) -> EmptyElementHandling
        ensures value { result ≡ self.now.empty_elements }
    {
        self.empty_elements
    }

    pub fn indentation(&self) -> Option<Indentation>
        ensures value { result ≡ self.now.indentation }
        ensures narrow { allowed result ≡ true }
    {
        self.indentation
    }
}
