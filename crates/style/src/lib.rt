// How records are laid out: the form of empty tags, the indentation, and what a written value lets follow it.
#![tactic(auto)]

mod indentation;
mod result;
mod style;

pub use indentation::Indentation;
pub use result::WriteResult;
pub use style::{EmptyElementHandling, Style};

#[cfg(test)]
mod tests;
