// What XML asks of bytes: well-formed text, names, and escaping.
#![tactic(auto)]

mod chosen;
mod escape;
mod name;
mod text;

pub use escape::{EscapeRule, Escaped, QuoteLevel, Unescaped, Use, escape_into, escaped_len};
pub use name::XmlName;
pub use text::well_formed;

#[cfg(test)]
mod tests;
