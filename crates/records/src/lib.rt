// Values at a content place that bring a name, and records at a value place.
#![tactic(auto)]

mod names;
mod tags;
mod variants;

pub use names::{variant_row_at_content, wrapped_at_content};
pub use tags::{record_at_content, record_at_element, variant_record_at_content};
pub use variants::variant_at_content;
