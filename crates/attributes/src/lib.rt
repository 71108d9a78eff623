// The values of attributes: a string, nothing, or a list of items, each put in at the end of the open tag.
#![tactic(auto)]

mod items;
mod tag;
mod values;

pub use items::{end_attribute_list, string_at_attribute_item};
pub use values::{none_at_attribute, row_at_attribute, string_at_attribute};
