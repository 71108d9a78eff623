// What the key of a field does at the field place, and what an item does in a list that is a text.
#![tactic(auto)]

mod items;
mod keys;

pub use items::string_as_item;
pub use keys::field;
