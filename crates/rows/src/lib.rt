// What each call does at the places where a value becomes an element or a text, and the first call and the last: a function for
// each row of the places.
#![tactic(auto)]

mod element;
mod elements;
mod items;
mod roots;
mod words;

pub use element::{none_at_element, text_at_element, variant_at_element};
pub use elements::{Shut, shut};
pub use items::gap;
pub use roots::{abandon, open};
pub use words::{
    none_as_words, none_at_content, string_as_words, text_at_content, variant_at_text,
};
