// What opens and closes: rows and lists, and their ends.
#![tactic(auto)]

mod ends;
mod rows;

pub use ends::end_row;
pub use rows::{row_as_list, row_at_content, row_at_element, take_frame};
