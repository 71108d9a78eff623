// From the lines of a script to the settings and the calls of each writer, and from answers to the lines that tell them.
#![tactic(auto)]

mod batch;
mod call_line;
mod calling;
mod setup;
mod telling;

pub use batch::{Batch, law_sections};
pub use call_line::CallLine;
pub use calling::{law_one_call_each, steps_of};
pub use setup::{Setting, Setup, law_last_counts};
pub use telling::{Counted, Told, Traced, bytes_line};
