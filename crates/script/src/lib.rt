// Sheet scripts: text files of writer calls, one to a line, read line by line.
#![tactic(auto)]

mod cuts;
mod escapes;
mod fault;
mod line;
mod numbers;
mod order;
mod reader;
mod settings;
mod words;

pub use cuts::{cut, law_cut_at_the_first};
pub use escapes::{law_any_bytes, law_read_by_pieces, unescape};
pub use fault::{Fault, ScriptError};
pub use line::{Line, Numbered, read_line};
pub use numbers::number;
pub use order::{Phase, Role, law_set_up_first};
pub use reader::{Script, read_in_phase, split_line};
pub use settings::{Layout, SinkChoice, Sizes};
pub use words::{Word, law_words_told_apart};

#[cfg(test)]
mod tests;
