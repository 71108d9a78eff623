// The writer: calls that put a record together in the caller's memory, and hand it to a sink whole.
#![tactic(auto)]

mod call;
mod history;
mod replay;
mod sending;
mod ticket;
mod writer;

pub use call::Call;
pub use history::law_histories;
pub use places::Value;
pub use replay::{Answer, Step};
pub use ticket::Ticket;
pub use writer::Writer;
