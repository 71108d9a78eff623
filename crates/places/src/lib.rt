// Where each call goes: the writer's place and the call together decide what is written.
#![tactic(auto)]

mod calls;
mod value;

pub use calls::{begin, begin_field, end_at, take_value};
pub use value::Value;
