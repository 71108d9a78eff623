// The writer below its public face: what each call does to the memory that the caller lends.
#![tactic(auto)]

mod checks;
mod frames;
mod kernel;
mod opening;
mod state;

pub use checks::{check_bytes, check_name, is_text_name, is_value_name};
pub use frames::{lengthen_tag, settle_frame};
pub use kernel::{Lead, put};
pub use state::Core;
