// The end of a record.
#![tactic(auto)]

mod record;

pub use record::end_record;
