// Runs sheet scripts: makes the calls of each writer, and writes what its sink then holds, or its trace.
#![tactic(auto)]

mod feeding;
mod outlet;
mod printing;
mod running;
mod stop;
mod want;

pub use feeding::{Feeding, Output};
pub use outlet::Outlet;
pub use printing::{law_told_in_order, print_xml};
pub use running::{Outcome, Ran, run};
pub use stop::Stop;
pub use want::Want;
