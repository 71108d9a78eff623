// Sinks: where finished records go, each at one stroke.
#![tactic(auto)]

mod buffer;
mod page;
mod paged;
mod pages;
mod sink;

pub use buffer::BufferSink;
pub use paged::PageSink;
pub use sink::Sink;

#[cfg(test)]
mod tests;
