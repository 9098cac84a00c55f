//! Where bytes come from and where they go, each with a count of its faults.
#![tactic(auto)]

mod buffered_edge;
mod memory;
mod sink;
mod source;
mod std_edge;
#[cfg(test)]
mod tests;

pub use buffered_edge::BufferedSource;
pub use memory::{MemorySink, MemorySource, NeverFails};
pub use sink::Sink;
pub use source::{Failed, Source};
pub use std_edge::{StdSink, StdSource};
