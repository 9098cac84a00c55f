//! A generated input (profile): requests by random numbers, as a source whose bytes are made as they are read.
#![tactic(auto)]

mod ahead;
mod draw;
pub mod laws;
mod pieces;
mod source;
#[cfg(test)]
mod tests;

pub use source::GenSource;
