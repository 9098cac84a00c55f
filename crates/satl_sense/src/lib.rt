//! Sense data in the fixed and the descriptor form: writing both, and reading the latter (SPC-4 4.5, SAT-3 12.2.2.6).
#![tactic(auto)]

mod codes;
pub mod laws;
mod reading;
mod sense;
mod writing;

pub use reading::{NotSense, read_sense};
pub use sense::{AtaReturn, Extra, Sense};
pub use writing::sense_bytes;

#[cfg(test)]
mod tests;
