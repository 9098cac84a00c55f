//! What the program tells as text (profile): the lines of an output, and the totals of a replay.
#![tactic(auto)]

mod digits;
pub mod laws;
mod lines;
mod summary;
#[cfg(test)]
mod tests;
mod words;

pub use lines::{write_line, write_summary};
pub use summary::Summary;
pub use words::Text;
