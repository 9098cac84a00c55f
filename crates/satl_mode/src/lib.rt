//! Mode pages: what MODE SENSE answers, and what a MODE SELECT parameter list sets (SPC-4 7.5, SBC-3; the values that those
//! leave open, and the refusals, are the profile's).
#![tactic(auto)]

mod bits;
mod change;
mod descriptor;
pub mod laws;
mod page;
mod select;
mod sense;

pub use change::{apply, select_change};
pub use page::defaults;
pub use satl_base::{ModeChange, Modes};
pub use select::read_select;
pub use sense::{ModeSense, mode_sense};

#[cfg(test)]
mod tests;
