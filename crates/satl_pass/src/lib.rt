//! ATA PASS-THROUGH: what a command descriptor block asks for, and how the command's end is told to the host (SAT-3 12.2;
//! which values are refused is the profile's).
#![tactic(auto)]

mod fields;
mod pass;
mod reading;
mod status;
mod transfers;

pub use fields::pass_of;
pub use pass::Pass;
pub use reading::{plan, read_pass};
pub use status::{error_sense, error_sense_at, status_return};

#[cfg(test)]
mod tests;
