//! What holds of all runs of the device, and outcomes that no run has.
#![tactic(auto)]

pub mod laws;
pub mod never;
pub mod single;
