//! The wrappers of USB Mass Storage Class Bulk-Only Transport: a command on the wire, and its status.
#![tactic(auto)]

mod command;
mod status;
#[cfg(test)]
mod tests;

pub use command::{CBW_SIZE, Cbw, read_cbw};
pub use status::{CswStatus, csw_bytes};
