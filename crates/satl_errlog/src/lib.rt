//! The NCQ Command Error log: which queued command failed, and how (ACS-3 annex A, log address 10h).
#![tactic(auto)]

mod entry;
mod log;
#[cfg(test)]
mod tests;

pub use entry::{LogFault, NcqError};
pub use log::{LOG_ADDRESS, log_bytes, no_error_log, read_log};
