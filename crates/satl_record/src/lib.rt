//! Recorded runs: a record is read, judged for the drive that is handed in, and what is found is told in a line.
#![tactic(auto)]

mod container;
mod fault;
mod identity;
mod recording;
mod telling;

pub use fault::RecordFault;
pub use recording::audit_record;
