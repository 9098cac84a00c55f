//! The layer: it serves a SCSI block device on an ATA drive.
#![tactic(auto)]

mod alone;
mod benching;
mod leaving;
mod managing;
mod medium;
mod passing;
mod queueing;
mod satl;
mod selecting;
mod submitting;
mod turning;

pub use satl::{OpenFault, Satl};
