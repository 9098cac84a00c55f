//! The direct device: what a SCSI host sees. Its definitions stand in `specs/`, laws of its single steps in `laws.rt`; laws of
//! whole runs are contracts of satl_laws, and runs of it stand in satl_scenarios.
#![tactic(auto)]

pub mod laws;
