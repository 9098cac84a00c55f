//! Command descriptor blocks and the parameter list of UNMAP: the table of operation codes, both ways (SPC-4, SBC-3 and
//! SAT-3; which values are refused is the profile's).
#![tactic(auto)]

mod block;
mod codes;
mod command;
mod fields;
pub mod laws;
pub mod list;
pub mod mode_page;
mod primary;
mod reading;
mod unmap;
pub mod vital_page;
mod writing;

pub use codes::{INQUIRY, REPORT_LUNS, REQUEST_SENSE};
pub use command::{Command, Form, Illegal};
pub use fields::{desc, evpd, flag};
pub use reading::read_cdb;
pub use unmap::read_unmap_list;
pub use writing::write_cdb;

#[cfg(test)]
mod tests;
