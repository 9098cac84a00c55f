//! The registers of ATA commands, queued and not, and the payload of a trim.
#![tactic(auto)]

mod codes;
mod fields;
mod queued;
mod reading;
mod setting;
#[cfg(test)]
mod tests;
mod trim;
mod values;
mod writing;

pub use codes::{
    ABRT, BAD_STATUS, DEVICE_LBA, GOOD_STATUS, ICRC_ABRT, IDENTIFY_DEVICE, IDNF, SMART_SIGNATURE,
    UNC,
};
pub use fields::{low_16, low_24, top_4_of_28};
pub use queued::{put_queued, queued_of};
pub use reading::command_of;
pub use setting::Setting;
pub use trim::{read_trim, trim_bytes};
pub use values::{AtaCommand, How, Queued, QueuedKind, Registers, Taskfile};
pub use writing::put_command;
