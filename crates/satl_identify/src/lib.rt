//! IDENTIFY DEVICE data: what the layer reads from them, and the data with their settings brought up to date.
#![tactic(auto)]

mod identity;
mod reading;
#[cfg(test)]
mod tests;
pub mod words;
mod writing;

pub use identity::{Identity, IdentityFault};
pub use reading::{has_trim, read_identity};
pub use words::{bit_at, has_integrity, is_valid, word_at};
pub use writing::{INTEGRITY, SETTINGS, balance, identity_bytes, settings_of};
