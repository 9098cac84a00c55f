//! What the unit says of itself: standard INQUIRY data, vital product data, capacity and the list of LUNs (SPC-4, SBC-3,
//! SAT-3).
#![tactic(auto)]

mod capacity;
pub mod laws;
mod lun_list;
mod standard;
mod text;
mod vital;

pub use capacity::{capacity10, capacity16};
pub use lun_list::luns;
pub use standard::inquiry;
pub use vital::{VitalPage, vpd};

#[cfg(test)]
mod tests;
