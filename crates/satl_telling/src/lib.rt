//! What the device says of itself, as data-in: INQUIRY data and vital product data, mode pages, capacities, the list of LUNs
//! and sense data, cut to the allocation length, in pages of the pool.
#![tactic(auto)]

mod telling;

pub use telling::{Data, padded, tell};

#[cfg(test)]
mod tests;
