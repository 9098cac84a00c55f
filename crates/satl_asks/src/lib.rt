//! What a request and its command ask for, and the sense data of a refusal: facts that the layer and the auditor judge by.
#![tactic(auto)]

mod commands;
mod requests;
mod senses;
#[cfg(test)]
mod tests;

pub use commands::{
    change_of, fields_fault, held_blocks, length_fault, listed_ranges, needed, put_ranges, range_of,
};
pub use requests::{goes_before_attentions, is_for_unit, is_ordered, is_unit_0};
pub use senses::{
    attention_sense, link_lost, miscompare, no_sense, not_ready, out_of_range, overlapped,
    refusal_sense, short_data, unknown_unit,
};
