//! Unit attention conditions and the order in which they are reported, and task management functions by their codes.
#![tactic(auto)]

mod attention;
mod attentions;
mod function;
pub mod laws;

pub use attention::{AdditionalSense, Attention};
pub use attentions::{Attentions, no_attentions, powered_on};
pub use function::{Function, NEXUS_RESET};

#[cfg(test)]
mod tests;
