//! Says which recorded inputs can be audited, and why and where another is refused.
#![tactic(auto)]

mod covering;
mod fault;
mod frames;
mod known;
pub mod laws;
mod nothing;
mod noting;
mod slice;
#[cfg(test)]
mod tests;

pub use covering::cover;
pub use fault::AuditFault;
pub use nothing::NoPages;
pub use slice::Slice;
