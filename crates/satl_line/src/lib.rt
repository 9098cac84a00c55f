//! The tasks that wait, in order of arrival, and which of them may be carried out.
#![tactic(auto)]

mod boxed;
mod conflict;
mod entry;
pub mod laws;
mod outline;
mod passed;
mod regions;
mod set;
mod slots;

pub use boxed::TaskBox;
pub use entry::{Entry, Kind};
pub use set::{TaskSet, TaskSetFull};
pub use slots::has_slot;
