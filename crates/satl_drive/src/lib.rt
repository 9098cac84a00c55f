//! What the layer asks of a drive: the calls, the rules that every drive keeps, and laws of these rules.
#![tactic(auto)]

mod drive;
pub mod laws;

pub use drive::{Bench, Drive, LinkDown, Report};
pub use satl_regs::{Registers, Taskfile};
