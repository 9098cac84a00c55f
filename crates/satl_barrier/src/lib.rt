//! One command carried out alone on a drive: nothing is outstanding, and `run` does it in one or several ATA commands. Clauses
//! speak of the drive alone.
#![tactic(auto)]

mod commands;
mod comparing;
mod finishing;
mod flushing;
mod passing;
mod settings;
mod trimming;
mod writing_same;

pub use commands::{run, tell_identity};
pub use comparing::{Comparison, compare, verify};
pub use finishing::Finish;
pub use flushing::{flush, switch};
pub use passing::pass_through;
pub use settings::{make_setting, tune};
pub use trimming::trim;
pub use writing_same::write_same;
