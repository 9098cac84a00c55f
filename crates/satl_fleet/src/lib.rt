//! Up to four drives as the logical units of one target: each frame goes to its units, and their answers are told in one
//! output.
#![tactic(auto)]

mod event;
mod frame;
mod frames_loop;
mod opening;
mod reporting;
mod routing;
mod serving;
mod shared;
mod telling;
mod unit;

pub use serving::serve_fleet;
