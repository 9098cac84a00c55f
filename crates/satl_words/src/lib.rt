//! The words of the program: what they ask for. Plain words are understood without a parser; all others are what clap makes of
//! them.
#![tactic(auto)]

mod asking;
mod line;
mod modes;
mod numbers;
mod plain;

pub use asking::{WordsFault, mode_asked};
pub use line::command;
pub use modes::Mode;
pub use plain::plain_mode;
