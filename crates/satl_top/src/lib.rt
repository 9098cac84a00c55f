//! The top call: all that the program does, from its words to its exit status.
#![tactic(auto)]

mod auditing;
mod bridging;
pub mod laws;
mod loading;
mod several;
mod status;
mod top;

pub use bridging::bridge;
pub use loading::load;
pub use several::{fleet, is_fleet, program};
pub use status::Status;
pub use top::satl;
