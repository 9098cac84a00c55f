//! One event on one unit, and the frames of an input one after the other: each is carried out on the layer, and what it answers
//! is told before the next is read.
#![tactic(auto)]

mod events;
mod frames_loop;
pub mod laws;
mod queue;
mod replies;
mod teller;
mod turns;

pub use events::serve_event;
pub use frames_loop::{Stop, is_end, serve_frames};
pub use queue::see_queue;
pub use teller::Teller;
