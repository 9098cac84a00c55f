//! An input of frames is served: it is carried out frame by frame, and its answers are written in a form.
#![tactic(auto)]

mod printer;
mod serving;
mod telling;

pub use serving::{ServeFault, serve, serve_uncounted, tell_stop};
pub use telling::Form;
