//! The framing of the program's input and output (profile): bytes to frames however the reads are cut, and frames to bytes.
#![tactic(auto)]

mod buffer;
mod frames;
mod judge;
pub mod laws;
mod payloads;
mod pulling;
mod reader;
mod refill;
#[cfg(test)]
mod tests;
mod writing;

pub use buffer::WriteBuffer;
pub use frames::{
    BENCH_KIND, END_KIND, FIRST_MAGIC, Frame, FrameFault, HEAD_SIZE, LONGEST_EVENT, MAGIC_SIZE,
    ORDER_EVENT, OUT_END_KIND, OUT_MAGIC, OutFrame, Place, REPLY_KIND, REPLY_SIZE, REQUEST_KIND,
    REQUEST_SIZE, Reason, TURN_KIND, VERSION_PLACE, VERSION_TWO, Version, WriteFault,
};
pub use pulling::{PullError, fill, pull};
pub use reader::FrameReader;
pub use refill::pull_data;
pub use writing::{gather, gather_data, push, sent_len, write_frame, write_reply};
