//! Values that every layer shares: blocks and pages, requests and replies, bench events, mode values and steps. Beside
//! them, in `specs/`, stand the words of the byte tables, of IDENTIFY data and of the cells of a medium.
#![tactic(auto)]

mod bench;
mod block;
mod bytes;
mod chain;
pub mod laws;
mod lender;
mod limits;
mod modes;
mod pages;
mod reply;
mod request;
mod sequence;
mod steps;

pub use bench::{BenchEvent, OrderBytes, Which};
pub use block::{BLOCK_BYTES, Block, Range};
pub use bytes::{append, are_zeros, checksum_of, push_used};
pub use lender::Lender;
pub use limits::{
    INPUT_LIMIT, LONGEST_DATA, MOST_COVERED, MOST_HELD, MOST_MOVED, MOST_RANGES, MOST_TASKS,
    NEXUSES, PIECE, QUEUE_DEPTH,
};
pub use modes::{ModeChange, Modes};
pub use pages::{Blocks, NoMemory, Page, Pages, Pieces};
pub use reply::{Replies, Reply, Response, Scsi, SenseBytes};
pub use request::{Attr, Manage, Nexus, Request, Tag};
pub use sequence::Sequence;
pub use steps::Steps;

#[cfg(test)]
mod tests;
