// What a host is answered.
ghost use Rattle.std.specs.Prelude.{◌≡◌, ◌<◌, ◌≤◌, ◌++◌, ◌∷◌, [], Some, drop, length, slice_get};
ghost use Rattle.std.specs.Option.{option_map};
ghost use Rattle.satl_base.specs.Codes.{response_code, scsi_code};

use crate::pages::Pages;
use crate::request::{Nexus, Tag};
use arrayvec::ArrayVec;
use std::alloc::Global;
use std::default::MadeWith;
use std::marker::Model;

/// The status of a command (SAM-5 5.3.1).
#[derive(Clone, Copy, Debug, PartialEq, Eq)]
pub enum Scsi {
    /// GOOD: the command was carried out.
    Good,
    /// CHECK CONDITION: sense data say what there is to tell, mostly why it was not.
    CheckCondition,
    /// TASK SET FULL: there was no room for a task.
    TaskSetFull,
}

impl Scsi {
    /// The status code: 00h, 02h or 28h (SAM-5 5.3.1).
    pub fn code(&self) -> u8
        ensures { result ≡ scsi_code self.now }
    {
        match self {
            Scsi::Good => 0x00,
            Scsi::CheckCondition => 0x02,
            Scsi::TaskSetFull => 0x28,
        }
    }
}

/// The answer to a task management function (SAM-5 7.1).
#[derive(Clone, Copy, Debug, PartialEq, Eq)]
pub enum Response {
    /// FUNCTION COMPLETE: it was carried out.
    Complete,
    /// FUNCTION REJECTED: it is none of the functions.
    Rejected,
    /// FUNCTION SUCCEEDED: what a query asked for is there.
    Succeeded,
    /// INCORRECT LOGICAL UNIT NUMBER: no unit has the LUN.
    IncorrectLun,
}

impl Response {
    /// The response code: 00h, 04h, 08h or 09h (profile).
    pub fn code(&self) -> u8
        ensures { result ≡ response_code self.now }
    {
        match self {
            Response::Complete => 0x00,
            Response::Rejected => 0x04,
            Response::Succeeded => 0x08,
            Response::IncorrectLun => 0x09,
        }
    }
}

/// Sense data of at most 32 bytes (SPC-4 4.5).
pub type SenseBytes = ArrayVec<u8, 32>;

/// The answer to one command (SAM-5 5.1, Execute Command).
#[derive(Drop)]
pub struct Reply {
    /// The nexus of the request.
    pub nexus: Nexus,
    /// The tag of the request.
    pub tag: Tag,
    /// The status (SAM-5 5.3).
    pub status: Scsi,
    /// The sense data, empty with GOOD (SPC-4 4.5).
    pub sense: SenseBytes,
    /// The data-in, in blocks that have room for it.
    pub body: Pages,
    /// The number of bytes of the data-in.
    pub data_len: u32,
    /// How many bytes of data-in the host takes, where the command said so (profile).
    pub expected: Option<u32>,
}

// What an empty place of a list of replies holds.
impl MadeWith<Global> for Reply {
    fn made_with(alloc: Global) -> Reply {
        Reply {
            nexus: Nexus::default(),
            tag: Tag::default(),
            status: Scsi::Good,
            sense: ArrayVec::new(),
            body: Pages::none(alloc),
            data_len: 0,
            expected: None,
        }
    }
}

/// At most 65 replies, in order (profile): one for each task of a full set, and one more. It takes no memory of its own.
#[derive(Drop)]
pub struct Replies {
    replies: ArrayVec<Reply, 65, Global>,
}

impl Model for Replies {
    ghost use Rattle.std.specs.Prelude.{List};
    ghost use Rattle.satl_base.specs.declared.reply.Reply.{Reply};

    ghost Value = { List Reply };

    ghost view = { λ r. r.replies.items };
}

impl Replies {
    /// No reply (profile). It takes no memory.
    pub fn new(alloc: Global) -> Replies
        ensures { result ≡ [] }
    {
        Replies {
            replies: ArrayVec::new_in(alloc),
        }
    }

    /// Appends a reply, the 65th at most (profile).
    pub fn push(&mut self, reply: Reply)
        requires { length self.old < 65 }
        ensures { self.new ≡ self.old ++ reply ∷ [] }
    {
        self.replies.push(reply);
    }

    /// The first reply (profile).
    pub fn first(&self) -> &Reply
        requires { 0 < length self.now }
        ensures { self.now ≡ result.now ∷ drop 1 self.now }
    {
        &self.replies[0]
    }

    /// Takes the first reply off, and gives its data-in (profile).
    pub fn remove_first(&mut self) -> Pages
        requires { 0 < length self.old }
        ensures data { option_map (λ reply. reply.body) (slice_get self.old 0) ≡ Some result }
        ensures rest { self.new ≡ drop 1 self.old }
    {
        let Reply { body, .. } = self.replies.remove(0);
        body
    }

    /// The number of replies, at most 65 (profile).
    pub fn len(&self) -> usize
        ensures count { result ≡ length self.now }
        ensures few { length self.now ≤ 65 }
    {
        self.replies.len()
    }
}
