// Frames of the input and of the output, and why bytes are none.
ghost use Rattle.std.specs.Prelude.{◌≡◌};
ghost use Rattle.satl_frame.specs.Faults.{reason_code};

use satl_base::{BenchEvent, Manage, Nexus, Reply, Request, Response, Tag};
use satl_io::Failed;

/// What the magic of an input begins with (profile). Behind it stands the version.
pub const MAGIC_NAME: [u8; 7] = *b"SATLRPL";

/// The place of the version in the magic of an input (profile).
pub const VERSION_PLACE: usize = 7;

/// Version 1 as the magic names it (profile).
pub const VERSION_ONE: u8 = b'1';

/// Version 2 as the magic names it (profile).
pub const VERSION_TWO: u8 = b'2';

/// The magic of an input of version 1 (profile).
pub const FIRST_MAGIC: [u8; 8] = *b"SATLRPL1";

/// The magic of an output (profile).
pub const OUT_MAGIC: [u8; 8] = *b"SATLRSP1";

/// The bytes of a magic (profile).
pub const MAGIC_SIZE: usize = 8;

/// The bytes of a frame before its payload: kind 1, length of the payload 4 (profile).
pub const HEAD_SIZE: usize = 5;

/// The bytes of a REQUEST before its data-out, in version 1: nexus 1, attribute 1, LUN 8, tag 4, CDB 16 (profile).
pub const REQUEST_SIZE: usize = 30;

/// The bytes of a REQUEST before its data-out, in version 2: those of version 1, expected 4 (profile).
pub const LATER_REQUEST_SIZE: usize = 34;

/// The bytes of a reply before its sense, in version 1: nexus 1, status 1, tag 4, sense length 1 (profile).
pub const REPLY_SIZE: u32 = 7;

/// The bytes of a reply before its sense, in version 2: those of version 1, residual 4 (profile).
pub const LATER_REPLY_SIZE: u32 = 11;

/// Kind of an input's frame: REQUEST (profile).
pub const REQUEST_KIND: u8 = 0x01;

/// Kind of an input's frame: MANAGE (profile).
pub const MANAGE_KIND: u8 = 0x02;

/// Kind of an input's frame: TURN (profile).
pub const TURN_KIND: u8 = 0x03;

/// Kind of an input's frame: BENCH (profile).
pub const BENCH_KIND: u8 = 0x04;

/// Kind of an input's frame: END (profile).
pub const END_KIND: u8 = 0x05;

/// Kind of an output's frame: a reply of version 1 (profile).
pub const REPLY_KIND: u8 = 0x81;

/// Kind of an output's frame: the response to a task management function (profile).
pub const MANAGED_KIND: u8 = 0x82;

/// Kind of an output's frame: a reply of version 2 (profile).
pub const LATER_REPLY_KIND: u8 = 0x83;

/// Kind of an output's frame: END (profile).
pub const OUT_END_KIND: u8 = 0x85;

/// Kind of an output's frame: FAULT (profile).
pub const FAULT_KIND: u8 = 0x8F;

/// Event of a BENCH: STRIKE (profile).
pub const STRIKE_EVENT: u8 = 1;

/// Event of a BENCH: MEND (profile).
pub const MEND_EVENT: u8 = 2;

/// Event of a BENCH: GLITCH (profile).
pub const GLITCH_EVENT: u8 = 3;

/// Event of a BENCH: ORDER (profile).
pub const ORDER_EVENT: u8 = 4;

/// Event of a BENCH: POWER (profile).
pub const POWER_EVENT: u8 = 5;

/// Event of a BENCH: UNPLUG (profile).
pub const UNPLUG_EVENT: u8 = 6;

/// The most bytes of an event of the test bench, and so of the payload of each frame but a request: those of an ORDER with 256
/// bytes (profile).
pub const LONGEST_EVENT: usize = 257;

/// The version of an input, which its magic names (profile). In version 2 each request says how many bytes of
/// data-in the host takes.
#[derive(Clone, Copy, Debug, PartialEq, Eq)]
pub enum Version {
    /// Version 1: no request says it.
    One,
    /// Version 2: each request says it.
    Two,
}

/// A frame of the input (profile). Order bytes stand in the room that it was read to.
#[derive(Drop)]
pub enum Frame<'a> {
    /// A SCSI command arrives.
    Request(Request),
    /// A task management function arrives.
    Manage(Manage),
    /// So many turns of the device.
    Turn(u16),
    /// Something happens to the drive.
    Bench(BenchEvent<'a>),
    /// The end of the input.
    End,
}

/// Why bytes are no frame (profile).
#[derive(Clone, Copy, Debug, PartialEq, Eq)]
pub enum Reason {
    /// The input begins with no magic of an accepted version.
    BadMagic,
    /// No frame has this kind.
    BadKind,
    /// No payload of this kind has this length.
    BadLength,
    /// A field has a value that its kind does not allow.
    BadField,
    /// The input ends before the magic or the frame does.
    Truncated,
    /// The frame ends behind the limit of the input, or bytes stand behind END.
    TooLong,
}

impl Reason {
    /// The number of the reason in a FAULT frame, 1 to 6 (profile).
    pub fn code(&self) -> u8
        ensures { result ≡ reason_code self.now }
    {
        match self {
            Reason::BadMagic => 1,
            Reason::BadKind => 2,
            Reason::BadLength => 3,
            Reason::BadField => 4,
            Reason::Truncated => 5,
            Reason::TooLong => 6,
        }
    }
}

/// Why there is no next frame (profile).
#[derive(Clone, Copy, Debug, PartialEq, Eq)]
pub enum FrameFault {
    /// What stands at the offset is refused.
    Bad {
        /// Why it is.
        reason: Reason,
        /// Where the first byte of the refused frame stands in the input, or 0 for the magic.
        offset: u64,
    },
    /// A read failed.
    ReadFault,
}

/// Where a frame stands behind the magic: the version of the input, and the offset in bytes (profile).
#[derive(Clone, Copy, Debug, PartialEq, Eq)]
pub struct Place {
    /// The version that the magic names.
    pub version: Version,
    /// How many bytes stand before the frame.
    pub offset: u64,
}

/// A frame of the output (profile).
#[derive(Clone, Copy)]
pub enum OutFrame<'a> {
    /// What stands before all frames.
    Magic,
    /// The answer to a command.
    Reply(&'a Reply),
    /// The answer to a task management function.
    Managed {
        /// The nexus that asked for it.
        nexus: Nexus,
        /// The code of the function.
        function: u8,
        /// What it is answered.
        response: Response,
        /// The tag of the task that it is about.
        tag: Tag,
    },
    /// The end of a whole input was reached.
    End,
    /// The input is refused.
    Fault {
        /// Why it is.
        reason: Reason,
        /// Where the first byte of what is refused stands in the input.
        offset: u64,
    },
}

/// A write failed, and a front of the frame's bytes was written (profile).
#[derive(Clone, Copy, Debug, PartialEq, Eq)]
pub struct WriteFault;

impl From<Failed> for WriteFault {
    fn from(_: Failed) -> WriteFault {
        WriteFault
    }
}
