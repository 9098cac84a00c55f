// What a host sends: commands and task management functions.
ghost use Rattle.std.specs.Prelude.{◌≡◌, ◌≤◌, SomeIff};

use crate::pages::Pages;
use std::marker::Model;

/// The number of an I_T nexus, 0 to 3 (SAM-5 4.7; that there are four is the profile's).
#[derive(Clone, Copy, Debug, PartialEq, Eq)]
pub struct Nexus {
    number: u8,
}

impl Model for Nexus {
    ghost use Rattle.std.specs.Prelude.{ℕ, ◌≤◌};

    ghost Value = { ℕ };

    ghost view = { λ n. n.number };

    ghost invariant = { λ n. n.number ≤ 3 };

    ghost inverse = { λ n. record { number = n } };
}

impl Nexus {
    /// The nexus of that number (SAM-5 4.7). None exactly where it exceeds 3.
    pub fn new(number: u8) -> Option<Nexus>
        ensures { SomeIff result (number ≤ 3) number }
    {
        if number <= 3 {
            Some(Nexus { number })
        } else {
            None
        }
    }

    /// The number of the nexus, 0 to 3 (SAM-5 4.7).
    pub fn number(&self) -> u8
        ensures value { result ≡ self.now }
        ensures small { self.now ≤ 3 }
    {
        self.number
    }
}

impl Default for Nexus {
    ghost use Rattle.std.specs.Prelude.{◌≡◌};

    ghost is_default = { λ n. n ≡ 0 };

    /// Nexus 0 (profile).
    fn default() -> Nexus {
        Nexus { number: 0 }
    }
}

/// A command identifier of 32 bits (SAM-5, command identifier).
#[derive(Clone, Copy, Debug, Default, PartialEq, Eq)]
pub struct Tag(pub u32);

/// The task attribute of a command (SAM-5 8.6). HEAD OF QUEUE and ACA are left out by the profile.
#[derive(Clone, Copy, Debug, PartialEq, Eq)]
pub enum Attr {
    /// SIMPLE: it may be carried out before or behind others.
    Simple,
    /// ORDERED: it is carried out behind all that came before it, and before all that come behind it.
    Ordered,
}

/// A SCSI command as it arrives (SAM-5 5.1, Execute Command).
#[derive(Drop)]
pub struct Request {
    // LUN and CDB come first, so that each field begins on a border of eight bytes or lies between two: a copy that reads eight
    // bytes at once would else wait until those of two fields were written.
    /// The logical unit number, in 8 bytes (SAM-5 4.6).
    pub lun: [u8; 8],
    /// A CDB shorter than 16 bytes stands at the front.
    pub cdb: [u8; 16],
    /// The tag that the nexus gave it.
    pub tag: Tag,
    /// The nexus that sent it.
    pub nexus: Nexus,
    /// The task attribute (SAM-5 8.6).
    pub attr: Attr,
    /// The data-out, in as many pages as were free.
    pub body: Pages,
    /// The number of bytes of the data-out.
    pub data_len: u32,
    /// How many bytes of data-in the host takes, where it says so: at most 2,097,152 (profile).
    pub expected: Option<u32>,
}

/// A task management function as it arrives (SAM-5 7). The codes are the profile's.
#[derive(Clone, Copy, Debug, PartialEq, Eq)]
pub struct Manage {
    /// The nexus that sent it.
    pub nexus: Nexus,
    /// The code of the function (profile).
    pub function: u8,
    /// The logical unit number, in 8 bytes (SAM-5 4.6).
    pub lun: [u8; 8],
    /// The tag of the task that it is about.
    pub tag: Tag,
}
