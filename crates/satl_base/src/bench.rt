// What a test bench does to the drive.
ghost use Rattle.std.specs.Prelude.{◌≡◌};

use std::marker::Model;

/// The kind of a flaw of a sector (profile).
#[derive(Clone, Copy, Debug, PartialEq, Eq)]
pub enum Which {
    /// Reads of the sector fail.
    Read,
    /// Writes to the sector fail.
    Write,
}

/// Bytes that steer a drive's free choices, 1 to 256 in a frame, in the room that they were read to (profile). A clause sees
/// the bytes.
#[derive(Drop)]
pub struct OrderBytes<'a> {
    bytes: &'a [u8],
}

impl<'a> Model for OrderBytes<'a> {
    ghost use Rattle.std.specs.Prelude.{ℕ, List};

    ghost Value = { List ℕ };

    ghost view = { λ o. o.bytes.now };
}

impl<'a> OrderBytes<'a> {
    /// These bytes.
    pub fn new(bytes: &'a [u8]) -> OrderBytes<'a>
        ensures { result ≡ bytes.now }
    {
        OrderBytes { bytes }
    }

    /// The bytes.
    pub fn as_slice(&self) -> &[u8]
        ensures { result.now ≡ self.now }
    {
        self.bytes
    }
}

/// An event of the test bench (profile).
#[derive(Drop)]
pub enum BenchEvent<'a> {
    /// Sets a flaw of the sector at the address `lba`.
    Strike { which: Which, lba: u64 },
    /// Clears both flaws of the sector at the address `lba`.
    Mend { lba: u64 },
    /// So many transfers may end with a CRC error from now on.
    Glitch { count: u16 },
    /// Hands in bytes that steer the drive's free choices.
    Order { bytes: OrderBytes<'a> },
    /// A power cycle.
    Power,
    /// The link to the drive is lost.
    Unplug,
}
