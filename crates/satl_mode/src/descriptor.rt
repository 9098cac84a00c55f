// The mode parameter block descriptors.

ghost use Rattle.std.specs.Prelude.{◌≡◌, ◌≤◌};
ghost use Rattle.satl_mode.specs.Descriptors.{descriptor_bytes, descriptor_shown, descriptor_size, short_capacity};

use arrayvec::ArrayVec;
use satl_base::append;

/// Which block descriptor stands behind the header (SBC-3, mode parameter block descriptors).
#[derive(Clone, Copy, Debug, PartialEq, Eq)]
pub enum Descriptor {
    /// None.
    Absent,
    /// The short one, of 8 bytes.
    Short,
    /// The long one, of 16 bytes, which goes with LONGLBA.
    Long,
}

/// A number of blocks in 4 bytes: FFFFFFFFh where it is larger.
pub fn short_capacity(capacity: u64) -> u32
    ensures { result ≡ short_capacity capacity }
{
    u32::try_from(capacity).unwrap_or(u32::MAX)
}

impl Descriptor {
    /// The descriptor that MODE SENSE shows.
    pub fn shown(ten: bool, long_lba: bool, no_descriptor: bool) -> Descriptor
        ensures { result ≡ descriptor_shown ten long_lba no_descriptor }
    {
        if no_descriptor {
            Descriptor::Absent
        } else if ten && long_lba {
            Descriptor::Long
        } else {
            Descriptor::Short
        }
    }

    /// The size in bytes.
    pub fn size(self) -> u8
        ensures value { result ≡ descriptor_size self }
        ensures most { result ≤ 16 }
    {
        match self {
            Descriptor::Absent => 0,
            Descriptor::Short => 8,
            Descriptor::Long => 16,
        }
    }

    /// The bytes, for a medium of `capacity` blocks.
    pub fn bytes(self, capacity: u64) -> ArrayVec<u8, 16>
        ensures { result.items ≡ descriptor_bytes self capacity }
    {
        let mut text = ArrayVec::new();
        match self {
            Descriptor::Absent => {}
            Descriptor::Short => {
                append(&mut text, &short_capacity(capacity).to_be_bytes()); // NUMBER OF LOGICAL BLOCKS
                append(&mut text, &[0, 0, 2, 0]); // LOGICAL BLOCK LENGTH
            }
            Descriptor::Long => {
                append(&mut text, &capacity.to_be_bytes()); // NUMBER OF LOGICAL BLOCKS
                append(&mut text, &[0, 0, 0, 0, 0, 0, 2, 0]); // LOGICAL BLOCK LENGTH
            }
        }
        text
    }
}
