// Logical blocks and ranges of them.

/// How many bytes a logical block has (SBC-3, LOGICAL BLOCK LENGTH; the size is fixed by the profile).
pub const BLOCK_BYTES: u32 = 512;

/// A logical block of 512 bytes (SBC-3 4.5; the size is fixed by the profile).
#[derive(Clone, Copy, Debug, PartialEq, Eq)]
pub struct Block {
    /// Its 512 bytes.
    pub bytes: [u8; 512],
}

impl Block {
    ghost use Rattle.std.specs.Prelude.{◌≡◌, length};
    ghost use Rattle.satl_base.specs.Blocks.{zero_block};

    /// A block of 512 bytes of zero (profile).
    pub fn zero() -> Block
        ensures { result ≡ zero_block }
    {
        Block { bytes: [0; 512] }
    }

    /// The 512 bytes of the block (SBC-3 4.5).
    pub fn as_bytes(&self) -> &[u8]
        ensures value { result.now ≡ self.now.bytes }
        ensures size { length self.now.bytes ≡ 512 }
    {
        &self.bytes
    }
}

/// `count` blocks from the address `lba` on (SBC-3, LBA and NUMBER OF LOGICAL BLOCKS).
#[derive(Clone, Copy, Debug, Default, PartialEq, Eq)]
pub struct Range {
    /// The logical block address of the first block.
    pub lba: u64,
    /// The number of blocks.
    pub count: u32,
}

impl Range {
    ghost use Rattle.std.specs.Prelude.{◌≡◌, ◌+◌, nat_lt};

    /// Whether it goes past the last of so many blocks.
    pub fn goes_past(self, capacity: u64) -> bool
        ensures { result ≡ nat_lt capacity (self.lba + self.count) }
    {
        u64::from(self.count) > capacity || self.lba > capacity - u64::from(self.count)
    }
}
