// Limits of the profile that several crates have.

/// The most tasks that wait at once (profile).
pub const MOST_TASKS: usize = 64;

/// The most blocks that all waiting tasks hold together: 16,777,216 bytes (profile).
pub const MOST_HELD: u32 = 32_768;

/// The most blocks that one command moves: READ, WRITE, VERIFY with comparison and ATA PASS-THROUGH (profile).
pub const MOST_MOVED: u32 = 4096;

/// The most blocks that one command goes over without moving each: VERIFY without comparison, WRITE SAME, and an UNMAP in
/// all its ranges (profile).
pub const MOST_COVERED: u32 = 65_536;

/// The most ranges of one UNMAP (profile).
pub const MOST_RANGES: usize = 64;

/// The blocks of a piece, in which a WRITE SAME and a VERIFY with comparison go over their range (profile).
pub const PIECE: u32 = 64;

/// The nexuses that there are, numbered from 0 (profile).
pub const NEXUSES: usize = 4;

/// The most queued commands that a drive has at once, tags 0 to 31 (ACS-3, native command queuing).
pub const QUEUE_DEPTH: usize = 32;

/// Within how many bytes each frame, or each item of a bridge, ends in its input (profile).
pub const INPUT_LIMIT: u64 = 1 << 40;

/// The most bytes of data of one command: those of 4,096 blocks (profile).
pub const LONGEST_DATA: u32 = 2_097_152;
