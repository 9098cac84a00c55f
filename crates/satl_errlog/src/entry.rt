// What the log says.

/// The queued command that failed, and the registers at its end (ACS-3 annex A, NCQ Command Error log).
///
/// `tag` is below 32, and `lba` has 48 bits. `key`, `asc` and `ascq` are sense data, 0 where the drive gives none.
#[derive(Clone, Copy, Debug, PartialEq, Eq)]
pub struct NcqError {
    /// NCQ TAG of the command that failed, 0 to 31.
    pub tag: u8,
    /// STATUS.
    pub status: u8,
    /// ERROR.
    pub error: u8,
    /// LBA, 48 bits.
    pub lba: u64,
    /// DEVICE.
    pub device: u8,
    /// COUNT, 16 bits.
    pub count: u16,
    /// SENSE KEY.
    pub key: u8,
    /// ADDITIONAL SENSE CODE.
    pub asc: u8,
    /// ADDITIONAL SENSE CODE QUALIFIER.
    pub ascq: u8,
}

/// Why a log has no entry (ACS-3 annex A, NCQ Command Error log).
#[derive(Clone, Copy, Debug, PartialEq, Eq)]
pub enum LogFault {
    /// The bytes sum to this modulo 256, and not to 0 (CHECKSUM, byte 511).
    BadChecksum { sum: u8 },
    /// The command that failed was not queued, or none failed (NQ, byte 0 bit 7).
    NotQueued,
}
