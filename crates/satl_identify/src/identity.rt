// What a drive says of itself.

/// What IDENTIFY DEVICE data say (ACS-3 7.12.7).
#[derive(Clone, Copy, Debug, PartialEq, Eq)]
pub struct Identity {
    /// The data themselves.
    pub bytes: [u8; 512],
    /// The number of sectors of 512 bytes, 1 to 2^48 - 1 (words 100 to 103).
    pub capacity: u64,
    /// Logical sectors in a physical sector, as a power of 2 (word 106, bits 3:0; 0 where bit 13 is 0).
    pub exponent: u8,
    /// DATA SET MANAGEMENT trims, and trimmed sectors read as zeros (word 169, bit 0; word 69, bits 14 and 5).
    pub trim: bool,
    /// It trims, and trims may be queued: there is SEND FPDMA QUEUED (word 77, bit 6).
    pub queued_trim: bool,
    /// There is a volatile write cache (word 82, bit 5).
    pub cache: bool,
    /// There is read look-ahead (word 82, bit 6).
    pub look: bool,
    /// The write cache is on (word 85, bit 5).
    pub cache_on: bool,
    /// Read look-ahead is on (word 85, bit 6).
    pub look_on: bool,
}

/// Why the layer does not serve a drive (profile).
#[derive(Clone, Copy, Debug, PartialEq, Eq)]
pub enum IdentityFault {
    /// It is no ATA device (ACS-3 7.12.7, word 0, bit 15).
    NotAta,
    /// The integrity word is there, and the 512 bytes do not sum to 0 modulo 256 (ACS-3 7.12.7, word 255).
    BadIntegrity,
    /// No LBA, DMA, 48-bit addresses or FLUSH CACHE EXT (ACS-3 7.12.7, words 49 and 83).
    NoLba48,
    /// No native command queuing with 32 tags (ACS-3 7.12.7, words 75 and 76).
    NoNcq,
    /// No sectors, or 2^48 and more (ACS-3 7.12.7, words 100 to 103).
    NoCapacity,
    /// Sectors of more than 512 bytes (ACS-3 7.12.7, word 106).
    NotBlock512,
}
