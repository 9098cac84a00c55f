// Registers, and the commands that they spell.

/// What a host writes to start a command (ACS-3, command inputs). LBA has 48 bits.
#[derive(Clone, Copy, Debug, PartialEq, Eq)]
pub struct Registers {
    /// FEATURES, 16 bits.
    pub features: u16,
    /// COUNT, 16 bits.
    pub count: u16,
    /// LBA, 48 bits.
    pub lba: u64,
    /// DEVICE.
    pub device: u8,
    /// COMMAND.
    pub command: u8,
}

/// What the drive answers at the end of a command (ACS-3, normal and error outputs). LBA has 48 bits.
#[derive(Clone, Copy, Debug, PartialEq, Eq)]
pub struct Taskfile {
    /// ERROR.
    pub error: u8,
    /// COUNT, 16 bits.
    pub count: u16,
    /// LBA, 48 bits.
    pub lba: u64,
    /// DEVICE.
    pub device: u8,
    /// STATUS.
    pub status: u8,
}

/// What a queued command does (ACS-3, READ FPDMA QUEUED and WRITE FPDMA QUEUED; the queued trim is the profile's form of SEND
/// FPDMA QUEUED).
#[derive(Clone, Copy, Debug, PartialEq, Eq)]
pub enum QueuedKind {
    /// READ FPDMA QUEUED (ACS-3).
    Read,
    /// WRITE FPDMA QUEUED (ACS-3).
    Write,
    /// SEND FPDMA QUEUED, with one block of ranges as its payload (profile).
    Trim,
}

/// A queued command (ACS-3, READ FPDMA QUEUED, WRITE FPDMA QUEUED and SEND FPDMA QUEUED): 1 to 65,536 sectors from a 48-bit
/// address on, with a tag from 0 to 31. A trim has address 0 and one sector, its payload.
#[derive(Clone, Copy, Debug, PartialEq, Eq)]
pub struct Queued {
    /// A read, a write or a trim: COMMAND.
    pub kind: QueuedKind,
    /// The address of the first sector, LBA(47:0); 0 of a trim.
    pub lba: u64,
    /// The number of sectors of 512 bytes, in FEATURES(15:0); of a trim that of its blocks of entries.
    pub sectors: u32,
    /// NCQ TAG, 0 to 31: COUNT(7:3).
    pub tag: u8,
    /// FUA, DEVICE(7): a write goes past the cache.
    pub fua: bool,
}

/// How the data of a command move: PIO or DMA, with a 28-bit or a 48-bit address (ACS-3, the names of the commands).
#[derive(Clone, Copy, Debug, PartialEq, Eq)]
pub enum How {
    /// READ SECTOR(S), WRITE SECTOR(S): PIO, 28 bits.
    Pio,
    /// READ SECTOR(S) EXT, WRITE SECTOR(S) EXT: PIO, 48 bits.
    PioExt,
    /// READ DMA, WRITE DMA: DMA, 28 bits.
    Dma,
    /// READ DMA EXT, WRITE DMA EXT: DMA, 48 bits.
    DmaExt,
}

/// An ATA command that is not queued (ACS-3 section 7). Sectors and blocks are of 512 bytes, 1 to 65,536 of them, or 1 to 256
/// with a 28-bit address.
#[derive(Clone, Copy, Debug, PartialEq, Eq)]
pub enum AtaCommand {
    /// READ SECTOR(S), READ DMA and their EXT forms: sectors from the address LBA on, as many as COUNT tells.
    Read { how: How, lba: u64, sectors: u32 },
    /// WRITE SECTOR(S), WRITE DMA and their EXT forms: sectors from the address LBA on, as many as COUNT tells.
    Write { how: How, lba: u64, sectors: u32 },
    /// READ VERIFY SECTOR(S) or, with `ext`, its EXT form: sectors from the address LBA on, as many as COUNT tells.
    Verify { ext: bool, lba: u64, sectors: u32 },
    /// FLUSH CACHE or, with `ext`, FLUSH CACHE EXT.
    Flush { ext: bool },
    /// IDENTIFY DEVICE: one block of data.
    Identify,
    /// SET FEATURES: the subcommand, FEATURES(7:0).
    SetFeatures { what: u8 },
    /// STANDBY IMMEDIATE.
    Standby,
    /// IDLE IMMEDIATE.
    Idle,
    /// CHECK POWER MODE.
    CheckPower,
    /// READ LOG EXT: LOG ADDRESS, PAGE NUMBER, and COUNT of blocks.
    ReadLog { log: u8, page: u16, blocks: u32 },
    /// DATA SET MANAGEMENT with TRIM: COUNT of blocks of ranges.
    Trim { blocks: u32 },
    /// SMART RETURN STATUS.
    SmartStatus,
    /// A command that the profile does not have: COMMAND.
    Other { code: u8 },
}
