// Codes of commands, and values of registers, each with the bits that are 1 in it (ACS-3 6 and 7).

ghost use Rattle.std.specs.Prelude.{◌≡◌};
ghost use Rattle.satl_regs.specs.Effects.{is_bad};

use crate::values::Taskfile;

// COMMAND, in the order of the codes (ACS-3, the commands of these names).

/// DATA SET MANAGEMENT.
pub const DATA_SET_MANAGEMENT: u8 = 0x06;

/// READ SECTOR(S).
pub const READ_SECTORS: u8 = 0x20;

/// READ SECTOR(S) EXT.
pub const READ_SECTORS_EXT: u8 = 0x24;

/// READ DMA EXT.
pub const READ_DMA_EXT: u8 = 0x25;

/// READ LOG EXT.
pub const READ_LOG_EXT: u8 = 0x2F;

/// WRITE SECTOR(S).
pub const WRITE_SECTORS: u8 = 0x30;

/// WRITE SECTOR(S) EXT.
pub const WRITE_SECTORS_EXT: u8 = 0x34;

/// WRITE DMA EXT.
pub const WRITE_DMA_EXT: u8 = 0x35;

/// READ VERIFY SECTOR(S).
pub const READ_VERIFY: u8 = 0x40;

/// READ VERIFY SECTOR(S) EXT.
pub const READ_VERIFY_EXT: u8 = 0x42;

/// READ FPDMA QUEUED.
pub const READ_QUEUED: u8 = 0x60;

/// WRITE FPDMA QUEUED.
pub const WRITE_QUEUED: u8 = 0x61;

/// SEND FPDMA QUEUED, here the queued trim (profile).
pub const SEND_QUEUED: u8 = 0x64;

/// SMART.
pub const SMART: u8 = 0xB0;

/// READ DMA.
pub const READ_DMA: u8 = 0xC8;

/// WRITE DMA.
pub const WRITE_DMA: u8 = 0xCA;

/// STANDBY IMMEDIATE.
pub const STANDBY_IMMEDIATE: u8 = 0xE0;

/// IDLE IMMEDIATE.
pub const IDLE_IMMEDIATE: u8 = 0xE1;

/// CHECK POWER MODE.
pub const CHECK_POWER_MODE: u8 = 0xE5;

/// FLUSH CACHE.
pub const FLUSH_CACHE: u8 = 0xE7;

/// FLUSH CACHE EXT.
pub const FLUSH_CACHE_EXT: u8 = 0xEA;

/// IDENTIFY DEVICE.
pub const IDENTIFY_DEVICE: u8 = 0xEC;

/// SET FEATURES.
pub const SET_FEATURES: u8 = 0xEF;

/// FEATURES of DATA SET MANAGEMENT: TRIM (ACS-3, DATA SET MANAGEMENT).
pub const TRIM: u16 = 0x0001;

/// FEATURES(7:0) of SMART: RETURN STATUS (ACS-3, SMART RETURN STATUS).
pub const SMART_RETURN_STATUS: u16 = 0xDA;

/// LBA of SMART RETURN STATUS, to the drive and, where no threshold is exceeded, from it: C24Fh in LBA(23:8) (ACS-3, SMART
/// RETURN STATUS).
pub const SMART_SIGNATURE: u64 = 0xC2_4F00;

/// The lowest bit of the tag in COUNT of a queued command: it is COUNT(7:3) (ACS-3, READ FPDMA QUEUED).
pub const TAG_PLACE: u32 = 3;

/// DEVICE(6), which is 1 in each command: LBA addresses (ACS-3, DEVICE field).
pub const DEVICE_LBA: u8 = 0x40;

/// The bit of DEVICE that is FUA in a queued command (ACS-3, WRITE FPDMA QUEUED).
pub const FUA_PLACE: u32 = 7;

/// DEVICE(7) of a queued command: FUA (ACS-3, WRITE FPDMA QUEUED).
pub const DEVICE_FUA: u8 = 1 << FUA_PLACE;

/// STATUS at a good end: DRDY.
pub const GOOD_STATUS: u8 = 0x40;

/// STATUS at a bad end: DRDY and ERR.
pub const BAD_STATUS: u8 = 0x41;

/// ERROR at a CRC error: ICRC and ABRT.
pub const ICRC_ABRT: u8 = 0x84;

/// ERROR at a flawed sector: UNC.
pub const UNC: u8 = 0x40;

/// ERROR at an address outside the capacity: IDNF.
pub const IDNF: u8 = 0x10;

/// ERROR of a command that is refused: ABRT.
pub const ABRT: u8 = 0x04;

impl Taskfile {
    /// Whether the command ended with an error: ERR of STATUS is 1 (ACS-3 6).
    pub fn is_bad(&self) -> bool
        ensures { result ≡ is_bad self.now }
    {
        self.status & 1 == 1
    }
}
