// Values of the fields of sense data (SPC-4 4.5).

/// RESPONSE CODE of current errors in the fixed form (SPC-4 4.5.3).
pub const FIXED_CODE: u8 = 0x70;

/// RESPONSE CODE of current errors in the descriptor form (SPC-4 4.5.2).
pub const DESCRIPTOR_CODE: u8 = 0x72;

/// The bits of SENSE KEY in its byte (SPC-4 4.5.2).
pub const SENSE_KEY: u8 = 0x0F;

/// VALID: INFORMATION says something. It stands beside RESPONSE CODE in the fixed form, and in the information descriptor
/// (SPC-4 4.5.2.2 and 4.5.3).
pub const VALID: u8 = 0x80;

/// SKSV: SENSE KEY SPECIFIC says something (SPC-4 4.5.2.4).
pub const SKSV: u8 = 0x80;

/// The place of C/D in its byte.
pub const COMMAND_DATA_BIT: u8 = 6;

/// C/D: the field pointer points into the CDB (SPC-4 4.5.2.4.2).
pub const COMMAND_DATA: u8 = 1 << COMMAND_DATA_BIT;

/// DESCRIPTOR TYPE and ADDITIONAL LENGTH, two bytes that each descriptor begins with (SPC-4 4.5.2.1).
const HEAD_SIZE: u8 = 2;

/// DESCRIPTOR TYPE of the information descriptor (SPC-4 4.5.2.2).
pub const INFORMATION_TYPE: u8 = 0x00;

/// Its ADDITIONAL LENGTH.
pub const INFORMATION_LENGTH: u8 = 0x0A;

/// Its size in bytes.
pub const INFORMATION_SIZE: u8 = HEAD_SIZE + INFORMATION_LENGTH;

/// DESCRIPTOR TYPE of the sense key specific descriptor (SPC-4 4.5.2.4).
pub const POINTER_TYPE: u8 = 0x02;

/// Its ADDITIONAL LENGTH.
pub const POINTER_LENGTH: u8 = 0x06;

/// Its size in bytes.
pub const POINTER_SIZE: u8 = HEAD_SIZE + POINTER_LENGTH;

/// DESCRIPTOR TYPE of the ATA Status Return descriptor (SAT-3 12.2.2.6).
pub const ATA_TYPE: u8 = 0x09;

/// Its ADDITIONAL LENGTH.
pub const ATA_LENGTH: u8 = 0x0C;

/// Its size in bytes.
pub const ATA_SIZE: u8 = HEAD_SIZE + ATA_LENGTH;

/// ADDITIONAL SENSE LENGTH of the fixed form: 10 of the 18 bytes stand behind it (SPC-4 4.5.3).
pub const FIXED_LENGTH: u8 = 0x0A;

/// EXTEND of an ATA Status Return in the fixed form: the command had 48-bit registers (profile).
pub const EXTEND: u8 = 0x80;

/// COUNT UPPER NONZERO there: COUNT(15:8) is not 0 (profile).
pub const COUNT_UPPER_NONZERO: u8 = 0x40;

/// LBA UPPER NONZERO there: LBA(47:24) is not 0 (profile).
pub const LBA_UPPER_NONZERO: u8 = 0x20;
