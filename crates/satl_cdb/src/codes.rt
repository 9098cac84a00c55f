// Codes of commands: their operation codes, byte 0 of a command descriptor block, and a service action (SPC-4, SBC-3 and SAT-3,
// operation codes).

/// TEST UNIT READY (SPC-4).
pub const TEST_UNIT_READY: u8 = 0x00;

/// REQUEST SENSE (SPC-4 6.39).
pub const REQUEST_SENSE: u8 = 0x03;

/// READ (6) (SBC-3).
pub const READ_6: u8 = 0x08;

/// WRITE (6) (SBC-3).
pub const WRITE_6: u8 = 0x0A;

/// INQUIRY (SPC-4 6.6).
pub const INQUIRY: u8 = 0x12;

/// MODE SELECT (6) (SPC-4).
pub const MODE_SELECT_6: u8 = 0x15;

/// MODE SENSE (6) (SPC-4).
pub const MODE_SENSE_6: u8 = 0x1A;

/// START STOP UNIT (SBC-3).
pub const START_STOP_UNIT: u8 = 0x1B;

/// READ CAPACITY (10) (SBC-3).
pub const READ_CAPACITY_10: u8 = 0x25;

/// READ (10) (SBC-3).
pub const READ_10: u8 = 0x28;

/// WRITE (10) (SBC-3).
pub const WRITE_10: u8 = 0x2A;

/// VERIFY (10) (SBC-3).
pub const VERIFY_10: u8 = 0x2F;

/// SYNCHRONIZE CACHE (10) (SBC-3).
pub const SYNCHRONIZE_CACHE_10: u8 = 0x35;

/// WRITE SAME (10) (SBC-3).
pub const WRITE_SAME_10: u8 = 0x41;

/// UNMAP (SBC-3).
pub const UNMAP: u8 = 0x42;

/// MODE SELECT (10) (SPC-4).
pub const MODE_SELECT_10: u8 = 0x55;

/// MODE SENSE (10) (SPC-4).
pub const MODE_SENSE_10: u8 = 0x5A;

/// ATA PASS-THROUGH (16) (SAT-3).
pub const PASS_THROUGH_16: u8 = 0x85;

/// READ (16) (SBC-3).
pub const READ_16: u8 = 0x88;

/// WRITE (16) (SBC-3).
pub const WRITE_16: u8 = 0x8A;

/// VERIFY (16) (SBC-3).
pub const VERIFY_16: u8 = 0x8F;

/// SYNCHRONIZE CACHE (16) (SBC-3).
pub const SYNCHRONIZE_CACHE_16: u8 = 0x91;

/// WRITE SAME (16) (SBC-3).
pub const WRITE_SAME_16: u8 = 0x93;

/// SERVICE ACTION IN (16) (SPC-4).
pub const SERVICE_ACTION_IN_16: u8 = 0x9E;

/// REPORT LUNS (SPC-4 6.33).
pub const REPORT_LUNS: u8 = 0xA0;

/// ATA PASS-THROUGH (12) (SAT-3).
pub const PASS_THROUGH_12: u8 = 0xA1;

/// READ (12) (SBC-3).
pub const READ_12: u8 = 0xA8;

/// WRITE (12) (SBC-3).
pub const WRITE_12: u8 = 0xAA;

/// VERIFY (12) (SBC-3).
pub const VERIFY_12: u8 = 0xAF;

/// SERVICE ACTION of READ CAPACITY (16), byte 1 bits 4 to 0 (SBC-3, READ CAPACITY (16) command).
pub const READ_CAPACITY_16: u8 = 0x10;
