// Places of bits in mode pages and in the mode parameter header.

/// PS: the page can be saved. It stands beside PAGE CODE, and MODE SELECT does not look at it (SPC-4 7.5).
pub const PS: u8 = 0x80;

/// The byte of AWRE (SBC-3, Read-Write Error Recovery mode page).
pub const AWRE_BYTE: usize = 2;

/// AWRE: a flawed block is put elsewhere when it is written.
pub const AWRE: u8 = 0x80;

/// The byte of WCE (SBC-3, Caching mode page).
pub const WCE_BYTE: usize = 2;

/// The place of WCE in its byte.
pub const WCE_BIT: u8 = 2;

/// WCE: the write cache is on.
pub const WCE: u8 = 1 << WCE_BIT;

/// The byte of DRA (SBC-3, Caching mode page).
pub const DRA_BYTE: usize = 12;

/// The place of DRA in its byte.
pub const DRA_BIT: u8 = 5;

/// DRA: look-ahead is off.
pub const DRA: u8 = 1 << DRA_BIT;

/// The byte of D_SENSE (SPC-4, Control mode page).
pub const D_SENSE_BYTE: usize = 2;

/// The place of D_SENSE in its byte.
pub const D_SENSE_BIT: u8 = 2;

/// D_SENSE: sense data are told in the descriptor form.
pub const D_SENSE: u8 = 1 << D_SENSE_BIT;

/// The byte of LONGLBA in the header of the commands of ten bytes (SPC-4 7.5).
pub const LONGLBA_BYTE: usize = 4;

/// LONGLBA: the block descriptor is the long one.
pub const LONGLBA: u8 = 0x01;

/// DPOFUA: DPO and FUA are allowed (SBC-3, mode parameter header).
pub const DPOFUA: u8 = 0x10;
