// What sense data say.

/// The registers that an ATA command ended with (SAT-3 12.2.2.6, ATA Status Return).
#[derive(Clone, Copy, Debug, PartialEq, Eq)]
pub struct AtaReturn {
    /// The LBA registers at the end, 48 bits. The widest field stands first, which makes sense data 8 bytes smaller.
    pub lba: u64,
    /// The COUNT register at the end, 16 bits.
    pub count: u16,
    /// EXTEND: the command had 48-bit registers.
    pub extend: bool,
    /// The ERROR register at the end.
    pub error: u8,
    /// The DEVICE register at the end.
    pub device: u8,
    /// The STATUS register at the end.
    pub status: u8,
}

/// What sense data say beside the key and the codes (SPC-4 4.5.2).
#[derive(Clone, Copy, Debug, PartialEq, Eq)]
pub enum Extra {
    /// Nothing.
    None,
    /// The INFORMATION field: here the flawed address.
    Information(u64),
    /// The field pointer (SPC-4 4.5.2.4.2).
    Pointer {
        /// C/D: the byte at fault stands in the CDB, and not in the parameter list.
        in_cdb: bool,
        /// FIELD POINTER: its place there, counted in bytes from 0.
        byte: u16,
    },
    /// The registers at the end of an ATA command (SAT-3 12.2.2.6).
    Ata(AtaReturn),
}

/// Sense data: the sense key (0h to Fh), the additional sense code and its qualifier, and an extra (SPC-4 4.5).
#[derive(Clone, Copy, Debug, PartialEq, Eq)]
pub struct Sense {
    /// The sense key (SPC-4 4.5.6).
    pub key: u8,
    /// The additional sense code.
    pub asc: u8,
    /// Its qualifier.
    pub ascq: u8,
    /// What is told beside these.
    pub extra: Extra,
}
