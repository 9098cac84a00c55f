// What ATA PASS-THROUGH asks for.

use satl_regs::Registers;

/// An ATA command as a host spells it (SAT-3 12.2).
#[derive(Clone, Copy, Debug, PartialEq, Eq)]
pub struct Pass {
    /// PROTOCOL: 3 non-data, 4 PIO data-in, 5 PIO data-out, 6 DMA, 10 UDMA data-in, 11 UDMA data-out.
    pub protocol: u8,
    /// The registers have their high bytes.
    pub extend: bool,
    /// CK_COND: the registers are told at a good end too.
    pub ck_cond: bool,
    /// The data, if there are any, go to the drive.
    pub out: bool,
    /// The transfer length in bytes, at most 2,097,152.
    pub length: u32,
    /// The registers as they are run.
    pub regs: Registers,
}
