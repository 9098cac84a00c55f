// What a command descriptor block asks for.

/// The length of a command descriptor block: 6, 10, 12 or 16 bytes (SPC-4 4.3).
#[derive(Clone, Copy, Debug, PartialEq, Eq)]
pub enum Form {
    /// 6 bytes: the address has 21 bits, the count 8, in which 0 means 256.
    Six,
    /// 10 bytes: the address has 32 bits, the count 16.
    Ten,
    /// 12 bytes: the address has 32 bits, the count 32.
    Twelve,
    /// 16 bytes: the address has 64 bits, the count 32.
    Sixteen,
}

/// A command with its fields (SPC-4 6, SBC-3 5, SAT-3 12.2). Counts are of logical blocks, lengths of bytes.
#[derive(Clone, Copy, Debug, PartialEq, Eq)]
pub enum Command {
    /// TEST UNIT READY (SPC-4).
    TestUnitReady,
    /// REQUEST SENSE (SPC-4 6.39).
    RequestSense {
        /// DESC: sense data in the descriptor form, and not in the fixed one.
        descriptor: bool,
        /// ALLOCATION LENGTH, in bytes.
        alloc: u8,
    },
    /// INQUIRY (SPC-4 6.6).
    Inquiry {
        /// PAGE CODE of vital product data where EVPD is 1, and `None` where it is 0: the standard data.
        page: Option<u8>,
        /// ALLOCATION LENGTH, in bytes.
        alloc: u16,
    },
    /// MODE SENSE (6) or, with `ten`, MODE SENSE (10) (SPC-4, commands of these names).
    ModeSense {
        /// The command is the one of 10 bytes.
        ten: bool,
        /// LLBAA: a block descriptor may have 64 bits of LBA. It is false in MODE SENSE (6).
        long_lba: bool,
        /// DBD: no block descriptor.
        no_descriptor: bool,
        /// PC, 0 to 2: current, changeable or default values.
        control: u8,
        /// PAGE CODE, with 3Fh for all pages.
        page: u8,
        /// ALLOCATION LENGTH, in bytes.
        alloc: u16,
    },
    /// MODE SELECT (6) or, with `ten`, MODE SELECT (10) (SPC-4, commands of these names).
    ModeSelect {
        /// The command is the one of 10 bytes.
        ten: bool,
        /// PARAMETER LIST LENGTH, in bytes.
        length: u16,
    },
    /// START STOP UNIT (SBC-3).
    StartStop {
        /// START: to be started, and not stopped.
        start: bool,
        /// NO_FLUSH: the cache is not written back.
        no_flush: bool,
    },
    /// READ CAPACITY (10) (SBC-3).
    ReadCapacity10,
    /// READ CAPACITY (16) (SBC-3).
    ReadCapacity16 {
        /// ALLOCATION LENGTH, in bytes.
        alloc: u32,
    },
    /// REPORT LUNS (SPC-4 6.33).
    ReportLuns {
        /// SELECT REPORT, 0 to 2.
        select: u8,
        /// ALLOCATION LENGTH, in bytes.
        alloc: u32,
    },
    /// READ (SBC-3, READ (6) to READ (16)).
    Read {
        /// The length of the CDB.
        form: Form,
        /// LOGICAL BLOCK ADDRESS of the first block.
        lba: u64,
        /// TRANSFER LENGTH, in blocks.
        count: u32,
        /// FUA: the blocks on the medium. It is false in READ (6).
        fua: bool,
    },
    /// WRITE (SBC-3, WRITE (6) to WRITE (16)).
    Write {
        /// The length of the CDB.
        form: Form,
        /// LOGICAL BLOCK ADDRESS of the first block.
        lba: u64,
        /// TRANSFER LENGTH, in blocks.
        count: u32,
        /// FUA: past the cache. It is false in WRITE (6).
        fua: bool,
    },
    /// VERIFY (SBC-3, VERIFY (10), (12) and (16)).
    Verify {
        /// The length of the CDB.
        form: Form,
        /// LOGICAL BLOCK ADDRESS of the first block.
        lba: u64,
        /// VERIFICATION LENGTH, in blocks.
        count: u32,
        /// BYTCHK is 1, and not 0: the blocks are compared with data-out.
        compare: bool,
    },
    /// SYNCHRONIZE CACHE (SBC-3, SYNCHRONIZE CACHE (10) and (16)).
    Flush {
        /// The length of the CDB.
        form: Form,
        /// LOGICAL BLOCK ADDRESS of the first block.
        lba: u64,
        /// NUMBER OF LOGICAL BLOCKS, in blocks; 0 means all from the address on.
        count: u32,
    },
    /// WRITE SAME (SBC-3, WRITE SAME (10) and (16)).
    WriteSame {
        /// The length of the CDB.
        form: Form,
        /// LOGICAL BLOCK ADDRESS of the first block.
        lba: u64,
        /// NUMBER OF LOGICAL BLOCKS, in blocks.
        count: u32,
        /// UNMAP: the blocks may be unmapped.
        unmap: bool,
    },
    /// UNMAP (SBC-3).
    Unmap {
        /// PARAMETER LIST LENGTH, in bytes.
        length: u16,
    },
    /// ATA PASS-THROUGH (SAT-3, ATA PASS-THROUGH (12) and (16)).
    Pass {
        /// Its bytes. Those that the command does not have are zero, and so are the control byte and, of the form of 12 bytes,
        /// bit 0 of byte 1 and byte 10, which are reserved.
        cdb: [u8; 16],
    },
}

/// Why a command is refused with ILLEGAL REQUEST: the additional sense code and its qualifier, and the byte that is
/// pointed to, in the CDB or in the parameter list (SPC-4 4.5.2.4.2).
#[derive(Clone, Copy, Debug, PartialEq, Eq)]
pub struct Illegal {
    /// The additional sense code.
    pub asc: u8,
    /// Its qualifier.
    pub ascq: u8,
    /// The byte at which the field in error begins.
    pub pointer: Option<u16>,
    /// Whether that byte is one of the CDB, and not of the data-out.
    pub in_cdb: bool,
}

impl Illegal {
    ghost use Rattle.std.specs.Prelude.{◌≡◌};
    ghost use Rattle.satl_cdb.specs.Refusals.{invalid_operation_code, invalid_field, saving_not_supported, list_length_error, invalid_list_field, list_out_of_range};

    /// INVALID COMMAND OPERATION CODE (SPC-4 4.5.6).
    pub fn invalid_operation_code() -> Illegal
        ensures { result ≡ invalid_operation_code }
    {
        Illegal {
            asc: 0x20,
            ascq: 0,
            pointer: None,
            in_cdb: true,
        }
    }

    /// INVALID FIELD IN CDB, with a pointer to its byte (SPC-4 4.5.6).
    pub fn invalid_field(byte: u16) -> Illegal
        ensures { result ≡ invalid_field byte }
    {
        Illegal {
            asc: 0x24,
            ascq: 0,
            pointer: Some(byte),
            in_cdb: true,
        }
    }

    /// SAVING PARAMETERS NOT SUPPORTED (SPC-4 4.5.6).
    pub fn saving_not_supported() -> Illegal
        ensures { result ≡ saving_not_supported }
    {
        Illegal {
            asc: 0x39,
            ascq: 0,
            pointer: None,
            in_cdb: true,
        }
    }

    /// PARAMETER LIST LENGTH ERROR (SPC-4 4.5.6).
    pub fn list_length_error() -> Illegal
        ensures { result ≡ list_length_error }
    {
        Illegal {
            asc: 0x1A,
            ascq: 0,
            pointer: None,
            in_cdb: false,
        }
    }

    /// INVALID FIELD IN PARAMETER LIST, with a pointer to its byte (SPC-4 4.5.6).
    pub fn invalid_list_field(byte: u16) -> Illegal
        ensures { result ≡ invalid_list_field byte }
    {
        Illegal {
            asc: 0x26,
            ascq: 0,
            pointer: Some(byte),
            in_cdb: false,
        }
    }

    /// LOGICAL BLOCK ADDRESS OUT OF RANGE, of a descriptor in a parameter list (SPC-4 4.5.6).
    pub fn list_out_of_range() -> Illegal
        ensures { result ≡ list_out_of_range }
    {
        Illegal {
            asc: 0x21,
            ascq: 0,
            pointer: None,
            in_cdb: false,
        }
    }
}
