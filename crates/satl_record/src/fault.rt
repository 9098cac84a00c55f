// Why a record is not judged.

use satl_base::NoMemory;
use satl_drive::LinkDown;
use satl_frame::WriteFault;
use satl_identify::IdentityFault;

/// Why a record is not judged, or what is found is not told (profile).
#[derive(Clone, Copy, Debug, PartialEq, Eq)]
pub enum RecordFault {
    /// The drive's data are refused, or its link was lost before they were read.
    Drive,
    /// The bytes are no record: another magic, fewer bytes than its input has, or a part of more than 67,108,864 bytes.
    NoRecord,
    /// The input of the record is refused. A line says why and where.
    BadInput,
    /// A read failed.
    Read,
    /// A write failed.
    Write,
    /// Memory ran out.
    NoMemory,
}

impl From<NoMemory> for RecordFault {
    ghost use Rattle.std.specs.Prelude.{◌≡◌};
    ghost use Rattle.satl_record.specs.declared.fault.RecordFault.TheVariants as faults;

    ghost from_gives = { λ _ e. e ≡ faults.NoMemory };

    fn from(_: NoMemory) -> RecordFault {
        RecordFault::NoMemory
    }
}

impl From<LinkDown> for RecordFault {
    ghost use Rattle.std.specs.Prelude.{◌≡◌};
    ghost use Rattle.satl_record.specs.declared.fault.RecordFault.TheVariants as faults;

    ghost from_gives = { λ _ e. e ≡ faults.Drive };

    fn from(_: LinkDown) -> RecordFault {
        RecordFault::Drive
    }
}

impl From<IdentityFault> for RecordFault {
    ghost use Rattle.std.specs.Prelude.{◌≡◌};
    ghost use Rattle.satl_record.specs.declared.fault.RecordFault.TheVariants as faults;

    ghost from_gives = { λ _ e. e ≡ faults.Drive };

    fn from(_: IdentityFault) -> RecordFault {
        RecordFault::Drive
    }
}

impl From<WriteFault> for RecordFault {
    ghost use Rattle.std.specs.Prelude.{◌≡◌};
    ghost use Rattle.satl_record.specs.declared.fault.RecordFault.TheVariants as faults;

    ghost from_gives = { λ _ e. e ≡ faults.Write };

    fn from(_: WriteFault) -> RecordFault {
        RecordFault::Write
    }
}
