// How the program ends.
ghost use Rattle.std.specs.Prelude.{◌≡◌};
ghost use Rattle.satl_top.specs.Top.{exit_number};

use satl_core::OpenFault;
use satl_serve::ServeFault;
use satl_usb::UsbFault;

/// How the program ends (profile).
#[derive(Clone, Copy, Debug, PartialEq, Eq)]
pub enum Status {
    /// The whole input was carried out; or the output of the record is that of a run.
    Done,
    /// The words are not understood.
    Usage,
    /// The input is refused. A FAULT frame, or a line of text, says why and where, but for a bridge, and for bytes that are no
    /// record.
    BadInput,
    /// A read failed.
    ReadFault,
    /// A write failed.
    WriteFault,
    /// There was not the memory to begin, or to judge a record.
    NoMemory,
    /// The layer does not serve the drive, or its link was lost before the layer was open.
    DriveRefused,
    /// The output of the record is that of no run.
    No,
    /// The input of the record has a frame that is not covered.
    NotCovered,
}

impl Status {
    /// The exit number (profile): 0, 2 to 7, 9 and 10 in the order of the variants.
    pub fn code(&self) -> u8
        ensures { result ≡ exit_number self.now }
    {
        match self {
            Status::Done => 0,
            Status::Usage => 2,
            Status::BadInput => 3,
            Status::ReadFault => 4,
            Status::WriteFault => 5,
            Status::NoMemory => 6,
            Status::DriveRefused => 7,
            Status::No => 9,
            Status::NotCovered => 10,
        }
    }
}

impl From<ServeFault> for Status {
    ghost use Rattle.std.specs.Prelude.{◌≡◌};
    ghost use Rattle.satl_top.specs.Faults.{status_of};

    ghost from_gives = { λ fault status. status ≡ status_of fault };

    fn from(fault: ServeFault) -> Status {
        match fault {
            ServeFault::Open(OpenFault::NoMemory) => Status::NoMemory,
            ServeFault::Open(_) => Status::DriveRefused,
            ServeFault::BadInput { .. } => Status::BadInput,
            ServeFault::Read => Status::ReadFault,
            ServeFault::Write => Status::WriteFault,
        }
    }
}

impl From<UsbFault> for Status {
    ghost use Rattle.std.specs.Prelude.{◌≡◌};
    ghost use Rattle.satl_top.specs.Faults.{status_of_usb};

    ghost from_gives = { λ fault status. status ≡ status_of_usb fault };

    fn from(fault: UsbFault) -> Status {
        match fault {
            UsbFault::Open(OpenFault::NoMemory) => Status::NoMemory,
            UsbFault::Open(_) => Status::DriveRefused,
            UsbFault::BadInput { .. } => Status::BadInput,
            UsbFault::Read => Status::ReadFault,
            UsbFault::Write => Status::WriteFault,
        }
    }
}
