// Why the bridge stops.
use satl_core::OpenFault;
use thiserror::Error;

/// Why the bridge stopped before the end of its input (profile).
#[derive(Clone, Copy, Debug, PartialEq, Eq, Error)]
pub enum UsbFault {
    /// The layer was not opened.
    #[error("the layer was not opened")]
    Open(OpenFault),
    /// What stands at the offset, in bytes, is no item.
    #[error("the input is refused")]
    BadInput { offset: u64 },
    /// A read failed.
    #[error("a read failed")]
    Read,
    /// A write failed.
    #[error("a write failed")]
    Write,
}

impl From<OpenFault> for UsbFault {
    ghost use Rattle.std.specs.Prelude.{◌≡◌};
    ghost use Rattle.satl_usb.specs.declared.fault.UsbFault.TheVariants as faults;

    ghost from_gives = { λ fault e. e ≡ faults.Open fault };

    fn from(fault: OpenFault) -> UsbFault {
        UsbFault::Open(fault)
    }
}
