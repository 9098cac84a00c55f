// Why an input is not audited.

use satl_base::NoMemory;
use satl_frame::Reason;

/// Why nothing is said of an input (profile).
#[derive(Clone, Copy, Debug, PartialEq, Eq)]
pub enum AuditFault {
    /// The input is refused.
    BadInput {
        /// Why it is.
        reason: Reason,
        /// Where the first byte of what is refused stands in the input.
        offset: u64,
    },
    /// Memory ran out.
    NoMemory,
}

impl From<NoMemory> for AuditFault {
    ghost use Rattle.std.specs.Prelude.{◌≡◌};
    ghost use Rattle.satl_cover.specs.declared.fault.AuditFault.TheVariants as faults;

    ghost from_gives = { λ _ e. e ≡ faults.NoMemory };

    fn from(_: NoMemory) -> AuditFault {
        AuditFault::NoMemory
    }
}
