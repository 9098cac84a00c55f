// The identity of the drive.
ghost use Rattle.std.specs.Prelude.{◌≡◌, ◌≤◌, ◌+◌, ◌⊎◌, Ok, IfOk, IfErr, IsErrOf};
ghost use Rattle.satl_identify.specs.Refusals.{IsIdentity, identity_of};
ghost use Rattle.satl_barrier.specs.Leaving.{IsFree};
ghost use Rattle.satl_record.specs.Ends.{IsRefusedFor};
ghost use Rattle.satl_barrier.specs.Commands.{IsUndisturbed};
ghost use Rattle.satl_record.specs.declared.fault.RecordFault.TheVariants as faults;

use crate::fault::RecordFault;
use satl_barrier::tell_identity;
use satl_base::{Page, Pages, Steps};
use satl_drive::Drive;
use satl_identify::{Identity, read_identity};
use std::alloc::Global;
use std::sync::ledger::Ledger;

/// The identity that a drive's IDENTIFY DEVICE data give (profile). `Drive` where they are refused, or the link was lost before
/// they were read; `NoMemory` where there is none for 512 bytes. The drive is called once at most, and left undisturbed: it is
/// as it was, but for entries that its sectors may be left with, and, where its link was lost meanwhile, for what that does.
pub fn told_identity<D: Drive<L>, L: Ledger>(
    alloc: Global,
    drive: &mut D,
    steps: &mut Steps<L>,
) -> Result<Identity, RecordFault>
    requires free { IsFree (D.state drive.old) }
    ensures told { IfOk result (λ identity. identity_of (D.state drive.old).identify ≡ Ok identity) }
    ensures good { IfOk result IsIdentity }
    ensures kinds { IfErr result (λ fault. (fault ≡ faults.Drive) ⊎ (fault ≡ faults.NoMemory)) }
    ensures cause { IsErrOf result faults.Drive
        → IsRefusedFor (D.state drive.old).identify (D.state drive.old).faults (D.state drive.new).faults }
    ensures alone { IsUndisturbed (D.state drive.old) (D.state drive.new) }
    ensures steps { steps.new ≤ steps.old + 1 }
{
    let page = Page::zeroed(alloc)?;
    let mut pages = Pages::default();
    pages.push_first(page);
    tell_identity(drive, &mut pages, steps)?;
    Ok(read_identity(&pages.block(0).bytes)?)
}
