// The units of a target are opened.
ghost use Rattle.std.specs.Prelude.{◌≡◌, ◌≤◌, ◌+◌, [], IfErr, IfOk, OnErr, map, vec_len};
ghost use Rattle.std.specs.List.{AllByRecursion, AllZip};
ghost use Rattle.satl_barrier.specs.Leaving.{IsFree};
ghost use Rattle.satl_fleet.specs.Opening.{IsCauseOfOne, IsLeftAlone, OpensTo};

use satl_base::Steps;
use satl_core::{OpenFault, Satl};
use satl_drive::Bench;
use satl_step::see_queue;
use std::alloc::Global;
use std::sync::ledger::Ledger;

/// Opens a unit on each drive, in order. Each drive has nothing outstanding and is in no error state, and its IDENTIFY DEVICE
/// data fit it. A fault: the layer was not opened on one of them, for the cause told (SAT-3; profile).
pub fn open_units<D: Bench<L>, L: Ledger>(
    alloc: Global,
    drives: &mut Vec<D>,
    steps: &mut Steps<L>,
) -> Result<Vec<Satl>, OpenFault>
    requires free { AllByRecursion IsFree (map D.state drives.old.items) }
    requires few { vec_len drives.old ≤ 4 }
    ensures opened { IfOk result (λ units. OpensTo (map D.state drives.old.items) units.items (map D.state drives.new.items)) }
    ensures each { IfOk result (λ units. vec_len units ≡ vec_len drives.old) }
    ensures stopped { IfErr result (λ fault. IsCauseOfOne fault (map D.state drives.old.items) (map D.state drives.new.items)) }
    ensures alone { OnErr result (AllZip IsLeftAlone (map D.state drives.old.items) (map D.state drives.new.items)) }
    ensures drives { vec_len drives.new ≡ vec_len drives.old }
    ensures calls { steps.new ≤ steps.old + vec_len drives.old }
{
    let mut units = Vec::new(alloc);
    for k in 0..drives.len() {
        let drive = &mut drives[k];
        match Satl::open(alloc, drive, steps) {
            Ok(satl) => {
                see_queue(&satl);
                let Ok(()) = units.push(satl) else {
                    return Err(OpenFault::NoMemory);
                };
            }
            Err(fault) => return Err(fault),
        }
    }
    Ok(units)
}
