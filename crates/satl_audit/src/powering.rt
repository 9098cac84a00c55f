// The power is lost.
ghost use Rattle.std.specs.Prelude.{◌≡◌, ◌<◌, ◌+◌, ◌^◌, OnOk, List, ℕ, [], ◌∷◌, length, map};
ghost use Rattle.satl_base.specs.declared.bench.BenchEvent.TheVariants as events;
ghost use Rattle.satl_frame.specs.declared.frames.Frame.TheVariants as frames;
ghost use Rattle.satl_identify.specs.declared.identity.Identity.{Identity};
ghost use Rattle.satl_unit.specs.declared.attention.Attention.TheVariants as attentions;
ghost use Rattle.satl_audit.specs.Advancing.{GoesOn};
ghost use Rattle.satl_audit.specs.Arriving.{device_without_sectors};
ghost use Rattle.satl_audit.specs.Deeds.Deed.{powers};
ghost use Rattle.satl_audit.specs.Following.{Follows};
ghost use Rattle.satl_audit.specs.Powering.{PendsAll, PendsUpTo, shown_from};
ghost use Rattle.satl_audit.specs.Skeleton.{deeds_at};
ghost use Rattle.satl_audit.specs.Waiting.{AllFit};
ghost use Rattle.satl_audit.specs.Progress.{progress, recorded};

use crate::arriving::Followed;
use crate::effects::pend_blocks;
use crate::sectors::Sectors;
use crate::waiting::Waiting;
use satl_base::{NEXUSES, NoMemory, Range};
use satl_cdb::Command;
use satl_unit::{Attentions, powered_on};

/// The blocks of the task at a place may be left by a loss of power, where it is an eligible WRITE (SBC-3 4.15).
fn pend_task(waiting: &Waiting, sectors: &mut Sectors, place: usize) -> Result<(), NoMemory>
    requires within { place < length waiting.now }
    requires fit { (size : ℕ) × (size < 2 ^ 63) × AllFit (length sectors.old) size waiting.now }
    requires capacity { length sectors.old < 2 ^ 64 }
    ensures length { length sectors.new ≡ length sectors.old }
    ensures pends { (identity : Identity) → (input : List ℕ)
        → OnOk result (PendsUpTo input (shown_from identity input waiting.now place)
        (shown_from identity input waiting.now (place + 1)) sectors.old sectors.new) }
{
    if !waiting.eligible(place) {
        return Ok(());
    }
    match waiting.entry(place).command {
        Command::Write { lba, count, .. } => {
            pend_blocks(sectors, Range { lba, count }, waiting.data_at(place))
        }
        _ => Ok(()),
    }
}

/// The blocks of all eligible WRITEs may be left by a loss of power (SBC-3 4.15).
fn pend_tasks(waiting: &Waiting, sectors: &mut Sectors) -> Result<(), NoMemory>
    requires fit { (size : ℕ) × (size < 2 ^ 63) × AllFit (length sectors.old) size waiting.now }
    requires capacity { length sectors.old < 2 ^ 64 }
    ensures length { length sectors.new ≡ length sectors.old }
    ensures pends { (identity : Identity) → (input : List ℕ)
        → OnOk result (PendsAll identity input waiting.now sectors.old sectors.new) }
{
    for place in 0..waiting.len() {
        pend_task(waiting, sectors, place)?;
    }
    Ok(())
}

/// The power is lost at all sectors, where the blocks of all eligible WRITEs may have been put before (SBC-3 4.15).
fn power_sectors(waiting: &Waiting, sectors: &mut Sectors) -> Result<(), NoMemory>
    requires fit { (size : ℕ) × (size < 2 ^ 63) × AllFit (length sectors.old) size waiting.now }
    requires capacity { length sectors.old < 2 ^ 64 }
    ensures length { OnOk result (length sectors.new ≡ length sectors.old) }
    ensures follows { (identity : Identity) → (input : List ℕ)
        → OnOk result
        (Follows input (deeds_at (device_without_sectors identity input waiting.now []) powers) sectors.old sectors.new) }
{
    pend_tasks(waiting, sectors)?;
    sectors.power()
}

/// Each nexus is to be told that the power was on, and nothing else (SAM-5 6.3).
fn tell_all(conditions: &mut [Attentions; NEXUSES])
    ensures { conditions.new ≡ map (λ _. attentions.PowerOn ∷ []) conditions.old }
{
    *conditions = powered_on();
}

/// The power is lost: no task waits any more, each nexus is to be told, and each sector goes along with it (SAM-5 6.3; SBC-3
/// 4.15).
pub fn power(followed: &mut Followed<'_>, sectors: &mut Sectors) -> Result<(), NoMemory>
    requires fit { (size : ℕ) × (size < 2 ^ 63) × AllFit (length sectors.old) size followed.old.waiting }
    requires capacity { length sectors.old < 2 ^ 64 }
    ensures none { OnOk result (followed.new.waiting ≡ []) }
    ensures length { OnOk result (length sectors.new ≡ length sectors.old) }
    ensures goes { (identity : Identity) → (input : List ℕ)
        → OnOk result (GoesOn (recorded identity input) (frames.Bench events.Power)
        (progress followed.old sectors.old) (progress followed.new sectors.new)) }
{
    power_sectors(&followed.waiting, sectors)?;
    followed.waiting.clear();
    tell_all(&mut followed.attentions);
    Ok(())
}
