// What a test bench does to the drive, and what follows for the layer.
ghost use Rattle.satl_drive.specs.State.{IsFit};
ghost use Rattle.satl_core.specs.Benching.{IsActedOn};

use satl_base::BenchEvent;
use satl_drive::Bench;
use std::sync::ledger::Ledger;

/// An event happens to the drive (profile).
pub fn act_on<D: Bench<L>, L: Ledger>(drive: &mut D, event: &BenchEvent<'_>)
    ensures acted { IsActedOn event.now (D.state drive.old) (D.state drive.new) }
    ensures fit { IsFit (D.state drive.old) → IsFit (D.state drive.new) }
{
    match event {
        BenchEvent::Strike { which, lba } => drive.strike(*which, *lba),
        BenchEvent::Mend { lba } => drive.mend(*lba),
        BenchEvent::Glitch { count } => drive.glitch(*count),
        BenchEvent::Order { bytes } => drive.order(bytes.as_slice()),
        BenchEvent::Power => drive.power(),
        BenchEvent::Unplug => drive.unplug(),
    }
}
