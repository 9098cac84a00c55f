//! The law of endurance: what was flushed endures.
#![tactic(auto)]

ghost use Rattle.satl_scenarios.specs.Devices.{aa};
ghost use Rattle.satl_endurance.specs.Endurance.{FlushedEndures, FlushedIsRead};
ghost use Rattle.satl_endurance.specs.Flushed.{AreOfEndurance, read_behind_power, written_and_flushed};

/// Law of endurance: a SYNCHRONIZE CACHE is answered with GOOD in a run from a device that there can be, in which no request
/// comes with the nexus and tag of a task that waits then. Where no command behind it may write a sector, the sector has at the
/// end of each run that goes on from there the block that it had, whatever fails, is lost or loses power in it, and a loss of
/// power can leave it no other (SBC-3 4.15, 5.18; SAM-5 5).
pub fn what_was_flushed_endures()
    ensures { FlushedEndures }
{}

/// Law of endurance of what is read: so each READ behind it that is answered with GOOD gives that block for the sector (SBC-3
/// 4.15, READ commands; SAM-5 4.7).
pub fn what_was_flushed_is_read()
    ensures { FlushedIsRead }
{}

/// A block is written and flushed, and then the power is lost. The law of endurance speaks of this run, in which a READ gives
/// the block (SBC-3 4.15, 5.18; SAM-5 5.14, 6.3).
pub fn the_power_is_lost_behind_a_flush()
    ensures { AreOfEndurance written_and_flushed read_behind_power 0 aa }
{}
