// Several drives behind one target, and the program.
ghost use Rattle.std.specs.Prelude.{◌≡◌, ◌≤◌, ◌<◌, ◌↔◌, ℕ, map, true, vec_len};
ghost use Rattle.std.specs.List.{AllByRecursion};
ghost use Rattle.std.specs.Rc.{rc_str_bytes};
ghost use Rattle.satl_base.specs.Limits.{input_limit};
ghost use Rattle.satl_fleet.specs.Moments.{fleet_moment};
ghost use Rattle.satl_barrier.specs.Leaving.{IsFree};
ghost use Rattle.satl_serve.specs.Moments.{sink_state, source_state};
ghost use Rattle.satl_top.specs.Fleet.{AskForFleet, HasDone, HasServedFleet};

use crate::status::Status;
use crate::top::satl;
use satl_base::Steps;
use satl_drive::Bench;
use satl_fleet::serve_fleet;
use satl_io::{Sink, Source};
use std::alloc::Global;
use std::rc::RcStr;
use std::sync::ledger::Ledger;

fn is_word(word: &RcStr, text: &str) -> bool
    ensures { (result ≡ true) ↔ (rc_str_bytes word.now ≡ text.now) }
{
    let word: &str = word;
    word == text
}

/// Whether there are two words, of which the second is `fleet` (profile).
pub fn is_fleet(words: &[RcStr]) -> bool
    ensures { (result ≡ true) ↔ AskForFleet (map rc_str_bytes words.now) }
{
    if words.len() != 2 {
        return false;
    }
    is_word(&words[1], "fleet")
}

/// Serves the frames of the source on one to four drives as the logical units of one target, and writes the answers to the sink
/// (profile). `Usage` comes exactly where the words are not those of the fleet, and then nothing was done. The status says how
/// it ended. Each drive has nothing outstanding and is in no error state, and its IDENTIFY DEVICE data fit it.
pub fn fleet<S: Source, K: Sink, D: Bench<L>, L: Ledger>(
    alloc: Global,
    words: &[RcStr],
    source: &mut S,
    sink: &mut K,
    drives: &mut Vec<D>,
    steps: &mut Steps<L>,
) -> Status
    requires some { 1 ≤ vec_len drives.old }
    requires few { vec_len drives.old ≤ 4 }
    requires free { AllByRecursion IsFree (map D.state drives.old.items) }
    ensures { HasServedFleet (map rc_str_bytes words.now) input_limit
        (fleet_moment (source_state (S.left source.old) (S.waited source.old) (S.faults source.old))
        (sink_state (K.written sink.old) (K.faults sink.old))
        steps.old (map D.state drives.old.items))
        (fleet_moment (source_state (S.left source.new) (S.waited source.new) (S.faults source.new))
        (sink_state (K.written sink.new) (K.faults sink.new))
        steps.new (map D.state drives.new.items)) result }
{
    if !is_fleet(words) {
        return Status::Usage;
    }
    match serve_fleet(alloc, source, sink, drives, steps) {
        Ok(()) => Status::Done,
        Err(fault) => Status::from(fault),
    }
}

/// Does all that the program does (profile): the words of the fleet serve all drives, and all others what `satl` does with the
/// first drive, where the other drives stay as they are. The status says how it ended. Each drive has nothing outstanding and
/// is in no error state, and its IDENTIFY DEVICE data fit it.
pub fn program<S: Source, K: Sink, D: Bench<L>, L: Ledger>(
    alloc: Global,
    words: &[RcStr],
    source: &mut S,
    sink: &mut K,
    drives: &mut Vec<D>,
    steps: &mut Steps<L>,
) -> Status
    requires some { 1 ≤ vec_len drives.old }
    requires few { vec_len drives.old ≤ 4 }
    requires free { AllByRecursion IsFree (map D.state drives.old.items) }
    ensures { HasDone (map rc_str_bytes words.now) input_limit
        (fleet_moment (source_state (S.left source.old) (S.waited source.old) (S.faults source.old))
        (sink_state (K.written sink.old) (K.faults sink.old))
        steps.old (map D.state drives.old.items))
        (fleet_moment (source_state (S.left source.new) (S.waited source.new) (S.faults source.new))
        (sink_state (K.written sink.new) (K.faults sink.new))
        steps.new (map D.state drives.new.items)) result }
{
    if is_fleet(words) {
        return fleet(alloc, words, source, sink, drives, steps);
    }
    let first = &mut drives[0];
    satl(alloc, words, source, sink, first, steps)
}
