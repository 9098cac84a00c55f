// The modes that serve one drive.
ghost use Rattle.std.specs.Prelude.{◌≡◌, ◌⊎◌, map, true};
ghost use Rattle.std.specs.Rc.{rc_str_bytes};
ghost use Rattle.satl_base.specs.Limits.{input_limit};
ghost use Rattle.clap.specs.Words.{takes};
ghost use Rattle.satl_barrier.specs.Leaving.{IsFree};
ghost use Rattle.satl_serve.specs.Moments.{moment, sink_state, source_state};
ghost use Rattle.satl_top.specs.Top.{HasCarriedOut, HasServed, OutcomeByWords};
ghost use Rattle.satl_words.specs.Asked.{AreRefused};
ghost use Rattle.satl_words.specs.CommandLine.{command_line};
ghost use Rattle.satl_words.specs.Plain.{ArePlain, IsInRange};

use crate::auditing::judge_record;
use crate::bridging::bridge;
use crate::loading::load;
use crate::status::Status;
use satl_base::Steps;
use satl_drive::Bench;
use satl_io::{Sink, Source};
use satl_serve::{Form, serve_uncounted};
use satl_words::{Mode, WordsFault, mode_asked};
use std::alloc::Global;
use std::rc::RcStr;
use std::sync::ledger::Ledger;

/// Does what the words ask for with one drive, in each mode but `fleet` (profile): `replay` and `show` serve the frames of the
/// source on the drive and write the answers to the sink, as frames or as lines of text; `usb` carries out the items of the
/// source, and answers them on the wire of USB Bulk-Only Transport; `audit` judges a record and says so in a line; `gen` serves
/// a generated input and writes its totals, and reads nothing. Plain words mean what they spell, and all others what clap makes
/// of them. The drive has nothing outstanding and is in no error state, and its IDENTIFY DEVICE data fit it. The status says
/// how that ended. The drive is called at most once for its identity, 1,089 times for each request and 33 times for each task
/// management function, in sum; those between an UNPLUG and the next POWER add none.
pub fn satl<S: Source, K: Sink, D: Bench<L>, L: Ledger>(
    alloc: Global,
    words: &[RcStr],
    source: &mut S,
    sink: &mut K,
    drive: &mut D,
    steps: &mut Steps<L>,
) -> Status
    requires { IsFree (D.state drive.old) }
    ensures plain { (mode : Mode) → IsInRange mode → ArePlain (map rc_str_bytes words.now) mode
        → HasCarriedOut mode input_limit
        (moment (source_state (S.left source.old) (S.waited source.old) (S.faults source.old))
        (sink_state (K.written sink.old) (K.faults sink.old))
        steps.old (D.state drive.old))
        (moment (source_state (S.left source.new) (S.waited source.new) (S.faults source.new))
        (sink_state (K.written sink.new) (K.faults sink.new))
        steps.new (D.state drive.new)) result }
    ensures usage { (result ≡ Status.Usage) → AreRefused (map rc_str_bytes words.now) }
    ensures refused { AreRefused (map rc_str_bytes words.now) → (result ≡ Status.Usage) ⊎ (result ≡ Status.NoMemory) }
    ensures takes { (result ≡ Status.Usage) → (takes command_line (map rc_str_bytes words.now) ≡ true) → ⊥ }
    ensures outcome { OutcomeByWords (map rc_str_bytes words.now) input_limit
        (moment (source_state (S.left source.old) (S.waited source.old) (S.faults source.old))
        (sink_state (K.written sink.old) (K.faults sink.old))
        steps.old (D.state drive.old))
        (moment (source_state (S.left source.new) (S.waited source.new) (S.faults source.new))
        (sink_state (K.written sink.new) (K.faults sink.new))
        steps.new (D.state drive.new)) result }
{
    match mode_asked(alloc, words) {
        Ok(mode) => carry_out(alloc, mode, source, sink, drive, steps),
        Err(WordsFault::Refused) => Status::Usage,
        Err(WordsFault::NoMemory) => Status::NoMemory,
    }
}

/// Carries out a mode.
fn carry_out<S: Source, K: Sink, D: Bench<L>, L: Ledger>(
    alloc: Global,
    mode: Mode,
    source: &mut S,
    sink: &mut K,
    drive: &mut D,
    steps: &mut Steps<L>,
) -> Status
    requires range { IsInRange mode }
    requires free { IsFree (D.state drive.old) }
    ensures { HasCarriedOut mode input_limit
        (moment (source_state (S.left source.old) (S.waited source.old) (S.faults source.old))
        (sink_state (K.written sink.old) (K.faults sink.old))
        steps.old (D.state drive.old))
        (moment (source_state (S.left source.new) (S.waited source.new) (S.faults source.new))
        (sink_state (K.written sink.new) (K.faults sink.new))
        steps.new (D.state drive.new)) result }
{
    match mode {
        Mode::Replay => serve_input(alloc, Form::Frames, source, sink, drive, steps),
        Mode::Show => serve_input(alloc, Form::Text, source, sink, drive, steps),
        Mode::Usb => bridge(alloc, source, sink, drive, steps),
        Mode::Audit => judge_record(alloc, source, sink, drive, steps),
        Mode::Generate { seed, requests } => load(alloc, seed, requests, sink, drive, steps),
    }
}

/// Serves the input that was handed in.
fn serve_input<S: Source, K: Sink, D: Bench<L>, L: Ledger>(
    alloc: Global,
    form: Form,
    source: &mut S,
    sink: &mut K,
    drive: &mut D,
    steps: &mut Steps<L>,
) -> Status
    requires { IsFree (D.state drive.old) }
    ensures { HasServed form input_limit
        (moment (source_state (S.left source.old) (S.waited source.old) (S.faults source.old))
        (sink_state (K.written sink.old) (K.faults sink.old))
        steps.old (D.state drive.old))
        (moment (source_state (S.left source.new) (S.waited source.new) (S.faults source.new))
        (sink_state (K.written sink.new) (K.faults sink.new))
        steps.new (D.state drive.new)) result }
{
    match serve_uncounted(alloc, form, source, sink, drive, steps) {
        Ok(()) => Status::Done,
        Err(fault) => Status::from(fault),
    }
}
