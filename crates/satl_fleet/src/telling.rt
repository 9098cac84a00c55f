// How the answers of a unit are told.
ghost use Rattle.std.specs.Prelude.{◌≡◌, [], true, OnErr, OnOk, if◌then◌else◌};
ghost use Rattle.satl_io.specs.Causes.{HasCause};
ghost use Rattle.satl_io.specs.Known.{Wrote, WrotePart};
ghost use Rattle.satl_fleet.specs.Output.{is_silent, unit_bytes};

use satl_base::{Manage, Reply, Response};
use satl_frame::{OutFrame, WriteFault, push, write_frame};
use satl_io::Sink;
use satl_step::Teller;
use satl_unit::NEXUS_RESET;

/// Kind of an output's frame: the unit whose answers follow (profile).
const UNIT_KIND: u8 = 0x84;

/// Tells the answers of a unit to one frame: the unit is named before the first (profile).
#[derive(Clone, Copy, Debug, PartialEq, Eq)]
pub struct UnitTeller {
    /// The number of the unit whose answers are told.
    pub unit: u8,
    /// Whether the output has named it already.
    pub named: bool,
}

/// Names the unit.
fn write_unit<K: Sink>(unit: u8, sink: &mut K) -> Result<(), WriteFault>
    ensures all { OnOk result (Wrote (K.written sink.old) (K.written sink.new) (unit_bytes unit)) }
    ensures part { OnErr result (WrotePart (K.written sink.old) (K.written sink.new) (unit_bytes unit)) }
    ensures cause { HasCause (K.faults sink.old) (K.faults sink.new) result }
{
    push(sink, &[UNIT_KIND, 0, 0, 0, 1, unit])
}

impl UnitTeller {
    /// Whether the response to a function is left out.
    fn is_silent(&self, function: u8) -> bool
        ensures { result ≡ is_silent self.now.unit function }
    {
        self.unit != 0 && function == NEXUS_RESET
    }

    /// Names the unit, unless that was done.
    fn name<K: Sink>(&mut self, sink: &mut K) -> Result<(), WriteFault>
        ensures all { OnOk result (Wrote (K.written sink.old) (K.written sink.new)
            (if self.old.named then [] else unit_bytes self.old.unit)) }
        ensures part { OnErr result (WrotePart (K.written sink.old) (K.written sink.new)
            (if self.old.named then [] else unit_bytes self.old.unit)) }
        ensures named { OnOk result (self.new ≡ record self.old { named = true }) }
        ensures cause { HasCause (K.faults sink.old) (K.faults sink.new) result }
    {
        if !self.named {
            write_unit(self.unit, sink)?;
            self.named = true;
        }
        Ok(())
    }
}

impl Teller for UnitTeller {
    ghost use Rattle.satl_fleet.specs.Output.{named_behind, told_one};

    ghost told = { λ t answer. told_one t.unit t.named answer };

    ghost behind = { λ t answer. record t { named = named_behind t.unit t.named answer } };

    fn tell_reply<K: Sink>(&mut self, reply: &Reply, sink: &mut K) -> Result<(), WriteFault> {
        self.name(sink)?;
        write_frame(OutFrame::Reply(reply), sink)
    }

    fn tell_managed<K: Sink>(
        &mut self,
        manage: &Manage,
        response: Response,
        sink: &mut K,
    ) -> Result<(), WriteFault> {
        if self.is_silent(manage.function) {
            return Ok(());
        }
        self.name(sink)?;
        let Manage {
            nexus,
            function,
            tag,
            ..
        } = *manage;
        write_frame(
            OutFrame::Managed {
                nexus,
                function,
                response,
                tag,
            },
            sink,
        )
    }

    fn tell_end<K: Sink>(&mut self, _sink: &mut K) -> Result<(), WriteFault> {
        Ok(())
    }
}
