// Who tells the answers to one item.
ghost use Rattle.std.specs.Prelude.{◌≡◌};
ghost use Rattle.satl_usb.specs.Wire.{kept_of};

use crate::wire::tell_reply;
use satl_base::{Manage, Reply, Response, Scsi, SenseBytes, append};
use satl_bot::Cbw;
use satl_frame::WriteFault;
use satl_io::Sink;
use satl_step::Teller;

/// Tells the answer to one item on the wire, and keeps its sense data where it failed (profile).
#[derive(Drop)]
pub struct ItemTeller {
    /// What the item's wrapper says.
    pub command: Cbw,
    /// The sense data of the last reply, where it ended with CHECK CONDITION.
    pub kept: Option<SenseBytes>,
}

/// The sense data of a command that failed.
fn kept_of(reply: &Reply) -> Option<SenseBytes>
    ensures { result ≡ kept_of reply.now }
{
    match reply.status {
        Scsi::CheckCondition => {
            let mut sense = SenseBytes::new();
            append(&mut sense, reply.sense.as_slice());
            Some(sense)
        }
        Scsi::Good | Scsi::TaskSetFull => None,
    }
}

impl Teller for ItemTeller {
    ghost use Rattle.satl_usb.specs.Exchanges.{item_behind, item_told};

    ghost told = { λ teller answer. item_told teller answer };

    ghost behind = { λ teller answer. item_behind teller answer };

    fn tell_reply<K: Sink>(&mut self, reply: &Reply, sink: &mut K) -> Result<(), WriteFault> {
        tell_reply(&self.command, reply, sink)?;
        self.kept = kept_of(reply);
        Ok(())
    }

    // The bridge sends no task management function, and END is not told.
    fn tell_managed<K: Sink>(
        &mut self,
        _manage: &Manage,
        _response: Response,
        _sink: &mut K,
    ) -> Result<(), WriteFault> {
        Ok(())
    }

    fn tell_end<K: Sink>(&mut self, _sink: &mut K) -> Result<(), WriteFault> {
        Ok(())
    }
}
