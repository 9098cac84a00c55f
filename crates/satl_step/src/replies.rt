// Replies are told, and their pages come back.
ghost use Rattle.std.specs.Prelude.{◌≡◌, ◌≤◌, [], OnErr, OnOk, length, map};
ghost use Rattle.std.specs.List.{AllByRecursion};
ghost use Rattle.satl_io.specs.Causes.{HasCause};
ghost use Rattle.satl_frame.specs.Output.{IsWritable};
ghost use Rattle.satl_frame.specs.Output.Answer.{replied};
ghost use Rattle.satl_core.specs.Layer.{reply_pages};
ghost use Rattle.satl_step.specs.Telling.{IsTold, IsToldInPart};

use crate::teller::Teller;
use satl_base::Replies;
use satl_core::Satl;
use satl_frame::WriteFault;
use satl_io::Sink;

/// Tells the replies in order, and takes their pages back. Where a write fails, those that are not told stay as they were.
pub fn tell_replies<T: Teller, K: Sink>(
    satl: &mut Satl,
    teller: &mut T,
    sink: &mut K,
    replies: &mut Replies,
) -> Result<(), WriteFault>
    requires writable { AllByRecursion IsWritable replies.old }
    requires pages { satl.old.out ≡ reply_pages replies.old }
    ensures stays { satl.new ≡ record satl.old { free = satl.new.free; out = satl.new.out } }
    ensures all_in { OnOk result (satl.new.out ≡ 0) }
    ensures none { OnOk result (replies.new ≡ []) }
    ensures kept { OnErr result (satl.new.out ≡ reply_pages replies.new) }
    ensures writable { OnErr result (AllByRecursion IsWritable replies.new) }
    ensures told { OnOk result (IsTold T.told T.behind (record { teller = teller.old; written = K.written sink.old })
        (record { teller = teller.new; written = K.written sink.new }) (map replied replies.old)) }
    ensures part { OnErr result (IsToldInPart T.told T.behind (record { teller = teller.old; written = K.written sink.old })
        (record { teller = teller.new; written = K.written sink.new }) (map replied replies.old)) }
    ensures some { OnErr result (1 ≤ length replies.old) }
    ensures cause { HasCause (K.faults sink.old) (K.faults sink.new) result }
{
    for _ in 0..replies.len() {
        teller.tell_reply(replies.first(), sink)?;
        satl.recycle(replies.remove_first());
    }
    Ok(())
}
