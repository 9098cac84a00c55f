// Events of a record.
ghost use Rattle.std.specs.Prelude.{◌≡◌, ◌<◌, ◌^◌, ℕ, List, IfOk, OnOk, true, length};
ghost use Rattle.satl_identify.specs.declared.identity.Identity.{Identity};
ghost use Rattle.satl_frame.specs.declared.frames.Frame.{Frame};
ghost use Rattle.satl_frame.specs.declared.frames.Frame.TheVariants as frames;
ghost use Rattle.satl_frame.specs.Pulls.{cut_to};
ghost use Rattle.satl_cover.specs.Known.{is_known_frame};
ghost use Rattle.satl_audit.specs.Advancing.{Advances, IsGoodFrame, MayHappen};
ghost use Rattle.satl_audit.specs.Finishing.{AreTasks};
ghost use Rattle.satl_audit.specs.Waiting.{AllFit};
ghost use Rattle.satl_audit.specs.Progress.{progress, recorded};

use crate::arriving::{Followed, arrive};
use crate::finishing::turn;
use crate::powering::power;
use crate::sectors::Sectors;
use satl_base::{BenchEvent, NoMemory};
use satl_frame::{Frame, HEAD_SIZE, OUT_END_KIND};
use satl_identify::Identity;

/// The frame that ends an output.
const END: [u8; HEAD_SIZE] = [OUT_END_KIND, 0, 0, 0, 0];

/// END comes: whether each task that waits can end with the answers that come next in the output, each sector goes along with
/// it, and then the output ends (SAM-5 8; profile).
fn end(
    followed: &mut Followed<'_>,
    sectors: &mut Sectors,
    identity: &Identity,
    input: &[u8],
) -> Result<bool, NoMemory>
    requires tasks { AreTasks identity.now input.now followed.old.waiting }
    requires sectors { length sectors.old ≡ identity.now.capacity }
    requires small { length input.now < 2 ^ 63 }
    requires capacity { identity.now.capacity < 2 ^ 64 }
    ensures tasks { AreTasks identity.now input.now followed.new.waiting }
    ensures length { OnOk result (length sectors.new ≡ length sectors.old) }
    ensures advances { IfOk result (Advances (recorded identity.now input.now) frames.End
        (progress followed.old sectors.old) (progress followed.new sectors.new)) }
{
    let count = followed.waiting.len() as u16;
    if !turn(followed, sectors, identity, input, count)? {
        return Ok(false);
    }
    Ok(followed.output.pass(&END))
}

/// An event of the bench happens: the power is lost, or the drive is told an order, which changes nothing. No run that can be
/// audited has another (profile).
fn bench(
    followed: &mut Followed<'_>,
    sectors: &mut Sectors,
    event: &BenchEvent<'_>,
) -> Result<bool, NoMemory>
    requires fit { (size : ℕ) × (size < 2 ^ 63) × AllFit (length sectors.old) size followed.old.waiting }
    requires capacity { length sectors.old < 2 ^ 64 }
    ensures fit { (capacity size : ℕ) → AllFit capacity size followed.old.waiting
        → OnOk result (AllFit capacity size followed.new.waiting) }
    ensures length { OnOk result (length sectors.new ≡ length sectors.old) }
    ensures advances { (identity : Identity) → (input : List ℕ)
        → IfOk result (Advances (recorded identity input) (frames.Bench event.now)
        (progress followed.old sectors.old) (progress followed.new sectors.new)) }
{
    match event {
        BenchEvent::Power => {
            power(followed, sectors)?;
            Ok(true)
        }
        BenchEvent::Order { .. } => Ok(true),
        _ => Ok(false),
    }
}

/// An event happens: whether it can with the answers that come next in the output, and each sector goes along with it (SAM-5 5,
/// 8; profile). The data-out of a request stands in the input from a place on. No run that can be audited has a task management
/// function.
pub fn advance(
    followed: &mut Followed<'_>,
    sectors: &mut Sectors,
    identity: &Identity,
    input: &[u8],
    frame: &Frame<'_>,
    at: usize,
) -> Result<bool, NoMemory>
    requires tasks { AreTasks identity.now input.now followed.old.waiting }
    requires sectors { length sectors.old ≡ identity.now.capacity }
    requires small { length input.now < 2 ^ 63 }
    requires capacity { identity.now.capacity < 2 ^ 64 }
    requires known { is_known_frame identity.now.trim frame.now ≡ true }
    requires good { IsGoodFrame (length input.now) at frame.now }
    ensures fit { OnOk result (AllFit identity.now.capacity (length input.now) followed.new.waiting) }
    ensures length { OnOk result (length sectors.new ≡ length sectors.old) }
    ensures advances { (whole : Frame) → frame.now ≡ cut_to 0 whole → MayHappen input.now at followed.old.waiting whole
        → IfOk result (Advances (recorded identity.now input.now) whole
        (progress followed.old sectors.old) (progress followed.new sectors.new)) }
{
    match frame {
        Frame::Request(request) => Ok(arrive(followed, identity, request, at)),
        Frame::Turn(count) => turn(followed, sectors, identity, input, *count),
        Frame::Bench(event) => bench(followed, sectors, event),
        Frame::Manage(_) => Ok(false),
        Frame::End => end(followed, sectors, identity, input),
    }
}
