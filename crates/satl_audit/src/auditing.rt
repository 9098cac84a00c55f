// A record is judged.
ghost use Rattle.std.specs.Prelude.{◌<◌, ◌++◌, IfOk, List, Ok};
ghost use Rattle.satl_identify.specs.Refusals.{IsIdentity};
ghost use Rattle.satl_frame.specs.declared.frames.Frame.{Frame};
ghost use Rattle.satl_frame.specs.Output.{out_magic};
ghost use Rattle.satl_audit.specs.Judged.{IsTaken, Judged};

use crate::advancing::advance;
use crate::arriving::Followed;
use crate::cursor::Cursor;
use crate::sectors::Sectors;
use crate::verdict::Verdict;
use satl_base::{INPUT_LIMIT, NoMemory};
use satl_cover::{AuditFault, NoPages, Slice, cover};
use satl_frame::{
    Frame, FrameFault, FrameReader, HEAD_SIZE, LONGEST_EVENT, MAGIC_SIZE, OUT_MAGIC, REQUEST_SIZE,
};
use satl_identify::Identity;
use std::alloc::Global;

/// Where the data-out of a request stands, in bytes behind the first of its frame.
const DATA_OUT: usize = HEAD_SIZE + REQUEST_SIZE;

/// Goes through the frames of an input all of which are covered, and says whether the output, which stands behind its magic, is
/// that of a run.
fn follow(
    alloc: Global,
    identity: &Identity,
    input: &[u8],
    output: &[u8],
) -> Result<Verdict, NoMemory>
    requires identity { IsIdentity identity.now }
    requires taken { (all : List Frame) × IsTaken identity.now input.now all }
    ensures { IfOk result (λ verdict. Judged identity.now input.now (out_magic ++ output.now) (Ok verdict)) }
{
    let mut followed = Followed::new(alloc, output)?;
    let mut sectors = Sectors::new(alloc, identity.capacity as usize)?;
    let mut source = Slice::new(input);
    let mut reader = FrameReader::new(alloc, INPUT_LIMIT);
    let mut lender = NoPages;
    let mut room = [0; LONGEST_EVENT];
    loop {
        // Before the first frame the magic is not read yet.
        let at = (input.len() - source.left()).max(MAGIC_SIZE);
        let frame = match reader.next(&mut source, &mut lender, &mut room) {
            Ok(frame) => frame,
            Err(FrameFault::Bad { .. }) => unreachable!(),
            Err(FrameFault::ReadFault) => unreachable!(),
        };
        if !advance(
            &mut followed,
            &mut sectors,
            identity,
            input,
            &frame,
            at + DATA_OUT,
        )? {
            return Ok(Verdict::No);
        }
        if let Frame::End = frame {
            if followed.output.rest().is_empty() {
                return Ok(Verdict::Yes);
            }
            return Ok(Verdict::No);
        }
    }
}

/// Whether a recorded output is that of a run without losses of the direct device over a recorded input. The device is one of
/// this identity, whose sectors are zeros and whose mode values are its defaults. `Yes` and `No` for an input all of whose
/// frames are covered; `NotCovered` with the offset in bytes of the first frame that is not, which is 0 for an input of version
/// 2; `BadInput` with reason and offset where the input is refused, also where bytes follow END; `NoMemory` where there is none
/// for the sectors or for what the record asks to be kept (profile).
pub fn audit(
    alloc: Global,
    identity: &Identity,
    input: &[u8],
    output: &[u8],
) -> Result<Verdict, AuditFault>
    requires { IsIdentity identity.now }
    ensures { Judged identity.now input.now output.now result }
{
    if let Some(offset) = cover(alloc, identity.trim, input)? {
        return Ok(Verdict::NotCovered { offset });
    }
    let mut answers = Cursor::new(output);
    if !answers.pass(&OUT_MAGIC) {
        return Ok(Verdict::No);
    }
    Ok(follow(alloc, identity, input, answers.rest())?)
}
