// Reading an input to its END.
ghost use Rattle.std.specs.Prelude.{IfOk, IfErr};
ghost use Rattle.satl_cover.specs.Reading.{ReadWhole, Refuses};

use crate::fault::AuditFault;
use crate::nothing::NoPages;
use crate::noting::Noted;
use crate::slice::Slice;
use satl_base::INPUT_LIMIT;
use satl_frame::{Frame, FrameFault, FrameReader, LONGEST_EVENT, MAGIC_SIZE};
use std::alloc::Global;

/// Reads frames up to END, and takes note of each.
pub fn read_to_end(alloc: Global, trim: bool, source: &mut Slice<'_>) -> Result<Noted, AuditFault>
    ensures whole { IfOk result (λ noted. ReadWhole trim source.old source.new noted.names noted.uncovered) }
    ensures refuses { IfErr result (Refuses source.old) }
{
    let mut reader = FrameReader::new(alloc, INPUT_LIMIT);
    let mut lender = NoPages;
    let mut noted = Noted::new(alloc, trim);
    let mut room = [0; LONGEST_EVENT];
    let len = source.left();
    loop {
        // Before the first frame the magic is not read yet.
        let at = (len - source.left()).max(MAGIC_SIZE) as u64;
        let frame = match reader.next(source, &mut lender, &mut room) {
            Ok(frame) => frame,
            Err(FrameFault::Bad { reason, offset }) => {
                return Err(AuditFault::BadInput { reason, offset });
            }
            Err(FrameFault::ReadFault) => unreachable!(),
        };
        noted.note(at, &frame)?;
        if let Frame::End = frame {
            return Ok(noted);
        }
    }
}
