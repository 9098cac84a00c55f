// Which inputs can be audited.
ghost use Rattle.satl_cover.specs.Reading.{Covers};

use crate::fault::AuditFault;
use crate::frames::read_to_end;
use crate::slice::Slice;
use satl_frame::{Reason, VERSION_PLACE, VERSION_TWO};
use std::alloc::Global;

/// Whether an input can be audited, for a drive that trims or not: None where it is of version 1 and each of its frames is
/// covered, and otherwise the offset in bytes of the first frame that is not, which is 0 for an input of version 2. `BadInput`
/// says why and where the input is refused, also where bytes follow END. `NoMemory` where there is none for the names of
/// requests (profile).
pub fn cover(alloc: Global, trim: bool, input: &[u8]) -> Result<Option<u64>, AuditFault>
    ensures { Covers trim input.now result }
{
    let mut source = Slice::new(input);
    let noted = read_to_end(alloc, trim, &mut source)?;
    let left = source.left();
    if left > 0 {
        return Err(AuditFault::BadInput {
            reason: Reason::TooLong,
            offset: (input.len() - left) as u64,
        });
    }
    if input[VERSION_PLACE] == VERSION_TWO {
        return Ok(Some(0));
    }
    Ok(noted.uncovered)
}
