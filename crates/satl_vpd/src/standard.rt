// Standard INQUIRY data.
ghost use Rattle.std.specs.Prelude.{◌≡◌, length};
ghost use Rattle.satl_vpd.specs.Standard.{revision, standard_data};

use crate::text::{ATA_VENDOR, Text, characters, is_blank};
use satl_identify::Identity;
use satl_identify::words::{MODEL, REVISION};

/// PERIPHERAL QUALIFIER and PERIPHERAL DEVICE TYPE of a direct access block device that is there (SPC-4, standard INQUIRY
/// data).
const BLOCK_DEVICE: u8 = 0x00;

/// The same where there is no unit at the LUN.
const NO_UNIT: u8 = 0x7F;

/// VERSION: SPC-4.
const SPC_4: u8 = 0x06;

/// RESPONSE DATA FORMAT: that of SPC-4.
const SPC_FORMAT: u8 = 0x02;

/// ADDITIONAL LENGTH: 31 of the 36 bytes stand behind that field.
const BYTES_BEHIND: u8 = 0x1F;

/// CMDQUE: tasks are queued.
const CMDQUE: u8 = 0x02;

/// Firmware characters 5 to 8, or 1 to 4 where those are spaces.
fn revision(bytes: &[u8; 512]) -> Text
    ensures value { result.items ≡ revision bytes.now }
    ensures size { length result.items ≡ 4 }
{
    let late = characters(bytes, REVISION + 2, REVISION + 3);
    if is_blank(&late) {
        characters(bytes, REVISION, REVISION + 1)
    } else {
        late
    }
}

/// Standard INQUIRY data, 36 bytes (SPC-4, standard INQUIRY data; SAT-3, INQUIRY command).
///
/// `lun0` says whether the LUN is 0. At another there is no unit, and byte 0 is 7Fh.
#[tactic(auto, unfolding(crate::specs::Standard::standard_data))]
pub fn inquiry(identity: &Identity, lun0: bool) -> [u8; 36]
    ensures { result ≡ standard_data identity.now lun0 }
{
    let mut data = [0; 36];
    data[0] = if lun0 { BLOCK_DEVICE } else { NO_UNIT }; // PERIPHERAL QUALIFIER, PERIPHERAL DEVICE TYPE
    data[2] = SPC_4; // VERSION
    data[3] = SPC_FORMAT; // RESPONSE DATA FORMAT
    data[4] = BYTES_BEHIND; // ADDITIONAL LENGTH
    data[7] = CMDQUE;
    data[8..16].copy_from_slice(&ATA_VENDOR); // T10 VENDOR IDENTIFICATION
    data[16..32].copy_from_slice(&characters(&identity.bytes, MODEL, MODEL + 7)); // PRODUCT IDENTIFICATION
    data[32..].copy_from_slice(&revision(&identity.bytes)); // PRODUCT REVISION LEVEL
    data
}
