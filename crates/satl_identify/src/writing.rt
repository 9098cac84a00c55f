// Writing the data.
ghost use Rattle.std.specs.Prelude.{◌≡◌, ◌==◌, IsTrue, Ok};
ghost use Rattle.satl_base.specs.Identify.{checksum, word_bits};
ghost use Rattle.satl_identify.specs.Data.{identity_data, settings_byte, with_integrity};
ghost use Rattle.satl_identify.specs.Refusals.{IsIdentity, identity_of};

use crate::identity::Identity;
use crate::words::{CACHE_BIT, ENABLED, INTEGRITY_WORD, LOOK_BIT, has_integrity};
use satl_base::checksum_of;

/// The place of the low byte of word 85, which has the settings (ACS-3, IDENTIFY DEVICE).
pub const SETTINGS: usize = 2 * ENABLED;

/// The place of the high byte of word 255, the checksum (ACS-3, IDENTIFY DEVICE).
pub const INTEGRITY: usize = 2 * INTEGRITY_WORD + 1;

/// The low byte of word 85 with its settings, bits 5 and 6, as given, and all else as it was (ACS-3, word 85).
pub fn settings_of(byte: u8, cache_on: bool, look_on: bool) -> u8
    ensures { result ≡ settings_byte byte cache_on look_on }
{
    let look = if look_on { 1 << LOOK_BIT } else { 0 };
    let cache = if cache_on { 1 << CACHE_BIT } else { 0 };
    (byte >> 7 << 7) + look + cache + (byte & 0x1F)
}

/// Brings the integrity byte up to date: where bits 7:0 of word 255 are A5h, its high byte makes the 512 bytes sum to 0
/// modulo 256 (ACS-3 7.12.7).
pub fn balance(bytes: &mut [u8; 512])
    ensures { bytes.new ≡ with_integrity bytes.old }
{
    if has_integrity(bytes) {
        bytes[INTEGRITY] = 0;
        bytes[INTEGRITY] = checksum_of(bytes).wrapping_neg();
    }
}

/// The data of an identity with these settings: bits 5 and 6 of word 85 as given, and where the integrity word is there
/// (bits 7:0 of word 255 are A5h) its high byte so that all bytes sum to 0 modulo 256 (ACS-3 7.12.7). All else stays.
pub fn identity_bytes(identity: &Identity, cache_on: bool, look_on: bool) -> [u8; 512]
    ensures exact { result ≡ identity_data identity.now.bytes cache_on look_on }
    ensures sum { IsTrue (word_bits 255 7 0 identity.now.bytes == 0xA5) → checksum result ≡ 0 }
    // An identity stays one, with the new settings and all else as it was.
    ensures passes { IsIdentity identity.now → identity_of result
        ≡ Ok (record identity.now { bytes = result; cache_on = cache_on; look_on = look_on }) }
{
    let mut bytes = identity.bytes;
    bytes[SETTINGS] = settings_of(bytes[SETTINGS], cache_on, look_on);
    balance(&mut bytes);
    bytes
}
