// The bytes of the log.
ghost use Rattle.std.specs.Prelude.{◌≡◌, ◌≢◌, ◌<◌, [], ◌∷◌, ◌++◌, ◌^◌, ◌↔◌, ℕ, Ok, IsTrue, replicate};
ghost use Rattle.std.specs.Int.{byte_at};
ghost use Rattle.satl_base.specs.Identify.{checksum};
ghost use Rattle.satl_base.specs.Places.{laid};
ghost use Rattle.satl_errlog.specs.Log.{entry_in, fields, is_not_queued, log_of, log_says, without_checksum};

use crate::entry::{LogFault, NcqError};
use satl_base::{Block, checksum_of};

/// The address of the log, for READ LOG EXT (ACS-3 annex A, NCQ Command Error log).
pub const LOG_ADDRESS: u8 = 0x10;

// The place of the byte that makes the sum of all bytes 0.
const CHECKSUM: usize = 511;

// The bit of byte 0 that is NQ: the command that failed was not queued, or none failed.
const NQ: u32 = 7;

fn low_first(count: u16) -> [u8; 2]
    ensures bytes { result ≡ byte_at 0 count ∷ byte_at 1 count ∷ [] }
    ensures fits { count < 2 ^ 16 }
{
    count.to_le_bytes()
}

fn fields_of(error: &NcqError) -> [u8; 17]
    ensures bytes { result ≡ laid 17 (fields error.now) }
    ensures fits { error.now.count < 2 ^ 16 }
{
    let [_, _, lba5, lba4, lba3, lba2, lba1, lba0] = error.lba.to_be_bytes();
    let [count0, count1] = low_first(error.count);
    [
        error.tag & 0x1F, // NCQ TAG, below NQ and UNL
        0,
        error.status, // STATUS
        error.error, // ERROR
        lba0, // LBA(7:0)
        lba1, // LBA(15:8)
        lba2, // LBA(23:16)
        error.device, // DEVICE
        lba3, // LBA(31:24)
        lba4, // LBA(39:32)
        lba5, // LBA(47:40)
        0,
        count0, // COUNT(7:0)
        count1, // COUNT(15:8)
        error.key, // SENSE KEY
        error.asc, // ADDITIONAL SENSE CODE
        error.ascq, // ADDITIONAL SENSE CODE QUALIFIER
    ]
}

// The log but for its last byte.
#[tactic(auto, unfolding(crate::specs::Log::without_checksum))]
fn unsummed(error: &NcqError) -> [u8; 512]
    ensures bytes { result ≡ without_checksum error.now }
    ensures fits { error.now.count < 2 ^ 16 }
{
    let mut bytes = [0; 512];
    bytes[..17].copy_from_slice(&fields_of(error));
    bytes
}

fn summed(error: &NcqError) -> [u8; 512]
    ensures bytes { result ≡ log_of error.now }
    ensures fits { error.now.count < 2 ^ 16 }
{
    let mut bytes = unsummed(error);
    bytes[CHECKSUM] = checksum_of(&bytes).wrapping_neg();
    bytes
}

/// The log with this entry (ACS-3 annex A, NCQ Command Error log): 512 bytes that sum to 0 modulo 256.
///
/// It has room for 5 bits of tag and 48 of LBA; the others are left out.
pub fn log_bytes(error: &NcqError) -> Block
    ensures exact { result.bytes ≡ log_of error.now }
    ensures sum { checksum result.bytes ≡ 0 }
    ensures again { error.now.tag < 32 → error.now.lba < 2 ^ 48 → log_says result.bytes ≡ Ok error.now }
{
    Block {
        bytes: summed(error),
    }
}

/// The log where no queued command has failed: NQ is 1, and the bytes sum to 0 modulo 256 (ACS-3 annex A, NCQ Command Error
/// log).
pub fn no_error_log() -> Block
    ensures exact { result.bytes ≡ 0x80 ∷ (replicate 510 0 ++ 0x80 ∷ []) }
{
    let mut bytes = [0; 512];
    bytes[0] = 1 << NQ;
    bytes[CHECKSUM] = 0x80; // 80h and 80h sum to 0
    Block { bytes }
}

fn entry_from(bytes: &[u8; 512]) -> NcqError
    ensures { result ≡ entry_in bytes.now }
{
    NcqError {
        tag: bytes[0] & 0x1F,
        status: bytes[2],
        error: bytes[3],
        lba: u64::from_be_bytes([
            0, 0, bytes[10], bytes[9], bytes[8], bytes[6], bytes[5], bytes[4],
        ]),
        device: bytes[7],
        count: u16::from_be_bytes([bytes[13], bytes[12]]),
        key: bytes[14],
        asc: bytes[15],
        ascq: bytes[16],
    }
}

/// The entry of the log (ACS-3 annex A, NCQ Command Error log).
///
/// `BadChecksum` where the 512 bytes do not sum to 0 modulo 256; else `NotQueued` where bit 7 of byte 0 is 1.
pub fn read_log(log: &Block) -> Result<NcqError, LogFault>
    ensures value { result ≡ log_says log.now.bytes }
    ensures bad_checksum { (sum : ℕ) → (result ≡ Err (LogFault.BadChecksum sum))
        ↔ ((checksum log.now.bytes ≡ sum) × (sum ≢ 0)) }
    ensures not_queued { (result ≡ Err LogFault.NotQueued)
        ↔ ((checksum log.now.bytes ≡ 0) × IsTrue (is_not_queued log.now.bytes)) }
{
    let sum = checksum_of(&log.bytes);
    if sum != 0 {
        return Err(LogFault::BadChecksum { sum });
    }
    if log.bytes[0] >> NQ & 1 == 1 {
        return Err(LogFault::NotQueued);
    }
    Ok(entry_from(&log.bytes))
}
