// Reading the data.
ghost use Rattle.std.specs.Prelude.{◌≡◌, ◌≤◌, ◌<◌, ◌^◌, IfOk};
ghost use Rattle.satl_base.specs.Identify.{exponent, has_bad_sum, has_capacity, has_lba48, has_queue, has_queued_trim, has_trim, is_other_block};
ghost use Rattle.satl_identify.specs.Refusals.{IsIdentity, identity_in, identity_of};

use crate::identity::{Identity, IdentityFault};
use crate::words::{
    ADDITIONAL, CACHE_BIT, CAPABILITIES, CAPACITY, CONFIGURATION, DATA_SET_MANAGEMENT, ENABLED,
    LOOK_BIT, MOST_TAG, SATA_ADDITIONAL, SATA_CAPABILITIES, SECTOR_SIZE, SUPPORTED, SUPPORTED_NEXT,
    bit_at, has_integrity, is_valid, number_at, word_at,
};
use satl_base::checksum_of;

// The integrity word is there, and the bytes do not sum to 0.
fn has_bad_sum(bytes: &[u8; 512]) -> bool
    ensures { result ≡ has_bad_sum bytes.now }
{
    has_integrity(bytes) && checksum_of(bytes) != 0
}

fn has_lba48(bytes: &[u8; 512]) -> bool
    ensures { result ≡ has_lba48 bytes.now }
{
    let dma = bit_at(bytes, CAPABILITIES, 8);
    let lba = bit_at(bytes, CAPABILITIES, 9);
    let lba48 = bit_at(bytes, SUPPORTED_NEXT, 10);
    let flush_cache_ext = bit_at(bytes, SUPPORTED_NEXT, 13);
    dma && lba && is_valid(bytes, SUPPORTED_NEXT) && lba48 && flush_cache_ext
}

fn has_queue(bytes: &[u8; 512]) -> bool
    ensures { result ≡ has_queue bytes.now }
{
    let ncq = bit_at(bytes, SATA_CAPABILITIES, 8);
    let most_tag = word_at(bytes, MOST_TAG) & 0x1F;
    word_at(bytes, SATA_CAPABILITIES) != 0xFFFF && ncq && most_tag == 31
}

fn has_capacity(bytes: &[u8; 512]) -> bool
    ensures { result ≡ has_capacity bytes.now }
{
    let capacity = number_at(bytes, CAPACITY);
    capacity != 0 && capacity <= 0xFFFF_FFFF_FFFF
}

fn is_other_block(bytes: &[u8; 512]) -> bool
    ensures { result ≡ is_other_block bytes.now }
{
    let is_longer = bit_at(bytes, SECTOR_SIZE, 12);
    is_valid(bytes, SECTOR_SIZE) && is_longer
}

fn exponent_of(bytes: &[u8; 512]) -> u8
    ensures { result ≡ exponent bytes.now }
{
    let has_exponent = bit_at(bytes, SECTOR_SIZE, 13);
    if is_valid(bytes, SECTOR_SIZE) && has_exponent {
        (word_at(bytes, SECTOR_SIZE) & 0x0F) as u8
    } else {
        0
    }
}

/// Whether the drive trims, and a read of what was trimmed gives zeros (ACS-3, words 69 and 169).
pub fn has_trim(bytes: &[u8; 512]) -> bool
    ensures { result ≡ has_trim bytes.now }
{
    let trim = bit_at(bytes, DATA_SET_MANAGEMENT, 0);
    let deterministic = bit_at(bytes, ADDITIONAL, 14);
    let zeros = bit_at(bytes, ADDITIONAL, 5);
    trim && deterministic && zeros
}

fn has_queued_trim(bytes: &[u8; 512]) -> bool
    ensures { result ≡ has_queued_trim bytes.now }
{
    let send_queued = bit_at(bytes, SATA_ADDITIONAL, 6);
    has_trim(bytes) && send_queued
}

fn identity_from(bytes: &[u8; 512]) -> Identity
    ensures { result ≡ identity_in bytes.now }
{
    Identity {
        bytes: *bytes,
        capacity: number_at(bytes, CAPACITY),
        exponent: exponent_of(bytes),
        trim: has_trim(bytes),
        queued_trim: has_queued_trim(bytes),
        cache: bit_at(bytes, SUPPORTED, CACHE_BIT),
        look: bit_at(bytes, SUPPORTED, LOOK_BIT),
        cache_on: bit_at(bytes, ENABLED, CACHE_BIT),
        look_on: bit_at(bytes, ENABLED, LOOK_BIT),
    }
}

#[tactic(auto, unfolding(crate::specs::Refusals::identity_of))]
fn judge(bytes: &[u8; 512]) -> Result<Identity, IdentityFault>
    ensures { result ≡ identity_of bytes.now }
{
    let is_not_ata = bit_at(bytes, CONFIGURATION, 15);
    if is_not_ata {
        return Err(IdentityFault::NotAta);
    }
    if has_bad_sum(bytes) {
        return Err(IdentityFault::BadIntegrity);
    }
    if !has_lba48(bytes) {
        return Err(IdentityFault::NoLba48);
    }
    if !has_queue(bytes) {
        return Err(IdentityFault::NoNcq);
    }
    if !has_capacity(bytes) {
        return Err(IdentityFault::NoCapacity);
    }
    if is_other_block(bytes) {
        return Err(IdentityFault::NotBlock512);
    }
    Ok(identity_from(bytes))
}

/// What IDENTIFY DEVICE data say (ACS-3 7.12.7), or why the layer does not serve the drive (profile).
///
/// The refusals, in the order in which they are judged: `NotAta`, not an ATA device (word 0); `BadIntegrity`, the
/// integrity word is there and the 512 bytes do not sum to 0 modulo 256 (word 255); `NoLba48`, no LBA, DMA, 48-bit
/// addresses or FLUSH CACHE EXT (words 49 and 83); `NoNcq`, no queue of 32 commands (words 75 and 76); `NoCapacity`, no
/// sectors, or 2^48 and more (words 100 to 103); `NotBlock512`, sectors of more than 512 bytes (word 106).
pub fn read_identity(bytes: &[u8; 512]) -> Result<Identity, IdentityFault>
    ensures judged { result ≡ identity_of bytes.now }
    ensures found { IfOk result (λ i. IsIdentity i) }
    ensures capacity { IfOk result (λ i. (1 ≤ i.capacity) × (i.capacity < 2 ^ 48)) }
{
    judge(bytes)
}
