// The IDENTIFY DEVICE data of the modelled drive.
ghost use Rattle.std.specs.Prelude.{◌≡◌, ◌≤◌, ◌/◌, ◌%◌, ◌^◌};
ghost use Rattle.satl_base.specs.Identify.{has_cache, has_look, trim_blocks};
ghost use Rattle.satl_identify.specs.Data.{with_settings};
ghost use Rattle.satl_disk.specs.Data.{fixed_words, drive_data, integrity_kept, retold, set_word, set_words};

use satl_identify::words::{
    CACHE_BIT, LOOK_BIT, SUPPORTED, TRIM_BLOCKS, bit_at, has_integrity, word_at,
};
use satl_identify::{INTEGRITY, SETTINGS, balance, settings_of};

/// A word of IDENTIFY DEVICE data: its place from 0 to 255, and its value.
type Word = (u8, u16);

/// The words that are not 0 and do not depend on the number of sectors.
const FIXED_WORDS: [Word; 54] = [
    (0, 0x0040), // general configuration: an ATA device
    // Serial number, two characters a word: SATL0000000000000001.
    (10, 0x5341),
    (11, 0x544C),
    (12, 0x3030),
    (13, 0x3030),
    (14, 0x3030),
    (15, 0x3030),
    (16, 0x3030),
    (17, 0x3030),
    (18, 0x3030),
    (19, 0x3031),
    // Firmware revision: FW010203.
    (23, 0x4657),
    (24, 0x3031),
    (25, 0x3032),
    (26, 0x3033),
    // Model number: MODEL NCQ DISK, and spaces behind it.
    (27, 0x4D4F),
    (28, 0x4445),
    (29, 0x4C20),
    (30, 0x4E43),
    (31, 0x5120),
    (32, 0x4449),
    (33, 0x534B),
    (34, 0x2020),
    (35, 0x2020),
    (36, 0x2020),
    (37, 0x2020),
    (38, 0x2020),
    (39, 0x2020),
    (40, 0x2020),
    (41, 0x2020),
    (42, 0x2020),
    (43, 0x2020),
    (44, 0x2020),
    (45, 0x2020),
    (46, 0x2020),
    (49, 0x0300), // capabilities: LBA, DMA
    (69, 0x4020), // additional features: trimmed sectors read as zeros, each time
    (75, 0x001F), // queue depth: 32
    (76, 0x0100), // Serial ATA capabilities: NCQ
    (77, 0x0040), // Serial ATA additional capabilities: SEND FPDMA QUEUED
    (82, 0x0061), // supported: SMART, write cache, look-ahead
    (83, 0x7400), // supported: 48-bit addresses, FLUSH CACHE, FLUSH CACHE EXT
    (84, 0x4120), // supported: READ LOG EXT, world wide name
    (85, 0x0061), // enabled: SMART, write cache, look-ahead
    (86, 0x3400), // enabled: 48-bit addresses, FLUSH CACHE, FLUSH CACHE EXT
    (87, 0x4120), // enabled: READ LOG EXT, world wide name
    (105, 0x0008), // the most blocks of one trim: 8
    (106, 0x6003), // sector size: 2^3 logical sectors in a physical one
    // World wide name: 5000000000000001h.
    (108, 0x5000),
    (111, 0x0001),
    (168, 0x0003), // form factor: 2.5 inches
    (169, 0x0001), // DATA SET MANAGEMENT: TRIM
    (217, 0x0001), // rotation rate: none, solid state
    (255, 0x00A5), // integrity word: the checksum is there
];

/// Writes a word.
pub fn write_word(data_bytes: &mut [u8; 512], word: Word)
    ensures { data_bytes.new ≡ set_word word data_bytes.old }
{
    let [low, high] = word.1.to_le_bytes();
    let place = 2 * usize::from(word.0);
    data_bytes[place] = low;
    data_bytes[place + 1] = high;
}

fn write_words(data_bytes: &mut [u8; 512], words: &[Word])
    ensures { data_bytes.new ≡ set_words words.now data_bytes.old }
{
    for word in words {
        write_word(data_bytes, *word);
    }
}

fn write_fixed_words(data_bytes: &mut [u8; 512])
    ensures { data_bytes.new ≡ set_words fixed_words data_bytes.old }
{
    write_words(data_bytes, &FIXED_WORDS);
}

/// Writes the settings into word 85.
pub fn write_settings(data_bytes: &mut [u8; 512], cache_on: bool, look_on: bool)
    ensures { data_bytes.new ≡ with_settings data_bytes.old cache_on look_on }
{
    data_bytes[SETTINGS] = settings_of(data_bytes[SETTINGS], cache_on, look_on);
}

/// Brings the integrity byte up to date after a word was changed, but not where it stands in that word.
pub fn keep_integrity(data_bytes: &mut [u8; 512], place: u8)
    ensures { data_bytes.new ≡ integrity_kept place data_bytes.old }
{
    if place != 255 {
        balance(data_bytes);
    }
}

/// Makes the data tell these settings. Where there is an integrity byte, it keeps the sum of all bytes, whether that is 0 or
/// not.
pub fn retell(data_bytes: &mut [u8; 512], cache_on: bool, look_on: bool)
    ensures { data_bytes.new ≡ retold cache_on look_on data_bytes.old }
{
    let before = data_bytes[SETTINGS];
    let after = settings_of(before, cache_on, look_on);
    data_bytes[SETTINGS] = after;
    if has_integrity(data_bytes) {
        let sum = data_bytes[INTEGRITY].wrapping_add(before);
        data_bytes[INTEGRITY] = sum.wrapping_sub(after);
    }
}

fn low_half(number: u32) -> u16
    ensures { result ≡ number % 2 ^ 16 }
{
    (number & 0xFFFF) as u16
}

fn high_half(number: u32) -> u16
    ensures { result ≡ number / 2 ^ 16 }
{
    (number >> 16) as u16
}

/// The data of a drive of so many sectors, with write cache and look-ahead on.
#[tactic(auto, unfolding(crate::specs::Data::drive_data))]
pub fn identify_bytes(sectors: u32) -> [u8; 512]
    requires { sectors ≤ 65536 }
    ensures { result ≡ drive_data sectors }
{
    let low = low_half(sectors);
    let high = high_half(sectors);
    let mut data_bytes = [0; 512];
    write_fixed_words(&mut data_bytes);
    write_words(
        &mut data_bytes,
        &[(60, low), (61, high), (100, low), (101, high)],
    );
    balance(&mut data_bytes);
    data_bytes
}

/// Whether there is a write cache.
pub fn has_cache(data_bytes: &[u8; 512]) -> bool
    ensures { result ≡ has_cache data_bytes.now }
{
    bit_at(data_bytes, SUPPORTED, CACHE_BIT)
}

/// Whether there is read look-ahead.
pub fn has_look(data_bytes: &[u8; 512]) -> bool
    ensures { result ≡ has_look data_bytes.now }
{
    bit_at(data_bytes, SUPPORTED, LOOK_BIT)
}

/// The most blocks of one trim.
pub fn trim_blocks(data_bytes: &[u8; 512]) -> u16
    ensures { result ≡ trim_blocks data_bytes.now }
{
    word_at(data_bytes, TRIM_BLOCKS)
}
