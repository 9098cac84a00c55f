//! The words of the data, by their places of 0 to 255 (ACS-3 7.12.7).
ghost use Rattle.std.specs.Prelude.{◌≡◌, ◌<◌, ◌==◌};
ghost use Rattle.satl_base.specs.Identify.{four_words, word, word_bit, word_bits};

use byteorder::{ByteOrder, LittleEndian};

/// General configuration.
pub const CONFIGURATION: usize = 0;

/// Serial number: 10 words, 20 characters.
pub const SERIAL: usize = 10;

/// Firmware revision: 4 words, 8 characters.
pub const REVISION: usize = 23;

/// Model number: 20 words, 40 characters.
pub const MODEL: usize = 27;

/// Capabilities.
pub const CAPABILITIES: usize = 49;

/// Additional supported features.
pub const ADDITIONAL: usize = 69;

/// Queue depth: the greatest tag.
pub const MOST_TAG: usize = 75;

/// Serial ATA capabilities.
pub const SATA_CAPABILITIES: usize = 76;

/// Serial ATA additional capabilities.
pub const SATA_ADDITIONAL: usize = 77;

/// Commands and feature sets supported, the first of three words.
pub const SUPPORTED: usize = 82;

/// Commands and feature sets supported, the second of three words.
pub const SUPPORTED_NEXT: usize = 83;

/// Commands and feature sets supported or enabled, the first of three words: the settings.
pub const ENABLED: usize = 85;

/// Commands and feature sets supported or enabled, the third of three words.
pub const ENABLED_LAST: usize = 87;

/// The number of sectors that 48 bits of LBA address: 4 words, the lowest first.
pub const CAPACITY: usize = 100;

/// The most blocks of one DATA SET MANAGEMENT.
pub const TRIM_BLOCKS: usize = 105;

/// Physical sector size and logical sector size.
pub const SECTOR_SIZE: usize = 106;

/// World wide name: 4 words, the highest first.
pub const WORLD_WIDE_NAME: usize = 108;

/// Nominal form factor.
pub const FORM_FACTOR: usize = 168;

/// DATA SET MANAGEMENT support.
pub const DATA_SET_MANAGEMENT: usize = 169;

/// Nominal media rotation rate.
pub const ROTATION_RATE: usize = 217;

/// Integrity word.
pub const INTEGRITY_WORD: usize = 255;

/// The bit of the volatile write cache in the words of what is supported and what is enabled.
pub const CACHE_BIT: u8 = 5;

/// The bit of read look-ahead in the words of what is supported and what is enabled.
pub const LOOK_BIT: u8 = 6;

/// What bits 7:0 of the integrity word are where it is there: A5h.
pub const SIGNATURE: u16 = 0xA5;

/// The word at a place of 0 to 255, its low byte first (ACS-3, IDENTIFY DEVICE data).
pub fn word_at(bytes: &[u8; 512], place: usize) -> u16
    requires { place < 256 }
    ensures { result ≡ word place bytes.now }
{
    LittleEndian::read_u16(&bytes[2 * place..])
}

/// Whether bit `low`, 0 to 15, of the word at a place of 0 to 255 is 1 (ACS-3, IDENTIFY DEVICE data).
pub fn bit_at(bytes: &[u8; 512], place: usize, low: u8) -> bool
    requires place { place < 256 }
    requires low { low < 16 }
    ensures { result ≡ word_bit place low bytes.now }
{
    word_at(bytes, place) >> low & 1 == 1
}

/// Whether a word is valid, in those words that tell it: its bits 15:14 are 01b (ACS-3, IDENTIFY DEVICE data).
pub fn is_valid(bytes: &[u8; 512], place: usize) -> bool
    requires { place < 256 }
    ensures { result ≡ (word_bits place 15 14 bytes.now == 1) }
{
    word_at(bytes, place) >> 14 == 1
}

/// Whether the integrity word is there: its bits 7:0 are A5h (ACS-3, IDENTIFY DEVICE data, word 255).
pub fn has_integrity(bytes: &[u8; 512]) -> bool
    ensures { result ≡ (word_bits 255 7 0 bytes.now == 0xA5) }
{
    word_at(bytes, INTEGRITY_WORD) & 0xFF == SIGNATURE
}

/// A number in four words, the lowest first.
pub fn number_at(bytes: &[u8; 512], place: usize) -> u64
    requires { place < 253 }
    ensures { result ≡ four_words place bytes.now }
{
    LittleEndian::read_u64(&bytes[2 * place..])
}
