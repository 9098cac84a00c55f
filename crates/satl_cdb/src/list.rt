// Bytes and numbers of a parameter list, which stands in pages of 512 bytes.
ghost use Rattle.std.specs.Prelude.{◌≡◌, ◌+◌, ◌*◌, ◌^◌, ◌≤◌, ◌<◌, length};
ghost use Rattle.satl_base.specs.Blocks.{byte_at};
ghost use Rattle.satl_cdb.specs.Unmap.{number_at};

use byteorder::{BigEndian, ByteOrder};
use satl_base::Pages;

/// The byte at a place of a parameter list.
pub fn byte_of(list: &Pages, place: usize) -> u8
    requires place { place < 2 ^ 17 }
    requires room { place < 512 * length list.now }
    ensures { result ≡ byte_at list.now place }
{
    list.block((place / 512) as u32).bytes[place % 512]
}

/// The number in two bytes from a place on, the first the highest (SPC-4 3.5).
pub fn u16_at(list: &Pages, place: usize) -> u16
    requires place { place + 2 ≤ 2 ^ 16 }
    requires room { place + 2 ≤ 512 * length list.now }
    ensures { result ≡ number_at place 2 list.now }
{
    BigEndian::read_u16(&[byte_of(list, place), byte_of(list, place + 1)])
}

/// The number in three bytes.
pub fn u24_at(list: &Pages, place: usize) -> u32
    requires place { place + 3 ≤ 2 ^ 16 }
    requires room { place + 3 ≤ 512 * length list.now }
    ensures { result ≡ number_at place 3 list.now }
{
    BigEndian::read_u24(&[
        byte_of(list, place),
        byte_of(list, place + 1),
        byte_of(list, place + 2),
    ])
}

/// The number in four bytes.
pub fn u32_at(list: &Pages, place: usize) -> u32
    requires place { place + 4 ≤ 2 ^ 16 }
    requires room { place + 4 ≤ 512 * length list.now }
    ensures { result ≡ number_at place 4 list.now }
{
    BigEndian::read_u32(&[
        byte_of(list, place),
        byte_of(list, place + 1),
        byte_of(list, place + 2),
        byte_of(list, place + 3),
    ])
}

/// The number in eight bytes.
pub fn u64_at(list: &Pages, place: usize) -> u64
    requires place { place + 8 ≤ 2 ^ 16 }
    requires room { place + 8 ≤ 512 * length list.now }
    ensures { result ≡ number_at place 8 list.now }
{
    BigEndian::read_u64(&[
        byte_of(list, place),
        byte_of(list, place + 1),
        byte_of(list, place + 2),
        byte_of(list, place + 3),
        byte_of(list, place + 4),
        byte_of(list, place + 5),
        byte_of(list, place + 6),
        byte_of(list, place + 7),
    ])
}
