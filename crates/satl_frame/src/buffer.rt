// Bytes that wait to be written.
ghost use Rattle.std.specs.Prelude.{◌≡◌, ◌≤◌, ◌+◌, ◌++◌, [], length};

use std::marker::Model;

/// At most 8,192 bytes that wait to be written (profile): a reply with 4 KiB of data fits whole. Who writes many replies keeps
/// one, so that its memory is not cleared for each of them. A clause sees the bytes.
#[derive(Drop)]
pub struct WriteBuffer {
    bytes: [u8; 8192],
    len: usize,
}

impl Model for WriteBuffer {
    ghost use Rattle.std.specs.Prelude.{ℕ, List, ◌≤◌, take};

    ghost Value = { List ℕ };

    ghost view = { λ b. take b.len b.bytes };

    ghost invariant = { λ b. b.len ≤ 8192 };
}

impl WriteBuffer {
    /// A buffer without bytes (profile). It takes no memory of the allocator.
    pub fn new() -> WriteBuffer
        ensures { result ≡ [] }
    {
        WriteBuffer {
            bytes: [0; 8192],
            len: 0,
        }
    }

    /// A buffer with at most 8,192 bytes (profile).
    pub fn of(bytes: &[u8]) -> WriteBuffer
        requires { length bytes.now ≤ 8192 }
        ensures { result ≡ bytes.now }
    {
        let mut buffer = WriteBuffer::new();
        buffer.put(bytes);
        buffer
    }

    /// The bytes that wait (profile).
    pub fn as_slice(&self) -> &[u8]
        ensures { result.now ≡ self.now }
    {
        &self.bytes[..self.len]
    }

    /// How many bytes still fit.
    pub(crate) fn room(&self) -> usize
        ensures { result + length self.now ≡ 8192 }
    {
        8192 - self.len
    }

    /// Drops the bytes.
    pub(crate) fn clear(&mut self)
        ensures { self.new ≡ [] }
    {
        self.len = 0;
    }

    /// Puts bytes behind the others, where they fit.
    pub(crate) fn put(&mut self, bytes: &[u8])
        requires { length self.old + length bytes.now ≤ 8192 }
        ensures { self.new ≡ self.old ++ bytes.now }
    {
        let end = self.len + bytes.len();
        self.bytes[self.len..end].copy_from_slice(bytes);
        self.len = end;
    }
}
