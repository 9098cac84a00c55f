// A source over bytes that stand elsewhere.
ghost use Rattle.std.specs.Prelude.{◌≡◌, false, Some, length};

use satl_io::{Failed, Source};
use std::marker::Model;

/// Bytes that are left to read. No read fails (profile). A clause sees the bytes.
#[derive(Drop)]
pub struct Slice<'a> {
    rest: &'a [u8],
}

impl<'a> Model for Slice<'a> {
    ghost use Rattle.std.specs.Prelude.{ℕ, List};

    ghost Value = { List ℕ };

    ghost view = { λ s. s.rest.now };
}

impl<'a> Slice<'a> {
    /// A source of these bytes (profile).
    pub fn new(rest: &'a [u8]) -> Slice<'a>
        ensures { result ≡ rest.now }
    {
        Slice { rest }
    }

    /// How many bytes are left (profile).
    pub fn left(&self) -> usize
        ensures { result ≡ length self.now }
    {
        self.rest.len()
    }
}

impl<'a> Source for Slice<'a> {
    ghost left = { λ s. Some s };

    ghost ahead = { λ s. s };

    ghost waited = { λ _. false };

    ghost faults = { λ _. 0 };

    fn read(&mut self, buf: &mut [u8]) -> Result<usize, Failed> {
        let count = self.rest.len().min(buf.len());
        buf[..count].copy_from_slice(&self.rest[..count]);
        self.rest = &self.rest[count..];
        Ok(count)
    }

    fn read_ahead(&mut self) -> Result<(), Failed> {
        Ok(())
    }

    fn ahead(&self) -> &[u8] {
        self.rest
    }

    fn consume(&mut self, count: usize) {
        self.rest = &self.rest[count..];
    }
}
