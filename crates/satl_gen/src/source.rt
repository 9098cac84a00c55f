// The generated input as a source.
ghost use Rattle.std.specs.Prelude.{◌≡◌, false, [], Some, IsOk};
ghost use Rattle.std.specs.Io.{ReadsAtMost};
ghost use Rattle.std.specs.Io.KnownBytes.{ReadConsumes};
ghost use Rattle.satl_gen.specs.Generated.{generated};
ghost use Rattle.satl_io.specs.Causes.{HasCause};

use crate::ahead::Ahead;
use crate::draw::seeded;
use crate::pieces::{Piece, piece_of};
use satl_frame::FIRST_MAGIC;
use satl_io::{Failed, Source};
use std::io::Read;
use std::marker::Model;

/// A source of a generated input (profile). No read fails, and it takes no memory: at most 512 bytes are made ahead of what is
/// read. A clause sees the bytes that are left.
#[derive(Drop)]
pub struct GenSource {
    ready: Piece,
    at: usize,
    ahead: Ahead,
}

impl Model for GenSource {
    ghost use Rattle.std.specs.Prelude.{ℕ, List, ◌++◌, ◌≤◌, drop};
    ghost use Rattle.arrayvec.specs.ArrayVec.{array_vec_len};
    ghost use Rattle.satl_gen.specs.Coming.{bytes_ahead};

    ghost Value = { List ℕ };

    ghost view = { λ s. drop s.at s.ready.items ++ bytes_ahead s.ahead };

    ghost invariant = { λ s. s.at ≤ array_vec_len s.ready };
}

impl GenSource {
    /// The input of so many requests by the random numbers of a seed (profile).
    pub fn new(seed: u64, requests: u32) -> GenSource
        ensures { result ≡ generated seed requests }
    {
        GenSource {
            ready: piece_of(&FIRST_MAGIC),
            at: 0,
            ahead: Ahead {
                blocks: 0,
                value: 0,
                burst: None,
                requests,
                next: 0,
                generator: seeded(seed),
                ended: false,
            },
        }
    }
}

impl Source for GenSource {
    ghost left = { λ s. Some s };

    ghost ahead = { λ _. [] };

    ghost waited = { λ _. false };

    ghost faults = { λ _. 0 };

    fn read(&mut self, buf: &mut [u8]) -> Result<usize, Failed>
        ensures bound { ReadsAtMost result buf.new }
        ensures bytes { ReadConsumes (Some self.old) (Some self.new) result buf.new }
        ensures cause { HasCause 0 0 result }
        ensures ok { IsOk result }
    {
        if self.at == self.ready.len() {
            self.ready = self.ahead.take_piece();
            self.at = 0;
        }
        let mut ready = &self.ready.as_slice()[self.at..];
        match ready.read(buf) {
            Ok(count) => {
                self.at += count;
                Ok(count)
            }
            Err(_) => unreachable!(),
        }
    }

    // What is made ahead is not shown: a reader asks for it by `read`.
    fn read_ahead(&mut self) -> Result<(), Failed> {
        Ok(())
    }

    fn ahead(&self) -> &[u8] {
        &[]
    }

    fn consume(&mut self, _count: usize) {}
}
