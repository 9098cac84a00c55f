// The edge, read ahead: a buffered reader of std.
ghost use Rattle.std.specs.Prelude.{◌≡◌, ◌<◌, true, false, MatchResult, nat_lt};
ghost use Rattle.std.specs.Io.{ReadsAtMost};
ghost use Rattle.std.specs.Io.KnownBytes.{Keeps, ReadConsumes};
ghost use Rattle.satl_io.specs.Causes.{HasCause, next_count};

use crate::source::{Failed, Source, count_fault};
use std::io::{BufRead, BufReader, Read};
use std::marker::Model;

/// A source over a buffered reader of std, which shows what that has read ahead. Each error of the reader is a fault (profile).
#[derive(Drop)]
pub struct BufferedSource<R: Read + Drop> {
    inner: BufReader<R>,
    waited: bool,
    faults: u64,
}

impl<R: Read + Drop> Model for BufferedSource<R> {
    ghost use Rattle.std.specs.Io.Buffered.{reader_buffer, reader_remaining};
    ghost use Rattle.satl_io.specs.Streams.{BufferedStream};

    ghost Value = { BufferedStream };

    ghost view = { λ s. record {
      bytes = reader_remaining R.remaining s.inner;
      ahead = reader_buffer s.inner;
      waited = s.waited;
      faults = s.faults;
    } };
}

impl<R: Read + Drop> BufferedSource<R> {
    ghost use Rattle.std.specs.Io.Buffered.{reader_buffer, reader_remaining};

    /// Reads from `input`, with no fault and no wait so far (profile).
    pub fn new(input: BufReader<R>) -> Self
        ensures { result ≡ record {
          bytes = reader_remaining R.remaining input;
          ahead = reader_buffer input;
          waited = false;
          faults = 0;
        } }
    {
        BufferedSource {
            inner: input,
            waited: false,
            faults: 0,
        }
    }
}

impl<R: Read + Drop> Source for BufferedSource<R> {
    ghost left = { λ s. s.bytes };

    ghost ahead = { λ s. s.ahead };

    ghost waited = { λ s. s.waited };

    ghost faults = { λ s. s.faults };

    fn read(&mut self, buf: &mut [u8]) -> Result<usize, Failed>
        ensures bound { ReadsAtMost result buf.new }
        ensures bytes { ReadConsumes self.old.bytes self.new.bytes result buf.new }
        ensures cause { HasCause self.old.faults self.new.faults result }
        ensures count { MatchResult result (λ _. self.new.faults ≡ self.old.faults)
            (λ _. self.new.faults ≡ next_count self.old.faults) }
        ensures waits { MatchResult result (λ n. self.new.waited ≡ nat_lt n 1) (λ _. self.new.waited ≡ true) }
    {
        self.waited = true;
        match self.inner.read(buf) {
            Ok(count) => {
                self.waited = count == 0;
                Ok(count)
            }
            Err(_) => Err(count_fault(&mut self.faults)),
        }
    }

    fn read_ahead(&mut self) -> Result<(), Failed>
        ensures bytes { Keeps self.old.bytes self.new.bytes }
        ensures cause { HasCause self.old.faults self.new.faults result }
        ensures waits { self.new.waited ≡ true }
    {
        self.waited = true;
        match self.inner.fill_buf() {
            Ok(_) => Ok(()),
            Err(_) => Err(count_fault(&mut self.faults)),
        }
    }

    fn ahead(&self) -> &[u8] {
        self.inner.buffer()
    }

    fn consume(&mut self, count: usize) {
        self.waited &= count == 0;
        self.inner.consume(count);
    }
}
