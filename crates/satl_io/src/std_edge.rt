// The edge: std's readers and writers. Those of a process tell no bytes, so no clause knows these.
ghost use Rattle.std.specs.Prelude.{◌≡◌, ◌<◌, true, false, [], IfOk, MatchResult, nat_lt};
ghost use Rattle.std.specs.Io.{ReadsAtMost, WritesAtMost};
ghost use Rattle.std.specs.Io.KnownBytes.{ReadConsumes, WriteAppends};
ghost use Rattle.satl_io.specs.Causes.{HasCause, next_count};

use crate::sink::Sink;
use crate::source::{Failed, Source, count_fault};
use std::io::{Read, Write};
use std::marker::Model;

/// A source over a reader of std, which reads nothing ahead. Each error of the reader is a fault (profile).
#[derive(Drop)]
pub struct StdSource<R: Read + Drop> {
    inner: R,
    waited: bool,
    faults: u64,
}

impl<R: Read + Drop> Model for StdSource<R> {
    ghost use Rattle.satl_io.specs.Streams.{ReaderStream};

    ghost Value = { ReaderStream };

    ghost view = { λ s. record { bytes = R.remaining s.inner; waited = s.waited; faults = s.faults } };
}

impl<R: Read + Drop> StdSource<R> {
    /// Reads from `input`, with no fault and no wait so far (profile).
    pub fn new(input: R) -> Self
        ensures { result ≡ record { bytes = R.remaining input; waited = false; faults = 0 } }
    {
        StdSource {
            inner: input,
            waited: false,
            faults: 0,
        }
    }
}

impl<R: Read + Drop> Source for StdSource<R> {
    ghost left = { λ s. s.bytes };

    ghost ahead = { λ _. [] };

    ghost waited = { λ s. s.waited };

    ghost faults = { λ s. s.faults };

    fn read(&mut self, buf: &mut [u8]) -> Result<usize, Failed>
        ensures bound { ReadsAtMost result buf.new }
        ensures bytes { ReadConsumes self.old.bytes self.new.bytes result buf.new }
        ensures cause { HasCause self.old.faults self.new.faults result }
        ensures count { MatchResult result (λ _. self.new.faults ≡ self.old.faults)
            (λ _. self.new.faults ≡ next_count self.old.faults) }
        ensures waits { MatchResult result (λ n. self.new.waited ≡ nat_lt n 1) (λ _. self.new.waited ≡ true) }
    {
        self.waited = true;
        match self.inner.read(buf) {
            Ok(count) => {
                self.waited = count == 0;
                Ok(count)
            }
            Err(_) => Err(count_fault(&mut self.faults)),
        }
    }

    fn read_ahead(&mut self) -> Result<(), Failed> {
        Ok(())
    }

    fn ahead(&self) -> &[u8] {
        &[]
    }

    fn consume(&mut self, _count: usize) {}
}

/// A sink over a writer of std. Each error of the writer is a fault, and so is a write that takes no
/// byte (profile).
#[derive(Drop)]
pub struct StdSink<W: Write + Drop> {
    inner: W,
    faults: u64,
}

impl<W: Write + Drop> Model for StdSink<W> {
    ghost use Rattle.satl_io.specs.Streams.{Stream};

    ghost Value = { Stream };

    ghost view = { λ s. record { bytes = W.contents s.inner; faults = s.faults } };
}

impl<W: Write + Drop> StdSink<W> {
    /// Writes to `output`, with no fault so far (profile).
    pub fn new(output: W) -> Self
        ensures { result ≡ record { bytes = W.contents output; faults = 0 } }
    {
        StdSink {
            inner: output,
            faults: 0,
        }
    }
}

impl<W: Write + Drop> Sink for StdSink<W> {
    ghost written = { λ s. s.bytes };

    ghost faults = { λ s. s.faults };

    fn write(&mut self, piece: &[u8]) -> Result<usize, Failed>
        ensures bound { WritesAtMost result piece.now }
        ensures some { IfOk result (λ n. 0 < n) }
        ensures bytes { WriteAppends self.old.bytes self.new.bytes result piece.now }
        ensures cause { HasCause self.old.faults self.new.faults result }
        ensures count { MatchResult result (λ _. self.new.faults ≡ self.old.faults)
            (λ _. self.new.faults ≡ next_count self.old.faults) }
    {
        match self.inner.write(piece) {
            Ok(0) | Err(_) => Err(count_fault(&mut self.faults)),
            Ok(count) => Ok(count),
        }
    }
}
