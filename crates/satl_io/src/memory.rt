// Sources and sinks in memory, for tests: they cut the bytes in pieces, and fail at stated calls.
ghost use Rattle.std.specs.Prelude.{◌≡◌, ◌<◌, ◌≤◌, ◌+◌, ◌-◌, false, [], ◌++◌, ◌⊎◌, ◌↔◌, IfOk, IsOk, IsErr, IsTrue, MatchResult, Contains, Some, min, length, take, drop};
ghost use Rattle.std.specs.Io.{ReadsAtMost, WritesAtMost};
ghost use Rattle.std.specs.Io.KnownBytes.{Keeps, ReadConsumes, WriteAppends};
ghost use Rattle.satl_io.specs.Causes.{HasCause, next_count};

use crate::sink::Sink;
use crate::source::{Failed, Source, count_fault};
use satl_base::NoMemory;
use std::alloc::Global;
use std::marker::Model;

/// Copies as many bytes as there are, as fit and as are allowed, and gives their number.
fn copy_front(from: &[u8], to: &mut [u8], at_most: usize) -> usize
    ensures count { result ≡ min (min (length from.now) (length to.new)) at_most }
    ensures copied { from.now ≡ take result to.new ++ drop result from.now }
{
    let count = from.len().min(to.len()).min(at_most);
    to[..count].copy_from_slice(&from[..count]);
    count
}

/// Whether the call of this number fails.
fn is_failing(failing: &[u32], call: u64) -> bool
    ensures { IsTrue result ↔ Contains failing.now call }
{
    match u32::try_from(call) {
        Ok(call) => failing.contains(&call),
        Err(_) => false,
    }
}

/// A source of bytes in memory (profile).
#[derive(Drop)]
pub struct MemorySource {
    bytes: Vec<u8>,
    at: usize,
    piece: usize,
    failing: Vec<u32>,
    calls: u64,
    faults: u64,
}

impl Model for MemorySource {
    ghost use Rattle.std.specs.Prelude.{◌<◌, ◌≤◌, drop, vec_len};
    ghost use Rattle.satl_io.specs.Memory.{SourceInMemory};

    ghost Value = { SourceInMemory };

    ghost view = { λ s. record {
      left = drop s.at s.bytes.items;
      piece = s.piece;
      failing = s.failing.items;
      calls = s.calls;
      faults = s.faults;
    } };

    ghost invariant = { λ s. (s.at ≤ vec_len s.bytes) × (0 < s.piece) };
}

impl MemorySource {
    /// Each read gives at most `piece` bytes. The calls whose numbers, from 0, stand in `failing` fail (profile).
    pub fn new(bytes: Vec<u8>, piece: usize, failing: Vec<u32>) -> Self
        requires { 0 < piece }
        ensures { result ≡ record { left = bytes.items; piece = piece; failing = failing.items; calls = 0; faults = 0 } }
    {
        MemorySource {
            bytes,
            at: 0,
            piece,
            failing,
            calls: 0,
            faults: 0,
        }
    }

    /// Counts a call, which fails or not.
    fn begin_call(&mut self) -> Result<(), Failed>
        ensures cause { HasCause self.old.faults self.new.faults result }
        ensures fails { IsErr result ↔ Contains self.old.failing self.old.calls }
        ensures after { MatchResult result
            (λ _. self.new ≡ record self.old { calls = next_count self.old.calls })
            (λ _. self.new ≡ record self.old { calls = next_count self.old.calls; faults = next_count self.old.faults }) }
    {
        let call = self.calls;
        self.calls = call.saturating_add(1);
        if is_failing(&self.failing, call) {
            return Err(count_fault(&mut self.faults));
        }
        Ok(())
    }
}

impl Source for MemorySource {
    ghost left = { λ s. Some s.left };

    ghost ahead = { λ s. take s.piece s.left };

    ghost waited = { λ _. false };

    ghost faults = { λ s. s.faults };

    fn read(&mut self, buf: &mut [u8]) -> Result<usize, Failed>
        ensures bound { ReadsAtMost result buf.new }
        ensures bytes { ReadConsumes (Some self.old.left) (Some self.new.left) result buf.new }
        ensures cause { HasCause self.old.faults self.new.faults result }
        ensures fails { IsErr result ↔ Contains self.old.failing self.old.calls }
        ensures count { IfOk result (λ n. n ≡ min (min (length self.old.left) (length buf.new)) self.old.piece) }
        ensures after { MatchResult result
            (λ n. self.new ≡ record self.old { left = drop n self.old.left; calls = next_count self.old.calls })
            (λ _. self.new ≡ record self.old { calls = next_count self.old.calls; faults = next_count self.old.faults }) }
    {
        self.begin_call()?;
        let count = copy_front(&self.bytes[self.at..], buf, self.piece);
        self.at += count;
        Ok(count)
    }

    fn read_ahead(&mut self) -> Result<(), Failed>
        ensures bytes { Keeps (Some self.old.left) (Some self.new.left) }
        ensures cause { HasCause self.old.faults self.new.faults result }
        ensures fails { IsErr result ↔ Contains self.old.failing self.old.calls }
    {
        self.begin_call()
    }

    fn ahead(&self) -> &[u8] {
        let left = &self.bytes[self.at..];
        &left[..left.len().min(self.piece)]
    }

    fn consume(&mut self, count: usize) {
        self.at += count;
    }
}

/// A source of bytes in memory of which no read fails (profile).
#[derive(Drop)]
pub struct NeverFails {
    bytes: Vec<u8>,
    at: usize,
}

impl Model for NeverFails {
    ghost use Rattle.std.specs.Prelude.{ℕ, List, ◌≤◌, drop, vec_len};

    ghost Value = { List ℕ };

    ghost view = { λ s. drop s.at s.bytes.items };

    ghost invariant = { λ s. s.at ≤ vec_len s.bytes };
}

impl NeverFails {
    /// A source of these bytes (profile). A clause sees those that are left.
    pub fn new(bytes: Vec<u8>) -> Self
        ensures { result ≡ bytes.items }
    {
        NeverFails { bytes, at: 0 }
    }
}

impl Source for NeverFails {
    ghost left = { λ s. Some s };

    ghost ahead = { λ s. s };

    ghost waited = { λ _. false };

    ghost faults = { λ _. 0 };

    fn read(&mut self, buf: &mut [u8]) -> Result<usize, Failed>
        ensures bound { ReadsAtMost result buf.new }
        ensures bytes { ReadConsumes (Some self.old) (Some self.new) result buf.new }
        ensures cause { HasCause 0 0 result }
        ensures ok { IsOk result }
        ensures count { IfOk result (λ n. n ≡ min (length self.old) (length buf.new)) }
    {
        let count = copy_front(&self.bytes[self.at..], buf, usize::MAX);
        self.at += count;
        Ok(count)
    }

    fn read_ahead(&mut self) -> Result<(), Failed>
        ensures bytes { Keeps (Some self.old) (Some self.new) }
        ensures cause { HasCause 0 0 result }
        ensures ok { IsOk result }
    {
        Ok(())
    }

    fn ahead(&self) -> &[u8] {
        &self.bytes[self.at..]
    }

    fn consume(&mut self, count: usize) {
        self.at += count;
    }
}

/// A sink of bytes in memory (profile).
#[derive(Drop)]
pub struct MemorySink {
    bytes: Vec<u8>,
    room: usize,
    piece: usize,
    failing: Vec<u32>,
    calls: u64,
    faults: u64,
}

impl Model for MemorySink {
    ghost use Rattle.std.specs.Prelude.{◌<◌, ◌≤◌, ◌+◌, vec_len, vec_capacity};
    ghost use Rattle.satl_io.specs.Memory.{SinkInMemory};

    ghost Value = { SinkInMemory };

    ghost view = { λ s. record {
      written = s.bytes.items;
      room = s.room;
      piece = s.piece;
      failing = s.failing.items;
      calls = s.calls;
      faults = s.faults;
    } };

    ghost invariant = { λ s. (vec_len s.bytes + s.room ≤ vec_capacity s.bytes) × (0 < s.piece) };
}

impl MemorySink {
    /// Has room for `room` bytes (profile), of which each write takes at most `piece`. The calls whose numbers, from 0,
    /// stand in `failing` fail. NoMemory where there is no memory for the bytes.
    pub fn new(
        alloc: Global,
        room: usize,
        piece: usize,
        failing: Vec<u32>,
    ) -> Result<Self, NoMemory>
        requires { 0 < piece }
        ensures { IfOk result (λ s. s ≡ record {
          written = [];
          room = room;
          piece = piece;
          failing = failing.items;
          calls = 0;
          faults = 0;
        }) }
    {
        Ok(MemorySink {
            bytes: Vec::with_capacity(alloc, room)?,
            room,
            piece,
            failing,
            calls: 0,
            faults: 0,
        })
    }

    /// The bytes that were written (profile).
    pub fn written(&self) -> &[u8]
        ensures { result.now ≡ self.now.written }
    {
        &self.bytes
    }
}

impl Sink for MemorySink {
    ghost written = { λ s. Some s.written };

    ghost faults = { λ s. s.faults };

    fn write(&mut self, piece: &[u8]) -> Result<usize, Failed>
        requires { 0 < length piece.now }
        ensures bound { WritesAtMost result piece.now }
        ensures some { IfOk result (λ n. 0 < n) }
        ensures bytes { WriteAppends (Some self.old.written) (Some self.new.written) result piece.now }
        ensures cause { HasCause self.old.faults self.new.faults result }
        ensures fails { IsErr result ↔ ((self.old.room ≡ 0) ⊎ Contains self.old.failing self.old.calls) }
        ensures count { IfOk result (λ n. n ≡ min (min (length piece.now) self.old.room) self.old.piece) }
        ensures after { MatchResult result
            (λ n. self.new ≡ record self.old {
              written = self.old.written ++ take n piece.now;
              room = self.old.room - n;
              calls = next_count self.old.calls;
            })
            (λ _. self.new ≡ record self.old { calls = next_count self.old.calls; faults = next_count self.old.faults }) }
    {
        let call = self.calls;
        self.calls = call.saturating_add(1);
        if self.room == 0 || is_failing(&self.failing, call) {
            return Err(count_fault(&mut self.faults));
        }
        let count = piece.len().min(self.room).min(self.piece);
        match self.bytes.extend_from_slice(&piece[..count]) {
            Ok(()) => {
                self.room -= count;
                Ok(count)
            }
            Err(_) => unreachable!(),
        }
    }
}
