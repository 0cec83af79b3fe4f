// Streams in memory: one fails as it is told to, and the quiet one never. Both stall when full.
ghost use Rattle.std.specs.Prelude.{◌≡◌, ◌↔◌, ◌-◌, ◌<◌, ◌≤◌, Contains, min, [], length, take, IfOk, OnErr, IsErr, Ok, Some};
ghost use Rattle.wire_io.specs.Counts.{Rose};
ghost use Rattle.wire_io.specs.Sink.{Grows, KeepsRoom};
ghost use Rattle.wire_io.specs.Streams.{taken, after_put, after_fault, after_quiet_put};

use crate::{Failed, NoMemory, Sink};
use std::alloc::Global;
use std::marker::Model;

/// A stream in memory. A write fails exactly where its number, counted from 0, is among the failing
/// ones, and stalls where no room is left.
#[derive(Drop)]
pub struct MemSink {
    stream: QuietSink,
    step: u64,
    failing: Vec<u64>,
    calls: u64,
    faults: u64,
}

impl Model for MemSink {
    ghost use Rattle.std.specs.Prelude.{◌≤◌};
    ghost use Rattle.wire_io.specs.Streams.{SinkState};

    ghost Value = { SinkState };

    ghost view = { λ s. record {
      bytes = s.stream.bytes;
      room = s.stream.room;
      step = s.step;
      failing = s.failing.items;
      calls = s.calls;
      faults = s.faults;
      stalls = s.stream.stalls;
    } };

    ghost invariant = { λ s. 1 ≤ s.step };
}

impl MemSink {
    /// An empty stream with `room` bytes reserved. One write takes at most `step` bytes, and the
    /// writes with a number in `failing` fail.
    pub fn new(alloc: Global, room: u64, step: u64, failing: Vec<u64>) -> Result<MemSink, NoMemory>
        requires { 1 ≤ step }
        ensures { IfOk result (λ s. s ≡ record {
          bytes = [];
          room = room;
          step = step;
          failing = failing.items;
          calls = 0;
          faults = 0;
          stalls = 0;
        }) }
    {
        Ok(MemSink {
            stream: QuietSink::new(alloc, room)?,
            step,
            failing,
            calls: 0,
            faults: 0,
        })
    }

    /// What was written.
    pub fn bytes(&self) -> &[u8]
        ensures { result.now ≡ self.now.bytes }
    {
        self.stream.bytes()
    }
}

impl Sink for MemSink {
    ghost written = { λ s. Some s.bytes };

    ghost faults = { λ s. s.faults };

    ghost stalls = { λ s. s.stalls };

    ghost room = { λ s. Some s.room };

    fn put(&mut self, piece: &[u8]) -> Result<u64, Failed>
        ensures fits { IfOk result (λ n. n ≤ length piece.now) }
        ensures ok { IfOk result (λ n. Grows (Some self.old.bytes) (Some self.new.bytes) (take n piece.now)) }
        ensures failed { OnErr result (Rose self.old.faults self.new.faults) }
        ensures stalled { result ≡ Ok 0 → 0 < length piece.now → Rose self.old.stalls self.new.stalls }
        ensures err { OnErr result (Some self.new.bytes ≡ Some self.old.bytes) }
        ensures room { KeepsRoom (Some self.old.room) (Some self.new.room) self.old.stalls self.new.stalls (Some self.new.bytes) }
        ensures later { self.old.faults ≤ self.new.faults }
        ensures stalls_later { self.old.stalls ≤ self.new.stalls }
        // Exactly when it fails, how many bytes it takes, and what it leaves.
        ensures exact { IsErr result ↔ Contains self.old.failing self.old.calls }
        ensures count { IfOk result (λ n. n ≡ taken self.old.step (self.old.room - length self.old.bytes) piece.now) }
        ensures after { IfOk result (λ n. self.new ≡ after_put self.old piece.now n) }
        ensures after_err { OnErr result (self.new ≡ after_fault self.old) }
    {
        let number = self.calls;
        self.calls = number.saturating_add(1);
        if self.failing.contains(&number) {
            self.faults = self.faults.saturating_add(1);
            return Err(Failed);
        }
        let most = piece.len().min(self.step as usize);
        self.stream.put(&piece[..most])
    }
}

/// A stream in memory whose writes never fail. It stalls where no room is left.
#[derive(Drop)]
pub struct QuietSink {
    bytes: Vec<u8>,
    room: u64,
    stalls: u64,
}

impl Model for QuietSink {
    ghost use Rattle.std.specs.Prelude.{◌≤◌, length, vec_capacity};
    ghost use Rattle.wire_io.specs.Streams.{QuietSinkState};

    ghost Value = { QuietSinkState };

    ghost view = { λ s. record { bytes = s.bytes.items; room = s.room; stalls = s.stalls } };

    ghost invariant = { λ s. (length s.bytes.items ≤ s.room) × (s.room ≤ vec_capacity s.bytes) };
}

impl QuietSink {
    /// An empty stream with `room` bytes reserved.
    pub fn new(alloc: Global, room: u64) -> Result<QuietSink, NoMemory>
        ensures { IfOk result (λ s. s ≡ record { bytes = []; room = room; stalls = 0 }) }
    {
        Ok(QuietSink {
            bytes: Vec::with_capacity(alloc, room as usize)?,
            room,
            stalls: 0,
        })
    }

    /// What was written.
    pub fn bytes(&self) -> &[u8]
        ensures { result.now ≡ self.now.bytes }
    {
        &self.bytes
    }
}

impl Sink for QuietSink {
    ghost written = { λ s. Some s.bytes };

    ghost faults = { λ _. 0 };

    ghost stalls = { λ s. s.stalls };

    ghost room = { λ s. Some s.room };

    fn put(&mut self, piece: &[u8]) -> Result<u64, Failed>
        ensures fits { IfOk result (λ n. n ≤ length piece.now) }
        ensures ok { IfOk result (λ n. Grows (Some self.old.bytes) (Some self.new.bytes) (take n piece.now)) }
        ensures failed { OnErr result (Rose 0 0) }
        ensures stalled { result ≡ Ok 0 → 0 < length piece.now → Rose self.old.stalls self.new.stalls }
        ensures err { OnErr result (Some self.new.bytes ≡ Some self.old.bytes) }
        ensures room { KeepsRoom (Some self.old.room) (Some self.new.room) self.old.stalls self.new.stalls (Some self.new.bytes) }
        ensures stalls_later { self.old.stalls ≤ self.new.stalls }
        // How many bytes it takes, and what it leaves.
        ensures count { result ≡ Ok (min (length piece.now) (self.old.room - length self.old.bytes)) }
        ensures after { IfOk result (λ n. self.new ≡ after_quiet_put self.old piece.now n) }
    {
        let left = self.room as usize - self.bytes.len();
        let count = piece.len().min(left);
        if count == 0 && !piece.is_empty() {
            self.stalls = self.stalls.saturating_add(1);
            return Ok(0);
        }
        self.bytes.extend_from_slice(&piece[..count]).unwrap();
        Ok(count as u64)
    }
}
