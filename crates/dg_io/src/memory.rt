//! A source and a sink in memory, for tests, of which given calls fail.
ghost use Rattle.std.specs.Prelude.{◌≡◌, ◌+◌, ◌-◌, ◌<◌, ◌≤◌, [], length, take, min, Some, IfOk, OnErr, if◌then◌else◌};
ghost use Rattle.std.specs.Result.{is_err};
ghost use Rattle.dg_io.specs.Told.{Gives, grown, IsAtEnd, CountRose};
ghost use Rattle.dg_io.specs.MemoryForms.{is_failing_call, raised, sink_write_fails};

use crate::sink::Sink;
use crate::source::{Failed, Source};
use std::alloc::{AllocError, Global};
use std::marker::Model;

/// The answer for want of memory.
pub type OutOfMemory = AllocError;

/// The calls of an object in memory, of which some fail.
#[derive(Drop)]
struct Calls {
    fails: Vec<u64>,
    made: u64,
    faults: u64,
}

impl Calls {
    fn new(alloc: Global, fails: &[u64]) -> Result<Calls, OutOfMemory>
        ensures fails { IfOk result (λ c. c.fails.items ≡ fails.now) }
        ensures made { IfOk result (λ c. c.made ≡ 0) }
        ensures faults { IfOk result (λ c. c.faults ≡ 0) }
    {
        Ok(Calls {
            fails: Vec::from_slice(alloc, fails)?,
            made: 0,
            faults: 0,
        })
    }

    // Counts one call more, and says whether it is one that fails.
    fn next_fails(&mut self) -> bool
        ensures value { result ≡ is_failing_call self.old.fails.items self.old.made }
        ensures made { self.new ≡ record self.old { made = raised self.old.made } }
    {
        let fails = self.fails.contains(&self.made);
        self.made = self.made.saturating_add(1);
        fails
    }

    fn fail(&mut self) -> Failed
        ensures { self.new ≡ record self.old { faults = raised self.old.faults } }
    {
        self.faults = self.faults.saturating_add(1);
        Failed
    }
}

/// A source over bytes in memory, for tests: it gives them in chunks, and fails at given calls.
#[derive(Drop)]
pub struct MemorySource {
    bytes: Vec<u8>,
    given: usize,
    chunk: usize,
    calls: Calls,
}

impl Model for MemorySource {
    ghost use Rattle.std.specs.Prelude.{◌≤◌, ◌<◌, drop, vec_len};
    ghost use Rattle.dg_io.specs.MemoryForms.{SourceState};

    ghost Value = { SourceState };

    ghost view = { λ s. record {
      left = drop s.given s.bytes.items;
      chunk = s.chunk;
      fails = s.calls.fails.items;
      calls = s.calls.made;
      faults = s.calls.faults;
    } };

    ghost invariant = { λ s. (s.given ≤ vec_len s.bytes) × (0 < s.chunk) };
}

impl MemorySource {
    /// A source of a copy of `bytes` whose reads give at most `chunk` bytes each. The calls whose
    /// numbers, from 0, stand in `fails` fail. `OutOfMemory` for want of memory.
    pub fn new(
        alloc: Global,
        bytes: &[u8],
        chunk: usize,
        fails: &[u64],
    ) -> Result<MemorySource, OutOfMemory>
        requires { 1 ≤ chunk }
        ensures { IfOk result (λ s. s ≡ record {
          left = bytes.now;
          chunk = chunk;
          fails = fails.now;
          calls = 0;
          faults = 0;
        }) }
    {
        let bytes = Vec::from_slice(alloc, bytes)?;
        let calls = Calls::new(alloc, fails)?;
        Ok(MemorySource {
            bytes,
            given: 0,
            chunk,
            calls,
        })
    }

    /// The bytes still to be read.
    pub fn left(&self) -> &[u8]
        ensures { result.now ≡ self.now.left }
    {
        &self.bytes[self.given..]
    }
}

impl Source for MemorySource {
    ghost left = { λ s. Some s.left };

    ghost faults = { λ s. s.faults };

    fn read(&mut self, into: &mut [u8]) -> Result<usize, Failed>
        ensures bound { IfOk result (λ c. c ≤ length into.new) }
        ensures given { IfOk result (λ c. Gives (Some self.old.left) (take c into.new) (Some self.new.left)) }
        ensures end { IfOk result (λ c. c ≡ 0 → 0 < length into.new → IsAtEnd (Some self.old.left)) }
        ensures count { IfOk result (λ c.
            c ≡ min (min self.old.chunk (length into.old)) (length self.old.left)) }

        // errors
        ensures fails { is_err result ≡ is_failing_call self.old.fails self.old.calls }
        ensures err { OnErr result (Some self.new.left ≡ Some self.old.left) }
        ensures cause { OnErr result (CountRose self.old.faults self.new.faults) }

        // frame
        ensures counted { self.old.faults ≤ self.new.faults }
        ensures faults { self.new.faults ≡ (if is_err result then raised self.old.faults else self.old.faults) }
        ensures calls { self.new.calls ≡ raised self.old.calls }
        ensures same_fails { self.new.fails ≡ self.old.fails }
        ensures same_chunk { self.new.chunk ≡ self.old.chunk }
    {
        if self.calls.next_fails() {
            return Err(self.calls.fail());
        }
        let count = self
            .chunk
            .min(into.len())
            .min(self.bytes.len() - self.given);
        let end = self.given + count;
        into[..count].copy_from_slice(&self.bytes[self.given..end]);
        self.given = end;
        Ok(count)
    }
}

/// A sink that keeps what is written to it in memory, for tests: it has room for so many bytes, and
/// fails at given calls.
#[derive(Drop)]
pub struct MemorySink {
    bytes: Vec<u8>,
    room: usize,
    calls: Calls,
}

impl Model for MemorySink {
    ghost use Rattle.std.specs.Prelude.{◌≤◌, vec_len};
    ghost use Rattle.std.specs.Vec.{vec_capacity};
    ghost use Rattle.dg_io.specs.MemoryForms.{SinkState};

    ghost Value = { SinkState };

    ghost view = { λ s. record {
      written = s.bytes.items;
      room = s.room;
      fails = s.calls.fails.items;
      calls = s.calls.made;
      faults = s.calls.faults;
    } };

    ghost invariant = { λ s. (vec_len s.bytes ≤ s.room) × (s.room ≤ vec_capacity s.bytes) };
}

impl MemorySink {
    /// An empty sink with room for `room` bytes, which are reserved here, so that no write takes
    /// memory. A write past the room takes what fits, and fails where nothing does. The calls whose
    /// numbers, from 0, stand in `fails` fail. `OutOfMemory` for want of memory.
    pub fn new(alloc: Global, room: usize, fails: &[u64]) -> Result<MemorySink, OutOfMemory>
        ensures { IfOk result (λ s. s ≡ record {
          written = [];
          room = room;
          fails = fails.now;
          calls = 0;
          faults = 0;
        }) }
    {
        let bytes = Vec::with_capacity(alloc, room)?;
        let calls = Calls::new(alloc, fails)?;
        Ok(MemorySink { bytes, room, calls })
    }

    /// The bytes written so far.
    pub fn written(&self) -> &[u8]
        ensures { result.now ≡ self.now.written }
    {
        self.bytes.as_slice()
    }
}

impl Sink for MemorySink {
    ghost written = { λ s. Some s.written };

    ghost faults = { λ s. s.faults };

    fn write(&mut self, piece: &[u8]) -> Result<usize, Failed>
        ensures bound { IfOk result (λ c. c ≤ length piece.now) }
        ensures some { IfOk result (λ c. 0 < length piece.now → 0 < c) }
        ensures gained { IfOk result (λ c. Some self.new.written ≡ grown (Some self.old.written) (take c piece.now)) }
        ensures count { IfOk result (λ c.
            c ≡ min (length piece.now) (self.old.room - length self.old.written)) }

        // errors
        ensures fails { is_err result ≡ sink_write_fails self.old (length piece.now) }
        ensures err { OnErr result (Some self.new.written ≡ Some self.old.written) }
        ensures cause { OnErr result (CountRose self.old.faults self.new.faults) }

        // frame
        ensures counted { self.old.faults ≤ self.new.faults }
        ensures faults { self.new.faults ≡ (if is_err result then raised self.old.faults else self.old.faults) }
        ensures calls { self.new.calls ≡ raised self.old.calls }
        ensures same_fails { self.new.fails ≡ self.old.fails }
        ensures same_room { self.new.room ≡ self.old.room }
    {
        if self.calls.next_fails() {
            return Err(self.calls.fail());
        }
        let count = piece.len().min(self.room - self.bytes.len());
        if count == 0 && !piece.is_empty() {
            return Err(self.calls.fail());
        }
        match self.bytes.extend_from_slice(&piece[..count]) {
            Ok(()) => Ok(count),
            Err(_) => Err(self.calls.fail()),
        }
    }
}
