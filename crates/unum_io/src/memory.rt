//! A source and a sink in memory.

ghost use Rattle.std.specs.Prelude.{ℕ, List, ◌≡◌, ◌<◌, ◌+◌, ◌-◌, ◌++◌, [], ◌↔◌, ◌⊎◌, ◌≤◌, min, length, take, drop, None, Some, Contains, IfSome, IsErr, IsTrue, IfOk, MatchResult};
ghost use Rattle.std.specs.Io.{ReadsAtMost, WritesAtMost};
ghost use Rattle.std.specs.Io.KnownBytes.{ReadConsumes, WriteAppends};
ghost use Rattle.unum_io.specs.Causes.{HasCause};
ghost use Rattle.unum_io.specs.Memory.{at_most, next};

use crate::sink::Sink;
use crate::source::{Failed, Source};
use std::alloc::Global;
use std::marker::Model;
use unum_json::NoMemory;

/// A source over bytes in memory, some of whose reads fail.
#[derive(Drop)]
pub struct MemSource {
    bytes: Vec<u8>,
    at: usize,
    piece: Option<u32>,
    calls: u64,
    failing: Vec<u32>,
    failed: u64,
}

impl Model for MemSource {
    ghost use Rattle.std.specs.Prelude.{◌≤◌, drop, vec_len, IfSome};
    ghost use Rattle.unum_io.specs.Memory.{MemReading};

    ghost Value = { MemReading };

    ghost view = { λ s. record {
      bytes = drop s.at s.bytes.items;
      piece = s.piece;
      calls = s.calls;
      failing = s.failing.items;
      failed = s.failed;
    } };

    ghost invariant = { λ s. (s.at ≤ vec_len s.bytes) × IfSome s.piece (λ p. 1 ≤ p) };
}

fn is_failing(failing: &[u32], call: u64) -> bool
    ensures { IsTrue result ↔ Contains failing.now call }
{
    failing.iter().any(|f| u64::from(*f) == call)
}

/// So many, or as many as a piece has.
fn at_most(piece: Option<u32>, count: usize) -> usize
    ensures { result ≡ at_most piece count }
{
    match piece {
        Some(piece) => count.min(piece as usize),
        None => count,
    }
}

impl MemSource {
    /// A source of a copy of these bytes. Reads are numbered from 0, and those whose number stands in `failing` fail.
    pub fn new(alloc: Global, bytes: &[u8], failing: &[u32]) -> Result<MemSource, NoMemory>
        ensures { IfOk result (λ s. s ≡ record { bytes = bytes.now; piece = None; calls = 0; failing = failing.now; failed = 0 }) }
    {
        MemSource::of(alloc, bytes, None, failing)
    }

    /// A source like that, each of whose reads gives `piece` bytes at most, which is at least 1.
    pub fn in_pieces(
        alloc: Global,
        bytes: &[u8],
        piece: u32,
        failing: &[u32],
    ) -> Result<MemSource, NoMemory>
        requires { 1 ≤ piece }
        ensures { IfOk result (λ s. s ≡ record { bytes = bytes.now; piece = Some piece; calls = 0; failing = failing.now; failed = 0 }) }
    {
        MemSource::of(alloc, bytes, Some(piece), failing)
    }

    fn of(
        alloc: Global,
        bytes: &[u8],
        piece: Option<u32>,
        failing: &[u32],
    ) -> Result<MemSource, NoMemory>
        requires { IfSome piece (λ p. 1 ≤ p) }
        ensures { IfOk result (λ s. s ≡ record { bytes = bytes.now; piece = piece; calls = 0; failing = failing.now; failed = 0 }) }
    {
        Ok(MemSource {
            bytes: Vec::from_slice(alloc, bytes)?,
            at: 0,
            piece,
            calls: 0,
            failing: Vec::from_slice(alloc, failing)?,
            failed: 0,
        })
    }
}

impl Source for MemSource {
    ghost left = { λ s. Some s.bytes };

    ghost faults = { λ s. s.failed };

    fn read(&mut self, into: &mut [u8]) -> Result<usize, Failed>
        ensures bound { ReadsAtMost result into.new }
        ensures bytes { ReadConsumes (Some self.old.bytes) (Some self.new.bytes) result into.new }
        ensures cause { HasCause self.old.failed self.new.failed result }

        // It fails exactly at the numbers that it was given, and otherwise gives all that is left and fits, or as much of it as a
        // piece has.
        ensures faults { MatchResult result (λ _. self.new.failed ≡ self.old.failed) (λ _. self.new.failed ≡ next self.old.failed) }
        ensures failed { IsErr result ↔ Contains self.old.failing self.old.calls }
        ensures count { IfOk result (λ n. n ≡ at_most self.old.piece (min (length into.old) (length self.old.bytes))) }
        ensures piece { self.new.piece ≡ self.old.piece }
        ensures calls { self.new.calls ≡ next self.old.calls }
        ensures failing { self.new.failing ≡ self.old.failing }
    {
        let call = self.calls;
        self.calls = call.saturating_add(1);
        if is_failing(&self.failing, call) {
            self.failed = self.failed.saturating_add(1);
            return Err(Failed);
        }
        let left = &self.bytes[self.at..];
        let count = at_most(self.piece, left.len().min(into.len()));
        into[..count].copy_from_slice(&left[..count]);
        self.at += count;
        Ok(count)
    }
}

/// A sink in memory with room for so many bytes, some of whose writes fail. Its writes take no memory.
#[derive(Drop)]
pub struct MemSink {
    held: Vec<u8>,
    room: usize,
    piece: Option<u32>,
    calls: u64,
    failing: Vec<u32>,
    failed: u64,
}

impl Model for MemSink {
    ghost use Rattle.std.specs.Prelude.{◌+◌, ◌≤◌, vec_len, vec_capacity, IfSome};
    ghost use Rattle.unum_io.specs.Memory.{MemWriting};

    ghost Value = { MemWriting };

    ghost view = { λ s. record {
      held = s.held.items;
      room = s.room;
      piece = s.piece;
      calls = s.calls;
      failing = s.failing.items;
      failed = s.failed;
    } };

    ghost invariant = { λ s. (vec_len s.held + s.room ≤ vec_capacity s.held) × IfSome s.piece (λ p. 1 ≤ p) };
}

impl MemSink {
    /// A sink with room for `room` bytes, whose memory is taken at once. Writes are numbered from 0, and those whose
    /// number stands in `failing` fail.
    pub fn new(alloc: Global, room: u64, failing: &[u32]) -> Result<MemSink, NoMemory>
        ensures { IfOk result (λ s. s ≡ record { held = []; room = room; piece = None; calls = 0; failing = failing.now; failed = 0 }) }
    {
        MemSink::of(alloc, room, None, failing)
    }

    /// A sink like that, each of whose writes takes `piece` bytes at most, which is at least 1.
    pub fn in_pieces(
        alloc: Global,
        room: u64,
        piece: u32,
        failing: &[u32],
    ) -> Result<MemSink, NoMemory>
        requires { 1 ≤ piece }
        ensures { IfOk result (λ s. s ≡ record { held = []; room = room; piece = Some piece; calls = 0; failing = failing.now; failed = 0 }) }
    {
        MemSink::of(alloc, room, Some(piece), failing)
    }

    fn of(
        alloc: Global,
        room: u64,
        piece: Option<u32>,
        failing: &[u32],
    ) -> Result<MemSink, NoMemory>
        requires { IfSome piece (λ p. 1 ≤ p) }
        ensures { IfOk result (λ s. s ≡ record { held = []; room = room; piece = piece; calls = 0; failing = failing.now; failed = 0 }) }
    {
        let room = room as usize;
        Ok(MemSink {
            held: Vec::with_capacity(alloc, room)?,
            room,
            piece,
            calls: 0,
            failing: Vec::from_slice(alloc, failing)?,
            failed: 0,
        })
    }

    /// All that was taken, from the first write on.
    pub fn held(&self) -> &[u8]
        ensures { result.now ≡ self.now.held }
    {
        self.held.as_slice()
    }
}

impl Sink for MemSink {
    ghost taken = { λ s. Some s.held };

    ghost faults = { λ s. s.failed };

    fn write(&mut self, from: &[u8]) -> Result<usize, Failed>
        ensures bound { WritesAtMost result from.now }
        ensures some { IfOk result (λ n. 0 < length from.now → 0 < n) }
        ensures bytes { WriteAppends (Some self.old.held) (Some self.new.held) result from.now }
        ensures cause { HasCause self.old.failed self.new.failed result }

        // It fails exactly at the numbers that it was given, and where no room is left for what it is handed. Otherwise it
        // takes what fits, or as much of it as a piece has.
        ensures faults { MatchResult result (λ _. self.new.failed ≡ self.old.failed) (λ _. self.new.failed ≡ next self.old.failed) }
        ensures failed { IsErr result ↔ (Contains self.old.failing self.old.calls ⊎ ((0 < length from.now) × (self.old.room ≡ 0))) }
        ensures count { IfOk result (λ n. n ≡ at_most self.old.piece (min (length from.now) self.old.room)) }
        ensures piece { self.new.piece ≡ self.old.piece }
        ensures room { MatchResult result (λ n. self.new.room + n ≡ self.old.room) (λ _. self.new.room ≡ self.old.room) }
        ensures calls { self.new.calls ≡ next self.old.calls }
        ensures failing { self.new.failing ≡ self.old.failing }
    {
        let call = self.calls;
        self.calls = call.saturating_add(1);
        if is_failing(&self.failing, call) {
            self.failed = self.failed.saturating_add(1);
            return Err(Failed);
        }
        if self.room == 0 && !from.is_empty() {
            self.failed = self.failed.saturating_add(1);
            return Err(Failed);
        }
        let count = at_most(self.piece, self.room.min(from.len()));
        match self.held.extend_from_slice(&from[..count]) {
            Ok(()) => {
                self.room -= count;
                Ok(count)
            }
            Err(_) => unreachable!(),
        }
    }
}
