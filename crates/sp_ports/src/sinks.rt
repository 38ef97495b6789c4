//! Sinks in memory.

ghost use Rattle.std.specs.Prelude.{◌≡◌, ◌<◌, ◌≤◌, ◌-◌, ◌++◌, ◌↔◌, ◌⊎◌, [], min, take, length, false, IsOk, IsErr, IfOk, OnOk, OnErr, Contains};
ghost use Rattle.std.specs.Vec.{vec_capacity};
ghost use Rattle.sp_ports.specs.Bytes.{Takes};
ghost use Rattle.sp_ports.specs.Device.{FailsByWrites, seen};
ghost use Rattle.sp_ports.specs.InMemory.{Drops, Keeps, after_failed_write, after_taking, bytes_of, count_taken, failures_of, kept_bytes, number_after};

use crate::calls::Numbers;
use crate::{Failed, Sink};
use sp_ids::OutOfMemory;
use std::alloc::Global;
use std::marker::Model;

/// Takes bytes in pieces and keeps them in memory. The listed calls fail, and so do writes when the
/// room is used up.
#[derive(Drop)]
pub struct MemSink {
    kept: Vec<u8>,
    room: usize,
    piece: usize,
    calls: Numbers,
    failed: u64,
}

impl Model for MemSink {
    ghost use Rattle.sp_ports.specs.InMemory.{Store};

    ghost Value = { Store };

    ghost use Rattle.sp_ports.specs.Kept.{IsStore};

    ghost view = { λ s. record {
      taken = s.kept.items;
      room = s.room;
      piece = s.piece;
      failing = s.calls.failing;
      next = s.calls.next;
      failed = s.failed;
    } };

    ghost invariant = { IsStore };
}

impl MemSink {
    /// A sink with room for `room` bytes that takes at most `piece` of them in a call. Its calls of
    /// `write` and `flush` are numbered together from 0, and those whose numbers are in `failing`
    /// fail. `piece` must be at least 1. Returns `OutOfMemory` if it cannot allocate that room now.
    pub fn new(
        alloc: Global,
        room: usize,
        piece: usize,
        failing: Vec<u64>,
    ) -> Result<MemSink, OutOfMemory>
        requires { 0 < piece }
        ensures { IfOk result
            (λ s. s ≡ record {
              taken = [];
              room = room;
              piece = piece;
              failing = failing.items;
              next = 0;
              failed = 0;
            }) }
    {
        Ok(MemSink {
            kept: Vec::with_capacity(alloc, room)?,
            room,
            piece,
            calls: Numbers::new(failing),
            failed: 0,
        })
    }

    /// How many calls have failed, up to the last value of a u64.
    pub fn failed_calls(&self) -> u64
        ensures { result ≡ self.now.failed }
    {
        self.failed
    }

    /// The bytes that were taken.
    pub fn bytes(&self) -> &[u8]
        ensures { result.now ≡ self.now.taken }
    {
        self.kept.as_slice()
    }
}

impl Sink for MemSink {
    ghost taken = { bytes_of };

    ghost faults = { failures_of };

    /// Takes as many bytes as it has room for, but at most a piece. Exactly the listed calls fail,
    /// and those for which no room is left.
    fn write(&mut self, piece: &[u8]) -> Result<usize, Failed>
        ensures fails { IsErr result
            ↔ (Contains self.old.failing self.old.next ⊎ (length self.old.taken ≡ self.old.room)) }
        ensures count { IfOk result (λ k. k ≡ count_taken self.old piece.now) }
        ensures some { IfOk result (λ k. 0 < length piece.now → 0 < k) }
        ensures ok { IfOk result (λ k. self.new ≡ after_taking self.old (take k piece.now)) }
        ensures err { OnErr result (self.new ≡ after_failed_write self.old) }
        ensures cause { FailsByWrites (seen bytes_of failures_of self.old self.new) result }
    {
        if self.calls.fails_next() {
            self.failed = self.failed.saturating_add(1);
            return Err(Failed);
        }
        if self.kept.len() == self.room {
            self.failed = self.failed.saturating_add(1);
            return Err(Failed);
        }
        Ok(keep(&mut self.kept, self.room, self.piece, piece))
    }

    /// Changes no byte. Exactly the listed calls fail.
    fn flush(&mut self) -> Result<(), Failed>
        ensures fails { IsErr result ↔ Contains self.old.failing self.old.next }
        ensures ok { OnOk result
            (self.new ≡ record self.old { next = number_after self.old.next }) }
        ensures err { OnErr result (self.new ≡ after_failed_write self.old) }
        ensures cause { FailsByWrites (seen bytes_of failures_of self.old self.new) result }
    {
        if self.calls.fails_next() {
            self.failed = self.failed.saturating_add(1);
            return Err(Failed);
        }
        Ok(())
    }
}

// Keeps as many bytes as there is room for in all, but at most so many.
fn keep(kept: &mut Vec<u8>, room: usize, most: usize, piece: &[u8]) -> usize
    requires taken { length kept.old.items ≤ room }
    requires room { room ≤ vec_capacity kept.old }
    ensures count { result ≡ min (length piece.now) (min most (room - length kept.old.items)) }
    ensures bytes { kept.new.items ≡ kept.old.items ++ take result piece.now }
    ensures memory { vec_capacity kept.old ≤ vec_capacity kept.new }
{
    let count = piece.len().min(most.min(room - kept.len()));
    kept.extend_from_slice(&piece[..count]).unwrap();
    count
}

/// Takes bytes in pieces and keeps them in memory. No call fails: when the room is used up it takes
/// what comes and keeps none of it.
#[derive(Drop)]
pub struct SteadySink {
    kept: Vec<u8>,
    room: usize,
    piece: usize,
    dropped: bool,
}

impl Model for SteadySink {
    ghost use Rattle.sp_ports.specs.InMemory.{SteadyStore};

    ghost Value = { SteadyStore };

    ghost use Rattle.sp_ports.specs.Kept.{IsSteadyStore};

    ghost view = { λ s. record {
      kept = s.kept.items;
      room = s.room;
      piece = s.piece;
      dropped = s.dropped;
    } };

    ghost invariant = { IsSteadyStore };
}

impl SteadySink {
    /// A sink with room for `room` bytes that takes at most `piece` of them in a call, at least 1.
    /// Returns `OutOfMemory` if it cannot allocate that room now.
    pub fn new(alloc: Global, room: usize, piece: usize) -> Result<SteadySink, OutOfMemory>
        requires { 0 < piece }
        ensures { IfOk result
            (λ s. s ≡ record { kept = []; room = room; piece = piece; dropped = false }) }
    {
        Ok(SteadySink {
            kept: Vec::with_capacity(alloc, room)?,
            room,
            piece,
            dropped: false,
        })
    }

    /// The bytes that were kept.
    pub fn bytes(&self) -> &[u8]
        ensures { result.now ≡ self.now.kept }
    {
        self.kept.as_slice()
    }
}

impl Sink for SteadySink {
    // Once it has dropped a byte it tells none.
    ghost taken = { kept_bytes };

    ghost faults = { λ s. 0 };

    /// Takes as many bytes as it has room for, but at most a piece. When no room is left it takes a
    /// piece and drops it.
    fn write(&mut self, piece: &[u8]) -> Result<usize, Failed>
        ensures succeeds { IsOk result }
        ensures some { IfOk result (λ k. 0 < length piece.now → 0 < k) }
        ensures bound { IfOk result (λ k. k ≤ length piece.now) }
        ensures bytes { IfOk result
            (λ k. Takes (kept_bytes self.old) (kept_bytes self.new) (take k piece.now)) }
        ensures keeps { IfOk result
            (λ k. length self.old.kept < self.old.room → Keeps self.old self.new piece.now k) }
        ensures drops { IfOk result
            (λ k. length self.old.kept ≡ self.old.room → Drops self.old self.new piece.now k) }
    {
        if self.kept.len() < self.room {
            return Ok(keep(&mut self.kept, self.room, self.piece, piece));
        }
        let count = piece.len().min(self.piece);
        if count > 0 {
            self.dropped = true;
        }
        Ok(count)
    }

    /// Changes nothing.
    fn flush(&mut self) -> Result<(), Failed>
        ensures succeeds { IsOk result }
        ensures same { self.new ≡ self.old }
    {
        Ok(())
    }
}
