//! Sources in memory.

ghost use Rattle.std.specs.Prelude.{◌≡◌, ◌<◌, ◌≤◌, ◌+◌, ◌↔◌, [], min, take, drop, length, Some, IsOk, IsErr, IfOk, OnErr, Contains};
ghost use Rattle.sp_ports.specs.InMemory.{after_failed_read, after_giving};

use crate::calls::Numbers;
use crate::{Failed, Source};
use std::marker::Model;

/// Bytes in memory that are given in pieces. The listed calls fail.
#[derive(Drop)]
pub struct MemSource {
    bytes: Vec<u8>,
    at: usize,
    piece: usize,
    calls: Numbers,
    failed: u64,
}

impl Model for MemSource {
    ghost use Rattle.std.specs.Prelude.{drop};
    ghost use Rattle.sp_ports.specs.InMemory.{Feed};

    ghost Value = { Feed };

    ghost use Rattle.sp_ports.specs.Kept.{IsFeed};

    ghost view = { λ s. record {
      left = drop s.at s.bytes.items;
      piece = s.piece;
      failing = s.calls.failing;
      next = s.calls.next;
      failed = s.failed;
    } };

    ghost invariant = { IsFeed };
}

impl MemSource {
    /// A source of these bytes that gives at most `piece` of them in a call, which must be 1 at
    /// least. The calls whose numbers, from 0, are in `failing` fail. It takes no memory.
    pub fn new(bytes: Vec<u8>, piece: usize, failing: Vec<u64>) -> MemSource
        requires { 0 < piece }
        ensures { result ≡ record {
          left = bytes.items;
          piece = piece;
          failing = failing.items;
          next = 0;
          failed = 0;
        } }
    {
        MemSource {
            bytes,
            at: 0,
            piece,
            calls: Numbers::new(failing),
            failed: 0,
        }
    }

    /// How many calls have failed.
    pub fn failed_calls(&self) -> u64
        ensures { result ≡ self.now.failed }
    {
        self.failed
    }
}

impl Source for MemSource {
    ghost left = { λ s. Some s.left };

    ghost faults = { λ s. s.failed };

    /// Gives as many bytes as the buffer has room for, but at most a piece. Exactly the listed
    /// calls fail.
    fn read(&mut self, buf: &mut [u8]) -> Result<usize, Failed>
        ensures fails { IsErr result ↔ Contains self.old.failing self.old.next }
        ensures count { IfOk result
            (λ k. k ≡ min (length self.old.left) (min self.old.piece (length buf.old))) }
        ensures bytes { IfOk result (λ k. take k buf.new ≡ take k self.old.left) }
        ensures ok { IfOk result (λ k. self.new ≡ after_giving self.old k) }
        ensures err { OnErr result (self.new ≡ after_failed_read self.old) }
        // No bytes come only at the end, or into no room.
        ensures end { IfOk result (λ k. k ≡ 0 → 0 < length buf.old → self.old.left ≡ []) }
    {
        if self.calls.fails_next() {
            self.failed += 1;
            return Err(Failed);
        }
        let count = give(&self.bytes.as_slice()[self.at..], self.piece, buf);
        self.at += count;
        Ok(count)
    }
}

// Moves bytes into the buffer, at most a piece.
fn give(left: &[u8], piece: usize, buf: &mut [u8]) -> usize
    ensures count { result ≡ min (length left.now) (min piece (length buf.old)) }
    ensures bytes { take result buf.new ≡ take result left.now }
{
    let count = left.len().min(piece.min(buf.len()));
    buf[..count].copy_from_slice(&left[..count]);
    count
}

/// Bytes in memory that are given in pieces. No call fails.
#[derive(Drop)]
pub struct SteadySource {
    bytes: Vec<u8>,
    at: usize,
    piece: usize,
}

impl Model for SteadySource {
    ghost use Rattle.std.specs.Prelude.{◌<◌, ◌≤◌, drop, length};
    ghost use Rattle.sp_ports.specs.InMemory.{SteadyFeed};

    ghost Value = { SteadyFeed };

    ghost view = { λ s. record { left = drop s.at s.bytes.items; piece = s.piece } };

    ghost invariant = { λ s. (s.at ≤ length s.bytes.items) × (0 < s.piece) };
}

impl SteadySource {
    /// A source of these bytes that gives at most `piece` of them in a call, which must be 1 at
    /// least. It takes no memory.
    pub fn new(bytes: Vec<u8>, piece: usize) -> SteadySource
        requires { 0 < piece }
        ensures { result ≡ record { left = bytes.items; piece = piece } }
    {
        SteadySource {
            bytes,
            at: 0,
            piece,
        }
    }
}

impl Source for SteadySource {
    ghost left = { λ s. Some s.left };

    ghost faults = { λ s. 0 };

    /// Gives as many bytes as the buffer has room for, but at most a piece.
    fn read(&mut self, buf: &mut [u8]) -> Result<usize, Failed>
        ensures succeeds { IsOk result }
        ensures count { IfOk result
            (λ k. k ≡ min (length self.old.left) (min self.old.piece (length buf.old))) }
        ensures bytes { IfOk result (λ k. take k buf.new ≡ take k self.old.left) }
        ensures ok { IfOk result (λ k. self.new ≡ record self.old { left = drop k self.old.left }) }
        // No bytes come only at the end, or into no room.
        ensures end { IfOk result (λ k. k ≡ 0 → 0 < length buf.old → self.old.left ≡ []) }
    {
        let count = give(&self.bytes.as_slice()[self.at..], self.piece, buf);
        self.at += count;
        Ok(count)
    }
}
