//! A source over bytes that are lent.

ghost use Rattle.std.specs.Prelude.{◌≡◌, ◌<◌, [], min, take, drop, length, Some, IsOk, IfOk};

use crate::{Failed, Source};
use std::marker::Model;

/// Bytes that somebody else keeps. No call fails.
#[derive(Drop)]
pub struct LentSource<'a> {
    left: &'a [u8],
}

impl<'a> Model for LentSource<'a> {
    ghost use Rattle.std.specs.Prelude.{ℕ, List};

    ghost Value = { List ℕ };

    ghost view = { λ s. s.left.now };

    ghost invariant = { λ s. Unit {0} };
}

impl<'a> LentSource<'a> {
    /// A source of these bytes. It takes no memory.
    pub fn new(bytes: &'a [u8]) -> LentSource<'a>
        ensures { result ≡ bytes.now }
    {
        LentSource { left: bytes }
    }
}

impl<'a> Source for LentSource<'a> {
    ghost left = { λ s. Some s };

    ghost faults = { λ s. 0 };

    /// Gives as many bytes as the buffer has room for.
    fn read(&mut self, buf: &mut [u8]) -> Result<usize, Failed>
        ensures succeeds { IsOk result }
        ensures count { IfOk result (λ k. k ≡ min (length self.old) (length buf.old)) }
        ensures bytes { IfOk result (λ k. take k buf.new ≡ take k self.old) }
        ensures ok { IfOk result (λ k. self.new ≡ drop k self.old) }
        ensures end { IfOk result (λ k. k ≡ 0 → 0 < length buf.old → self.old ≡ []) }
    {
        let count = self.left.len().min(buf.len());
        buf[..count].copy_from_slice(&self.left[..count]);
        self.left = &self.left[count..];
        Ok(count)
    }
}
