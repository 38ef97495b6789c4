//! The bytes that were taken from a source and are not used yet.

ghost use Rattle.std.specs.Prelude.{◌≡◌, ◌≤◌, ◌<◌, ◌+◌, take, length, vec_len, IfOk, OnErr};
ghost use Rattle.std.specs.List.{count_by};
ghost use Rattle.sp_ports.specs.Bytes.{Gives, IsAtEnd};
ghost use Rattle.sp_ports.specs.Device.{FailsByReads, seen};
ghost use Rattle.mm_defs.specs.Words.{is_lf};
ghost use Rattle.mm_reader.specs.Windows.{ahead_of, IsInRoom, IsWindow, Refills, StaysEmpty, Uses};

use sp_ids::OutOfMemory;
use sp_ports::{Failed, Source};
use std::alloc::Global;

/// How many bytes are read at once.
pub const BUFFER: usize = 65_536;

/// A buffer, the bytes in it that are not used yet, and what may still be used.
#[derive(Drop)]
pub struct Window {
    pub buffer: Vec<u8>,
    /// Where the bytes ahead begin.
    pub from: usize,
    /// Where they end.
    pub to: usize,
    /// A read gave no bytes.
    pub at_end: bool,
    /// How many bytes may still be used.
    pub room: u64,
    /// How many LFs were used.
    pub lines: u64,
}

/// A buffer of that length. Of its bytes nothing is said: a list of so many would be written out in
/// each goal.
pub fn new_buffer(alloc: Global) -> Result<Vec<u8>, OutOfMemory>
    ensures { IfOk result (λ buffer. vec_len buffer ≡ BUFFER) }
{
    Ok(Vec::from_elem(alloc, 0u8, BUFFER)?)
}

/// So many of the bytes ahead were used, and so many of them are LFs.
pub fn advance(window: &mut Window, used: usize, lfs: u64)
    requires window { IsWindow window.old }
    requires some { used ≤ length (ahead_of window.old) }
    requires room { used ≤ window.old.room }
    requires lfs { lfs ≡ count_by is_lf (take used (ahead_of window.old)) }
    ensures window { IsWindow window.new }
    ensures used { Uses window.old window.new used }
    ensures in_room { IsInRoom window.old → IsInRoom window.new }
{
    window.from += used;
    window.room -= used as u64;
    window.lines += lfs;
}

/// How many bytes are asked for: as many as may be used, as far as the buffer holds them, and one
/// where none may be used.
fn most_wanted(room: u64) -> usize
    ensures some { 0 < result }
    ensures fits { result ≤ BUFFER }
    ensures one_past { result ≤ room + 1 }
    ensures in_room { 0 < room → result ≤ room }
{
    if room == 0 {
        return 1;
    }
    if room < BUFFER as u64 {
        return room as usize;
    }
    BUFFER
}

/// Reads at most so many bytes into the start of the buffer.
fn read_some<S: Source>(source: &mut S, buffer: &mut [u8], most: usize) -> Result<usize, Failed>
    requires some { 0 < most }
    requires fits { most ≤ length buffer.old }
    ensures bound { IfOk result (λ k. k ≤ most) }
    ensures bytes { IfOk result
        (λ k. Gives (S.left source.old) (S.left source.new) (take k buffer.new)) }
    ensures end { IfOk result (λ k. k ≡ 0 → IsAtEnd (S.left source.new)) }
    ensures kept { OnErr result (S.left source.new ≡ S.left source.old) }
    ensures cause { FailsByReads (seen S.left S.faults source.old source.new) result }
{
    source.read(&mut buffer[..most])
}

/// Reads into the empty window, at most as many bytes as may be used, or one byte where none may be
/// used, and returns how many bytes came.
pub fn refill<S: Source>(window: &mut Window, source: &mut S) -> Result<usize, Failed>
    requires window { IsWindow window.old }
    ensures window { IsWindow window.new }
    ensures ok { IfOk result (Refills (S.left source.old) (S.left source.new) window.new) }
    ensures err { OnErr result
        (StaysEmpty (S.left source.old) (S.left source.new) window.old window.new) }
    ensures cause { FailsByReads (seen S.left S.faults source.old source.new) result }
    ensures room { window.new.room ≡ window.old.room }
    ensures lines { window.new.lines ≡ window.old.lines }
{
    window.from = 0;
    window.to = 0;
    let most = most_wanted(window.room);
    let count = read_some(source, &mut window.buffer, most)?;
    window.to = count;
    window.at_end = count == 0;
    Ok(count)
}
