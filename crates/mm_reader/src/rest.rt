//! Reading all that follows.

ghost use Rattle.std.specs.Prelude.{◌≡◌, ◌++◌, IfErr, MatchResult, OnErr, OnOk, IsTrue};
ghost use Rattle.std.specs.List.{count_by};
ghost use Rattle.sp_ports.specs.Device.{seen};
ghost use Rattle.mm_defs.specs.Words.{is_lf};
ghost use Rattle.mm_defs.specs.Calls.{IsRest, JudgesNoLine, RefusesRest};
ghost use Rattle.mm_reader.specs.Readings.{CanGoOn, HasCause, Leaves};
ghost use Rattle.mm_reader.specs.Windows.{ahead_of, OnCallOf, IsInRoom, IsWindow, KeepsWindow, TakesAhead, RefusesAhead};

use crate::window::{Window, refill};
use mm_defs::ReadError;
use sp_ports::Source;
use std::alloc::Global;

/// How many of the bytes are LFs.
fn count_lfs(bytes: &[u8]) -> usize
    ensures { result ≡ count_by is_lf bytes.now }
{
    bytes.iter().filter(|byte| **byte == b'\n').count()
}

/// Adds the bytes ahead, where all of them may be used.
fn take_ahead(bytes: &mut Vec<u8>, window: &mut Window) -> Result<(), ReadError>
    requires { IsWindow window.old }
    ensures window { KeepsWindow window.old window.new }
    ensures ok { OnOk result (TakesAhead window.old window.new bytes.old.items bytes.new.items) }
    ensures in_room { OnOk result (IsInRoom window.new) }
    ensures err { IfErr result (RefusesAhead window.old) }
    ensures same { OnErr result (window.new ≡ window.old) }
    ensures at_end { window.new.at_end ≡ window.old.at_end }
{
    let count = window.to - window.from;
    if count as u64 > window.room {
        return Err(ReadError::TooLong);
    }
    let ahead = &window.buffer[window.from..window.to];
    let lfs = count_lfs(ahead);
    if let Err(_) = bytes.extend_from_slice(ahead) {
        return Err(ReadError::OutOfMemory);
    }
    window.from = window.to;
    window.room -= count as u64;
    window.lines += lfs as u64;
    Ok(())
}

/// Reads the bytes ahead and all that the source gives, within the window's room.
pub fn rest<S: Source>(
    alloc: Global,
    window: &mut Window,
    source: &mut S,
) -> Result<Vec<u8>, ReadError>
    requires { CanGoOn (S.left source.old) window.old }
    ensures known { OnCallOf window.old (seen S.left S.faults source.old source.new) (λ call.
        MatchResult result (λ v. IsRest call (ahead_of window.new ++ call.after) v.items)
        (RefusesRest call)) }
    ensures unjudged { IfErr result JudgesNoLine }
    ensures leaves { Leaves S.left S.faults source.old source.new window.old window.new }
    ensures cause { HasCause (seen S.left S.faults source.old source.new) window.new result }
    ensures ended { OnOk result (IsTrue window.new.at_end) }
{
    let mut bytes = Vec::new(alloc);
    'reading: loop {
        take_ahead(&mut bytes, window)?;
        if window.at_end {
            return Ok(bytes);
        }
        if let Err(_) = refill(window, source) {
            return Err(ReadError::ReadFault);
        }
    }
}
