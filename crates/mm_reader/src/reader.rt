//! Reading a matrix from the bytes ahead and from a source.

ghost use Rattle.std.specs.Prelude.{◌≡◌, ◌<◌, ◌^◌, ℕ, List, false, IfOk, IfErr, MatchResult, OnOk, []};
ghost use Rattle.std.specs.Result.{IsErrOf};
ghost use Rattle.sp_ports.specs.Device.{seen};
ghost use Rattle.mm_defs.specs.File.{Reads};
ghost use Rattle.mm_defs.specs.Calls.{HasItsKind};
ghost use Rattle.mm_reader.specs.EntryLimits.{AreWithinLimits};
ghost use Rattle.mm_reader.specs.Machine.{IsReady, is_complete};
ghost use Rattle.mm_reader.specs.Readings.{CanGoOn, EndsFor, HasCause, Leaves};
ghost use Rattle.mm_reader.specs.Stages.{begun_lines, IsAfter};
ghost use Rattle.mm_reader.specs.Windows.{ahead_of, OnCallOf, Answers, CanConsume, IsInRoom, IsOnePast, IsWindow, Consumes, Refuses, RefusesAtEnd, refusal_of, UsesSome};

use crate::machine::{Machine, Stop, feed, finish, is_complete, start};
use crate::window::{Window, advance, refill};
use mm_defs::{End, ReadError};
use sp_ids::Triples;
use sp_ports::Source;
use std::alloc::Global;

/// The answer to what stopped the machine.
fn refusal(stop: Stop) -> ReadError
    ensures { result ≡ refusal_of stop }
{
    match stop {
        Stop::Bad(bad) => bad.answer(),
        Stop::Memory => ReadError::OutOfMemory,
    }
}

/// The machine gets the bytes ahead, where all of them may be used. It tells whether the matrix is
/// read and what follows is not judged; else all bytes ahead were used.
fn consume(alloc: Global, m: &mut Machine, end: End, window: &mut Window) -> Result<bool, ReadError>
    requires window { IsWindow window.old }
    requires can { CanConsume end m.old window.old.room }
    ensures window { IsWindow window.new }
    ensures ok { IfOk result (Consumes end window.old window.new m.old m.new) }
    ensures in_room { OnOk result (IsInRoom window.new) }
    ensures used { UsesSome window.old window.new }
    ensures past { IsErrOf result ReadError.TooLong → IsOnePast window.new }
    ensures err { (bytes : List ℕ) → IsAfter end m.old bytes
        → IfErr result (Refuses end bytes (ahead_of window.old) window.old.room) }
{
    if (window.to - window.from) as u64 > window.room {
        return Err(ReadError::TooLong);
    }
    let before = m.number;
    let used = match feed(alloc, m, end, &window.buffer[window.from..window.to]) {
        Err(stop) => return Err(refusal(stop)),
        Ok(used) => used,
    };
    let lfs = m.number - before;
    advance(window, used, lfs);
    Ok(is_complete(end, m.phase))
}

/// The input has ended.
fn conclude(alloc: Global, m: Machine) -> Result<Triples, ReadError>
    requires ready { IsReady m.phase m.triples }
    requires room { begun_lines m < 2 ^ 64 }
    ensures steps { (end : End) (bytes : List ℕ) → IsAfter end m bytes
        → is_complete end m.phase ≡ false
        → MatchResult result (λ t. Reads bytes end t []) (RefusesAtEnd end bytes) }
    ensures within { IfOk result AreWithinLimits }
{
    let mut m = m;
    match finish(alloc, &mut m) {
        Err(stop) => Err(refusal(stop)),
        Ok(()) => Ok(triples_of(m)),
    }
}

/// What the machine has read.
fn triples_of(m: Machine) -> Triples
    ensures { result ≡ m.triples }
{
    let Machine { triples, .. } = m;
    triples
}

/// Reads a matrix from the bytes ahead and from the source, within the window's room.
pub fn matrix<S: Source>(
    alloc: Global,
    window: &mut Window,
    source: &mut S,
    end: End,
) -> Result<Triples, ReadError>
    requires { CanGoOn (S.left source.old) window.old }
    ensures known { OnCallOf window.old (seen S.left S.faults source.old source.new) (λ call.
        Answers end call window.new result) }
    ensures kind { HasItsKind result }
    ensures within { IfOk result AreWithinLimits }
    ensures leaves { Leaves S.left S.faults source.old source.new window.old window.new }
    ensures cause { HasCause (seen S.left S.faults source.old source.new) window.new result }
    ensures ends { OnOk result
        (EndsFor end (S.left source.old) (S.left source.new) window.old window.new) }
{
    let mut m = match start(alloc) {
        Err(_) => return Err(ReadError::OutOfMemory),
        Ok(m) => m,
    };
    'reading: loop {
        let done = consume(alloc, &mut m, end, window)?;
        if done {
            return Ok(triples_of(m));
        }
        if window.at_end {
            return conclude(alloc, m);
        }
        if let Err(_) = refill(window, source) {
            return Err(ReadError::ReadFault);
        }
    }
}
