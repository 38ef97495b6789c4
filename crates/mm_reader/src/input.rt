//! Inputs: what callers see of the bytes ahead, and the calls that read them.

ghost use Rattle.std.specs.Prelude.{◌≡◌, ◌≤◌, ◌<◌, ◌+◌, ◌^◌, ◌++◌, ◌↔◌, [], length, IfErr, IfOk, MatchResult, OnOk, IsOk, IsTrue, true, false};
ghost use Rattle.sp_ports.specs.Device.{seen};
ghost use Rattle.mm_reader.specs.EntryLimits.{AreWithinLimits};
ghost use Rattle.mm_reader.specs.Fronts.{front, Advances, Stops};
ghost use Rattle.mm_reader.specs.Inputs.{Asks, CanRead, Counts, Draws, EndsBy, FailsByReadFault, Fares, OnCall, Tells};
ghost use Rattle.mm_defs.specs.Calls.{room, HasItsKind, IsRest, JudgesNoLine, RefusesRest};

use crate::bytes::next;
use crate::reader::matrix;
use crate::rest::rest;
use crate::window::{Window, new_buffer};
use mm_defs::{End, ReadError};
use sp_ids::{OutOfMemory, Triples};
use sp_ports::Source;
use std::alloc::Global;
use std::marker::Model;

/// An input: how many bytes it may use, and those that were taken from its source and are not used
/// yet.
///
/// The source is lent to each call beside it. It keeps one buffer of 65,536 bytes.
#[derive(Drop)]
pub struct Input {
    limit: u64,
    good: bool,
    window: Window,
}

impl Model for Input {
    ghost use Rattle.mm_defs.specs.Calls.{Intake};

    ghost Value = { Intake };

    ghost use Rattle.mm_reader.specs.Inputs.{intake_of, IsInput};

    ghost view = { intake_of };

    ghost invariant = { IsInput };
}

impl Input {
    /// Nothing was taken. The input may use so many bytes of its source in all, and takes at most
    /// one more, which shows that there are more. It takes memory for its buffer.
    pub fn new(alloc: Global, limit: u64) -> Result<Input, OutOfMemory>
        ensures { IfOk result
            (λ input. input ≡ record {
              limit = limit;
              taken = 0;
              ahead = [];
              at_end = false;
              lines = 0;
              good = true;
            }) }
    {
        let buffer = new_buffer(alloc)?;
        Ok(Input {
            limit,
            good: true,
            window: Window {
                buffer,
                from: 0,
                to: 0,
                at_end: false,
                room: limit,
                lines: 0,
            },
        })
    }

    /// The number of LFs among the bytes used, that is, taken and no longer ahead.
    pub fn lines(&self) -> u64
        ensures { result ≡ self.now.lines }
    {
        self.window.lines
    }

    /// Whether the reading calls may go on: after a failed `read_matrix`, `read_rest` or
    /// `next_byte` they may not, since the source has lost what was taken.
    pub fn is_good(&self) -> bool
        ensures { result ≡ self.now.good }
    {
        self.good
    }

    /// The number of bytes that were taken from the source and are not used yet.
    pub fn ahead(&self) -> usize
        ensures ahead { result ≡ length self.now.ahead }
        ensures buffer { result ≤ 65536 }
    {
        self.window.to - self.window.from
    }
}

/// Reads a matrix file: the bytes ahead first, then those of the source.
///
/// `End::File` reads to the end of the input. `End::LastEntry` ends with the line end of the last
/// entry line, or of the size line where there are no entries, and leaves what follows. A line is
/// judged when its end was given, and the first bad line is answered: `Malformed` or `Limit` with
/// its number, counted from 1. A bad line that had ended before a read failed is answered in place
/// of `ReadFault`, and one that had ended within the limit in place of `TooLong`; so is, with
/// `End::LastEntry`, a matrix that had ended in those bytes. After an `Err` the input is not good.
/// At `Malformed` and `Limit` at most 65,536 bytes past the end of the bad line were taken.
///
/// The work is linear in the bytes. Besides the input's buffer it keeps the triples alone.
pub fn read_matrix<S: Source>(
    alloc: Global,
    input: &mut Input,
    source: &mut S,
    end: End,
) -> Result<Triples, ReadError>
    requires { CanRead (S.left source.old) input.old }
    ensures tells { Tells end input.old (seen S.left S.faults source.old source.new)
        input.new.ahead result }
    ensures kind { HasItsKind result }
    ensures within { IfOk result AreWithinLimits }
    ensures draws { Draws S.left S.faults source.old source.new input.old input.new }
    ensures counts { Counts (S.left source.old) (S.left source.new) input.old input.new }
    ensures fares { Fares (seen S.left S.faults source.old source.new) input.new result }
    ensures ends { OnOk result
        (EndsBy end (S.left source.old) (S.left source.new) input.old input.new) }
{
    match matrix(alloc, &mut input.window, source, end) {
        Err(error) => {
            input.good = false;
            Err(error)
        }
        Ok(triples) => Ok(triples),
    }
}

/// Reads all that follows: the bytes ahead, then those of the source up to its end. It judges no
/// line.
///
/// It answers `TooLong` where more bytes follow than may still be used, `ReadFault` where a read
/// failed, `OutOfMemory`, and no other error. After an `Err` the input is not good. It takes memory
/// for the bytes.
pub fn read_rest<S: Source>(
    alloc: Global,
    input: &mut Input,
    source: &mut S,
) -> Result<Vec<u8>, ReadError>
    requires { CanRead (S.left source.old) input.old }
    ensures answer { OnCall input.old (seen S.left S.faults source.old source.new) (λ call.
        MatchResult result (λ v. IsRest call (input.new.ahead ++ call.after) v.items)
        (RefusesRest call)) }
    ensures unjudged { IfErr result JudgesNoLine }
    ensures draws { Draws S.left S.faults source.old source.new input.old input.new }
    ensures counts { Counts (S.left source.old) (S.left source.new) input.old input.new }
    ensures fares { Fares (seen S.left S.faults source.old source.new) input.new result }
    ensures ended { OnOk result (IsTrue input.new.at_end) }
{
    match rest(alloc, &mut input.window, source) {
        Err(error) => {
            input.good = false;
            Err(error)
        }
        Ok(bytes) => Ok(bytes),
    }
}

/// Uses one byte: the first of those ahead, or of those that the source gives. `None` is given at
/// the end of the input alone. It takes no memory.
///
/// It answers `TooLong` where all bytes that may be used were used, none is ahead and one more has
/// come, `ReadFault` where none is ahead and a read failed, and no other error. After an `Err` the
/// input is not good.
pub fn next_byte<S: Source>(input: &mut Input, source: &mut S) -> Result<Option<u8>, ReadError>
    requires { CanRead (S.left source.old) input.old }

    // The byte is the first of those ahead and those that the source gave, or there is none any
    // more.
    ensures ok { IfOk result (Advances (front input.old) (front input.new)
        (seen S.left S.faults source.old source.new)) }

    // Why no byte was used, and none was ahead: all that may be used were used and one more has
    // come, or a read failed.
    ensures err { IfErr result (Stops (front input.old) (front input.new)
        (seen S.left S.faults source.old source.new)) }

    // A failed read is the one cause of `ReadFault`, and at Ok no read has failed.
    ensures cause { FailsByReadFault (seen S.left S.faults source.old source.new) result }

    // Where a read has given no bytes, the source is not asked again.
    ensures asks { Asks S.left source.old source.new input.old input.new }

    // Of the bytes ahead at most one is past what may be used.
    ensures most { length input.new.ahead ≤ room input.new + 1 }

    // So the number of each line fits.
    ensures fits { input.old.lines + room input.old < 2 ^ 64 }

    ensures good { IsTrue input.new.good ↔ IsOk result }
{
    match next(&mut input.window, source) {
        Err(error) => {
            input.good = false;
            Err(error)
        }
        Ok(byte) => Ok(byte),
    }
}
