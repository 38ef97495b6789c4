//! Reading edit lines.

ghost use Rattle.std.specs.Prelude.{◌≡◌, ◌<◌, ◌+◌, ◌^◌, ℕ, List, length, true, false, IfErr, IfOk, IsTrue, MatchResult, OnOk};
ghost use Rattle.std.specs.List.{All};
ghost use Rattle.sp_ports.specs.Device.{seen};
ghost use Rattle.mm_defs.specs.Words.{lines};
ghost use Rattle.mm_defs.specs.Calls.{HasItsKind};
ghost use Rattle.mm_frames.specs.Edits.{HasEditKind, IsWithinMatrix, KeepsGood};
ghost use Rattle.mm_frames.specs.Readings.{GivesEdits, TellsEdits};
ghost use Rattle.mm_frames.specs.Stages.{AreRead, RefusesLast, StandsAfter, TakesLine};
ghost use Rattle.mm_reader.specs.Inputs.{CanRead, Draws, FailsByReadFault};
ghost use Rattle.mm_lines.specs.Lines.{IsLine};

use crate::edit::Edit;
use crate::judge::{Extent, judge_edit};
use mm_defs::ReadError;
use mm_reader::{BadLine, Input, LineSoFar, next_byte};
use sp_ports::Source;
use std::alloc::Global;

/// A line has come whose number this is.
fn take_line(
    line: &LineSoFar,
    number: u64,
    extent: Extent,
    edits: &mut Vec<Edit>,
) -> Result<(), ReadError>
    ensures steps { (n : ℕ) (bytes : List ℕ)
        → IsLine line.now bytes
        → TakesLine extent.rows extent.cols number n bytes edits.old.items edits.new.items result }
    ensures kind { HasItsKind result }
    ensures family { IfErr result HasEditKind }
    ensures within { All (IsWithinMatrix extent.rows extent.cols) edits.old.items
        → All (IsWithinMatrix extent.rows extent.cols) edits.new.items }
{
    if line.is_skipped() {
        return Ok(());
    }
    let edit = match judge_edit(edits.len(), extent, line) {
        Err(kind) => return Err(BadLine { line: number, kind }.answer()),
        Ok(edit) => edit,
    };
    match edits.push(edit) {
        Err(_) => Err(ReadError::OutOfMemory),
        Ok(()) => Ok(()),
    }
}

/// The input has ended, behind so many LFs and perhaps an open line.
fn finish(
    line: &LineSoFar,
    begun: bool,
    lfs: u64,
    extent: Extent,
    edits: Vec<Edit>,
) -> Result<Vec<Edit>, ReadError>
    requires { begun ≡ true → lfs + 1 < 2 ^ 64 }
    ensures steps { (n : ℕ) (bytes : List ℕ)
        → StandsAfter n extent.rows extent.cols edits.items line.now begun bytes
        → lfs ≡ n + length (lines false bytes)
        → MatchResult result (λ v. AreRead n extent.rows extent.cols (lines true bytes) v.items)
        (RefusesLast n extent.rows extent.cols (lines true bytes)) }
    ensures kind { HasItsKind result }
    ensures family { IfErr result HasEditKind }
    ensures within { All (IsWithinMatrix extent.rows extent.cols) edits.items
        → IfOk result (λ v. All (IsWithinMatrix extent.rows extent.cols) v.items) }
{
    let mut edits = edits;
    if !begun {
        return Ok(edits);
    }
    take_line(line, lfs + 1, extent, &mut edits)?;
    Ok(edits)
}

/// Reads edit lines up to the end of the input, of a matrix of so many rows and columns: `set i j`,
/// `clear i j` and `report`, the words just so, rows and columns counted from 1. Lines without
/// words and comments are skipped. Line numbers go on from the LFs that the input has used.
///
/// The first bad line that has ended is answered, `Malformed` or `Limit`; `TooLong` where more
/// bytes have come than may be used, and `ReadFault` where a read has failed, if no line that had
/// ended is bad. After these two the input is not good; after another error it is, and some of the
/// bytes were used. It takes memory for the edits; the work is linear in the bytes.
pub fn read_edits<S: Source>(
    alloc: Global,
    input: &mut Input,
    source: &mut S,
    rows: u32,
    cols: u32,
) -> Result<Vec<Edit>, ReadError>
    requires { CanRead (S.left source.old) input.old }
    ensures tells { TellsEdits rows cols input.old (seen S.left S.faults source.old source.new)
        input.new.ahead result }
    ensures gives { GivesEdits rows cols input.old.lines result }
    ensures draws { Draws S.left S.faults source.old source.new input.old input.new }
    ensures cause { FailsByReadFault (seen S.left S.faults source.old source.new) result }
    ensures good { KeepsGood input.new.good result }

    // All lines were read where a read has given none, whatever the source tells of its bytes.
    ensures ended { OnOk result (IsTrue input.new.at_end) }
{
    let extent = Extent { rows, cols };
    let mut edits = Vec::new(alloc);
    let mut line = LineSoFar::new();
    let mut begun = false;
    'reading: loop {
        match next_byte(input, source)? {
            None => return finish(&line, begun, input.lines(), extent, edits),
            Some(b'\n') => {
                take_line(&line, input.lines(), extent, &mut edits)?;
                line.clear();
                begun = false;
            }
            Some(byte) => {
                line.push(byte);
                begun = true;
            }
        }
    }
}
