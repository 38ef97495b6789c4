//! The header of a file in a batch: the line that tells how many bytes the file has.

ghost use Rattle.std.specs.Prelude.{◌≡◌, ◌≤◌, ◌<◌, ◌+◌, ℕ, List, IfErr, IfOk, length, if◌then◌else◌, true};
ghost use Rattle.sp_ids.specs.Limits.{max_batch_files, max_batch_file_bytes};
ghost use Rattle.sp_ports.specs.Device.{seen};
ghost use Rattle.mm_defs.specs.Faults.{is_limit};
ghost use Rattle.mm_defs.specs.Words.{words};
ghost use Rattle.mm_defs.specs.Calls.{room};
ghost use Rattle.mm_reader.specs.Fronts.{front};
ghost use Rattle.mm_reader.specs.Inputs.{Asks, CanRead};
ghost use Rattle.mm_lines.specs.Lines.{IsLine};
ghost use Rattle.mm_frames.specs.Batches.{HasFrameKind, file_bytes, header_rules, is_frame_kind};
ghost use Rattle.mm_frames.specs.Frames.{HeaderIs, IsSameStop, JudgedHeader};
ghost use Rattle.mm_frames.specs.Readings.{Fares, GivesHeader, TellsHeader};

use crate::batch::BatchError;
use mm_defs::{Kind, ReadError};
use mm_reader::{Input, LineSoFar, next_byte};
use sp_ids::{MAX_BATCH_FILE_BYTES, MAX_BATCH_FILES};
use sp_ports::Source;

/// What a header says: how many bytes the file has, and whether the input ended with the header.
#[derive(Clone, Copy, Debug, PartialEq, Eq)]
pub struct FrameHeader {
    pub bytes: u64,
    pub last: bool,
}

/// The answer to a bad frame, behind so many files.
pub fn refusal(before: usize, kind: Kind) -> BatchError
    requires { before ≤ max_batch_files }
    ensures refusal { result ≡ (if is_limit kind
        then BatchError.Limit (before + 1) kind
        else BatchError.Malformed (before + 1) kind) }
    ensures kind { is_frame_kind kind ≡ true → HasFrameKind result }
{
    let file = before as u32 + 1;
    if kind.is_limit() {
        BatchError::Limit { file, kind }
    } else {
        BatchError::Malformed { file, kind }
    }
}

/// The answer where no byte was given.
pub fn stopped(error: ReadError) -> BatchError
    ensures same { IsSameStop error result }
    ensures kind { HasFrameKind result }
{
    match error {
        ReadError::TooLong => BatchError::TooLong,
        ReadError::OutOfMemory => BatchError::OutOfMemory,
        _ => BatchError::ReadFault,
    }
}

/// Judges the header of a file behind so many: the first kind of fault that applies, or how many
/// bytes it tells.
fn judge_header(before: usize, line: &LineSoFar) -> Result<u64, Kind>
    ensures judged { (bytes : List ℕ) → IsLine line.now bytes
        → JudgedHeader (header_rules before (words bytes)) (file_bytes (words bytes)) result }
    ensures kind { IfErr result (λ kind. is_frame_kind kind ≡ true) }
    ensures few { IfOk result (λ n. before < max_batch_files) }
    ensures small { IfOk result (λ n. n ≤ max_batch_file_bytes) }
{
    if !line.has_words(2) {
        return Err(Kind::BatchHeader);
    }
    if !line.is(0, b"file") {
        return Err(Kind::BatchHeader);
    }
    let bytes = match line.number(1) {
        None => return Err(Kind::BatchHeader),
        Some(bytes) => bytes,
    };
    if before >= MAX_BATCH_FILES as usize {
        return Err(Kind::Files);
    }
    if bytes > MAX_BATCH_FILE_BYTES {
        return Err(Kind::FileBytes);
    }
    Ok(bytes)
}

/// A header has come, behind so many files, with its LF or with the end of the input.
fn take_header(before: usize, line: &LineSoFar, last: bool) -> Result<FrameHeader, BatchError>
    requires { before ≤ max_batch_files }
    ensures taken { (bytes : List ℕ) → IsLine line.now bytes
        → HeaderIs before last (words bytes) result }
    ensures kind { IfErr result HasFrameKind }
    ensures few { IfOk result (λ header. before < max_batch_files) }
    ensures small { IfOk result (λ header. header.bytes ≤ max_batch_file_bytes) }
    ensures last { IfOk result (λ header. header.last ≡ last) }
{
    match judge_header(before, line) {
        Err(kind) => Err(refusal(before, kind)),
        Ok(bytes) => Ok(FrameHeader { bytes, last }),
    }
}

/// Reads the header of a file behind so many, or finds that the input has ended where it would
/// begin.
pub fn read_header<S: Source>(
    input: &mut Input,
    source: &mut S,
    before: usize,
) -> Result<Option<FrameHeader>, BatchError>
    requires ready { CanRead (S.left source.old) input.old }
    requires few { before ≤ max_batch_files }
    ensures answer { TellsHeader before (front input.old) (front input.new)
        (seen S.left S.faults source.old source.new) result }
    ensures gives { GivesHeader before input.new.at_end result }
    ensures most { length input.new.ahead ≤ room input.new + 1 }
    ensures asks { Asks S.left source.old source.new input.old input.new }
    ensures fares { Fares (seen S.left S.faults source.old source.new) input.new.good result }
{
    let mut line = LineSoFar::new();
    let mut begun = false;
    'reading: loop {
        match next_byte(input, source) {
            Err(error) => return Err(stopped(error)),
            Ok(None) => {
                if !begun {
                    return Ok(None);
                }
                return Ok(Some(take_header(before, &line, true)?));
            }
            Ok(Some(b'\n')) => return Ok(Some(take_header(before, &line, false)?)),
            Ok(Some(byte)) => {
                line.push(byte);
                begun = true;
            }
        }
    }
}
