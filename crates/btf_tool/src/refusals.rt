//! Why a run is refused: its status and its line on standard error.

ghost use Rattle.std.specs.Prelude.{◌≡◌};
ghost use Rattle.std.specs.IoError.{error_kind};
ghost use Rattle.btf_tool.specs.declared.refusals.Refusal.TheVariants.{OutOfMemory as NoMemory, WriteFault};
ghost use Rattle.btf_tool.specs.Refusals.{line_of, refusal_for, refusal_without_weights, refusal_without_words, status_of, want_of_words as want_on};
ghost use Rattle.sp_ports.specs.Device.{WroteAsFar, seen};

use btf_lines::{limit_line, malformed_line, sum_limit_line};
use btf_words::{WordsError, usage_line};
use mm_defs::{Kind, ReadError};
use sp_ids::{Col, OutOfMemory, Row, Status};
use sp_pattern::WeightError;
use sp_ports::{Failed, Sink, write_all};
use std::io;

/// Why a run is refused.
#[derive(Clone, Copy, Debug, PartialEq, Eq)]
pub enum Refusal {
    /// The words are not those of a command.
    Usage,
    /// The first bad line of the input is not of the file's form.
    Malformed { line: u64, kind: Kind },
    /// The first bad line of the input passes a limit.
    Limit { line: u64, kind: Kind },
    /// No line is bad, and the input has more bytes than it may have.
    TooLong,
    /// The sum of the values that an integer file gives for this place is past the limit in
    /// magnitude. Of all such places it has the least column, and in it the least row.
    SumLimit { row: Row, col: Col },
    /// The file is not an integer file.
    NeedsInteger,
    /// A read of the input failed, and no line that had ended is bad.
    ReadFault,
    /// A write of the answer failed.
    WriteFault,
    /// There was not enough memory.
    OutOfMemory,
}

impl From<OutOfMemory> for Refusal {
    ghost from_gives = { λ _ refusal. refusal ≡ NoMemory };

    fn from(_refused: OutOfMemory) -> Refusal {
        Refusal::OutOfMemory
    }
}

impl From<Failed> for Refusal {
    ghost from_gives = { λ _ refusal. refusal ≡ WriteFault };

    /// Where an answer is written.
    fn from(_failed: Failed) -> Refusal {
        Refusal::WriteFault
    }
}

impl From<WordsError> for Refusal {
    ghost from_gives = { λ error refusal. refusal ≡ refusal_without_words error };

    /// Where the words name no job.
    fn from(error: WordsError) -> Refusal {
        match error {
            WordsError::Usage => Refusal::Usage,
            WordsError::OutOfMemory => Refusal::OutOfMemory,
        }
    }
}

impl From<ReadError> for Refusal {
    ghost from_gives = { λ error refusal. refusal ≡ refusal_for error };

    /// Where an input could not be read.
    fn from(error: ReadError) -> Refusal {
        match error {
            ReadError::Malformed { line, kind } => Refusal::Malformed { line, kind },
            ReadError::Limit { line, kind } => Refusal::Limit { line, kind },
            ReadError::TooLong => Refusal::TooLong,
            ReadError::ReadFault => Refusal::ReadFault,
            ReadError::OutOfMemory => Refusal::OutOfMemory,
        }
    }
}

impl From<WeightError> for Refusal {
    ghost from_gives = { λ error refusal. refusal ≡ refusal_without_weights error };

    /// Where an integer file gives no weights.
    fn from(error: WeightError) -> Refusal {
        match error {
            WeightError::SumLimit { row, col } => Refusal::SumLimit { row, col },
            WeightError::OutOfMemory => Refusal::OutOfMemory,
        }
    }
}

impl Refusal {
    /// The status with which the run ends.
    pub fn status(&self) -> Status
        ensures { result ≡ status_of self.now }
    {
        match self {
            Refusal::Usage => Status::Usage,
            Refusal::Malformed { .. } => Status::Malformed,
            Refusal::Limit { .. } | Refusal::TooLong | Refusal::SumLimit { .. } => Status::Limit,
            Refusal::NeedsInteger => Status::NeedsInteger,
            Refusal::ReadFault => Status::ReadFault,
            Refusal::WriteFault => Status::WriteFault,
            Refusal::OutOfMemory => Status::OutOfMemory,
        }
    }

    /// Tells it by its one line. What the device does with the line changes nothing else.
    pub(crate) fn tell<E: Sink>(&self, err: &mut E)
        ensures { WroteAsFar (seen E.taken E.faults err.old err.new) (line_of self.now) }
    {
        match self {
            Refusal::Usage => write_line(err, usage_line().as_bytes()),
            Refusal::Malformed { line, kind } => write_line(
                err,
                malformed_line(*line, *kind).as_bytes(),
            ),
            Refusal::Limit { line, kind } => write_line(err, limit_line(*line, *kind).as_bytes()),
            Refusal::TooLong => write_line(err, b"btf: limit: TooLong\n"),
            Refusal::SumLimit { row, col } => write_line(
                err,
                sum_limit_line(*row, *col).as_bytes(),
            ),
            Refusal::NeedsInteger => write_line(err, b"btf: needs an integer file\n"),
            Refusal::ReadFault => write_line(err, b"btf: read fault\n"),
            Refusal::WriteFault => write_line(err, b"btf: write fault\n"),
            Refusal::OutOfMemory => write_line(err, b"btf: out of memory\n"),
        }
    }
}

/// Why there are no words: memory ran out, or one of them is not UTF-8, which no program takes.
pub fn want_of_words(error: &io::Error) -> WordsError
    ensures { result ≡ want_on (error_kind error.now) }
{
    match error.kind() {
        io::ErrorKind::OutOfMemory => WordsError::OutOfMemory,
        _ => WordsError::Usage,
    }
}

/// Writes a line, or as much of it as the device takes.
pub fn write_line<E: Sink>(err: &mut E, line: &[u8])
    ensures { WroteAsFar (seen E.taken E.faults err.old err.new) line.now }
{
    match write_all(err, line) {
        Ok(()) => {}
        Err(Failed) => {}
    }
}

/// Tells a refusal by its one line, and gives the status with which the run ends.
///
/// What the device does with the line changes nothing else. It takes no memory.
pub fn refuse<E: Sink>(err: &mut E, refusal: &Refusal) -> Status
    ensures status { result ≡ status_of refusal.now }
    ensures line { WroteAsFar (seen E.taken E.faults err.old err.new) (line_of refusal.now) }
{
    refusal.tell(err);
    refusal.status()
}
