//! Why a run over a batch is refused: its status and its line on standard error.

ghost use Rattle.std.specs.Prelude.{◌≡◌};
ghost use Rattle.sp_ports.specs.Device.{WroteAsFar, seen};
ghost use Rattle.batch_core.specs.BatchRefusals.{line_of, refusal_for, refusal_without_words, status_of};
ghost use Rattle.batch_core.specs.declared.refusals.BatchRefusal.TheVariants.{OutOfMemory as NoMemory, WriteFault};

use btf_lines::{batch_limit_line, batch_malformed_line};
use btf_tool::write_line;
use btf_words::{WordsError, batch_usage_line};
use mm_defs::Kind;
use mm_frames::BatchError;
use sp_ids::{OutOfMemory, Status};
use sp_ports::{Failed, Sink};

/// Why a run over a batch is refused. Files count from 1.
#[derive(Clone, Copy, Debug, PartialEq, Eq)]
pub enum BatchRefusal {
    /// The words are none that the program takes.
    Usage,
    /// The first bad frame of the input is not of a batch's form.
    Malformed { file: u32, kind: Kind },
    /// The first bad frame of the input passes a limit.
    Limit { file: u32, kind: Kind },
    /// No frame is bad, and the input has more bytes than it may have.
    TooLong,
    /// A read of the input failed, and no frame that had ended is bad.
    ReadFault,
    /// A write of the answer failed.
    WriteFault,
    /// There was not enough memory.
    OutOfMemory,
}

impl From<OutOfMemory> for BatchRefusal {
    ghost from_gives = { λ _ refusal. refusal ≡ NoMemory };

    fn from(_refused: OutOfMemory) -> BatchRefusal {
        BatchRefusal::OutOfMemory
    }
}

impl From<Failed> for BatchRefusal {
    ghost from_gives = { λ _ refusal. refusal ≡ WriteFault };

    /// Where an answer is written.
    fn from(_failed: Failed) -> BatchRefusal {
        BatchRefusal::WriteFault
    }
}

impl From<WordsError> for BatchRefusal {
    ghost from_gives = { λ error refusal. refusal ≡ refusal_without_words error };

    /// Where the words are not taken.
    fn from(error: WordsError) -> BatchRefusal {
        match error {
            WordsError::Usage => BatchRefusal::Usage,
            WordsError::OutOfMemory => BatchRefusal::OutOfMemory,
        }
    }
}

impl From<BatchError> for BatchRefusal {
    ghost from_gives = { λ error refusal. refusal ≡ refusal_for error };

    /// Where the files could not be read.
    fn from(error: BatchError) -> BatchRefusal {
        match error {
            BatchError::Malformed { file, kind } => BatchRefusal::Malformed { file, kind },
            BatchError::Limit { file, kind } => BatchRefusal::Limit { file, kind },
            BatchError::TooLong => BatchRefusal::TooLong,
            BatchError::ReadFault => BatchRefusal::ReadFault,
            BatchError::OutOfMemory => BatchRefusal::OutOfMemory,
        }
    }
}

impl BatchRefusal {
    /// The status with which the run ends.
    pub fn status(&self) -> Status
        ensures { result ≡ status_of self.now }
    {
        match self {
            BatchRefusal::Usage => Status::Usage,
            BatchRefusal::Malformed { .. } => Status::Malformed,
            BatchRefusal::Limit { .. } | BatchRefusal::TooLong => Status::Limit,
            BatchRefusal::ReadFault => Status::ReadFault,
            BatchRefusal::WriteFault => Status::WriteFault,
            BatchRefusal::OutOfMemory => Status::OutOfMemory,
        }
    }

    /// Tells it by its one line. What the device does with the line changes nothing else.
    fn tell<E: Sink>(&self, err: &mut E)
        ensures { WroteAsFar (seen E.taken E.faults err.old err.new) (line_of self.now) }
    {
        match self {
            BatchRefusal::Usage => write_line(err, batch_usage_line().as_bytes()),
            BatchRefusal::Malformed { file, kind } => {
                write_line(err, batch_malformed_line(*file, *kind).as_bytes());
            }
            BatchRefusal::Limit { file, kind } => write_line(
                err,
                batch_limit_line(*file, *kind).as_bytes(),
            ),
            BatchRefusal::TooLong => write_line(err, b"btf_batch: limit: TooLong\n"),
            BatchRefusal::ReadFault => write_line(err, b"btf_batch: read fault\n"),
            BatchRefusal::WriteFault => write_line(err, b"btf_batch: write fault\n"),
            BatchRefusal::OutOfMemory => write_line(err, b"btf_batch: out of memory\n"),
        }
    }
}

/// Tells a refusal by its one line, and gives the status with which the run ends.
///
/// What the device does with the line changes nothing else. It takes no memory.
pub fn refuse<E: Sink>(err: &mut E, refusal: &BatchRefusal) -> Status
    ensures status { result ≡ status_of refusal.now }
    ensures line { WroteAsFar (seen E.taken E.faults err.old err.new) (line_of refusal.now) }
{
    refusal.tell(err);
    refusal.status()
}
