//! The text of the answers to all files.

ghost use Rattle.std.specs.Prelude.{◌≡◌};
ghost use Rattle.sp_ids.specs.Exit.{exit_code};
ghost use Rattle.sp_ports.specs.Device.{Writes, seen};
ghost use Rattle.batch_core.specs.BatchText.{answer_of, text_of_answer, text_of_slots, texts_of_slots};

use btf_lines::{limit_line, malformed_line};
use btf_text::{TextBuf, write_file_fault, write_file_report, write_files_end};
use btf_tool::{Answer, FileAnswer};
use sp_ids::Status;
use sp_ports::{Failed, Sink, taken_in_turn};

/// Writes what is answered to the file of this number, which counts from 1.
fn write_answer<K: Sink>(
    out: &mut K,
    buf: &mut TextBuf,
    number: u64,
    answer: &FileAnswer,
) -> Result<(), Failed>
    ensures { Writes (seen K.taken K.faults out.old out.new)
        (text_of_answer number answer.now) result }
{
    match answer {
        FileAnswer::Report(decomposition, components) => {
            write_file_report(out, buf, number, decomposition, components)
        }
        FileAnswer::Bad { limit, line, kind } => {
            if *limit {
                let why = limit_line(*line, *kind);
                write_file_fault(out, buf, number, code_of(Status::Limit), why.as_bytes())
            } else {
                let why = malformed_line(*line, *kind);
                write_file_fault(out, buf, number, code_of(Status::Malformed), why.as_bytes())
            }
        }
    }
}

/// The number that stands for a status.
fn code_of(status: Status) -> u64
    ensures { result ≡ exit_code status }
{
    u64::from(status.code())
}

/// Writes what is answered to each file, in order. It takes no memory.
fn write_slots<K: Sink>(
    out: &mut K,
    buf: &mut TextBuf,
    slots: &[Option<FileAnswer>],
) -> Result<(), Failed>
    ensures { Writes (seen K.taken K.faults out.old out.new)
        (texts_of_slots 1 slots.now) result }
{
    // A text is taken piece by piece.
    taken_in_turn();
    for (i, slot) in slots.iter().enumerate() {
        if let Some(answer) = slot {
            write_answer(out, buf, i as u64 + 1, answer)?;
        }
    }
    Ok(())
}

/// Writes what is answered to each file and how many files there are, and has all of it handed on.
///
/// `Failed` comes only where a write or the flush failed, and then a prefix of the text was taken.
/// It takes no memory.
pub(crate) fn write_answers<K: Sink>(
    out: &mut K,
    buf: &mut TextBuf,
    slots: &[Option<FileAnswer>],
) -> Result<(), Failed>
    ensures { Writes (seen K.taken K.faults out.old out.new) (text_of_slots slots.now) result }
{
    taken_in_turn();
    write_slots(out, buf, slots)?;
    write_files_end(out, buf, slots.len() as u64)?;
    out.flush()
}

/// Whether each file is good.
pub(crate) fn answer_of(slots: &[Option<FileAnswer>]) -> Answer
    ensures { result ≡ answer_of slots.now }
{
    for slot in slots {
        if let Some(FileAnswer::Bad { .. }) = slot {
            return Answer::Negative;
        }
    }
    Answer::Positive
}
