//! The top call.

ghost use Rattle.std.specs.Prelude.{map, string_bytes};
ghost use Rattle.sp_ports.specs.Device.{CountHasNotFallen, seen};
ghost use Rattle.btf_tool.specs.Jobs.{GavePrefix, OfReading};
ghost use Rattle.btf_tool.specs.Runs.{Fulfils, run_of};
ghost use Rattle.batch_core.specs.BatchRuns.{BatchSays, Completes, Says};

use crate::answer_all;
use crate::reading::read_batch;
use crate::refusals::{BatchRefusal, refuse};
use crate::texts::{answer_of, write_answers};
use btf_text::TextBuf;
use btf_tool::{Answer, unused_input_tells};
use btf_words::{Workers, read_batch_words};
use mm_frames::{
    bad_frame_stays, batch_has_no_bad_frame, batch_has_one_list_of_files, good_batch_is_read,
};
use sp_ids::Status;
use sp_ports::{Gate, Sink, Source};
use std::alloc::Global;
use std::thread::Threads;

/// Reads a batch of files from `input`, and writes the answer to each to `out`, in order; if there
/// is no answer, writes the reason to `err`.
///
/// `words` are those after the program's name. They set the number of workers, which answer the
/// files side by side if threads start; each calls `gate.arrive` once. Returns the status with
/// which the program ends: `Ok` if each file is good, `Negative` if some file is not. Nothing is
/// written to `out` before all input is read and all memory is taken. All of this holds whatever
/// `gate` does and in whatever order threads run: the text is that of one worker.
///
/// Memory: the bytes of all files, and what the analysis of each takes while a worker is at it.
/// Work: linear in the bytes, and that of each file's analysis.
pub fn run_batch<R: Threads + Sync, S: Source, O: Sink, E: Sink, G: Gate>(
    rt: &R,
    alloc: Global,
    words: &[String],
    input: &mut S,
    out: &mut O,
    err: &mut E,
    gate: &G,
) -> Status
    // What each status says, and which status has to come.
    ensures status { Fulfils Says Completes (run_of (map string_bytes words.now)
        (seen S.left S.faults input.old input.new) (seen O.taken O.faults out.old out.new)
        (seen E.taken E.faults err.old err.new)) result }

    // No device's count of failures falls.
    ensures input_count { CountHasNotFallen (seen S.left S.faults input.old input.new) }
    ensures out_count { CountHasNotFallen (seen O.taken O.faults out.old out.new) }
    ensures err_count { CountHasNotFallen (seen E.taken E.faults err.old err.new) }

    // What the input has left is the end of what it had, and at most one byte past its limit was
    // taken.
    ensures gave { OfReading (seen S.left S.faults input.old input.new) GavePrefix }
{
    // A batch has one list of files and no bad frame, a first bad frame stays the first, and a
    // batch that is given is read.
    batch_has_one_list_of_files();
    batch_has_no_bad_frame();
    bad_frame_stays();
    good_batch_is_read();
    // Of unread input the answer is the same.
    unused_input_tells();
    match read_batch_words(alloc, words) {
        Err(error) => refuse(err, &BatchRefusal::from(error)),
        Ok(workers) => match perform(rt, alloc, workers, input, out, gate) {
            Ok(answer) => answer.status(),
            Err(refusal) => refuse(err, &refusal),
        },
    }
}

/// Answers the batch by so many workers, and returns whether each file is good.
fn perform<R: Threads + Sync, S: Source, O: Sink, G: Gate>(
    rt: &R,
    alloc: Global,
    workers: Workers,
    input: &mut S,
    out: &mut O,
    gate: &G,
) -> Result<Answer, BatchRefusal>
    ensures says { BatchSays (seen S.left S.faults input.old input.new)
        (seen O.taken O.faults out.old out.new) result }
    ensures gave { OfReading (seen S.left S.faults input.old input.new) GavePrefix }
{
    let files = read_batch(alloc, input)?;
    let answers = answer_all(rt, alloc, files.as_slice(), workers, gate)?;
    let mut buf = TextBuf::new(alloc)?;
    let slots = answers.slots();
    write_answers(out, &mut buf, slots)?;
    Ok(answer_of(slots))
}
