//! The top call.

ghost use Rattle.std.specs.Prelude.{map, string_bytes};
ghost use Rattle.btf_words.specs.Words.{IsWithinLimits};
ghost use Rattle.sp_ports.specs.Device.{CountHasNotFallen, IsUntouched, seen};
ghost use Rattle.btf_tool.specs.Jobs.{GavePrefix, OfReading, ReadsFile};
ghost use Rattle.btf_tool.specs.Runs.{Completes, Fulfils, JobSays, NameMaker, Says, run_of};

use crate::analyse_job::{Options, analyse};
use crate::bottleneck_job::bottleneck;
use crate::check_job::check;
use crate::diagonal_job::diagonal;
use crate::edit_job::edit;
use crate::load_job::load;
use crate::rank_job::rank;
use crate::refusals::refuse;
use crate::{Answer, Refusal};
use btf_check::one_verdict;
use btf_words::{Job, read_words};
use integer_diagonal::full_matching_shows_rank;
use sp_ids::Status;
use sp_ports::{Gate, Sink, Source};
use std::alloc::Global;
use std::thread::Threads;

/// Does what the words say: reads `input` or makes a matrix, writes the answer to `out`, and where
/// there is none tells on `err` why.
///
/// `words` are those after the program's name. The answer is the status with which the program
/// ends. Nothing is written to `out` before all input is read and all memory is taken. What is said
/// here holds whatever `gate` does, and in whatever order threads run.
///
/// Memory: the entries as they are read, 8 bytes each and 8 more with a value, then the pattern, 8
/// bytes an entry, and what the job's calls take. Work: linear in the bytes of the input, and that
/// of the job's calls.
pub fn run<R: Threads + Sync, S: Source, O: Sink, E: Sink, G: Gate>(
    rt: &R,
    alloc: Global,
    words: &[String],
    input: &mut S,
    out: &mut O,
    err: &mut E,
    gate: &G,
) -> Status
    // What each status says, and which status has to come.
    ensures status { Fulfils Says Completes (run_of (map string_bytes words.now)
        (seen S.left S.faults input.old input.new) (seen O.taken O.faults out.old out.new)
        (seen E.taken E.faults err.old err.new)) result }

    // No device's count of failures falls.
    ensures input_count { CountHasNotFallen (seen S.left S.faults input.old input.new) }
    ensures out_count { CountHasNotFallen (seen O.taken O.faults out.old out.new) }
    ensures err_count { CountHasNotFallen (seen E.taken E.faults err.old err.new) }

    // What the input has left is the end of what it had, and at most one byte past its limit was
    // taken.
    ensures gave { OfReading (seen S.left S.faults input.old input.new) GavePrefix }

    // A matrix that is made is made without the input.
    ensures unread { NameMaker (map string_bytes words.now)
        → IsUntouched (seen S.left S.faults input.old input.new) }
{
    // There is one verdict on bytes, and a matrix with a diagonal has full rank.
    one_verdict();
    full_matching_shows_rank();
    match read_words(alloc, words) {
        Err(error) => refuse(err, &Refusal::from(error)),
        Ok(job) => match perform(rt, alloc, job, input, out, gate) {
            Ok(answer) => answer.status(),
            Err(refusal) => refuse(err, &refusal),
        },
    }
}

/// Does a job: reads the input or makes a matrix, and writes the answer, or tells why there is
/// none.
fn perform<R: Threads + Sync, S: Source, O: Sink, G: Gate>(
    rt: &R,
    alloc: Global,
    job: Job,
    input: &mut S,
    out: &mut O,
    gate: &G,
) -> Result<Answer, Refusal>
    requires limits { IsWithinLimits job }
    ensures says { JobSays job (seen S.left S.faults input.old input.new)
        (seen O.taken O.faults out.old out.new) result }
    ensures gave { OfReading (seen S.left S.faults input.old input.new) GavePrefix }
    ensures unread { ¬ ReadsFile job → IsUntouched (seen S.left S.faults input.old input.new) }
{
    match job {
        Job::Rank { drop_zeros } => rank(rt, alloc, drop_zeros, input, out),
        Job::Analyse {
            choice,
            report,
            drop_zeros,
        } => {
            let options = Options {
                choice,
                report,
                drop_zeros,
            };
            analyse(rt, alloc, options, input, out, gate)
        }
        Job::Diagonal { drop_zeros } => diagonal(rt, alloc, drop_zeros, input, out),
        Job::Check { drop_zeros } => check(rt, alloc, drop_zeros, input, out),
        Job::Load { size, seed, choice } => load(rt, alloc, size, seed, choice, out, gate),
        Job::Edit => edit(rt, alloc, input, out, gate),
        Job::Bottleneck { drop_zeros } => bottleneck(rt, alloc, drop_zeros, input, out),
    }
}
