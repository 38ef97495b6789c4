//! The job `check`.

ghost use Rattle.std.specs.Prelude.{◌≡◌};
ghost use Rattle.btf_words.specs.declared.jobs.Job.TheVariants.{Check};
ghost use Rattle.sp_ports.specs.Device.{Writes, seen};
ghost use Rattle.btf_tool.specs.Jobs.{GavePrefix, OfReading};
ghost use Rattle.btf_tool.specs.VerdictText.{answer_of as answer_on, verdict_text};
ghost use Rattle.btf_tool.specs.Runs.{JobSays};

use crate::matrix::matrix_of;
use crate::reading::{Followed, read_followed};
use crate::writing::hand_on;
use crate::{Answer, Refusal};
use btf_check::{Verdict, judge};
use btf_lines::invalid_line;
use sp_ports::{Failed, Sink, Source, write_all};
use std::alloc::Global;
use std::thread::Threads;

/// Reads a matrix and the bytes that follow it, and writes whether they are its report.
pub(crate) fn check<R: Threads + Sync, S: Source, O: Sink>(
    rt: &R,
    alloc: Global,
    drop_zeros: bool,
    input: &mut S,
    out: &mut O,
) -> Result<Answer, Refusal>
    ensures says { JobSays (Check drop_zeros) (seen S.left S.faults input.old input.new)
        (seen O.taken O.faults out.old out.new) result }
    ensures gave { OfReading (seen S.left S.faults input.old input.new) GavePrefix }
{
    let file = read_followed(alloc, input)?;
    let Followed { triples, rest } = file;
    let pattern = matrix_of(rt, alloc, &triples, drop_zeros)?;
    drop(triples);
    let verdict = judge(rt, alloc, &pattern, rest.as_slice())?;
    let written = write_verdict(out, verdict);
    hand_on(out, written)?;
    Ok(answer_of(verdict))
}

/// Whether the report is the one that was asked for.
fn answer_of(verdict: Verdict) -> Answer
    ensures { result ≡ answer_on verdict }
{
    match verdict {
        Verdict::Valid => Answer::Positive,
        Verdict::Invalid(_) => Answer::Negative,
    }
}

/// Writes the line of a verdict.
fn write_verdict<O: Sink>(out: &mut O, verdict: Verdict) -> Result<(), Failed>
    ensures { Writes (seen O.taken O.faults out.old out.new) (verdict_text verdict) result }
{
    match verdict {
        Verdict::Valid => write_all(out, b"valid\n"),
        Verdict::Invalid(reason) => write_all(out, invalid_line(reason).as_bytes()),
    }
}
