//! The job `edit`.

ghost use Rattle.btf_words.specs.declared.jobs.Job.TheVariants.{Edit};
ghost use Rattle.sp_ports.specs.Device.{seen};
ghost use Rattle.btf_tool.specs.Jobs.{GavePrefix, OfReading};
ghost use Rattle.btf_tool.specs.Runs.{JobSays};

use crate::engines::solve;
use crate::reading::{Edited, read_edited};
use crate::replies::replies_to;
use crate::writing::hand_on;
use crate::{Answer, Refusal};
use btf_text::{TextBuf, write_replies};
use btf_words::Engine;
use sp_pattern::Pattern;
use sp_ports::{Gate, Sink, Source};
use std::alloc::Global;
use std::thread::Threads;

/// Reads a matrix and the edits that follow it, and writes the rank of the matrix and the replies
/// to the edits.
pub(crate) fn edit<R: Threads + Sync, S: Source, O: Sink, G: Gate>(
    rt: &R,
    alloc: Global,
    input: &mut S,
    out: &mut O,
    gate: &G,
) -> Result<Answer, Refusal>
    ensures says { JobSays Edit (seen S.left S.faults input.old input.new)
        (seen O.taken O.faults out.old out.new) result }
    ensures gave { OfReading (seen S.left S.faults input.old input.new) GavePrefix }
{
    let file = read_edited(alloc, input)?;
    let Edited { triples, edits } = file;
    let pattern = Pattern::build(rt, alloc, &triples)?;
    pattern.is_pattern();
    drop(triples);
    let matching = solve(rt, alloc, &pattern, Engine::Pf, 1, gate)?;
    let replies = replies_to(rt, alloc, pattern, matching, edits.as_slice())?;
    let mut buf = TextBuf::new(alloc)?;
    let written = write_replies(out, &mut buf, replies.as_slice());
    hand_on(out, written)?;
    Ok(Answer::Positive)
}
