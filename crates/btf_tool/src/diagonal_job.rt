//! The job `diagonal`.

ghost use Rattle.std.specs.Prelude.{◌≡◌};
ghost use Rattle.btf_words.specs.declared.jobs.Job.TheVariants.{Diagonal};
ghost use Rattle.sp_ports.specs.Device.{seen};
ghost use Rattle.btf_tool.specs.Diagonals.{answer_on};
ghost use Rattle.btf_tool.specs.Jobs.{GavePrefix, OfReading};
ghost use Rattle.btf_tool.specs.Runs.{JobSays};

use crate::matrix::matrix_of;
use crate::reading::read_file;
use crate::writing::hand_on;
use crate::{Answer, Refusal};
use bip_graph::Heaviest;
use btf_text::{TextBuf, write_diagonal};
use integer_diagonal::heaviest;
use sp_ids::Field;
use sp_pattern::Weights;
use sp_ports::{Sink, Source};
use std::alloc::Global;
use std::thread::Threads;

/// Reads the matrix of an integer file, and writes a heaviest diagonal of it, or why it has none.
pub(crate) fn diagonal<R: Threads + Sync, S: Source, O: Sink>(
    rt: &R,
    alloc: Global,
    drop_zeros: bool,
    input: &mut S,
    out: &mut O,
) -> Result<Answer, Refusal>
    ensures says { JobSays (Diagonal drop_zeros) (seen S.left S.faults input.old input.new)
        (seen O.taken O.faults out.old out.new) result }
    ensures gave { OfReading (seen S.left S.faults input.old input.new) GavePrefix }
{
    let triples = read_file(alloc, input)?;
    let Field::Integer = triples.field() else {
        return Err(Refusal::NeedsInteger);
    };
    let pattern = matrix_of(rt, alloc, &triples, drop_zeros)?;
    let weights = Weights::build(alloc, &pattern, &triples)?;
    drop(triples);
    let answer = heaviest(alloc, &pattern, &weights)?;
    let mut buf = TextBuf::new(alloc)?;
    let written = write_diagonal(out, &mut buf, &answer, &pattern, &weights);
    hand_on(out, written)?;
    Ok(answer_of(&answer))
}

/// Whether there is a diagonal.
fn answer_of(heaviest: &Heaviest) -> Answer
    ensures { result ≡ answer_on heaviest.now }
{
    match heaviest {
        Heaviest::Diagonal { .. } => Answer::Positive,
        Heaviest::Rectangular | Heaviest::Singular { .. } => Answer::Negative,
    }
}
