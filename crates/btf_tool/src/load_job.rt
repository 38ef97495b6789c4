//! The job `load`.

ghost use Rattle.std.specs.Prelude.{◌≤◌, IfOk};
ghost use Rattle.bip_defs.specs.Matrix.{Matrix};
ghost use Rattle.btf_words.specs.declared.jobs.Job.TheVariants.{Load};
ghost use Rattle.sp_ids.specs.Limits.{max_load_size};
ghost use Rattle.bip_graph.specs.Decompositions.{Decomposes};
ghost use Rattle.sp_ports.specs.Device.{Device, IsUntouched, seen};
ghost use Rattle.btf_tool.specs.Runs.{JobSays};
ghost use Rattle.btf_tool.specs.Summaries.{IsLoadMatrix};

use crate::decompose::{decompose, matched_parts};
use crate::writing::hand_on;
use crate::{Answer, Refusal};
use bip_graph::Decomposition;
use btf_text::{TextBuf, write_load};
use btf_words::EngineChoice;
use sp_ids::OutOfMemory;
use sp_pattern::load_matrix;
use sp_ports::{Gate, Sink};
use std::alloc::Global;
use std::thread::Threads;

/// Makes the matrix that a size and a seed name, and writes the summary of its decomposition. It
/// has no input to read.
pub(crate) fn load<R: Threads + Sync, O: Sink, G: Gate>(
    rt: &R,
    alloc: Global,
    size: u32,
    seed: u64,
    choice: EngineChoice,
    out: &mut O,
    gate: &G,
) -> Result<Answer, Refusal>
    requires some { 1 ≤ size }
    requires few { size ≤ max_load_size }
    ensures { (input : Device) → IsUntouched input
        → JobSays (Load size seed choice) input (seen O.taken O.faults out.old out.new) result }
{
    let decomposition = decomposition_of(rt, alloc, size, seed, choice, gate)?;
    let mut buf = TextBuf::new(alloc)?;
    let written = write_load(out, &mut buf, &decomposition);
    hand_on(out, written)?;
    Ok(Answer::Positive)
}

/// The decomposition of the matrix of this size and seed.
fn decomposition_of<R: Threads + Sync, G: Gate>(
    rt: &R,
    alloc: Global,
    size: u32,
    seed: u64,
    choice: EngineChoice,
    gate: &G,
) -> Result<Decomposition, OutOfMemory>
    requires some { 1 ≤ size }
    requires few { size ≤ max_load_size }
    ensures { IfOk result
        (λ d. (a : Matrix) × IsLoadMatrix size seed a × Decomposes a d) }
{
    let pattern = load_matrix(rt, alloc, size, seed)?;
    let (matching, parts) = matched_parts(rt, alloc, &pattern, choice, gate)?;
    decompose(alloc, &pattern, &matching, parts)
}
