//! The choice of the search that finds a maximum matching.

ghost use Rattle.std.specs.Prelude.{◌≤◌, IfOk, IfSome};
ghost use Rattle.bip_graph.specs.Answers.{IsMaximumOrLeast};
ghost use Rattle.bip_graph.specs.Decompositions.{HasParts};
ghost use Rattle.bip_graph.specs.Matching.{IsMaximumOf};
ghost use Rattle.bip_graph.specs.OuterMarks.{AreOuterMarks};
ghost use Rattle.sp_ids.specs.Limits.{max_workers};

use bip_graph::{Matching, OuterMarks, Parts};
use btf_words::{Engine, EngineChoice, Workers};
use hall_witness::plain;
use karp_sipser::start;
use least_match::least_by_parts;
use pothen_fan::complete_with_marks;
use sp_ids::OutOfMemory;
use sp_pattern::Pattern;
use sp_ports::Gate;
use std::alloc::Global;
use std::thread::Threads;

/// A maximum matching of a matrix's entries, by the engine that is asked for.
///
/// All engines but `Plain` begin with the start of Karp and Sipser. There may be 1 to 64 workers,
/// for `Graft` alone: the other engines search in the calling thread. Returns `OutOfMemory` if it
/// cannot allocate the engine's tables. Memory and work are those of the start and of the engine,
/// as their crates say.
pub fn solve<R: Threads + Sync, G: Gate>(
    rt: &R,
    alloc: Global,
    pattern: &Pattern,
    engine: Engine,
    workers: u32,
    gate: &G,
) -> Result<Matching, OutOfMemory>
    requires some { 1 ≤ workers }
    requires few { workers ≤ max_workers }
    ensures maximum { IfOk result (λ m. IsMaximumOf pattern.now m) }
{
    let choice = EngineChoice::with(engine, Workers::new(workers));
    let (matching, _marks) = matching_for(rt, alloc, pattern, choice, gate)?;
    Ok(matching)
}

/// A maximum matching by the engine `Pf`, and what its last phase has marked.
pub(crate) fn solve_with_marks(
    alloc: Global,
    pattern: &Pattern,
) -> Result<(Matching, OuterMarks), OutOfMemory>
    ensures maximum { IfOk result (λ p. IsMaximumOf pattern.now p.0) }
    ensures marks { IfOk result (λ p. AreOuterMarks pattern.now p.1) }
{
    let matching = start(alloc, pattern)?;
    complete_with_marks(alloc, pattern, matching)
}

/// A maximum matching, by the engine that is asked for, and what the last serial phase has marked,
/// where it has such phases and they have gone on to the end.
pub(crate) fn matching_for<R: Threads + Sync, G: Gate>(
    rt: &R,
    alloc: Global,
    pattern: &Pattern,
    choice: EngineChoice,
    gate: &G,
) -> Result<(Matching, Option<OuterMarks>), OutOfMemory>
    ensures maximum { IfOk result (λ p. IsMaximumOf pattern.now p.0) }
    ensures marks { IfOk result (λ p. IfSome p.1 (AreOuterMarks pattern.now)) }
{
    match choice {
        EngineChoice::Plain => {
            let (maximum, _columns) = plain(alloc, pattern)?;
            Ok((maximum, None))
        }
        EngineChoice::Mc21 => {
            let matching = start(alloc, pattern)?;
            let maximum = mc21_match::complete(alloc, pattern, matching)?;
            Ok((maximum, None))
        }
        EngineChoice::Pf => {
            let (maximum, marks) = solve_with_marks(alloc, pattern)?;
            Ok((maximum, Some(marks)))
        }
        EngineChoice::Graft { workers } => {
            let matching = start(alloc, pattern)?;
            let workers = workers.number();
            tree_graft::complete_with_marks(rt, alloc, pattern, matching, workers, gate)
        }
    }
}

/// A maximum matching of a matrix whose parts these are: this one, or with `least` the least one,
/// which is the same for every engine.
pub(crate) fn least_if_asked(
    alloc: Global,
    pattern: &Pattern,
    matching: Matching,
    parts: &Parts,
    least: bool,
) -> Result<Matching, OutOfMemory>
    requires maximum { IsMaximumOf pattern.now matching }
    requires parts { HasParts pattern.now parts.now }
    ensures maximum { IfOk result (IsMaximumOf pattern.now) }
    ensures least { IfOk result (λ m. IsMaximumOrLeast pattern.now least m.pairs) }
{
    if !least {
        return Ok(matching);
    }
    least_by_parts(alloc, pattern, matching, parts)
}
