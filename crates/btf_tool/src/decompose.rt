//! The coarse parts and the decomposition of a matrix that stands.

ghost use Rattle.std.specs.Prelude.{IfOk, IfSome};
ghost use Rattle.bip_graph.specs.Decompositions.{Decomposes, HasParts};
ghost use Rattle.bip_graph.specs.Matching.{IsMaximumOf};
ghost use Rattle.bip_graph.specs.OuterMarks.{AreOuterMarks};

use crate::engines::matching_for;
use bip_graph::{Decomposition, Matching, OuterMarks, Parts};
use breadth_first_match::complete_with_marks;
use btf_words::EngineChoice;
use dm_coarse::{coarse, coarse_by_marks};
use dm_fine::fine;
use karp_sipser::start;
use sp_ids::OutOfMemory;
use sp_pattern::Pattern;
use sp_ports::Gate;
use std::alloc::Global;
use std::thread::Threads;

/// A maximum matching, by the engine that is asked for, and the coarse parts.
///
/// Returns `OutOfMemory` if it cannot allocate the tables of the engine or of the coarse parts.
pub(crate) fn matched_parts<R: Threads + Sync, G: Gate>(
    rt: &R,
    alloc: Global,
    pattern: &Pattern,
    choice: EngineChoice,
    gate: &G,
) -> Result<(Matching, Parts), OutOfMemory>
    ensures maximum { IfOk result (λ p. IsMaximumOf pattern.now p.0) }
    ensures parts { IfOk result (λ p. HasParts pattern.now p.1) }
{
    let (matching, marks) = matching_for(rt, alloc, pattern, choice, gate)?;
    let parts = parts_from(rt, alloc, pattern, &matching, marks)?;
    Ok((matching, parts))
}

/// [`matched_parts`] for a report, whose pairs may be those of the least maximum matching.
///
/// Where they are, the engines `Pf` and `Graft` give way to breadth-first phases on the calling
/// thread: a depth-first path takes many columns away from their least rows, each of which the
/// search for the least matching would have to take back.
pub(crate) fn matched_parts_for<R: Threads + Sync, G: Gate>(
    rt: &R,
    alloc: Global,
    pattern: &Pattern,
    choice: EngineChoice,
    least: bool,
    gate: &G,
) -> Result<(Matching, Parts), OutOfMemory>
    ensures maximum { IfOk result (λ p. IsMaximumOf pattern.now p.0) }
    ensures parts { IfOk result (λ p. HasParts pattern.now p.1) }
{
    let searches_depth_first = matches!(choice, EngineChoice::Pf | EngineChoice::Graft { .. });
    if !least || !searches_depth_first {
        return matched_parts(rt, alloc, pattern, choice, gate);
    }
    let matching = start(alloc, pattern)?;
    let (maximum, marks) = complete_with_marks(alloc, pattern, matching)?;
    let parts = coarse_by_marks(alloc, pattern, &maximum, &marks)?;
    Ok((maximum, parts))
}

/// The coarse parts, from a maximum matching: by what the last phase has marked and one search from
/// the other side, or by searches from both sides where there are no marks.
fn parts_from<R: Threads + Sync>(
    rt: &R,
    alloc: Global,
    pattern: &Pattern,
    matching: &Matching,
    marks: Option<OuterMarks>,
) -> Result<Parts, OutOfMemory>
    requires maximum { IsMaximumOf pattern.now matching.now }
    requires marks { IfSome marks (AreOuterMarks pattern.now) }
    ensures { IfOk result (HasParts pattern.now) }
{
    match marks {
        Some(marks) => coarse_by_marks(alloc, pattern, matching, &marks),
        None => coarse(rt, alloc, pattern, matching),
    }
}

/// The decomposition of a matrix, by a maximum matching of it, where the coarse parts are known.
///
/// Returns `OutOfMemory` if it cannot allocate the tables of the fine blocks.
pub(crate) fn decompose(
    alloc: Global,
    pattern: &Pattern,
    matching: &Matching,
    parts: Parts,
) -> Result<Decomposition, OutOfMemory>
    requires maximum { IsMaximumOf pattern.now matching.now }
    requires parts { HasParts pattern.now parts }
    ensures { IfOk result (Decomposes pattern.now) }
{
    let blocks = fine(alloc, pattern, matching, &parts)?;
    Ok(Decomposition {
        m: pattern.rows(),
        n: pattern.cols(),
        e: pattern.entries(),
        rank: matching.size(),
        parts,
        blocks,
    })
}
