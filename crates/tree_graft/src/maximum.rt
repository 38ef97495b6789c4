//! Maximum matchings: serial phases first, then phases by workers.

ghost use Rattle.std.specs.Prelude.{◌≤◌, IfOk, IfSome};
ghost use Rattle.bip_defs.specs.Matching.{Covers};
ghost use Rattle.bip_graph.specs.Matching.{IsMatchingOf, IsMaximumOf};
ghost use Rattle.bip_graph.specs.OuterMarks.{AreOuterMarks};
ghost use Rattle.sp_ids.specs.Limits.{max_workers};

use crate::levels::can_grow;
use crate::phase_under;
use crate::sizes::Plan;
use crate::switches::is_large;
use bip_graph::{Matching, OuterMarks};
use forest_core::Forest;
use level_sharing::Sharing;
use pothen_fan::lengthen;
use sp_ids::OutOfMemory;
use sp_pattern::Pattern;
use sp_ports::Gate;
use std::alloc::Global;
use std::thread::Threads;

/// A maximum matching, in which every row and column that was matched before is matched.
///
/// The matching must be of the pattern's entries and sizes, and there may be 1 to 64 workers. Where
/// each column that has an entry is matched, there is nothing to do. Else serial phases on the
/// calling thread come first, since they cost less than the boards that workers share. Of a pattern
/// with at most 6,000,000 rows and columns together they go on until the matching is maximum; a
/// phase by workers, which finds no path, follows only where the gate needs threads. Of a larger
/// pattern they are depth-first, go on as long as each matches at least half of what is left, and
/// are followed by phases by workers, until one gives 0.
///
/// Returns `OutOfMemory` if it cannot allocate the forest and a phase, at most 57 bytes a row and
/// 58 a column, or the workers' lists; the matching is dropped then. The serial phases take at
/// most 30 bytes a row or column, of which one stays in use while the forest is made. Where each
/// column that has an entry is matched it takes no memory. Work: phases, of which all but the last
/// by each kind of worker make the matching larger.
pub fn complete<R: Threads + Sync, G: Gate>(
    rt: &R,
    alloc: Global,
    pattern: &Pattern,
    matching: Matching,
    workers: u32,
    gate: &G,
) -> Result<Matching, OutOfMemory>
    requires some { 1 ≤ workers }
    requires few { workers ≤ max_workers }
    requires matching { IsMatchingOf pattern.now matching }
    ensures maximum { IfOk result (λ m. IsMaximumOf pattern.now m) }
    ensures covered { IfOk result (λ m. Covers matching.pairs m.pairs) }
{
    let (maximum, _marks) = complete_with_marks(rt, alloc, pattern, matching, workers, gate)?;
    Ok(maximum)
}

/// [`complete`], with what the last serial phase has marked, where serial phases went on until the
/// matching was maximum: the horizontal rows or the vertical columns.
///
/// There are no marks of a pattern with more than 6,000,000 rows and columns together, nor where
/// each column that has an entry was matched before. Memory, errors and work: as those of
/// `complete`; of its memory a byte a row, or a byte a column, stays in use.
pub fn complete_with_marks<R: Threads + Sync, G: Gate>(
    rt: &R,
    alloc: Global,
    pattern: &Pattern,
    matching: Matching,
    workers: u32,
    gate: &G,
) -> Result<(Matching, Option<OuterMarks>), OutOfMemory>
    requires some { 1 ≤ workers }
    requires few { workers ≤ max_workers }
    requires matching { IsMatchingOf pattern.now matching }
    ensures maximum { IfOk result (λ p. IsMaximumOf pattern.now p.0) }
    ensures covered { IfOk result (λ p. Covers matching.pairs p.0.pairs) }
    ensures marks { IfOk result (λ p. IfSome p.1 (AreOuterMarks pattern.now)) }
{
    complete_under(rt, alloc, pattern, matching, Plan::usual(workers), gate)
}

/// [`complete_with_marks`] by a plan, which has the number of workers, and the sizes at which the
/// search goes another way: how many rows and columns serial phases search to the end, and how many
/// items are worth threads.
pub fn complete_under<R: Threads + Sync, G: Gate>(
    rt: &R,
    alloc: Global,
    pattern: &Pattern,
    matching: Matching,
    plan: Plan,
    gate: &G,
) -> Result<(Matching, Option<OuterMarks>), OutOfMemory>
    requires some { 1 ≤ plan.workers }
    requires few { plan.workers ≤ max_workers }
    requires matching { IsMatchingOf pattern.now matching }
    ensures maximum { IfOk result (λ p. IsMaximumOf pattern.now p.0) }
    ensures covered { IfOk result (λ p. Covers matching.pairs p.0.pairs) }
    ensures marks { IfOk result (λ p. IfSome p.1 (AreOuterMarks pattern.now)) }
{
    if !can_grow(pattern, &matching) {
        return Ok((matching, None));
    }
    if is_large(pattern, &plan.sizes) {
        let longer = lengthen(alloc, pattern, matching)?;
        let maximum = complete_by_phases(rt, alloc, pattern, longer, plan, gate)?;
        return Ok((maximum, None));
    }
    let (maximum, marks) = pothen_fan::complete_with_marks(alloc, pattern, matching)?;
    let shown = show_maximum(rt, alloc, pattern, maximum, plan, gate)?;
    Ok((shown, Some(marks)))
}

// A matching that is maximum, by one more phase of workers where the gate needs threads: there
// whoever waits at the gate sees all of them come.
fn show_maximum<R: Threads + Sync, G: Gate>(
    rt: &R,
    alloc: Global,
    pattern: &Pattern,
    maximum: Matching,
    plan: Plan,
    gate: &G,
) -> Result<Matching, OutOfMemory>
    requires workers { (1 ≤ plan.workers) × (plan.workers ≤ max_workers) }
    requires maximum { IsMaximumOf pattern.now maximum }
    ensures maximum { IfOk result (λ m. IsMaximumOf pattern.now m) }
    ensures covered { IfOk result (λ m. Covers maximum.pairs m.pairs) }
{
    if !gate.needs_threads() {
        return Ok(maximum);
    }
    complete_by_phases(rt, alloc, pattern, maximum, plan, gate)
}

// A maximum matching by phases of the workers, until one gives 0.
fn complete_by_phases<R: Threads + Sync, G: Gate>(
    rt: &R,
    alloc: Global,
    pattern: &Pattern,
    matching: Matching,
    plan: Plan,
    gate: &G,
) -> Result<Matching, OutOfMemory>
    requires workers { (1 ≤ plan.workers) × (plan.workers ≤ max_workers) }
    requires matching { IsMatchingOf pattern.now matching }
    ensures maximum { IfOk result (λ m. IsMaximumOf pattern.now m) }
    ensures covered { IfOk result (λ m. Covers matching.pairs m.pairs) }
{
    if !can_grow(pattern, &matching) {
        return Ok(matching);
    }
    let sharing = Sharing {
        gate,
        worth_threads: plan.sizes.worth_threads,
    };
    let mut forest = Forest::new(alloc, pattern, matching)?;
    let mut grows = true;
    while grows {
        grows = phase_under(rt, alloc, &mut forest, plan.workers, &sharing)? > 0;
    }
    Ok(forest.into_matching())
}
