//! Maximum matchings by phases in which alternating trees grow from all unmatched columns at once,
//! each until it has an augmenting path, by many workers who share the words of a board.
//!
//! The trees grow level by level, from their last columns down or from the unclaimed rows up, and a
//! tree whose path is found grows no further. Trees without a path are kept for the next phase,
//! where that is worth while (Azad, Buluç and Pothen, Computing maximum cardinality matchings in
//! parallel on bipartite graphs via tree-grafting, 2017).
#![tactic(auto)]

mod augment;
mod counts;
mod frontiers;
mod levels;
mod maximum;
mod sizes;
mod switches;

ghost use Rattle.std.specs.Prelude.{◌≡◌, ◌↔◌, ◌+◌, ◌≤◌, length, IfOk};
ghost use Rattle.bip_defs.specs.Matching.{IsMaximum};
ghost use Rattle.forest_core.specs.Events.{IsLegal, LeadsTo};
ghost use Rattle.bip_defs.specs.Forest.{IsRested};
ghost use Rattle.sp_ids.specs.Limits.{max_workers};
ghost use Rattle.sp_ids.specs.declared.events.Event.TheVariants.{Done};
ghost use Rattle.tree_graft.specs.Phases.{StaysMatched};

use crate::augment::augment;
use crate::levels::{can_grow, grow};
use forest_core::Forest;
use level_sharing::Sharing;
pub use maximum::{complete, complete_under, complete_with_marks};
pub use sizes::{Plan, SearchSizes, USUAL_SIZES};
use sp_ids::OutOfMemory;
use sp_ports::Gate;
use std::alloc::Global;
use std::thread::Threads;
pub use switches::{goes_top_down, keeps_trees};

/// One phase: the trees grow until each has a leaf or has nothing left to claim, and then the paths
/// of all roots with a leaf are exchanged. Gives the number of these paths: 0 exactly where the
/// base matching was maximum. Each row and column that was matched stays matched.
///
/// The forest must be rested, and there may be 1 to 64 workers. They share each level and the
/// exchange of the paths, and each calls `gate.arrive` once in each of these, whether its share is
/// empty or not. A level goes down from the frontier where `goes_top_down` says so, and else up
/// from all unclaimed rows; with claims a phase begins by a level up. After a phase that gives 0
/// the claims stay; after any other those of trees without a leaf do where `keeps_trees` says so,
/// and else none.
///
/// Returns `OutOfMemory` if it cannot allocate its boards and lists, at most 28 bytes a row and 40
/// a column at a time, or the workers' lists, 8 bytes for each claim and win of a level; the forest
/// is then one that legal events lead to. The claim board has 8 bytes a row and a column until the
/// last level is done, beside 4 of each for the free rows and the frontier, and 16 more of each
/// while it is opened. After it the flip board has 8 bytes a row and 16 a column until the paths
/// are exchanged, as much again and 8 of each while it is opened, and 4 of each for the mates when
/// it is closed. A forest without claims whose unmatched columns have no entries takes none. Work:
/// a few looks at each row and column; in each level at most two looks at each entry of the
/// frontier's columns, or of the unclaimed rows; and a few writes for each pair of a path.
pub fn phase<R: Threads + Sync, G: Gate>(
    rt: &R,
    alloc: Global,
    forest: &mut Forest,
    workers: u32,
    gate: &G,
) -> Result<u32, OutOfMemory>
    requires some { 1 ≤ workers }
    requires few { workers ≤ max_workers }
    requires rested { IsRested forest.old }
    ensures legal { LeadsTo forest.old forest.new }
    ensures matched { StaysMatched forest.old forest.new }
    ensures rested { IfOk result (λ _. IsRested forest.new) }
    ensures growth { IfOk result (λ k. length forest.new.base ≡ length forest.old.base + k) }
    ensures maximum { IfOk result (λ k. (k ≡ 0) ↔ IsMaximum forest.old.matrix forest.old.base) }
    ensures done { IfOk result (λ k. k ≡ 0 → IsLegal forest.new Done) }
{
    phase_under(rt, alloc, forest, workers, &Sharing::usual(gate))
}

/// [`phase`] with a sharing, which says how many items are worth threads.
pub fn phase_under<R: Threads + Sync, G: Gate>(
    rt: &R,
    alloc: Global,
    forest: &mut Forest,
    workers: u32,
    sharing: &Sharing<'_, G>,
) -> Result<u32, OutOfMemory>
    requires some { 1 ≤ workers }
    requires few { workers ≤ max_workers }
    requires rested { IsRested forest.old }
    ensures legal { LeadsTo forest.old forest.new }
    ensures matched { StaysMatched forest.old forest.new }
    ensures rested { IfOk result (λ _. IsRested forest.new) }
    ensures growth { IfOk result (λ k. length forest.new.base ≡ length forest.old.base + k) }
    ensures maximum { IfOk result (λ k. (k ≡ 0) ↔ IsMaximum forest.old.matrix forest.old.base) }
    ensures done { IfOk result (λ k. k ≡ 0 → IsLegal forest.new Done) }
{
    if forest.claims().is_empty() && !can_grow(forest.pattern(), forest.base()) {
        return Ok(0);
    }
    grow(rt, alloc, forest, workers, sharing)?;
    if forest.leaves().is_empty() {
        return Ok(0);
    }
    augment(rt, alloc, forest, workers, sharing)
}
