//! The exchange of all paths of a phase.

ghost use Rattle.std.specs.Prelude.{◌≡◌, ◌+◌, ◌≤◌, [], length, IfOk, IsTrue, OnOk};
ghost use Rattle.bip_defs.specs.Forest.{IsRested, IsSettled};
ghost use Rattle.bip_defs.specs.Matching.{Covers};
ghost use Rattle.forest_core.specs.Events.{AreFlipped};
ghost use Rattle.forest_core.specs.Exchanged.{AreExchanged};
ghost use Rattle.forest_core.specs.Growing.{LeadsOn};
ghost use Rattle.sp_ids.specs.Limits.{max_workers};
ghost use Rattle.tree_graft.specs.Counts.{AreKeptIf, FreesFew};
ghost use Rattle.tree_graft.specs.Phases.{StaysMatched};

use crate::switches::trees_stay;
use bip_graph::Mates;
use forest_core::Forest;
use level_sharing::Sharing;
use sp_ids::OutOfMemory;
use sp_ports::Gate;
use std::alloc::Global;
use std::thread::Threads;
use tree_augment::{augment_under, open};

/// Exchanges the path of each root with a leaf, by workers at once, and then keeps the trees
/// without a leaf, where fewer than five rows are freed for each column in them, or frees all rows.
/// Gives the number of these paths. Returns `OutOfMemory` if it cannot allocate a board of mates;
/// the forest is then as it was.
pub fn augment<R: Threads + Sync, G: Gate>(
    rt: &R,
    alloc: Global,
    forest: &mut Forest,
    workers: u32,
    sharing: &Sharing<'_, G>,
) -> Result<u32, OutOfMemory>
    requires workers { (1 ≤ workers) × (workers ≤ max_workers) }
    requires flipped { forest.old.flipped ≡ [] }
    requires settled { IsSettled forest.old }
    ensures leads { LeadsOn forest.old forest.new }
    ensures matched { StaysMatched forest.old forest.new }
    ensures rested { OnOk result (IsRested forest.new) }
    ensures paths { IfOk result (λ k. k ≡ length forest.old.leaves) }
    ensures growth { IfOk result (λ k. length forest.new.base ≡ length forest.old.base + k) }
    ensures claims { OnOk result (AreKeptIf (FreesFew forest.old) forest.old forest.new) }
{
    let before = forest.base().size();
    let keeps = trees_stay(forest);
    let mates = exchanged_mates(rt, alloc, forest, workers, sharing)?;
    forest.adopt(mates);
    renew(forest, keeps);
    Ok(forest.base().size() - before)
}

// The mates of the base matching with the path of each root with a leaf exchanged.
fn exchanged_mates<R: Threads + Sync, G: Gate>(
    rt: &R,
    alloc: Global,
    forest: &Forest,
    workers: u32,
    sharing: &Sharing<'_, G>,
) -> Result<Mates, OutOfMemory>
    requires workers { (1 ≤ workers) × (workers ≤ max_workers) }
    requires flipped { forest.now.flipped ≡ [] }
    ensures { IfOk result (λ mates. AreExchanged forest.now mates) }
{
    let (board, mut seats) = open(rt, alloc, forest, workers, sharing.worth_threads)?;
    augment_under(rt, forest, &board, seats.as_mut_slice(), sharing);
    match board.close(alloc, seats) {
        Ok(mates) => Ok(mates),
        Err(_back) => Err(OutOfMemory),
    }
}

// Makes the current matching the base, and keeps the trees without a leaf or none.
fn renew(forest: &mut Forest, keeps: bool)
    requires flipped { AreFlipped forest.old }
    requires settled { IsSettled forest.old }
    ensures leads { LeadsOn forest.old forest.new }
    ensures matrix { forest.new.matrix ≡ forest.old.matrix }
    ensures covered { Covers forest.old.base forest.new.base }
    ensures rested { IsRested forest.new }
    ensures growth { length forest.new.base ≡ length forest.old.base + length forest.old.flipped }
    ensures claims { AreKeptIf (IsTrue keeps) forest.old forest.new }
{
    if keeps {
        forest.graft();
    } else {
        forest.rebuild();
    }
}
