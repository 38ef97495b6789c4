//! One level of the search, from free rows up.

ghost use Rattle.std.specs.Prelude.{ℕ, ◌<◌, OnOk};
ghost use Rattle.bip_defs.specs.Forest.{IsSettled};
ghost use Rattle.bip_defs.specs.Lists.{Among};
ghost use Rattle.forest_core.specs.Events.{Runs};
ghost use Rattle.level_sharing.specs.Agreement.{Agree, IsSized};
ghost use Rattle.level_sharing.specs.Growth.{AreAttached, ShowsGrown, fresh_events, grown};
ghost use Rattle.level_sharing.specs.Shares.{KeepToRows};

use crate::search::BottomUpSearch;
use claim_words::{ClaimBoard, Worker};
use forest_core::Forest;
use level_sharing::{Sharing, share_level};
use sp_ids::{OutOfMemory, Row};
use sp_ports::Gate;
use std::thread::Threads;

/// Each worker goes through its share of the free rows: among a row's columns it looks for one that
/// is in the forest and whose root has no leaf yet, claims the row for this column, and wins the
/// root for the row where that has no base mate.
///
/// Of w workers, the worker i has the places from `i * l / w` up to `(i + 1) * l / w` of a list of
/// l free rows; it calls `gate.arrive(i)` once, whether its share is empty or not. Workers run at
/// once if there is enough to do (`share_work`) and threads can be started; if a thread cannot be
/// started, the result is the same. A row that is claimed already, or is listed twice, is not claimed again.
/// Returns `OutOfMemory` if a fresh list cannot grow: what is listed then stands, and the level
/// is not done. Memory: 8 bytes for each fresh claim and win, and 8 KiB of the stack for each
/// worker. Work: at most two looks at each entry of the free rows, and two exchanges for each of
/// these rows.
///
/// The search is the bottom-up step of Azad, Buluç and Pothen, Computing maximum cardinality
/// matchings in parallel on bipartite graphs via tree-grafting, 2017.
pub fn attach<R: Threads + Sync, G: Gate>(
    rt: &R,
    forest: &Forest,
    board: &ClaimBoard,
    free: &[Row],
    workers: &mut [Worker],
    gate: &G,
) -> Result<(), OutOfMemory>
    requires agree { Agree board.now workers.old forest.now.claims forest.now.leaves }
    requires sized { IsSized forest.now board.now }
    requires settled { IsSettled forest.now }
    requires rows { (r : ℕ) → Among r free.now → r < forest.now.matrix.rows }
    ensures legal { Runs forest.entry.now (fresh_events workers.new)
        (grown forest.entry.now workers.new) }
    ensures words { ShowsGrown board.entry.now forest.entry.now workers.new }
    ensures shares { KeepToRows free.entry.now workers.new }
    ensures settled { OnOk result (IsSettled (grown forest.entry.now workers.new)) }
    ensures rows { OnOk result (AreAttached forest.entry.now workers.new free.entry.now) }
{
    attach_under(rt, forest, board, free, workers, &Sharing::usual(gate))
}

/// [`attach`], with the number of rows that are worth threads in `sharing`.
pub fn attach_under<R: Threads + Sync, G: Gate>(
    rt: &R,
    forest: &Forest,
    board: &ClaimBoard,
    free: &[Row],
    workers: &mut [Worker],
    sharing: &Sharing<'_, G>,
) -> Result<(), OutOfMemory>
    requires agree { Agree board.now workers.old forest.now.claims forest.now.leaves }
    requires sized { IsSized forest.now board.now }
    requires settled { IsSettled forest.now }
    requires rows { (r : ℕ) → Among r free.now → r < forest.now.matrix.rows }
    ensures legal { Runs forest.entry.now (fresh_events workers.new)
        (grown forest.entry.now workers.new) }
    ensures words { ShowsGrown board.entry.now forest.entry.now workers.new }
    ensures shares { KeepToRows free.entry.now workers.new }
    ensures settled { OnOk result (IsSettled (grown forest.entry.now workers.new)) }
    ensures rows { OnOk result (AreAttached forest.entry.now workers.new free.entry.now) }
{
    let search = BottomUpSearch::new(forest, board, free, workers.len());
    share_level(rt, sharing, board, &search, free.len(), workers)
}
