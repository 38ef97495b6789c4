//! One level of the search, from the frontier down.

ghost use Rattle.std.specs.Prelude.{◌≡◌, ℕ, List, OnOk};
ghost use Rattle.bip_defs.specs.Forest.{InForest, IsSettled, grown_by};
ghost use Rattle.bip_defs.specs.Lists.{Among};
ghost use Rattle.forest_core.specs.Events.{Runs};
ghost use Rattle.level_sharing.specs.Agreement.{Agree, IsSized};
ghost use Rattle.level_sharing.specs.Growth.{AreSearched, ShowsGrown, fresh_events, grown};
ghost use Rattle.level_sharing.specs.LevelWork.{AreLegal};
ghost use Rattle.level_sharing.specs.Shares.{KeepToColumns};
ghost use Rattle.sp_ids.specs.Events.{claims_then_wins};

use crate::search::TopDownSearch;
use claim_words::{ClaimBoard, Worker};
use forest_core::{Forest, new_pairs_run};
use level_sharing::{Sharing, Work, share, share_level};
use sp_ids::{Col, OutOfMemory};
use sp_ports::Gate;
use std::thread::Threads;

/// Each worker goes through its share of the frontier: from each column whose root has no leaf yet
/// it claims the rows that nobody holds, and wins the root for the first of them that has no base
/// mate.
///
/// Of w workers, the worker i has the places from `i * l / w` up to `(i + 1) * l / w` of a frontier
/// of l columns; it calls `gate.arrive(i)` once, whether its share is empty or not. Workers run at
/// once if there is enough to do (`share_work`) and threads can be started; if a thread cannot be
/// started, the result is the same. Returns `OutOfMemory` if a fresh list cannot grow: what is listed
/// then stands, and the level is not done. Memory: 8 bytes for each fresh claim and win, and 8 KiB
/// of the stack for each worker. Work: one look at each entry of the frontier's columns, and one
/// more look and two exchanges at most for each row that nobody is seen to hold.
///
/// The search is the top-down step of Azad, Buluç and Pothen, Computing maximum cardinality
/// matchings in parallel on bipartite graphs via tree-grafting, 2017.
pub fn top_down<R: Threads + Sync, G: Gate>(
    rt: &R,
    forest: &Forest,
    board: &ClaimBoard,
    frontier: &[Col],
    workers: &mut [Worker],
    gate: &G,
) -> Result<(), OutOfMemory>
    requires agree { Agree board.now workers.old forest.now.claims forest.now.leaves }
    requires sized { IsSized forest.now board.now }
    requires settled { IsSettled forest.now }
    requires inside { (c : ℕ) → Among c frontier.now → InForest forest.now c }
    ensures legal { Runs forest.entry.now (fresh_events workers.new)
        (grown forest.entry.now workers.new) }
    ensures words { ShowsGrown board.entry.now forest.entry.now workers.new }
    ensures shares { KeepToColumns frontier.entry.now workers.new }
    ensures settled { OnOk result (IsSettled (grown forest.entry.now workers.new)) }
    ensures frontier { OnOk result (AreSearched forest.entry.now workers.new frontier.entry.now) }
{
    top_down_under(rt, forest, board, frontier, workers, &Sharing::usual(gate))
}

/// [`top_down`], with the number of columns that are worth threads in `sharing`.
pub fn top_down_under<R: Threads + Sync, G: Gate>(
    rt: &R,
    forest: &Forest,
    board: &ClaimBoard,
    frontier: &[Col],
    workers: &mut [Worker],
    sharing: &Sharing<'_, G>,
) -> Result<(), OutOfMemory>
    requires agree { Agree board.now workers.old forest.now.claims forest.now.leaves }
    requires sized { IsSized forest.now board.now }
    requires settled { IsSettled forest.now }
    requires inside { (c : ℕ) → Among c frontier.now → InForest forest.now c }
    ensures legal { Runs forest.entry.now (fresh_events workers.new)
        (grown forest.entry.now workers.new) }
    ensures words { ShowsGrown board.entry.now forest.entry.now workers.new }
    ensures shares { KeepToColumns frontier.entry.now workers.new }
    ensures settled { OnOk result (IsSettled (grown forest.entry.now workers.new)) }
    ensures frontier { OnOk result (AreSearched forest.entry.now workers.new frontier.entry.now) }
{
    let down = TopDown::new(forest, board, frontier, workers.len());
    share_level(rt, sharing, board, &down, frontier.len(), workers)
}

// What each worker does in a level.
#[derive(Drop)]
struct TopDown<'a, 'p> {
    forest: &'a Forest<'p>,
    board: &'a ClaimBoard,
    frontier: &'a [Col],
    workers: usize,
}

impl<'a, 'p> TopDown<'a, 'p> {
    // A level that so many workers share. Legal claims and wins are legal events on its forest.
    fn new(
        forest: &'a Forest<'p>,
        board: &'a ClaimBoard,
        frontier: &'a [Col],
        workers: usize,
    ) -> TopDown<'a, 'p>
        ensures level { result ≡ record {
          forest = forest.entry;
          board = board.entry;
          frontier = frontier.entry;
          workers = workers;
        } }
        ensures runs { (claims wins : List (ℕ × ℕ)) → AreLegal forest.now claims wins
            → Runs forest.now (claims_then_wins claims wins) (grown_by forest.now claims wins) }
    {
        new_pairs_run();
        TopDown {
            forest,
            board,
            frontier,
            workers,
        }
    }
}

impl<'a, 'p> Work<Worker, OutOfMemory> for TopDown<'a, 'p> {
    ghost use Rattle.frontier_levels.specs.TopDownSearch.{IsColumnSearch};
    ghost use Rattle.level_sharing.specs.Progress.{GoesOn, IsAtStart, IsThroughColumns};
    ghost use Rattle.level_sharing.specs.Shares.{share_of, shares_by_columns};

    ghost can_begin = { λ t i w. IsColumnSearch t.forest.now t.board.now t.frontier.now
        × IsAtStart t.forest.now t.board.now t.workers i w };

    ghost leaves = { λ t i v w.
        GoesOn t.forest.now (shares_by_columns t.frontier.now t.workers i) v w };

    ghost completes = { λ t i v w.
        IsThroughColumns t.forest.now (share_of t.frontier.now t.workers i) w };

    fn run(&self, number: u32, worker: &mut Worker) -> Result<(), OutOfMemory> {
        let share = share(self.frontier, self.workers, number as usize);
        let search = TopDownSearch {
            forest: self.forest,
            board: self.board,
            share,
        };
        search.run(worker)
    }
}
