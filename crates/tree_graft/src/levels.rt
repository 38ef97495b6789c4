//! The search of a phase, level by level, by workers who share a board of words.

ghost use Rattle.std.specs.Prelude.{◌≡◌, ℕ, ◌≤◌, false, IfOk, OnOk};
ghost use Rattle.bip_defs.specs.Forest.{InForest, IsRested, IsSettled};
ghost use Rattle.bip_defs.specs.Lists.{Among};
ghost use Rattle.bip_defs.specs.Matching.{cols_of};
ghost use Rattle.bip_defs.specs.Matrix.{IsEntry};
ghost use Rattle.bip_graph.specs.Matching.{IsMatchingOf};
ghost use Rattle.forest_core.specs.Events.{Runs};
ghost use Rattle.forest_core.specs.Growing.{GrowsOn};
ghost use Rattle.level_sharing.specs.Growth.{fresh_events, grown};
ghost use Rattle.sp_ids.specs.Limits.{max_workers};
ghost use Rattle.tree_graft.specs.PhaseSearch.{IsAtLevel, IsAtNextLevel, IsDone, IsReady, IsScanned};

use crate::frontiers::{mates_of, unclaimed_rows, unmatched_columns};
use crate::switches::goes_down_from;
use bip_graph::Matching;
use bottom_up::attach_under;
use claim_words::{ClaimBoard, Worker};
use forest_core::Forest;
use frontier_levels::{absorb, open, top_down_under};
use level_sharing::Sharing;
use sp_ids::{Col, OutOfMemory, Row};
use sp_pattern::Pattern;
use sp_ports::Gate;
use std::alloc::Global;
use std::thread::Threads;

/// Whether a tree can grow at all: whether a column without a mate has an entry. Takes no memory.
///
/// Work: one look at each column.
pub fn can_grow(pattern: &Pattern, matching: &Matching) -> bool
    requires { IsMatchingOf pattern.now matching.now }
    ensures { result ≡ false
        → (r c : ℕ) → IsEntry pattern.now r c → Among c (cols_of matching.now.pairs) }
{
    for number in 0..pattern.cols() {
        let col = Col(number);
        if matching.row_of(col).is_none() && !pattern.rows_of(col).is_empty() {
            return true;
        }
    }
    false
}

/// Lets the trees grow until each has a leaf or has nothing left to claim, and closes the board on
/// which the workers did so.
///
/// Returns `OutOfMemory` if it cannot allocate the board, the lists of columns and rows or a
/// worker's list; what was claimed and won until then stands in the forest. The lists are taken
/// once, with room for all columns and all rows.
pub fn grow<R: Threads + Sync, G: Gate>(
    rt: &R,
    alloc: Global,
    forest: &mut Forest,
    workers: u32,
    sharing: &Sharing<'_, G>,
) -> Result<(), OutOfMemory>
    requires workers { (1 ≤ workers) × (workers ≤ max_workers) }
    requires rested { IsRested forest.old }
    ensures grown { GrowsOn forest.old forest.new }
    ensures settled { OnOk result (IsSettled forest.new) }
    ensures scanned { OnOk result ((c : ℕ) → InForest forest.new c → IsScanned forest.new c) }
{
    let mut search = PhaseSearch::begin(rt, alloc, forest, workers, sharing.worth_threads)?;
    search.run(rt, forest, sharing)?;
    let PhaseSearch { board, workers, .. } = search;
    board.close_with(alloc, workers)?;
    Ok(())
}

/// The search of one phase: the workers and the board of words that they share, and the columns or
/// the rows from which a level starts.
#[derive(Drop)]
pub(crate) struct PhaseSearch {
    pub board: ClaimBoard,
    pub workers: Vec<Worker>,
    pub frontier: Vec<Col>,
    pub free: Vec<Row>,
}

impl PhaseSearch {
    // A search that has made no level yet, by so many workers.
    fn begin<R: Threads + Sync>(
        rt: &R,
        alloc: Global,
        forest: &Forest,
        workers: u32,
        worth_threads: u32,
    ) -> Result<PhaseSearch, OutOfMemory>
        requires workers { (1 ≤ workers) × (workers ≤ max_workers) }
        requires settled { IsSettled forest.now }
        ensures { IfOk result (λ search. IsReady search.board search.workers.items forest.now) }
    {
        let frontier = Vec::with_capacity(alloc, forest.pattern().cols() as usize)?;
        let free = Vec::with_capacity(alloc, forest.pattern().rows() as usize)?;
        let (board, workers) = open(rt, alloc, forest, workers, worth_threads)?;
        Ok(PhaseSearch {
            board,
            workers,
            frontier,
            free,
        })
    }

    // Levels, one after the other, until the frontier is empty.
    fn run<R: Threads + Sync, G: Gate>(
        &mut self,
        rt: &R,
        forest: &mut Forest,
        sharing: &Sharing<'_, G>,
    ) -> Result<(), OutOfMemory>
        requires { IsReady self.old.board self.old.workers.items forest.old }
        ensures grown { GrowsOn forest.old forest.new }
        ensures ready { OnOk result
            (IsReady self.new.board self.new.workers.items forest.new) }
        ensures scanned { OnOk result ((c : ℕ) → InForest forest.new c → IsScanned forest.new c) }
    {
        self.first_frontier(rt, forest, sharing)?;
        while !self.frontier.as_slice().is_empty() {
            self.level(rt, forest, sharing)?;
        }
        Ok(())
    }

    // The first frontier: all columns without a base mate, or what the unclaimed rows bring where
    // there are trees already.
    fn first_frontier<R: Threads + Sync, G: Gate>(
        &mut self,
        rt: &R,
        forest: &mut Forest,
        sharing: &Sharing<'_, G>,
    ) -> Result<(), OutOfMemory>
        requires { IsReady self.old.board self.old.workers.items forest.old }
        ensures grown { GrowsOn forest.old forest.new }
        ensures level { OnOk result (IsAtLevel self.new forest.new) }
    {
        if forest.claims().is_empty() {
            unmatched_columns(forest, &mut self.frontier)
        } else {
            self.level_up(rt, forest, sharing)
        }
    }

    // One level, down or up.
    fn level<R: Threads + Sync, G: Gate>(
        &mut self,
        rt: &R,
        forest: &mut Forest,
        sharing: &Sharing<'_, G>,
    ) -> Result<(), OutOfMemory>
        requires { IsAtLevel self.old forest.old }
        ensures grown { GrowsOn forest.old forest.new }
        ensures next { OnOk result (IsAtNextLevel forest.old self.new forest.new) }
    {
        if goes_down_from(forest, self.frontier.as_slice()) {
            self.level_down(rt, forest, sharing)
        } else {
            self.level_up(rt, forest, sharing)
        }
    }

    // One level from the frontier down.
    fn level_down<R: Threads + Sync, G: Gate>(
        &mut self,
        rt: &R,
        forest: &mut Forest,
        sharing: &Sharing<'_, G>,
    ) -> Result<(), OutOfMemory>
        requires { IsAtLevel self.old forest.old }
        ensures grown { GrowsOn forest.old forest.new }
        ensures next { OnOk result (IsAtNextLevel forest.old self.new forest.new) }
    {
        let frontier = self.frontier.as_slice();
        let workers = self.workers.as_mut_slice();
        let done = top_down_under(rt, forest, &self.board, frontier, workers, sharing);
        self.end_level(forest, done)
    }

    // One level from all unclaimed rows up.
    fn level_up<R: Threads + Sync, G: Gate>(
        &mut self,
        rt: &R,
        forest: &mut Forest,
        sharing: &Sharing<'_, G>,
    ) -> Result<(), OutOfMemory>
        requires { IsReady self.old.board self.old.workers.items forest.old }
        ensures grown { GrowsOn forest.old forest.new }
        ensures next { OnOk result (IsAtNextLevel forest.old self.new forest.new) }
    {
        unclaimed_rows(forest, &mut self.free)?;
        let free = self.free.as_slice();
        let workers = self.workers.as_mut_slice();
        let done = attach_under(rt, forest, &self.board, free, workers, sharing);
        self.end_level(forest, done)
    }

    // Ends a level that is done, or ended early: makes what the workers claimed and won in it on
    // the forest, and puts the base mates of the rows that were claimed in place of the frontier,
    // but for those whose root has a leaf.
    fn end_level(
        &mut self,
        forest: &mut Forest,
        done: Result<(), OutOfMemory>,
    ) -> Result<(), OutOfMemory>
        requires legal { Runs forest.old (fresh_events self.old.workers.items)
            (grown forest.old self.old.workers.items) }
        requires done { OnOk done (IsDone self.old.board self.old.workers.items forest.old) }
        ensures grown { GrowsOn forest.old forest.new }
        ensures next { OnOk result (IsAtNextLevel forest.old self.new forest.new) }
    {
        let before = forest.claims().len();
        absorb(forest, self.workers.as_mut_slice());
        done?;
        mates_of(forest, &forest.claims()[before..], &mut self.frontier)
    }
}
