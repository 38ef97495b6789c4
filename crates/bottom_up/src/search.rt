//! What one worker does in a level.

ghost use Rattle.std.specs.Prelude.{◌≡◌, ℕ, ◌<◌, List, false, true, IfNone, IfSome, OnOk};
ghost use Rattle.bip_defs.specs.Forest.{InForest, grown_by};
ghost use Rattle.bip_defs.specs.Lists.{Among};
ghost use Rattle.bip_defs.specs.Matrix.{cols};
ghost use Rattle.forest_core.specs.Events.{Runs};
ghost use Rattle.level_sharing.specs.LevelWork.{AreLegal};
ghost use Rattle.sp_ids.specs.Events.{claims_then_wins};
ghost use Rattle.arrayvec.specs.ArrayVec.{array_vec_len};
ghost use Rattle.bottom_up.specs.Candidates.{Advances, HasGatheredRows, IsCandidate, IsCoveredRow, RowsStayCovered, StaysThrough};
ghost use Rattle.level_sharing.specs.Candidates.{IsRootFor};
ghost use Rattle.bottom_up.specs.BottomUpSearch.{IsRowSearch};
ghost use Rattle.level_sharing.specs.Progress.{GoesOn, HasSettled, IsThroughRow, IsThroughRows, KnowsWon};
ghost use Rattle.level_sharing.specs.Shares.{IsOwn, Share};

use arrayvec::ArrayVec;
use claim_words::{ClaimBoard, Worker};
use forest_core::{Forest, new_pairs_run};
use level_sharing::{Candidate, Work, claim_row, finds_leaf, share};
use sp_ids::{Col, OutOfMemory, Row};

/// The level's forest, board and free rows, and how many workers share them.
#[derive(Clone, Copy)]
pub(crate) struct BottomUpSearch<'a, 'p> {
    pub(crate) forest: &'a Forest<'p>,
    pub(crate) board: &'a ClaimBoard,
    pub(crate) free: &'a [Row],
    pub(crate) workers: usize,
    ghost over: { IsRowSearch forest.now board.now free.now },
}

impl<'a, 'p> Work<Worker, OutOfMemory> for BottomUpSearch<'a, 'p> {
    ghost use Rattle.level_sharing.specs.Progress.{GoesOn, IsAtStart, IsThroughRows};
    ghost use Rattle.level_sharing.specs.Shares.{share_of, shares_of_rows};

    ghost can_begin = { λ work number v.
        IsAtStart work.forest.now work.board.now work.workers number v };

    ghost leaves = { λ work number v w.
        GoesOn work.forest.now (shares_of_rows work.free.now work.workers number) v w };

    ghost completes = { λ work number v w.
        IsThroughRows work.forest.now (share_of work.free.now work.workers number) w };

    fn run(&self, number: u32, worker: &mut Worker) -> Result<(), OutOfMemory> {
        let own = BottomUpSearch {
            forest: self.forest,
            board: self.board,
            free: share(self.free, self.workers, number as usize),
            workers: self.workers,
        };
        own.go_through(worker)
    }
}

impl<'a, 'p> BottomUpSearch<'a, 'p> {
    /// A level that so many workers share. Legal claims and wins are legal events on its forest.
    pub(crate) fn new(
        forest: &'a Forest<'p>,
        board: &'a ClaimBoard,
        free: &'a [Row],
        workers: usize,
    ) -> BottomUpSearch<'a, 'p>
        requires over { IsRowSearch forest.now board.now free.now }
        ensures forest { result.forest.now ≡ forest.now }
        ensures board { result.board.now ≡ board.now }
        ensures free { result.free.now ≡ free.now }
        ensures workers { result.workers ≡ workers }
        ensures runs { (claims wins : List (ℕ × ℕ)) → AreLegal forest.now claims wins
            → Runs forest.now (claims_then_wins claims wins) (grown_by forest.now claims wins) }
    {
        new_pairs_run();
        BottomUpSearch {
            forest,
            board,
            free,
            workers,
        }
    }

    // The worker looks for a column for each of these rows. It gathers the rows that it may claim,
    // with looks alone, and claims them once there are 512, or no row is left.
    fn go_through(&self, worker: &mut Worker) -> Result<(), OutOfMemory>
        requires seat { worker.old.seat.board ≡ self.now.board.now }
        requires settled { HasSettled self.now.forest.now worker.old }
        ensures progress { Advances self.now.forest.now self.now.free.now worker.old worker.new }
        ensures through { OnOk result
            (IsThroughRows self.now.forest.now self.now.free.now worker.new) }
    {
        let mut candidates = ArrayVec::new();
        for row in self.free {
            self.gather(*row, worker, &mut candidates)?;
        }
        self.claim_each(candidates.as_slice(), worker)
    }

    // It gathers one of the rows, unless it finds no column that may claim it.
    fn gather(
        &self,
        row: Row,
        worker: &mut Worker,
        candidates: &mut ArrayVec<Candidate, 512>,
    ) -> Result<(), OutOfMemory>
        requires row { Among row self.now.free.now }
        requires gathered { HasGatheredRows self.now.forest.now self.now.board.now
            self.now.free.now worker.old candidates.old.items }
        ensures progress { Advances self.now.forest.now self.now.free.now worker.old worker.new }
        ensures gathered { OnOk result (HasGatheredRows self.now.forest.now self.now.board.now
            self.now.free.now worker.new candidates.new.items) }
        ensures stays { OnOk result (RowsStayCovered self.now.forest.now worker.old
            candidates.old.items worker.new candidates.new.items) }
        ensures row { OnOk result
            (IsCoveredRow self.now.forest.now worker.new candidates.new.items row) }
    {
        match self.find(row, worker) {
            None => Ok(()),
            Some(candidate) => {
                self.make_room(worker, candidates)?;
                candidates.push(candidate);
                Ok(())
            }
        }
    }

    // It claims the candidates where no more of them fit.
    fn make_room(
        &self,
        worker: &mut Worker,
        candidates: &mut ArrayVec<Candidate, 512>,
    ) -> Result<(), OutOfMemory>
        requires gathered { HasGatheredRows self.now.forest.now self.now.board.now
            self.now.free.now worker.old candidates.old.items }
        ensures progress { Advances self.now.forest.now self.now.free.now worker.old worker.new }
        ensures gathered { OnOk result (HasGatheredRows self.now.forest.now self.now.board.now
            self.now.free.now worker.new candidates.new.items) }
        ensures stays { OnOk result (RowsStayCovered self.now.forest.now worker.old
            candidates.old.items worker.new candidates.new.items) }
        ensures room { OnOk result (array_vec_len candidates.new < 512) }
    {
        if candidates.is_full() {
            self.claim_each(candidates.as_slice(), worker)?;
            candidates.clear();
        }
        Ok(())
    }

    // It claims the candidates, in their order, each for another column where its root has a leaf
    // by then.
    fn claim_each(&self, candidates: &[Candidate], worker: &mut Worker) -> Result<(), OutOfMemory>
        requires gathered { HasGatheredRows self.now.forest.now self.now.board.now
            self.now.free.now worker.old candidates.now }
        ensures progress { Advances self.now.forest.now self.now.free.now worker.old worker.new }
        ensures seat { worker.new.seat.board ≡ self.now.board.now }
        ensures settled { OnOk result (HasSettled self.now.forest.now worker.new) }
        ensures through { OnOk result ((r : ℕ)
            → IsCoveredRow self.now.forest.now worker.old candidates.now r
            → IsThroughRow self.now.forest.now worker.new r) }
    {
        for candidate in candidates {
            self.claim(*candidate, worker)?;
        }
        Ok(())
    }

    // It claims a candidate, or its row for another column where its root has a leaf by then.
    fn claim(&self, candidate: Candidate, worker: &mut Worker) -> Result<(), OutOfMemory>
        requires candidate { IsCandidate self.now.forest.now candidate }
        requires seat { worker.old.seat.board ≡ self.now.board.now }
        requires settled { HasSettled self.now.forest.now worker.old }
        ensures progress { (own : Share) → ((c : ℕ) → IsOwn own (candidate.row, c))
            → GoesOn self.now.forest.now own worker.old worker.new }
        ensures stays { StaysThrough self.now.forest.now worker.old worker.new }
        ensures settled { OnOk result (HasSettled self.now.forest.now worker.new) }
        ensures through { OnOk result (IsThroughRow self.now.forest.now worker.new candidate.row) }
    {
        if !finds_leaf(self.board, worker, candidate.root) {
            return self.take(candidate, worker);
        }
        match self.find(candidate.row, worker) {
            Some(other) => self.take(other, worker),
            None => Ok(()),
        }
    }

    // It claims a candidate for its column.
    fn take(&self, candidate: Candidate, worker: &mut Worker) -> Result<(), OutOfMemory>
        requires candidate { IsCandidate self.now.forest.now candidate }
        requires seat { worker.old.seat.board ≡ self.now.board.now }
        requires settled { HasSettled self.now.forest.now worker.old }
        ensures progress { (own : Share) → ((c : ℕ) → IsOwn own (candidate.row, c))
            → GoesOn self.now.forest.now own worker.old worker.new }
        ensures stays { StaysThrough self.now.forest.now worker.old worker.new }
        ensures settled { OnOk result (HasSettled self.now.forest.now worker.new) }
        ensures through { OnOk result (IsThroughRow self.now.forest.now worker.new candidate.row) }
    {
        claim_row(self.board, worker, candidate)?;
        Ok(())
    }

    // The row with the first column of the forest that has an entry in it and in whose root the
    // worker finds no leaf.
    fn find(&self, row: Row, worker: &mut Worker) -> Option<Candidate>
        requires row { row < self.now.forest.now.matrix.rows }
        requires seat { worker.old.seat.board ≡ self.now.board.now }
        requires settled { HasSettled self.now.forest.now worker.old }
        ensures progress { (own : Share) → GoesOn self.now.forest.now own worker.old worker.new }
        ensures stays { StaysThrough self.now.forest.now worker.old worker.new }
        ensures settled { HasSettled self.now.forest.now worker.new }
        ensures of_row { IfSome result (λ x. x.row ≡ row) }
        ensures candidate { IfSome result (λ x. IsCandidate self.now.forest.now x) }
        ensures none { IfNone result (IsThroughRow self.now.forest.now worker.new row) }
    {
        let cols = self.forest.pattern().cols_of(row);
        for col in cols {
            if let Some(root) = self.root_without_leaf(*col, worker) {
                let free = !self.forest.is_matched(row);
                return Some(Candidate {
                    row,
                    col: *col,
                    root,
                    free,
                });
            }
        }
        None
    }

    // The column's root, where the column is in the forest and the worker finds no leaf of the
    // root.
    fn root_without_leaf(&self, col: Col, worker: &mut Worker) -> Option<Col>
        requires col { col < cols self.now.forest.now.matrix }
        requires seat { worker.old.seat.board ≡ self.now.board.now }
        requires settled { HasSettled self.now.forest.now worker.old }
        ensures progress { (own : Share) → GoesOn self.now.forest.now own worker.old worker.new }
        ensures stays { StaysThrough self.now.forest.now worker.old worker.new }
        ensures settled { HasSettled self.now.forest.now worker.new }
        ensures root { IfSome result (λ x. IsRootFor self.now.forest.now col x) }
        ensures none { IfNone result (InForest self.now.forest.now col
            → KnowsWon self.now.forest.now worker.new col) }
    {
        let root = self.forest.root_of(col)?;
        if finds_leaf(self.board, worker, root) {
            return None;
        }
        Some(root)
    }
}
