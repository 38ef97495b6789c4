//! One worker's search in a level from the frontier down.

ghost use Rattle.std.specs.Prelude.{◌≡◌, ℕ, ◌<◌, OnOk};
ghost use Rattle.arrayvec.specs.ArrayVec.{array_vec_len};
ghost use Rattle.bip_defs.specs.Lists.{Among};
ghost use Rattle.bip_defs.specs.Matrix.{IsEntry, column};
ghost use Rattle.frontier_levels.specs.TopDownSearch.{Advances, HasGatheredIn, IsColumnSearch, IsCoveredColumn, StaysCovered};
ghost use Rattle.level_sharing.specs.Candidates.{IsCovered, IsRootFor};
ghost use Rattle.level_sharing.specs.Progress.{HasSettled, IsThroughColumns};

use arrayvec::ArrayVec;
use claim_words::{ClaimBoard, Worker};
use forest_core::Forest;
use level_sharing::{Candidate, claim_all, finds_holder, finds_leaf};
use sp_ids::{Col, OutOfMemory, Row};

/// A worker's search through its share of the frontier. It gathers the rows that it may claim, with
/// looks alone, and claims them once there are 512, or no column is left.
#[derive(Drop)]
pub(crate) struct TopDownSearch<'a, 'p> {
    pub forest: &'a Forest<'p>,
    pub board: &'a ClaimBoard,
    pub share: &'a [Col],
}

impl<'a, 'p> TopDownSearch<'a, 'p> {
    /// The worker goes through all its columns.
    pub fn run(&self, worker: &mut Worker) -> Result<(), OutOfMemory>
        requires search { IsColumnSearch self.now.forest.now self.now.board.now self.now.share.now }
        requires seat { worker.old.seat.board ≡ self.now.board.now }
        requires settled { HasSettled self.now.forest.now worker.old }
        ensures progress { Advances self.now worker.old worker.new }
        ensures through { OnOk result
            (IsThroughColumns self.now.forest.now self.now.share.now worker.new) }
    {
        let mut candidates = ArrayVec::new();
        for col in self.share {
            self.gather(*col, worker, &mut candidates)?;
        }
        claim_all(self.board, worker, candidates.as_slice())
    }

    // It gathers the rows of one column, unless the column's root has a leaf.
    fn gather(
        &self,
        col: Col,
        worker: &mut Worker,
        candidates: &mut ArrayVec<Candidate, 512>,
    ) -> Result<(), OutOfMemory>
        requires search { IsColumnSearch self.now.forest.now self.now.board.now self.now.share.now }
        requires col { Among col self.now.share.now }
        requires gathered { HasGatheredIn self.now worker.old candidates.old.items }
        ensures progress { Advances self.now worker.old worker.new }
        ensures gathered { OnOk result (HasGatheredIn self.now worker.new candidates.new.items) }
        ensures stays { OnOk result
            (StaysCovered worker.old candidates.old.items worker.new candidates.new.items) }
        ensures column { OnOk result
            (IsCoveredColumn self.now.forest.now worker.new candidates.new.items col) }
    {
        let root = self.forest.root(col);
        if finds_leaf(self.board, worker, root) {
            return Ok(());
        }
        self.gather_rows(col, root, worker, candidates)
    }

    // It gathers the rows of a column whose root this is.
    fn gather_rows(
        &self,
        col: Col,
        root: Col,
        worker: &mut Worker,
        candidates: &mut ArrayVec<Candidate, 512>,
    ) -> Result<(), OutOfMemory>
        requires search { IsColumnSearch self.now.forest.now self.now.board.now self.now.share.now }
        requires col { Among col self.now.share.now }
        requires root { IsRootFor self.now.forest.now col root }
        requires gathered { HasGatheredIn self.now worker.old candidates.old.items }
        ensures progress { Advances self.now worker.old worker.new }
        ensures gathered { OnOk result (HasGatheredIn self.now worker.new candidates.new.items) }
        ensures stays { OnOk result
            (StaysCovered worker.old candidates.old.items worker.new candidates.new.items) }
        ensures rows { OnOk result ((r : ℕ) → Among r (column self.now.forest.now.matrix col)
            → IsCovered worker.new candidates.new.items r root) }
    {
        for row in self.forest.pattern().rows_of(col) {
            self.gather_row(*row, col, root, worker, candidates)?;
        }
        Ok(())
    }

    // It gathers a row, unless the row is seen to be held.
    fn gather_row(
        &self,
        row: Row,
        col: Col,
        root: Col,
        worker: &mut Worker,
        candidates: &mut ArrayVec<Candidate, 512>,
    ) -> Result<(), OutOfMemory>
        requires search { IsColumnSearch self.now.forest.now self.now.board.now self.now.share.now }
        requires col { Among col self.now.share.now }
        requires entry { IsEntry self.now.forest.now.matrix row col }
        requires root { IsRootFor self.now.forest.now col root }
        requires gathered { HasGatheredIn self.now worker.old candidates.old.items }
        ensures progress { Advances self.now worker.old worker.new }
        ensures gathered { OnOk result (HasGatheredIn self.now worker.new candidates.new.items) }
        ensures stays { OnOk result
            (StaysCovered worker.old candidates.old.items worker.new candidates.new.items) }
        ensures row { OnOk result (IsCovered worker.new candidates.new.items row root) }
    {
        if finds_holder(self.board, worker, row) {
            return Ok(());
        }
        self.make_room(worker, candidates)?;
        let free = !self.forest.is_matched(row);
        candidates.push(Candidate {
            row,
            col,
            root,
            free,
        });
        Ok(())
    }

    // It claims the candidates where no more of them fit.
    fn make_room(
        &self,
        worker: &mut Worker,
        candidates: &mut ArrayVec<Candidate, 512>,
    ) -> Result<(), OutOfMemory>
        requires gathered { HasGatheredIn self.now worker.old candidates.old.items }
        ensures progress { Advances self.now worker.old worker.new }
        ensures gathered { OnOk result (HasGatheredIn self.now worker.new candidates.new.items) }
        ensures stays { OnOk result
            (StaysCovered worker.old candidates.old.items worker.new candidates.new.items) }
        ensures room { OnOk result (array_vec_len candidates.new < 512) }
    {
        if candidates.is_full() {
            claim_all(self.board, worker, candidates.as_slice())?;
            candidates.clear();
        }
        Ok(())
    }
}
