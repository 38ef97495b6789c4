//! From a search to the next matching.

ghost use Rattle.std.specs.Prelude.{◌≡◌, ℕ, ◌+◌, ◌^◌, ◌<◌, ◌≤◌, true, false, List, length, set, slice_index, IfOk, OnOk};
ghost use Rattle.bip_defs.specs.Lists.{Among, AreDistinct};
ghost use Rattle.bip_defs.specs.Matching.{Covers, cols_of, rows_of};
ghost use Rattle.bip_defs.specs.Matrix.{Place, cols};
ghost use Rattle.bip_defs.specs.Queues.{at, heads};
ghost use Rattle.integer_diagonal.specs.Mated.{IsReady};
ghost use Rattle.integer_diagonal.specs.Amounts.{HasRoom};
ghost use Rattle.integer_diagonal.specs.Duals.{IsAssignment, priced_from};
ghost use Rattle.bip_defs.specs.Bottleneck.{IsFull};
ghost use Rattle.integer_diagonal.specs.SearchTree.{IsRaised};
ghost use Rattle.integer_diagonal.specs.Searches.{CanRise, CanSearch, Extends};
ghost use Rattle.sp_pattern.specs.Weights.{Weighing};

use crate::amount::Amount;
use crate::assignment::Assignment;
use crate::search::DijkstraSearch;
use crate::width::Width;
use bip_graph::Queue;
use sp_ids::{Col, OutOfMemory, Row};
use sp_pattern::{Neighbours, Weights};
use std::alloc::{AllocError, Global};

/// A search, and the augmenting path to the row that it found.
#[derive(Drop)]
pub struct PathSearch<W: Width> {
    pub search: DijkstraSearch<W>,
    pub path: Vec<(Row, Col)>,
}

impl<W: Width> PathSearch<W> {
    /// For the columns of this matrix, or `OutOfMemory` where what it keeps cannot be allocated.
    pub fn new(alloc: Global, weights: &Weights) -> Result<PathSearch<W>, OutOfMemory>
        ensures { IfOk result (IsReady weights.now.matrix) }
    {
        Ok(PathSearch {
            search: DijkstraSearch::new(alloc, weights.rows())?,
            path: Vec::with_capacity(alloc, weights.cols() as usize)?,
        })
    }

    /// Gives the column a mate, at prices that are feasible again, so that no row and no column
    /// loses its mate without a new one. Whether there was a path to an unmatched row: where there
    /// was none, the matrix has no full matching.
    ///
    /// The path is written over what the list had, which has room for it. Answers `AllocError`
    /// where what the search keeps cannot be allocated. Work: one search, and one step for each
    /// column that it came to.
    pub fn extend(
        &mut self,
        weights: &Weights,
        assignment: &mut Assignment<W>,
        root: Col,
    ) -> Result<bool, AllocError>
        requires can { CanSearch weights.now assignment.old root W.limit }
        requires ready { IsReady weights.now.matrix self.old }
        ensures extends { OnOk result (Extends weights.now assignment.old assignment.new) }
        ensures found { IfOk result
            (λ b. b ≡ true → Among root (cols_of assignment.new.matching.pairs)
            × IsReady weights.now.matrix self.new) }
        ensures stuck { IfOk result
            (λ b. b ≡ false → (other : List Place) → ¬ IsFull weights.now.matrix other) }
    {
        let nearest = self.search.find(weights, assignment, root)?;
        if !nearest.exists() {
            return Ok(false);
        }
        let queue = self.search.queue.as_slice();
        raise(
            assignment,
            queue,
            self.search.depths.as_slice(),
            nearest.distance,
        );
        let tree = Queue {
            matching: &assignment.matching,
            columns: queue,
        };
        tree.path_to(Row(nearest.row), nearest.place, &mut self.path);
        assignment.matching.flip(self.path.as_slice());
        self.search.clear();
        Ok(true)
    }
}

// Raises the dual variable of each column that the search has come to, and the price of its mate,
// by how much nearer it is.
fn raise<W: Width>(
    assignment: &mut Assignment<W>,
    queue: &[(u32, u32)],
    depths: &[Amount<W>],
    distance: Amount<W>,
)
    requires { CanRise assignment.old queue.now depths.now distance W.limit }
    ensures raised { (w : Weighing) (top : ℕ)
        → IsRaised (priced_from w top assignment.old) (priced_from w top assignment.new)
        assignment.old.matching.pairs (record { queue = queue.now; depths = depths.now }) distance }
    ensures matching { assignment.new.matching ≡ assignment.old.matching }
    ensures top { assignment.new.top ≡ assignment.old.top }
{
    for place in 0..queue.len() {
        let rise = distance - depths[place];
        let col = queue[place].0;
        assignment.duals[col as usize] += rise;
        match assignment.matching.row_of(Col(col)) {
            Some(row) => raise_price(&mut assignment.prices, row, rise),
            None => {}
        }
    }
}

fn raise_price<W: Width>(prices: &mut Vec<Amount<W>>, row: Row, rise: Amount<W>)
    requires row { row < length prices.old.items }
    requires fits { slice_index prices.old.items row + rise < W.limit }
    ensures { prices.new.items
        ≡ set prices.old.items row (slice_index prices.old.items row + rise) }
{
    prices[row.0 as usize] += rise;
}
