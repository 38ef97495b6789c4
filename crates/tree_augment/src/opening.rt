//! The opening of a board from a forest.

ghost use Rattle.std.specs.Prelude.{◌≡◌, ◌≤◌, length, IfOk};
ghost use Rattle.bip_defs.specs.Matrix.{cols};
ghost use Rattle.flip_words.specs.Seat.{AreAllSeats, HoldsAllSeats};
ghost use Rattle.forest_core.specs.Stored.{AreColTrees, AreRowTrees};
ghost use Rattle.sp_ids.specs.Limits.{max_workers};
ghost use Rattle.tree_augment.specs.Augmented.{HaveTakenNone};
ghost use Rattle.tree_augment.specs.ForestBoards.{IsBoardOf};

use flip_words::{FlipBoard, FlipSeat, new_seats_are_all};
use forest_core::Forest;
use level_sharing::are_worth_threads;
use sp_ids::{Col, OutOfMemory};
use std::alloc::Global;
use std::thread::{Threads, join};

/// A board with the mates of the forest's base matching and with its trees, on which nothing is
/// taken or set, and so many seats, from 1 to 64. Where there are two seats at least and rows and
/// columns together are worth threads, as `worth_threads` of them are, the lists of trees are filled
/// by two threads at once.
///
/// Returns `OutOfMemory` if it cannot allocate the board, which keeps 8 bytes for each row and 16
/// for each column, or for a moment as much again and 8 bytes for each row and each column. Work:
/// one look at each row and each column, and one write for each word.
pub fn open<R: Threads + Sync>(
    rt: &R,
    alloc: Global,
    forest: &Forest,
    seats: u32,
    worth_threads: u32,
) -> Result<(FlipBoard, Vec<FlipSeat>), OutOfMemory>
    requires seats { (1 ≤ seats) × (seats ≤ max_workers) }
    ensures board { IfOk result (λ b. IsBoardOf forest.now b.0) }
    ensures order { IfOk result (λ b. AreAllSeats b.0 b.1.items) }
    ensures all { IfOk result (λ b. HoldsAllSeats b.0 b.1.items) }
    ensures count { IfOk result (λ b. length b.1.items ≡ seats) }
    ensures none_taken { IfOk result (λ b. HaveTakenNone b.1.items) }
{
    new_seats_are_all();
    let (by_row, by_col) = trees(rt, alloc, forest, seats, worth_threads);
    let row_trees = by_row?;
    let col_trees = by_col?;
    FlipBoard::new(
        alloc,
        forest.base(),
        row_trees.as_slice(),
        col_trees.as_slice(),
        seats,
    )
}

// The root of the tree of each row and of each column.
fn trees<R: Threads + Sync>(
    rt: &R,
    alloc: Global,
    forest: &Forest,
    seats: u32,
    worth_threads: u32,
) -> (
    Result<Vec<Option<Col>>, OutOfMemory>,
    Result<Vec<Option<Col>>, OutOfMemory>,
)
    ensures rows { IfOk result.0 (λ l. length l.items ≡ forest.now.matrix.rows) }
    ensures row_trees { IfOk result.0 (λ l. AreRowTrees forest.now l.items) }
    ensures cols { IfOk result.1 (λ l. length l.items ≡ cols forest.now.matrix) }
    ensures col_trees { IfOk result.1 (λ l. AreColTrees forest.now l.items) }
{
    let pattern = forest.pattern();
    let vertices = pattern.rows() as usize + pattern.cols() as usize;
    if seats < 2 || !are_worth_threads(rt, vertices, worth_threads) {
        return (forest.row_trees(alloc), forest.col_trees(alloc));
    }
    let of_rows = move || -> Result<Vec<Option<Col>>, OutOfMemory>
        ensures rows { IfOk result (λ l. length l.items ≡ forest.entry.now.matrix.rows) }
        ensures row_trees { IfOk result (λ l. AreRowTrees forest.entry.now l.items) }
    { forest.row_trees(alloc) };
    let of_cols = move || -> Result<Vec<Option<Col>>, OutOfMemory>
        ensures cols { IfOk result (λ l. length l.items ≡ cols forest.entry.now.matrix) }
        ensures col_trees { IfOk result (λ l. AreColTrees forest.entry.now l.items) }
    { forest.col_trees(alloc) };
    join(rt, of_rows, of_cols)
}
