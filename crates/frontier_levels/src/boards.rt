//! Boards that are opened from a forest.

ghost use Rattle.std.specs.Prelude.{◌≤◌, ◌≡◌, length, map, IfOk};
ghost use Rattle.bip_defs.specs.Matrix.{cols};
ghost use Rattle.claim_words.specs.WorkerState.{seated};
ghost use Rattle.forest_core.specs.Tables.{IsTableOf};
ghost use Rattle.level_sharing.specs.Agreement.{Agree};
ghost use Rattle.sp_ids.specs.Limits.{max_workers};

use claim_words::{ClaimBoard, ClaimSeat, Worker};
use forest_core::Forest;
use level_sharing::{are_worth_threads, new_workers_agree};
use sp_ids::{Col, OutOfMemory, Row};
use std::alloc::Global;
use std::thread::{Threads, join};

/// A board whose words hold the claims and the leaves of a forest, and so many workers, each with a
/// seat. Where there are two workers at least and rows and columns together are worth threads, as
/// `worth_threads` of them are, its lists are filled by two threads at once.
///
/// Returns `OutOfMemory` if it cannot allocate 24 bytes a row and column; 8 of them stay, until the
/// board is closed. Work: one look at each row and column.
pub fn open<R: Threads + Sync>(
    rt: &R,
    alloc: Global,
    forest: &Forest,
    workers: u32,
    worth_threads: u32,
) -> Result<(ClaimBoard, Vec<Worker>), OutOfMemory>
    requires { (1 ≤ workers) × (workers ≤ max_workers) }
    ensures agree { IfOk result (λ o. Agree o.0 o.1.items forest.now.claims forest.now.leaves) }
    ensures workers { IfOk result (λ o. length o.1.items ≡ workers) }
    ensures rows { IfOk result (λ o. length o.0.rows ≡ forest.now.matrix.rows) }
    ensures roots { IfOk result (λ o. length o.0.roots ≡ cols forest.now.matrix) }
{
    new_workers_agree();
    let (by_row, by_root) = lists(rt, alloc, forest, workers, worth_threads);
    let holders = by_row?;
    let leaves = by_root?;
    let (board, seats) = ClaimBoard::new(alloc, holders.as_slice(), leaves.as_slice(), workers)?;
    let workers = seat(alloc, seats)?;
    Ok((board, workers))
}

// The column that holds each row, and the leaf of each root.
fn lists<R: Threads + Sync>(
    rt: &R,
    alloc: Global,
    forest: &Forest,
    workers: u32,
    worth_threads: u32,
) -> (
    Result<Vec<Option<Col>>, OutOfMemory>,
    Result<Vec<Option<Row>>, OutOfMemory>,
)
    ensures rows { IfOk result.0 (λ l. length l.items ≡ forest.now.matrix.rows) }
    ensures holders { IfOk result.0 (λ l. IsTableOf forest.now.claims l.items) }
    ensures roots { IfOk result.1 (λ l. length l.items ≡ cols forest.now.matrix) }
    ensures leaves { IfOk result.1 (λ l. IsTableOf forest.now.leaves l.items) }
{
    let pattern = forest.pattern();
    let vertices = pattern.rows() as usize + pattern.cols() as usize;
    if workers < 2 || !are_worth_threads(rt, vertices, worth_threads) {
        return (forest.row_holders(alloc), forest.root_leaves(alloc));
    }
    let of_rows = move || -> Result<Vec<Option<Col>>, OutOfMemory>
        ensures rows { IfOk result (λ l. length l.items ≡ forest.entry.now.matrix.rows) }
        ensures holders { IfOk result (λ l. IsTableOf forest.entry.now.claims l.items) }
    { forest.row_holders(alloc) };
    let of_roots = move || -> Result<Vec<Option<Row>>, OutOfMemory>
        ensures roots { IfOk result (λ l. length l.items ≡ cols forest.entry.now.matrix) }
        ensures leaves { IfOk result (λ l. IsTableOf forest.entry.now.leaves l.items) }
    { forest.root_leaves(alloc) };
    join(rt, of_rows, of_roots)
}

// A worker on each of these seats.
fn seat(alloc: Global, seats: Vec<ClaimSeat>) -> Result<Vec<Worker>, OutOfMemory>
    ensures { IfOk result (λ workers. workers.items ≡ map seated seats.items) }
{
    let mut workers = Vec::with_capacity(alloc, seats.len())?;
    for seat in seats {
        workers.push(Worker::new(alloc, seat))?;
    }
    Ok(workers)
}
