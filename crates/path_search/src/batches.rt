//! Columns of a breadth-first search in batches: their lists are looked up, and then the marks of
//! their rows, one right after another, so that no look waits for the memory of the one before.

ghost use Rattle.std.specs.Prelude.{◌≡◌, ◌+◌, ◌<◌, ◌≤◌, ◌^◌, ◌++◌, ℕ, false, length, map, not, slice_index_or, take};
ghost use Rattle.std.specs.Int.{from_bool};
ghost use Rattle.bip_defs.specs.Lists.{Among};
ghost use Rattle.bip_defs.specs.Matrix.{cols};
ghost use Rattle.path_search.specs.Batches.{Gathers, HasRows, HaveRows, KeepsUnmarked, candidates_of, numbers_in};
ghost use Rattle.path_search.specs.Forests.{reached_at};

use crate::columns::row_at;
use crate::reached::Reached;
use bip_graph::{Matching, Opposite};
use sp_ids::{Id, Row};
use sp_pattern::Side;

/// How many columns there are in a batch at most.
pub const COLUMNS: usize = 64;

/// For how many candidates there is room at once.
pub const ROOM: usize = 512;

/// The lists of the columns from a place of the queue on.
#[derive(Drop)]
pub struct Batch<'l, 's, F: Id> {
    pub lists: &'l [&'s [F]],
    pub place: u32,
}

/// A row that may be visited next, from the column at a place of the queue.
#[derive(Clone, Copy)]
pub struct RowCandidate {
    pub row: Row,
    pub place: u32,
}

// The rows of a column, or none where its root has a mate, told without a branch.
fn rows_of<'s, F: Opposite, S: Side<F>>(
    side: &'s S,
    matching: &Matching,
    column: Reached,
) -> &'s [F]
    requires col { column.col < cols (S.matrix side.now) }
    requires root { column.root < (F.seen matching.now).cols }
    ensures { HasRows (S.matrix side.now) (F.seen matching.now).pairs column
        (map F.number result.now) }
{
    let rows = side.rows_of(column.col);
    match F::row_of(matching, column.root) {
        Some(_) => &rows[..0],
        None => rows,
    }
}

/// Room for the lists of a batch.
pub fn no_lists<'s, F: Id, S: Side<F>>(_side: &'s S) -> [&'s [F]; COLUMNS]
    ensures { 0 < length result }
{
    [&[]; COLUMNS]
}

// What was reached at a place of the queue.
fn column_at(queue: &[Reached], place: usize) -> Reached
    requires { place < length queue.now }
    ensures { result ≡ reached_at queue.now place }
{
    queue[place]
}

/// Looks up the lists of the columns from a place of the queue on, as many as there is room for.
pub fn look_up<'s, F: Opposite, S: Side<F>>(
    side: &'s S,
    matching: &Matching,
    queue: &[Reached],
    place: usize,
    lists: &mut [&'s [F]],
) -> usize
    requires place { place ≤ length queue.now }
    requires in_range { (i : ℕ) → i < length queue.now
        → ((reached_at queue.now i).col < cols (S.matrix side.now))
        × ((reached_at queue.now i).root < (F.seen matching.now).cols) }
    ensures room { result ≤ length lists.new }
    ensures within { place + result ≤ length queue.now }
    ensures some { place < length queue.now → 0 < length lists.old → 0 < result }
    ensures lists { HaveRows (S.matrix side.now) (F.seen matching.now).pairs queue.now place result
        (numbers_in F.number lists.new) }
{
    let count = (queue.len() - place).min(lists.len());
    for at in 0..count {
        let column = column_at(queue, place + at);
        lists[at] = rows_of(side, matching, column);
    }
    count
}

// Puts a column's rows behind the first `len` candidates.
fn append<F: Id>(rows: &[F], place: u32, candidates: &mut [RowCandidate], len: usize)
    requires { len + length rows.now ≤ length candidates.old }
    ensures { take (len + length rows.now) candidates.new
        ≡ take len candidates.old ++ candidates_of place (map F.number rows.now) }
{
    for at in 0..rows.len() {
        let row = row_at(rows, at, false);
        candidates[len + at] = RowCandidate { row, place };
    }
}

/// Gathers the rows of the lists from one on, as far as there is room for whole lists. The list
/// where it ends, and how many candidates there are.
pub fn gather<F: Id>(
    batch: &Batch<'_, '_, F>,
    from: usize,
    candidates: &mut [RowCandidate],
) -> (usize, usize)
    requires from { from ≤ length batch.now.lists.now }
    requires places { batch.now.place + length batch.now.lists.now < 2 ^ 32 }
    ensures end { (from ≤ result.0) × (result.0 ≤ length batch.now.lists.now) }
    ensures room { result.1 ≤ length candidates.new }
    ensures gathered { Gathers (numbers_in F.number batch.now.lists.now) batch.now.place
        from result.0 (take result.1 candidates.new) }
{
    let lists = batch.lists;
    let mut end = from;
    let mut len = 0;
    while end < lists.len() {
        let rows = lists[end];
        if candidates.len() - len < rows.len() {
            return (end, len);
        }
        append(rows, batch.place + end as u32, candidates, len);
        len += rows.len();
        end += 1;
    }
    (end, len)
}

// 1 for an unmarked row, and 0 for another.
fn unmarked(marks: &[bool], row: Row) -> usize
    requires { row < length marks.now }
    ensures { result ≡ from_bool (not (slice_index_or marks.now row false)) }
{
    usize::from(!marks[row.0 as usize])
}

/// Keeps those of the first `len` candidates whose rows are unmarked, in their order, told without
/// a branch. How many there are: they stand first.
pub fn keep_unmarked(candidates: &mut [RowCandidate], len: usize, marks: &[bool]) -> usize
    requires len { len ≤ length candidates.old }
    requires in_range { (x : RowCandidate) → Among x (take len candidates.old)
        → x.row < length marks.now }
    ensures room { result ≤ length candidates.new }
    ensures kept { KeepsUnmarked marks.now (take len candidates.old) (take result candidates.new) }
{
    let mut kept = 0;
    for at in 0..len {
        let candidate = candidates[at];
        let row = candidate.row;
        candidates[kept] = candidate;
        kept += unmarked(marks, row);
    }
    kept
}
