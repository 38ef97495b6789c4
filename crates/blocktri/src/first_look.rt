//! The first look at the columns of a matrix.

ghost use Rattle.std.specs.Prelude.{◌≡◌, ◌+◌, ◌<◌, ◌≤◌, ◌^◌, ℕ, IfOk, IfSome, length, slice_index};
ghost use Rattle.std.specs.List.{slice_range};
ghost use Rattle.bip_defs.specs.Lists.{Among};
ghost use Rattle.bip_defs.specs.Matching.{rows_of};
ghost use Rattle.blocktri.specs.Looks.{AreMatched, IsLook};
ghost use Rattle.sp_pattern.specs.Columns.{AreColumns, matrix_of};
ghost use Rattle.sp_pattern.specs.Pairs.{AreBelow};

use bip_graph::Matching;
use sp_ids::{Col, OutOfMemory, Row};
use sp_pattern::{NumberList, columns_give_their_places};
use std::alloc::Global;

/// What a look at the columns finds.
#[derive(Drop)]
pub enum Look {
    /// A maximum matching.
    Maximum(Matching),
    /// A matching from which searches for augmenting paths may begin at the columns, and how many
    /// columns that have entries it leaves unmatched.
    FromColumns(Matching, u32),
    /// A matching that leaves fewer rows that have entries unmatched than columns, and how many:
    /// searches may begin at the rows.
    FromRows(Matching, u32),
}

/// The matching in which each column has the first of its rows that no column before it has.
///
/// Where it matches each column or each row that has entries, it is maximum. Returns `OutOfMemory`
/// if it cannot allocate 4 bytes a row and 4 a column, or 1 a row more where neither the columns
/// show that it is maximum nor the number of its pairs. Work: two looks at each number at most.
pub fn first_look<N: NumberList>(
    alloc: Global,
    rows: u32,
    starts: N,
    ids: N,
) -> Result<Look, OutOfMemory>
    requires { AreColumns rows (N.numbers starts) (N.numbers ids) }
    ensures { IfOk result (IsLook (matrix_of rows (N.numbers starts) (N.numbers ids))) }
{
    columns_give_their_places();
    let cols = (starts.len() - 1) as u32;
    let mut matching = Matching::empty(alloc, rows, cols)?;
    let mut missed = 0;
    for col in 0..cols {
        let from = starts.at(col as usize) as usize;
        let to = starts.at(col as usize + 1) as usize;
        match first_unmatched(&matching, ids, from, to) {
            Some(row) => matching.pair(row, Col(col)),
            None => {
                if from < to {
                    missed += 1;
                }
            }
        }
    }
    if missed == 0 {
        return Ok(Look::Maximum(matching));
    }
    if matching.size() == rows {
        return Ok(Look::Maximum(matching));
    }
    match fewer_unmatched(alloc, ids, &matching, missed)? {
        Some(0) => Ok(Look::Maximum(matching)),
        Some(number) => Ok(Look::FromRows(matching, number)),
        None => Ok(Look::FromColumns(matching, missed)),
    }
}

// The first unmatched row of a column.
fn first_unmatched<N: NumberList>(
    matching: &Matching,
    ids: N,
    from: usize,
    to: usize,
) -> Option<Row>
    requires few { matching.now.rows < 2 ^ 32 }
    requires to { to ≤ length (N.numbers ids) }
    requires rows { (k : ℕ) → from ≤ k → k < to
        → slice_index (N.numbers ids) k < matching.now.rows }
    ensures given { IfSome result (λ r. Among r (slice_range (N.numbers ids) from to)) }
    ensures in_range { IfSome result (λ r. r < matching.now.rows) }
    ensures unmatched { IfSome result (λ r. ¬ Among r (rows_of matching.now.pairs)) }
{
    for at in from..to {
        let row = Row(ids.at(at) as u32);
        if matching.col_of(row).is_none() {
            return Some(row);
        }
    }
    None
}

// How many of these rows are unmatched, if they are fewer than a number.
fn fewer_unmatched<N: NumberList>(
    alloc: Global,
    ids: N,
    matching: &Matching,
    number: u32,
) -> Result<Option<u32>, OutOfMemory>
    requires few { matching.now.rows < 2 ^ 32 }
    requires rows { AreBelow matching.now.rows (length (N.numbers ids)) (N.numbers ids) }
    requires number { 0 < number }
    ensures { IfOk result
        (λ found. IfSome found
        (λ count. count ≡ 0 → AreMatched matching.now.pairs (N.numbers ids))) }
{
    let mut counted = vec![in alloc; false; matching.rows() as usize]?;
    let mut count = 0;
    for at in 0..ids.len() {
        let row = Row(ids.at(at) as u32);
        match matching.col_of(row) {
            Some(_) => {}
            None => {
                if !counted[row.0 as usize] {
                    counted[row.0 as usize] = true;
                    count += 1;
                    if count == number {
                        return Ok(None);
                    }
                }
            }
        }
    }
    Ok(Some(count))
}
