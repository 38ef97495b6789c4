//! The weights of a pattern of compressed columns that come with a value for each id.

ghost use Rattle.std.specs.Prelude.{◌≡◌, ◌≢◌, ◌+◌, ◌<◌, ◌≤◌, ℕ, IfErr, IfOk, length, slice_index};
ghost use Rattle.std.specs.List.{slice_range};
ghost use Rattle.bip_defs.specs.Lists.{Among, IsRising};
ghost use Rattle.bip_defs.specs.Pieces.{piece};
ghost use Rattle.sp_pattern.specs.Columns.{AreColumns, matrix_of};
ghost use Rattle.sp_pattern.specs.ValuedColumns.{IsFirstId, entries_given};
ghost use Rattle.sp_pattern.specs.ValuesErrors.{IsValuesError};
ghost use Rattle.sp_pattern.specs.Weights.{AreSums, AreWeightsOf, place_in};

use crate::Pattern;
use crate::columns::NumberList;
use crate::sums::{added, zeros};
use crate::weights::{WeightError, Weights};
use sp_ids::{Col, OutOfMemory, Row};
use std::alloc::Global;

/// Why the values of compressed columns give no weights.
#[derive(Clone, Copy, Debug, PartialEq, Eq)]
pub enum ValuesError {
    /// The sum of a place's values passes 9,223,372,036,854,775,807 in magnitude. Of all such
    /// places this is the one of least column, and in it of least row, told by where its first id
    /// stands among the ids.
    SumLimit(usize),
    /// There was not enough memory.
    OutOfMemory,
}

impl<'p> Weights<'p> {
    /// The weights of the entries of compressed columns that have a value for each id. A place that
    /// is given several times has the magnitude of the sum of its values.
    ///
    /// The lists must be compressed columns, and the pattern that of these columns. Answers
    /// `SumLimit` exactly where the sum of some place's values passes the limit in magnitude, and
    /// `OutOfMemory` where there is no memory for the weights, or for 16 bytes an entry beside them
    /// while the values are added up. Work: one look at each value whose row is that of the value
    /// before it or the column's next, a search in its column for each other, and two looks at each
    /// entry.
    pub fn of_columns<N: NumberList>(
        alloc: Global,
        pattern: &'p Pattern,
        starts: N,
        ids: N,
        values: &[i64],
    ) -> Result<Weights<'p>, ValuesError>
        requires columns { AreColumns pattern.now.rows (N.numbers starts) (N.numbers ids) }
        requires matrix { pattern.now
            ≡ matrix_of pattern.now.rows (N.numbers starts) (N.numbers ids) }
        requires values { length values.now ≡ length (N.numbers ids) }
        ensures weights { IfOk result (AreWeightsOf
            (entries_given pattern.now.rows (N.numbers starts) (N.numbers ids) values.now)
            pattern.now) }
        ensures refused { IfErr result
            (IsValuesError pattern.now.rows (N.numbers starts) (N.numbers ids) values.now) }
    {
        let Ok(sums) = column_sums(alloc, pattern, starts, ids, values) else {
            return Err(ValuesError::OutOfMemory);
        };
        let refused = match Weights::of_sums(alloc, pattern, sums.as_slice()) {
            Ok(weights) => return Ok(weights),
            Err(refused) => refused,
        };
        match refused {
            WeightError::SumLimit { row, col } => {
                Err(ValuesError::SumLimit(first_id(starts, ids, row, col)))
            }
            WeightError::OutOfMemory => Err(ValuesError::OutOfMemory),
        }
    }
}

// The sums of the values of the entries' places, in the order of the pattern's columns. It takes 16
// bytes an entry.
fn column_sums<N: NumberList>(
    alloc: Global,
    pattern: &Pattern,
    starts: N,
    ids: N,
    values: &[i64],
) -> Result<Vec<i128>, OutOfMemory>
    requires columns { AreColumns pattern.now.rows (N.numbers starts) (N.numbers ids) }
    requires matrix { pattern.now ≡ matrix_of pattern.now.rows (N.numbers starts) (N.numbers ids) }
    requires values { length values.now ≡ length (N.numbers ids) }
    ensures { IfOk result (λ s. AreSums
        (entries_given pattern.now.rows (N.numbers starts) (N.numbers ids) values.now).items
        pattern.now s.items) }
{
    pattern.is_pattern();
    let mut sums = zeros(alloc, pattern.entries())?;
    for col in 0..pattern.cols() {
        let rows = pattern.rows_of(Col(col));
        let (first, _end) = pattern.span(Col(col));
        let from = starts.at(col as usize) as usize;
        let to = starts.at(col as usize + 1) as usize;
        let mut near = 0;
        for k in from..to {
            near = place_near(rows, near, Row(ids.at(k) as u32));
            let at = first + near;
            let value = values[k];
            sums[at] = added(sums[at], value);
        }
    }
    Ok(sums)
}

// Where a row stands in a rising list of rows. Two places are looked at first: one that is given,
// and the next.
fn place_near(rows: &[Row], near: usize, row: Row) -> usize
    requires rising { IsRising rows.now }
    requires listed { Among row rows.now }
    requires near { near ≤ length rows.now }
    ensures place { result ≡ place_in row rows.now }
    ensures within { result < length rows.now }
{
    if near < rows.len() && rows[near] == row {
        return near;
    }
    if near + 1 < rows.len() && rows[near + 1] == row {
        return near + 1;
    }
    rows.binary_search(&row).unwrap_or(0)
}

// Where the first id stands that gives an entry's place.
fn first_id<N: NumberList>(starts: N, ids: N, row: Row, col: Col) -> usize
    requires there { col + 1 < length (N.numbers starts) }
    requires within { slice_index (N.numbers starts) (col + 1) ≤ length (N.numbers ids) }
    requires given { Among row (piece (N.numbers starts) (N.numbers ids) col) }
    ensures { IsFirstId (N.numbers starts) (N.numbers ids) row col result }
{
    let from = starts.at(col.0 as usize) as usize;
    let to = starts.at(col.0 as usize + 1) as usize;
    for k in from..to {
        if ids.at(k) == row.0 as u64 {
            return k;
        }
    }
    unreachable!()
}
