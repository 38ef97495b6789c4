//! A maximum matching, for the calls that go on from it.

ghost use Rattle.std.specs.Prelude.{IfOk, IfSome};
ghost use Rattle.bip_graph.specs.Matching.{IsMaximumOf};
ghost use Rattle.bip_graph.specs.OuterMarks.{AreOuterMarks};
ghost use Rattle.blocktri.specs.Compressed.{AreCompressed, listed, matrix_given};
ghost use Rattle.blocktri.specs.Diagonal.{IsDiagonalFull, KeepsDiagonal};
ghost use Rattle.blocktri.specs.PerfectMatchings.{IsPerfectMatching};
ghost use Rattle.blocktri.specs.Matched.{HasFullDiagonal, IsMatchedOf};

use crate::compressed::Compressed;
use crate::full_diagonal::{diagonal, is_diagonal_full};
use crate::maximum::{ColumnSearch, search_anew, search_columns, search_pattern};
use bip_graph::{Matching, OuterMarks};
use sp_ids::OutOfMemory;
use sp_pattern::{NumberList, Pattern};
use std::alloc::Global;

/// A maximum matching of a matrix that keeps a full diagonal.
#[derive(Drop)]
pub enum MatchedMatrix {
    /// The diagonal, of which each place is an entry, of square compressed columns of this size.
    Diagonal(u32),
    /// A perfect matching of compressed columns: what follows reads them in place.
    Perfect(Matching),
    /// What a search found.
    Searched(SearchedMatrix),
}

/// The pattern, a maximum matching, and what the last phase has marked, unless the diagonal, the
/// first look or a first phase alone has found it.
#[derive(Drop)]
pub struct SearchedMatrix {
    pub pattern: Pattern,
    pub matching: Matching,
    pub marks: Option<OuterMarks>,
}

/// A maximum matching that keeps a full diagonal: that of the diagonal or of the first look where
/// one of them is maximum, and else one by a search, for which the pattern is made.
pub fn find_matching<N: NumberList>(
    alloc: Global,
    matrix: &Compressed<N>,
) -> Result<MatchedMatrix, OutOfMemory>
    requires { AreCompressed matrix.now }
    ensures { IfOk result (IsMatchedOf matrix.now) }
{
    if is_diagonal_full(matrix) {
        return found_on_diagonal(alloc, matrix);
    }
    if matrix.by_rows {
        // No look at columns is possible.
        let pattern = matrix.pattern(alloc)?;
        let (matching, marks) = search_anew(alloc, &pattern)?;
        return Ok(MatchedMatrix::Searched(SearchedMatrix {
            pattern,
            matching,
            marks,
        }));
    }
    match search_columns(alloc, matrix)? {
        ColumnSearch::Found(matching, marks) => { found_in_columns(alloc, matrix, matching, marks) }
        ColumnSearch::NotFound(look) => {
            let pattern = matrix.pattern(alloc)?;
            let (matching, marks) = search_pattern(alloc, &pattern, look)?;
            Ok(MatchedMatrix::Searched(SearchedMatrix {
                pattern,
                matching,
                marks,
            }))
        }
    }
}

// The matching of a full diagonal. Where it is perfect no pattern is made.
fn found_on_diagonal<N: NumberList>(
    alloc: Global,
    matrix: &Compressed<N>,
) -> Result<MatchedMatrix, OutOfMemory>
    requires compressed { AreCompressed matrix.now }
    requires full { IsDiagonalFull (listed matrix.now) }
    ensures { IfOk result (IsMatchedOf matrix.now) }
{
    let (rows, columns) = (matrix.rows() as u32, matrix.columns() as u32);
    if !matrix.by_rows && rows == columns {
        return Ok(MatchedMatrix::Diagonal(columns));
    }
    let matching = diagonal(alloc, rows, columns)?;
    let pattern = matrix.pattern(alloc)?;
    Ok(MatchedMatrix::Searched(SearchedMatrix {
        pattern,
        matching,
        marks: None,
    }))
}

// A maximum matching that was found without a pattern. Where it is perfect none is made.
fn found_in_columns<N: NumberList>(
    alloc: Global,
    matrix: &Compressed<N>,
    matching: Matching,
    marks: Option<OuterMarks>,
) -> Result<MatchedMatrix, OutOfMemory>
    requires compressed { AreCompressed matrix.now }
    requires maximum { IsMaximumOf (matrix_given matrix.now) matching }
    requires diagonal { KeepsDiagonal (matrix_given matrix.now) matching.pairs }
    requires marks { IfSome marks (AreOuterMarks (matrix_given matrix.now)) }
    ensures { IfOk result (IsMatchedOf matrix.now) }
{
    let size = matching.size();
    if !matrix.by_rows && size == matching.rows() && size == matching.cols() {
        return Ok(MatchedMatrix::Perfect(matching));
    }
    let pattern = matrix.pattern(alloc)?;
    Ok(MatchedMatrix::Searched(SearchedMatrix {
        pattern,
        matching,
        marks,
    }))
}

/// The matching of a full diagonal, which is perfect.
///
/// Returns `OutOfMemory` if it cannot allocate 4 bytes a row and 4 a column.
pub fn diagonal_matching<N: NumberList>(
    alloc: Global,
    matrix: &Compressed<N>,
    size: u32,
) -> Result<Matching, OutOfMemory>
    requires { HasFullDiagonal matrix.now size }
    ensures perfect { IfOk result (IsPerfectMatching (matrix_given matrix.now)) }
    ensures diagonal { IfOk result (λ m. KeepsDiagonal (matrix_given matrix.now) m.pairs) }
{
    let matching = diagonal(alloc, size, size)?;
    Ok(matching)
}
