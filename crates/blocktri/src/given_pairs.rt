//! Pairs that a caller gives, as a matching.

ghost use Rattle.std.specs.Prelude.{◌≡◌, ◌↔◌, ◌<◌, IfErr, IfOk, IsTrue, length};
ghost use Rattle.bip_defs.specs.Lists.{Among};
ghost use Rattle.bip_defs.specs.Matching.{rows_of};
ghost use Rattle.bip_defs.specs.Matrix.{IsEntry};
ghost use Rattle.blocktri.specs.Compressed.{AreCompressed, column_count, matrix_given, row_count};
ghost use Rattle.blocktri.specs.GivenPairs.{IsGivenIn, IsPairsRefusal};

use crate::compressed::Compressed;
use crate::full_diagonal::has_id_of;
use crate::pairs_refusals::PairsRefusal;
use bip_graph::Matching;
use sp_ids::{Col, Row};
use sp_pattern::NumberList;
use std::alloc::Global;

// Stands for no row.
const NONE: u32 = u32::MAX;

/// The matching that a list gives: for each column its row, or what stands for none. Each pair must
/// be an entry, and no row may stand there twice: else the first column where this fails is told.
///
/// Returns `OutOfMemory` if it cannot allocate 4 bytes a row and 4 a column. Work: one look at each
/// place of the list, and at most one at each number of the matrix.
pub fn given_matching<N: NumberList>(
    alloc: Global,
    matrix: &Compressed<N>,
    row_of_column: &[u32],
) -> Result<Matching, PairsRefusal>
    requires compressed { AreCompressed matrix.now }
    requires room { length row_of_column.now ≡ column_count matrix.now }
    ensures given { IfOk result (IsGivenIn (matrix_given matrix.now) row_of_column.now) }
    ensures refused { IfErr result (IsPairsRefusal (Unit {0}) matrix.now row_of_column.now) }
{
    let mut matching = Matching::empty(alloc, matrix.rows() as u32, matrix.columns() as u32)?;
    for at in 0..row_of_column.len() {
        let row = row_of_column[at];
        if row != NONE {
            if !can_pair(matrix, &matching, row, at as u32) {
                return Err(PairsRefusal::BadPair(at));
            }
            matching.pair(Row(row), Col(at as u32));
        }
    }
    Ok(matching)
}

// Whether a column has an entry in a row that has no mate yet.
fn can_pair<N: NumberList>(matrix: &Compressed<N>, matching: &Matching, row: u32, col: u32) -> bool
    requires compressed { AreCompressed matrix.now }
    requires rows { matching.now.rows ≡ row_count matrix.now }
    requires col { col < column_count matrix.now }
    ensures { IsTrue result ↔ ((¬ Among row (rows_of matching.now.pairs))
        × IsEntry (matrix_given matrix.now) row col) }
{
    if row as u64 >= matrix.rows() {
        return false;
    }
    match matching.col_of(Row(row)) {
        Some(_) => false,
        None => has_entry(matrix, row, col),
    }
}

// Whether the matrix has an entry there.
fn has_entry<N: NumberList>(matrix: &Compressed<N>, row: u32, col: u32) -> bool
    requires compressed { AreCompressed matrix.now }
    requires row { row < row_count matrix.now }
    requires col { col < column_count matrix.now }
    ensures { IsTrue result ↔ IsEntry (matrix_given matrix.now) row col }
{
    if matrix.by_rows {
        has_id_of(matrix, row, col)
    } else {
        has_id_of(matrix, col, row)
    }
}
