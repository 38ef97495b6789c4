//! Orders of a square matrix by pairs that are given.

ghost use Rattle.std.specs.Prelude.{◌≡◌, ◌↔◌, IfErr, IfOk, IsTrue, OnErr, length};
ghost use Rattle.bip_defs.specs.Matrix.{Matrix, cols};
ghost use Rattle.blocktri.specs.Compressed.{AreCompressed, HasMatrix, matrix_given};
ghost use Rattle.blocktri.specs.GivenOrders.{ArePairsOf, HavePairingRoom, IsFreeRow, IsNoPairing, RefusesPairing, TellsOrderBy, lists_without_mates};
ghost use Rattle.blocktri.specs.PairedOrders.{ArePairedBlocks};
ghost use Rattle.filled_columns.specs.Filled.{IsFullPairing};

use crate::compressed::{Compressed, is_room, is_room_and_one};
use crate::paired_blocks::{filled_blocks, write_paired_orders};
use crate::pairing_refusals::PairingRefusal;
use crate::refusals::Refusal;
use bip_graph::{Blocks, Matching};
use column_lists::PatternColumns;
use sp_ids::{Col, OutOfMemory, Row};
use sp_pattern::NumberList;
use std::alloc::Global;

/// What a matrix is that is to be square.
#[derive(Clone, Copy, Debug, PartialEq, Eq)]
pub enum OrderBy {
    /// It is, and has so many blocks.
    Ordered(u32),
    /// It has not as many rows as columns.
    NotSquare,
}

/// Orders of a square matrix in which given pairs of all its rows and columns stand on the diagonal,
/// and it is block upper triangular, as `btf_strongcomp` of SuiteSparse's BTF makes them of a given
/// permutation (Davis and Palamadai Natarajan 2010). Gives the number of blocks. Of a matrix that is
/// not square nothing is written.
///
/// `row_of_column` has for each column the row that is paired with it, each row once; the places of
/// the pairs count as entries, whether they are or not. The blocks are the strong components of the
/// matrix with these entries, each at its place in the one order of blocks. Numbers are counted from
/// 0. `row_order` gets the rows block by block, those of each block rising, and `column_order` at each
/// place the column that is paired with the row there. `block_starts` gets where each block begins,
/// and behind the blocks the number of rows; the rest of it stays as it is.
///
/// `row_of_column` must have a number for each column. `row_order` must have a place for each row,
/// `column_order` for each column, `block_starts` for each column and one more; a list to be written
/// of length 0 is not wanted. These lengths are looked at first, then the lists of the matrix, then
/// whether it is square, and then the pairs: `BadPair` names the first place whose number is not that
/// of a row or stands at an earlier place already. After an `Err` nothing was written.
///
/// Takes 8 bytes a row and 8 a column for the pairs and the parts, and what
/// `dm_fine::fine_by_columns` takes; of a matrix by columns no pattern is made, of one by rows it is.
/// Work: two looks at each pair, three at each number, and what `fine_by_columns` says. Returns
/// `OutOfMemory` if it cannot allocate these, and where a column of a matrix by columns has all of
/// 4,294,967,295 numbers: with its pair 32 bits do not count them.
pub fn order_by<N: NumberList>(
    alloc: Global,
    matrix: &Compressed<N>,
    row_of_column: N,
    row_order: &mut [u32],
    column_order: &mut [u32],
    block_starts: &mut [u32],
) -> Result<OrderBy, PairingRefusal>
    ensures found { IfOk result (λ o. HasMatrix matrix.now
        (λ a. TellsOrderBy a (N.numbers row_of_column) o
        (lists_without_mates row_order.old column_order.old block_starts.old)
        (lists_without_mates row_order.new column_order.new block_starts.new))) }
    ensures refused { RefusesPairing (HavePairingRoom matrix.now (N.numbers row_of_column)
        (lists_without_mates row_order.old column_order.old block_starts.old))
        matrix.now (N.numbers row_of_column) result }
    ensures kept { OnErr result (lists_without_mates row_order.new column_order.new
        block_starts.new ≡ lists_without_mates row_order.old column_order.old block_starts.old) }
{
    if !is_room(row_order, matrix.rows())
        || !is_room(column_order, matrix.columns())
        || !is_room_and_one(block_starts, matrix.columns())
        || row_of_column.len() as u64 != matrix.columns()
    {
        return Err(PairingRefusal::Lists(Refusal::Lengths));
    }
    matrix.check()?;
    if matrix.rows() != matrix.columns() {
        return Ok(OrderBy::NotSquare);
    }
    let full = full_pairing(alloc, matrix.rows() as u32, row_of_column)?;
    let blocks = blocks_by(alloc, matrix, &full)?;
    let count = write_paired_orders(&blocks, &full, row_order, column_order, block_starts);
    Ok(OrderBy::Ordered(count))
}

// The pairs of as many columns as rows, or the first that is not right.
fn full_pairing<N: NumberList>(
    alloc: Global,
    rows: u32,
    row_of_column: N,
) -> Result<Matching, PairingRefusal>
    requires { length (N.numbers row_of_column) ≡ rows }
    ensures pairs { IfOk result (ArePairsOf rows (N.numbers row_of_column)) }
    ensures full { IfOk result (λ m. (a : Matrix) → Matrix.rows a ≡ rows → cols a ≡ rows
        → IsFullPairing a m) }
    ensures refused { IfErr result (IsNoPairing rows (N.numbers row_of_column)) }
{
    let mut full = Matching::empty(alloc, rows, rows)?;
    for col in 0..rows {
        let row = row_of_column.at(col as usize);
        if !is_free_row(&full, row) {
            return Err(PairingRefusal::BadPair(col as usize));
        }
        full.pair(Row(row as u32), Col(col));
    }
    full.is_matching();
    Ok(full)
}

// Whether a number is that of a row that has no mate.
fn is_free_row(matching: &Matching, number: u64) -> bool
    ensures { IsTrue result ↔ IsFreeRow matching.now number }
{
    if number >= matching.rows() as u64 {
        return false;
    }
    match matching.col_of(Row(number as u32)) {
        Some(_) => false,
        None => true,
    }
}

// The blocks by the pairs, from the columns where they lie, or by rows from the pattern.
fn blocks_by<N: NumberList>(
    alloc: Global,
    matrix: &Compressed<N>,
    full: &Matching,
) -> Result<Blocks, OutOfMemory>
    requires compressed { AreCompressed matrix.now }
    requires full { IsFullPairing (matrix_given matrix.now) full.now }
    ensures { IfOk result (ArePairedBlocks (matrix_given matrix.now) full.now) }
{
    if matrix.by_rows {
        let pattern = matrix.pattern(alloc)?;
        return filled_blocks(alloc, PatternColumns { pattern: &pattern }, full);
    }
    filled_blocks(alloc, matrix.given_columns(), full)
}
