//! Orders of a square matrix with entries all along the diagonal.

ghost use Rattle.std.specs.Prelude.{◌≡◌, IfOk, OnErr};
ghost use Rattle.bip_defs.specs.Matrix.{cols};
ghost use Rattle.blocktri.specs.BlockOrders.{HaveOrderRoom, IsOrderRoom, TellsFullRank, TellsSquare, order_lists};
ghost use Rattle.blocktri.specs.Causes.{RefusesRightly};
ghost use Rattle.blocktri.specs.Compressed.{HasMatrix};
ghost use Rattle.blocktri.specs.Diagonal.{KeepsDiagonal};
ghost use Rattle.blocktri.specs.SquareForms.{IsWhole};

use crate::compressed::{Compressed, is_room, is_room_and_one};
use crate::matched::{MatchedMatrix, find_matching};
use crate::refusals::Refusal;
use crate::square_form::{SquareForm, write_mates_by_number};
use column_lists::{ColumnLists, PatternColumns};
use sp_ids::OutOfMemory;
use sp_pattern::NumberList;
use square_components::{OfDiagonal, OfPerfect, SquarePart};
use std::alloc::Global;

/// What a matrix is that is to be square and of full structural rank.
#[derive(Clone, Copy, Debug, PartialEq, Eq)]
pub enum SquareOrder {
    /// It is, and has so many blocks, where these are wanted.
    Full(Option<u32>),
    /// It is square, and its rank, which is this, is less than its size.
    Singular(u32),
    /// It has not as many rows as columns.
    NotSquare,
}

/// What KLU asks of a square matrix of full structural rank (Davis and Palamadai Natarajan 2010):
/// orders of its rows and columns in which it is block upper triangular and has an entry at each
/// place of the diagonal. Gives the number of blocks. Of a matrix that is singular or not square
/// nothing is written.
///
/// The columns stand as in [`crate::decomposition`], and at each place the row that a perfect
/// matching pairs with the column there, so that each block has the rows that it has there.
/// `row_of_column` gets that matching, which keeps the diagonal where each of its places is an
/// entry. `block_starts` gets where each block begins, and behind the blocks the number of rows; the
/// rest of it stays as it is.
///
/// `row_order` must have a place for each row, `column_order` and `row_of_column` for each column,
/// `block_starts` for each column and one more. A list of length 0 is not wanted. These lengths are
/// looked at first. Where `wants_blocks` is false no blocks are looked for, and the first three
/// lists stay as they are. After an `Err` nothing was written.
///
/// A matrix by columns is read in place, and no pattern is made, where each place of the diagonal is
/// an entry, where at the first look that [`crate::rank`] describes each column takes a row, or
/// where searches over a copy of its rising columns match all. With a full diagonal the call takes
/// what `dm_fine::square_blocks` takes, and with another matching 4 bytes a row and 4 a column more
/// for it, and what the searches take. Its work is at most four looks at each number, those of the
/// searches, what `square_blocks` says, and one read and three writes for each column.
///
/// Every other matrix takes besides the pattern and what `rank` takes, with the work of both.
/// Returns `OutOfMemory` if it cannot allocate these.
pub fn block_order<N: NumberList>(
    alloc: Global,
    matrix: &Compressed<N>,
    wants_blocks: bool,
    row_order: &mut [u32],
    column_order: &mut [u32],
    block_starts: &mut [u32],
    row_of_column: &mut [u32],
) -> Result<SquareOrder, Refusal>
    ensures found { IfOk result (λ o. HasMatrix matrix.now (λ a. TellsSquare a wants_blocks o
        (order_lists row_order.old column_order.old block_starts.old row_of_column.old)
        (order_lists row_order.new column_order.new block_starts.new row_of_column.new))) }
    ensures refused { RefusesRightly (HaveOrderRoom matrix.now (order_lists row_order.old
        column_order.old block_starts.old row_of_column.old)) matrix.now result }
    ensures kept { OnErr result
        (order_lists row_order.new column_order.new block_starts.new row_of_column.new
        ≡ order_lists row_order.old column_order.old block_starts.old row_of_column.old) }
{
    if !is_room(row_order, matrix.rows())
        || !is_room(column_order, matrix.columns())
        || !is_room_and_one(block_starts, matrix.columns())
        || !is_room(row_of_column, matrix.columns())
    {
        return Err(Refusal::Lengths);
    }
    matrix.check()?;
    if matrix.rows() != matrix.columns() {
        return Ok(SquareOrder::NotSquare);
    }
    let blocks = match find_matching(alloc, matrix)? {
        MatchedMatrix::Diagonal(size) => {
            let part = OfDiagonal { size };
            part.is_square_part();
            write_order(
                alloc,
                matrix.given_columns(),
                part,
                wants_blocks,
                row_order,
                column_order,
                block_starts,
                row_of_column,
            )?
        }
        MatchedMatrix::Perfect(matching) => {
            let part = OfPerfect {
                matching: &matching,
            };
            part.is_square_part();
            write_order(
                alloc,
                matrix.given_columns(),
                part,
                wants_blocks,
                row_order,
                column_order,
                block_starts,
                row_of_column,
            )?
        }
        MatchedMatrix::Searched(search) => {
            let size = search.matching.size();
            if size != search.matching.rows() {
                return Ok(SquareOrder::Singular(size));
            }
            let part = OfPerfect {
                matching: &search.matching,
            };
            part.is_square_part();
            write_order(
                alloc,
                PatternColumns {
                    pattern: &search.pattern,
                },
                part,
                wants_blocks,
                row_order,
                column_order,
                block_starts,
                row_of_column,
            )?
        }
    };
    Ok(SquareOrder::Full(blocks))
}

// Finds the blocks of a matrix with a perfect matching, where they are wanted, and writes the lists
// that are wanted. Gives the number of blocks.
fn write_order<C: ColumnLists, S: SquarePart>(
    alloc: Global,
    columns: C,
    part: S,
    wants_blocks: bool,
    row_order: &mut [u32],
    column_order: &mut [u32],
    block_starts: &mut [u32],
    row_of_column: &mut [u32],
) -> Result<Option<u32>, OutOfMemory>
    requires whole { IsWhole (C.matrix columns) (S.rows part) (S.cols part) (S.pairs part) }
    requires diagonal { KeepsDiagonal (C.matrix columns) (S.pairs part) }
    requires room { IsOrderRoom (cols (C.matrix columns)) (order_lists row_order.old
        column_order.old block_starts.old row_of_column.old) }
    ensures found { IfOk result (λ count. TellsFullRank (C.matrix columns) wants_blocks count
        (order_lists row_order.old column_order.old block_starts.old row_of_column.old)
        (order_lists row_order.new column_order.new block_starts.new row_of_column.new)) }
    ensures kept { OnErr result
        (order_lists row_order.new column_order.new block_starts.new row_of_column.new
        ≡ order_lists row_order.old column_order.old block_starts.old row_of_column.old) }
{
    if !wants_blocks {
        write_mates_by_number(part, row_of_column);
        return Ok(None);
    }
    let form = SquareForm::find(alloc, columns, part)?;
    form.write_mates(part, row_order);
    form.write_columns(column_order);
    form.write_starts(block_starts);
    write_mates_by_number(part, row_of_column);
    Ok(Some(form.count()))
}
