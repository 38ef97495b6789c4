//! Orders of a square matrix of any rank, with a completed maximum matching on the diagonal.

ghost use Rattle.std.specs.Prelude.{◌≡◌, ℕ, ◌+◌, ◌<◌, ◌^◌, Bool, IfOk, OnErr};
ghost use Rattle.bip_defs.specs.Lists.{Lists};
ghost use Rattle.bip_defs.specs.Matrix.{IsEntry, Matrix, cols, column};
ghost use Rattle.bip_graph.specs.Matching.{IsMaximumOf};
ghost use Rattle.blocktri.specs.BlockOrders.{HaveOrderRoom, order_lists};
ghost use Rattle.blocktri.specs.Causes.{RefusesRightly};
ghost use Rattle.blocktri.specs.Compressed.{AreCompressed, HasMatrix, IsRoom, matrix_given};
ghost use Rattle.blocktri.specs.Diagonal.{KeepsDiagonal};
ghost use Rattle.blocktri.specs.Matched.{IsSearchOf};
ghost use Rattle.blocktri.specs.PairedOrders.{IsCompletedOf, TellsCompleted, full_pairs};

use crate::compressed::{Compressed, is_room, is_room_and_one};
use crate::matched::{MatchedMatrix, SearchedMatrix, diagonal_matching, find_matching};
use crate::mates::write_wanted_rows;
use crate::paired_blocks::{filled_blocks, perfect_blocks, write_paired_orders};
use crate::refusals::Refusal;
use bip_graph::{Blocks, Matching};
use column_lists::{ColumnLists, PatternColumns};
use filled_columns::completed;
use sp_ids::OutOfMemory;
use sp_pattern::{NumberList, columns_give_their_places};
use std::alloc::Global;

/// What a matrix is that is to be square.
#[derive(Clone, Copy, Debug, PartialEq, Eq)]
pub enum PairedOrder {
    /// It is, has this rank, and so many blocks, where these are wanted.
    Square(u32, Option<u32>),
    /// It has not as many rows as columns.
    NotSquare,
}

/// The orders that KLU makes of square matrices of any rank, as `btf_order` of SuiteSparse's BTF
/// does (Davis and Palamadai Natarajan 2010): of a maximum matching the unmatched rows and columns
/// are paired too, and the matrix is ordered as if all these pairs were entries. In the orders it is
/// block upper triangular, and the pairs stand on the diagonal. Gives the rank and the number of
/// blocks. Of a matrix that is not square nothing is written.
///
/// The matching is the one that [`crate::block_order`] takes, which keeps the diagonal where each
/// of its places is an entry; the first unmatched row is paired with the first unmatched column, the
/// second with the second, and so on, and none of these new pairs is an entry. The blocks are the
/// strong components of the matrix with the pairs as entries, each at its place in the one order of
/// blocks. Numbers are counted from 0.
///
/// `row_order` gets the rows block by block, those of each block rising, and `column_order` at each
/// place the column that is paired with the row there. `block_starts` gets where each block begins,
/// and behind the blocks the number of rows; the rest of it stays as it is. `row_of_column` gets for
/// each column the row of the matching alone, or 4,294,967,295 where it has none: so a place of the
/// diagonal is an entry exactly where the row there is the one of its column in that list.
///
/// `row_order` must have a place for each row, `column_order` and `row_of_column` for each column,
/// `block_starts` for each column and one more. A list of length 0 is not wanted. These lengths are
/// looked at first, then the lists of the matrix, then whether it is square. Where `wants_blocks` is
/// false no blocks are looked for, and the first three lists stay as they are. After an `Err` nothing
/// was written.
///
/// Memory and work are those of [`crate::block_order`]; a matching that is not perfect takes a copy
/// of itself besides, 4 bytes a row and 4 a column, and then one more comparison for each number that
/// is read. Returns `OutOfMemory` if it cannot allocate these, and where a column of such a matrix
/// has all of 4,294,967,295 numbers: with its pair 32 bits do not count them.
pub fn completed_order<N: NumberList>(
    alloc: Global,
    matrix: &Compressed<N>,
    wants_blocks: bool,
    row_order: &mut [u32],
    column_order: &mut [u32],
    block_starts: &mut [u32],
    row_of_column: &mut [u32],
) -> Result<PairedOrder, Refusal>
    ensures found { IfOk result (λ o. HasMatrix matrix.now (λ a. TellsCompleted a wants_blocks o
        (order_lists row_order.old column_order.old block_starts.old row_of_column.old)
        (order_lists row_order.new column_order.new block_starts.new row_of_column.new))) }
    ensures refused { RefusesRightly (HaveOrderRoom matrix.now (order_lists row_order.old
        column_order.old block_starts.old row_of_column.old)) matrix.now result }
    ensures kept { OnErr result
        (order_lists row_order.new column_order.new block_starts.new row_of_column.new
        ≡ order_lists row_order.old column_order.old block_starts.old row_of_column.old) }
{
    if !is_room(row_order, matrix.rows())
        || !is_room(column_order, matrix.columns())
        || !is_room_and_one(block_starts, matrix.columns())
        || !is_room(row_of_column, matrix.columns())
    {
        return Err(Refusal::Lengths);
    }
    matrix.check()?;
    if matrix.rows() != matrix.columns() {
        return Ok(PairedOrder::NotSquare);
    }
    let found = find_completed(alloc, matrix, wants_blocks)?;
    Ok(write_found(&found, row_order, column_order, block_starts, row_of_column))
}

// Writes what is found and wanted, and tells the rank and the number of blocks.
fn write_found(
    found: &CompletedMatrix,
    row_order: &mut [u32],
    column_order: &mut [u32],
    block_starts: &mut [u32],
    row_of_column: &mut [u32],
) -> PairedOrder
    requires some { (a : Matrix) × (wanted : Bool) × (a.rows < 2 ^ 32)
        × IsCompletedOf a wanted found.now.matching found.now.completed found.now.blocks }
    requires rows { IsRoom found.now.matching.rows row_order.old }
    requires columns { IsRoom found.now.matching.cols column_order.old }
    requires starts { IsRoom (found.now.matching.cols + 1) block_starts.old }
    requires mates { IsRoom found.now.matching.cols row_of_column.old }
    ensures { (a : Matrix) (wanted : Bool) → IsCompletedOf a wanted found.now.matching
        found.now.completed found.now.blocks → TellsCompleted a wanted result
        (order_lists row_order.old column_order.old block_starts.old row_of_column.old)
        (order_lists row_order.new column_order.new block_starts.new row_of_column.new) }
{
    write_wanted_rows(&found.matching, row_of_column);
    let rank = found.matching.size();
    match &found.blocks {
        None => PairedOrder::Square(rank, None),
        Some(blocks) => {
            let full = found.full();
            let count = write_paired_orders(blocks, full, row_order, column_order, block_starts);
            PairedOrder::Square(rank, Some(count))
        }
    }
}

// What is found of a square matrix before anything is written: a maximum matching, its completion
// where it leaves rows and columns out, and the blocks, where they are wanted.
#[derive(Drop)]
struct CompletedMatrix {
    matching: Matching,
    completed: Option<Matching>,
    blocks: Option<Blocks>,
}

impl CompletedMatrix {
    // The pairs of all rows and columns, where the blocks are wanted.
    fn full(&self) -> &Matching
        ensures { result.now ≡ full_pairs self.now.completed self.now.matching }
    {
        match &self.completed {
            Some(full) => full,
            None => &self.matching,
        }
    }
}

// A maximum matching, and where they are wanted the blocks by its completion.
fn find_completed<N: NumberList>(
    alloc: Global,
    matrix: &Compressed<N>,
    wants_blocks: bool,
) -> Result<CompletedMatrix, OutOfMemory>
    requires compressed { AreCompressed matrix.now }
    requires square { (matrix_given matrix.now).rows ≡ cols (matrix_given matrix.now) }
    ensures { IfOk result (λ f. IsCompletedOf (matrix_given matrix.now) wants_blocks f.matching
        f.completed f.blocks) }
{
    columns_give_their_places();
    match find_matching(alloc, matrix)? {
        MatchedMatrix::Diagonal(size) => {
            let matching = diagonal_matching(alloc, matrix, size)?;
            complete(alloc, matrix.given_columns(), matching, wants_blocks)
        }
        MatchedMatrix::Perfect(matching) => {
            complete(alloc, matrix.given_columns(), matching, wants_blocks)
        }
        MatchedMatrix::Searched(search) => complete_searched(alloc, search, wants_blocks),
    }
}

// The same from what a search found.
fn complete_searched(
    alloc: Global,
    search: SearchedMatrix,
    wants_blocks: bool,
) -> Result<CompletedMatrix, OutOfMemory>
    requires search { IsSearchOf search.pattern search }
    requires square { Matrix.rows search.pattern ≡ cols search.pattern }
    requires rising { (c : ℕ)
        → Lists (λ r. IsEntry search.pattern r c) (column search.pattern c) }
    ensures { IfOk result
        (λ f. IsCompletedOf search.pattern wants_blocks f.matching f.completed f.blocks) }
{
    let SearchedMatrix {
        pattern,
        matching,
        ..
    } = search;
    complete(
        alloc,
        PatternColumns { pattern: &pattern },
        matching,
        wants_blocks,
    )
}

// The same from a maximum matching.
fn complete<C: ColumnLists>(
    alloc: Global,
    columns: C,
    matching: Matching,
    wants_blocks: bool,
) -> Result<CompletedMatrix, OutOfMemory>
    requires maximum { IsMaximumOf (C.matrix columns) matching }
    requires diagonal { KeepsDiagonal (C.matrix columns) matching.pairs }
    requires square { Matrix.rows (C.matrix columns) ≡ cols (C.matrix columns) }
    requires rising { (c : ℕ)
        → Lists (λ r. IsEntry (C.matrix columns) r c) (column (C.matrix columns) c) }
    ensures { IfOk result
        (λ f. IsCompletedOf (C.matrix columns) wants_blocks f.matching f.completed f.blocks) }
{
    if !wants_blocks {
        return Ok(CompletedMatrix {
            matching,
            completed: None,
            blocks: None,
        });
    }
    if matching.size() == matching.rows() {
        let blocks = perfect_blocks(alloc, columns, &matching)?;
        return Ok(CompletedMatrix {
            matching,
            completed: None,
            blocks: Some(blocks),
        });
    }
    let full = completed(matching.copy(alloc)?);
    let blocks = filled_blocks(alloc, columns, &full)?;
    Ok(CompletedMatrix {
        matching,
        completed: Some(full),
        blocks: Some(blocks),
    })
}
