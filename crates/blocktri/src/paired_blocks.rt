//! The fine blocks of a square matrix by pairs that count as entries, and the orders in which the
//! pairs stand on the diagonal.

ghost use Rattle.std.specs.Prelude.{◌≡◌, ℕ, ◌+◌, ◌<◌, ◌^◌, IfOk, length};
ghost use Rattle.bip_defs.specs.Blocks.{all_rows};
ghost use Rattle.bip_defs.specs.Lists.{Among, Lists};
ghost use Rattle.bip_defs.specs.Matching.{rows_of};
ghost use Rattle.bip_defs.specs.Matrix.{IsEntry, Matrix, column};
ghost use Rattle.blocktri.specs.Answers.{AreBlockStarts, Fills};
ghost use Rattle.blocktri.specs.BlockOrders.{AreMatesOf};
ghost use Rattle.blocktri.specs.Compressed.{IsRoom};
ghost use Rattle.blocktri.specs.PairedOrders.{ArePairedBlocks, IsPairedColumnOrder};
ghost use Rattle.blocktri.specs.SquareForms.{square_decomposition};
ghost use Rattle.blocktri.specs.PerfectMatchings.{IsPerfectMatching};
ghost use Rattle.bip_defs.specs.Decomposition.{IsDecompositionOf};
ghost use Rattle.filled_columns.specs.Filled.{IsFullPairing};

use crate::write::{write_at, write_starts};
use bip_graph::{Blocks, Matching};
use column_lists::ColumnLists;
use dm_fine::fine_by_columns;
use filled_columns::{FilledColumns, filled_matrix_is_full, filled_with_entries, full_parts};
use sp_ids::{OutOfMemory, Row};
use std::alloc::Global;

/// The fine blocks of a square matrix whose entries have a perfect matching. The pairs change
/// nothing, so its columns are read as they are.
pub fn perfect_blocks<C: ColumnLists>(
    alloc: Global,
    columns: C,
    matching: &Matching,
) -> Result<Blocks, OutOfMemory>
    requires perfect { IsPerfectMatching (C.matrix columns) matching.now }
    requires rising { (c : ℕ)
        → Lists (λ r. IsEntry (C.matrix columns) r c) (column (C.matrix columns) c) }
    ensures { IfOk result (ArePairedBlocks (C.matrix columns) matching.now) }
{
    filled_with_entries();
    blocks_of_perfect(alloc, columns, matching)
}

/// The fine blocks of a square matrix filled with pairs of all its rows and columns.
///
/// Returns `OutOfMemory` also where a column lists 4,294,967,295 rows: with its pair it has more
/// than 32 bits can count.
pub fn filled_blocks<C: ColumnLists>(
    alloc: Global,
    columns: C,
    full: &Matching,
) -> Result<Blocks, OutOfMemory>
    requires { IsFullPairing (C.matrix columns) full.now }
    ensures { IfOk result (ArePairedBlocks (C.matrix columns) full.now) }
{
    filled_matrix_is_full();
    match FilledColumns::of(columns, full) {
        Some(filled) => blocks_of_perfect(alloc, filled, full),
        None => Err(OutOfMemory),
    }
}

// The fine blocks from a perfect matching.
fn blocks_of_perfect<C: ColumnLists>(
    alloc: Global,
    columns: C,
    matching: &Matching,
) -> Result<Blocks, OutOfMemory>
    requires { IsPerfectMatching (C.matrix columns) matching.now }
    ensures { IfOk result (λ blocks. IsDecompositionOf (C.matrix columns)
        (square_decomposition (Matrix.rows (C.matrix columns)) blocks)) }
{
    let parts = full_parts(alloc, matching.rows())?;
    fine_by_columns(alloc, columns, matching, &parts)
}

/// Writes the orders and the block starts, those of them that are wanted: the rows block by block,
/// and at each place the column that is paired with the row there. Gives the number of blocks.
pub fn write_paired_orders(
    blocks: &Blocks,
    full: &Matching,
    row_order: &mut [u32],
    column_order: &mut [u32],
    block_starts: &mut [u32],
) -> u32
    requires some { (a : Matrix) × ArePairedBlocks a full.now blocks.now × (a.rows < 2 ^ 32) }
    requires rows { IsRoom full.now.rows row_order.old }
    requires columns { IsRoom full.now.cols column_order.old }
    requires starts { IsRoom (full.now.cols + 1) block_starts.old }
    ensures count { result ≡ length blocks.now }
    ensures rows { Fills row_order.old row_order.new (row_order.new ≡ all_rows blocks.now) }
    ensures columns { (a : Matrix) → ArePairedBlocks a full.now blocks.now → Fills column_order.old
        column_order.new (IsPairedColumnOrder a blocks.now full.now.pairs column_order.new) }
    ensures starts { Fills block_starts.old block_starts.new
        (AreBlockStarts blocks.now block_starts.old block_starts.new) }
{
    filled_matrix_is_full();
    write_rows(row_order, blocks.all_rows());
    write_mates_of_rows(column_order, blocks.all_rows(), full);
    if block_starts.len() != 0 {
        write_starts(block_starts, blocks);
    }
    blocks.len() as u32
}

// Writes the rows that are listed, where they are wanted.
fn write_rows(row_order: &mut [u32], rows: &[Row])
    requires { IsRoom (length rows.now) row_order.old }
    ensures { Fills row_order.old row_order.new (row_order.new ≡ rows.now) }
{
    if row_order.len() != 0 {
        write_at(row_order, 0, rows);
    }
}

// Writes the mate of each row that is listed, where the columns are wanted.
fn write_mates_of_rows(column_order: &mut [u32], rows: &[Row], full: &Matching)
    requires matched { (r : ℕ) → Among r rows.now → Among r (rows_of full.now.pairs) }
    requires room { IsRoom (length rows.now) column_order.old }
    ensures { Fills column_order.old column_order.new
        (AreMatesOf full.now.pairs column_order.new rows.now) }
{
    for k in 0..column_order.len() {
        column_order[k] = mate_of_row(full, rows[k]);
    }
}

// The number of the column that is paired with a row.
fn mate_of_row(full: &Matching, row: Row) -> u32
    requires { Among row (rows_of full.now.pairs) }
    ensures { Among (row, result) full.now.pairs }
{
    full.is_matching();
    match full.col_of(row) {
        Some(col) => col.0,
        None => unreachable!(),
    }
}
