//! Orders of a square matrix with entries all along the diagonal.

ghost use Rattle.std.specs.Prelude.{◌≡◌};
ghost use Rattle.blocktri.specs.BlockOrders.{order_lists};
ghost use Rattle.blocktri_c.specs.OrderStatuses.{AnswersOrder, TellsOrderFault, blocks_or_none, outputs_of};
ghost use Rattle.blocktri_c.specs.Statuses.{lists_of};

use crate::compressed_lists::{narrow, wide};
use crate::statuses::{NOT_SQUARE, OK, SINGULAR, status};
use blocktri::SquareOrder;
use std::alloc::Global;

// Stands for a number of blocks that is not known.
const NONE: u32 = u32::MAX;

/// `blocktri::block_order` of numbers of 32 bits. What the four lists get stands there; the number
/// of blocks is written to `blocks`, or 4,294,967,295 where it is not wanted, and the rank to `rank`.
#[unsafe(no_mangle)]
pub extern "C" fn proved_block_order(
    alloc: Global,
    others: u32,
    starts: &[u32],
    ids: &[u32],
    by_rows: bool,
    wants_blocks: bool,
    row_order: &mut [u32],
    column_order: &mut [u32],
    block_starts: &mut [u32],
    row_of_column: &mut [u32],
    blocks: &mut u32,
    rank: &mut u32,
    fault: &mut u64,
) -> i32
    ensures answers { AnswersOrder result (lists_of others starts.now ids.now by_rows) wants_blocks
        (outputs_of (order_lists row_order.old column_order.old block_starts.old
        row_of_column.old) blocks.old rank.old)
        (outputs_of (order_lists row_order.new column_order.new block_starts.new
        row_of_column.new) blocks.new rank.new) }
    ensures fault { TellsOrderFault result (lists_of others starts.now ids.now by_rows)
        (order_lists row_order.old column_order.old block_starts.old row_of_column.old)
        fault.old fault.new }
{
    let matrix = narrow(others, starts, ids, by_rows);
    match blocktri::block_order(
        alloc,
        &matrix,
        wants_blocks,
        row_order,
        column_order,
        block_starts,
        row_of_column,
    ) {
        Ok(SquareOrder::Full(count)) => {
            *blocks = count.unwrap_or(NONE);
            *rank = matrix.rows() as u32;
            OK
        }
        Ok(SquareOrder::Singular(found)) => {
            *rank = found;
            SINGULAR
        }
        Ok(SquareOrder::NotSquare) => NOT_SQUARE,
        Err(refusal) => status(refusal, fault),
    }
}

/// `blocktri::block_order` of numbers of 64 bits. What the four lists get stands there; the number
/// of blocks is written to `blocks`, or 4,294,967,295 where it is not wanted, and the rank to `rank`.
#[unsafe(no_mangle)]
pub extern "C" fn proved_block_order_64(
    alloc: Global,
    others: u64,
    starts: &[u64],
    ids: &[u64],
    by_rows: bool,
    wants_blocks: bool,
    row_order: &mut [u32],
    column_order: &mut [u32],
    block_starts: &mut [u32],
    row_of_column: &mut [u32],
    blocks: &mut u32,
    rank: &mut u32,
    fault: &mut u64,
) -> i32
    ensures answers { AnswersOrder result (lists_of others starts.now ids.now by_rows) wants_blocks
        (outputs_of (order_lists row_order.old column_order.old block_starts.old
        row_of_column.old) blocks.old rank.old)
        (outputs_of (order_lists row_order.new column_order.new block_starts.new
        row_of_column.new) blocks.new rank.new) }
    ensures fault { TellsOrderFault result (lists_of others starts.now ids.now by_rows)
        (order_lists row_order.old column_order.old block_starts.old row_of_column.old)
        fault.old fault.new }
{
    let matrix = wide(others, starts, ids, by_rows);
    match blocktri::block_order(
        alloc,
        &matrix,
        wants_blocks,
        row_order,
        column_order,
        block_starts,
        row_of_column,
    ) {
        Ok(SquareOrder::Full(count)) => {
            *blocks = count.unwrap_or(NONE);
            *rank = matrix.rows() as u32;
            OK
        }
        Ok(SquareOrder::Singular(found)) => {
            *rank = found;
            SINGULAR
        }
        Ok(SquareOrder::NotSquare) => NOT_SQUARE,
        Err(refusal) => status(refusal, fault),
    }
}
