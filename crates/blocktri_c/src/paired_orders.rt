//! Orders of a square matrix by a completed matching, or by pairs that are given.

ghost use Rattle.std.specs.Prelude.{◌≡◌, ◌≢◌, pos};
ghost use Rattle.blocktri.specs.BlockOrders.{order_lists};
ghost use Rattle.blocktri.specs.GivenOrders.{lists_without_mates};
ghost use Rattle.blocktri_c.specs.OrderStatuses.{outputs_of};
ghost use Rattle.blocktri_c.specs.PairedStatuses.{AnswersCompleted, AnswersOrderBy, TellsCompletedFault, TellsOrderByFault, order_by_outputs, pairing_fault_of, pairing_status_of};
ghost use Rattle.blocktri_c.specs.Statuses.{lists_of};

use crate::compressed_lists::{narrow, wide};
use crate::statuses::{NOT_SQUARE, OK, status};
use blocktri::{Narrow, OrderBy, PairedOrder, PairingRefusal, Wide};
use std::alloc::Global;

// Stands for a number of blocks that is not known.
const NONE: u32 = u32::MAX;

// The status where a pair that is given is no row, or has the row of a pair before it.
const BAD_PAIR: i32 = 27;

/// `blocktri::completed_order` of numbers of 32 bits. What the four lists get stands there; the
/// number of blocks is written to `blocks`, or 4,294,967,295 where it is not wanted, and the rank to
/// `rank`.
#[unsafe(no_mangle)]
pub extern "C" fn proved_completed_order(
    alloc: Global,
    others: u32,
    starts: &[u32],
    ids: &[u32],
    by_rows: bool,
    wants_blocks: bool,
    row_order: &mut [u32],
    column_order: &mut [u32],
    block_starts: &mut [u32],
    row_of_column: &mut [u32],
    blocks: &mut u32,
    rank: &mut u32,
    fault: &mut u64,
) -> i32
    ensures answers { AnswersCompleted result (lists_of others starts.now ids.now by_rows)
        wants_blocks (outputs_of (order_lists row_order.old column_order.old block_starts.old
        row_of_column.old) blocks.old rank.old)
        (outputs_of (order_lists row_order.new column_order.new block_starts.new
        row_of_column.new) blocks.new rank.new) }
    ensures fault { TellsCompletedFault result (lists_of others starts.now ids.now by_rows)
        (order_lists row_order.old column_order.old block_starts.old row_of_column.old)
        fault.old fault.new }
{
    let matrix = narrow(others, starts, ids, by_rows);
    match blocktri::completed_order(
        alloc,
        &matrix,
        wants_blocks,
        row_order,
        column_order,
        block_starts,
        row_of_column,
    ) {
        Ok(PairedOrder::Square(found, count)) => {
            *blocks = count.unwrap_or(NONE);
            *rank = found;
            OK
        }
        Ok(PairedOrder::NotSquare) => NOT_SQUARE,
        Err(refusal) => status(refusal, fault),
    }
}

/// `blocktri::completed_order` of numbers of 64 bits. What the four lists get stands there; the
/// number of blocks is written to `blocks`, or 4,294,967,295 where it is not wanted, and the rank to
/// `rank`.
#[unsafe(no_mangle)]
pub extern "C" fn proved_completed_order_64(
    alloc: Global,
    others: u64,
    starts: &[u64],
    ids: &[u64],
    by_rows: bool,
    wants_blocks: bool,
    row_order: &mut [u32],
    column_order: &mut [u32],
    block_starts: &mut [u32],
    row_of_column: &mut [u32],
    blocks: &mut u32,
    rank: &mut u32,
    fault: &mut u64,
) -> i32
    ensures answers { AnswersCompleted result (lists_of others starts.now ids.now by_rows)
        wants_blocks (outputs_of (order_lists row_order.old column_order.old block_starts.old
        row_of_column.old) blocks.old rank.old)
        (outputs_of (order_lists row_order.new column_order.new block_starts.new
        row_of_column.new) blocks.new rank.new) }
    ensures fault { TellsCompletedFault result (lists_of others starts.now ids.now by_rows)
        (order_lists row_order.old column_order.old block_starts.old row_of_column.old)
        fault.old fault.new }
{
    let matrix = wide(others, starts, ids, by_rows);
    match blocktri::completed_order(
        alloc,
        &matrix,
        wants_blocks,
        row_order,
        column_order,
        block_starts,
        row_of_column,
    ) {
        Ok(PairedOrder::Square(found, count)) => {
            *blocks = count.unwrap_or(NONE);
            *rank = found;
            OK
        }
        Ok(PairedOrder::NotSquare) => NOT_SQUARE,
        Err(refusal) => status(refusal, fault),
    }
}

/// `blocktri::order_by` of numbers of 32 bits. `pairs` has the row of each column. What the three
/// lists get stands there; the number of blocks is written to `blocks`.
#[unsafe(no_mangle)]
pub extern "C" fn proved_order_by(
    alloc: Global,
    others: u32,
    starts: &[u32],
    ids: &[u32],
    by_rows: bool,
    pairs: &[u32],
    row_order: &mut [u32],
    column_order: &mut [u32],
    block_starts: &mut [u32],
    blocks: &mut u32,
    fault: &mut u64,
) -> i32
    ensures answers { AnswersOrderBy result (lists_of others starts.now ids.now by_rows) pairs.now
        (order_by_outputs (lists_without_mates row_order.old column_order.old block_starts.old)
        blocks.old) (order_by_outputs (lists_without_mates row_order.new column_order.new
        block_starts.new) blocks.new) }
    ensures fault { TellsOrderByFault result (lists_of others starts.now ids.now by_rows) pairs.now
        (lists_without_mates row_order.old column_order.old block_starts.old)
        fault.old fault.new }
{
    let matrix = narrow(others, starts, ids, by_rows);
    let pairs = Narrow { list: pairs };
    match blocktri::order_by(alloc, &matrix, pairs, row_order, column_order, block_starts) {
        Ok(OrderBy::Ordered(count)) => {
            *blocks = count;
            OK
        }
        Ok(OrderBy::NotSquare) => NOT_SQUARE,
        Err(refusal) => pairing_status(refusal, fault),
    }
}

/// `blocktri::order_by` of numbers of 64 bits. `pairs` has the row of each column. What the three
/// lists get stands there; the number of blocks is written to `blocks`.
#[unsafe(no_mangle)]
pub extern "C" fn proved_order_by_64(
    alloc: Global,
    others: u64,
    starts: &[u64],
    ids: &[u64],
    by_rows: bool,
    pairs: &[u64],
    row_order: &mut [u32],
    column_order: &mut [u32],
    block_starts: &mut [u32],
    blocks: &mut u32,
    fault: &mut u64,
) -> i32
    ensures answers { AnswersOrderBy result (lists_of others starts.now ids.now by_rows) pairs.now
        (order_by_outputs (lists_without_mates row_order.old column_order.old block_starts.old)
        blocks.old) (order_by_outputs (lists_without_mates row_order.new column_order.new
        block_starts.new) blocks.new) }
    ensures fault { TellsOrderByFault result (lists_of others starts.now ids.now by_rows) pairs.now
        (lists_without_mates row_order.old column_order.old block_starts.old)
        fault.old fault.new }
{
    let matrix = wide(others, starts, ids, by_rows);
    let pairs = Wide { list: pairs };
    match blocktri::order_by(alloc, &matrix, pairs, row_order, column_order, block_starts) {
        Ok(OrderBy::Ordered(count)) => {
            *blocks = count;
            OK
        }
        Ok(OrderBy::NotSquare) => NOT_SQUARE,
        Err(refusal) => pairing_status(refusal, fault),
    }
}

// The status where there is no answer, with the place of the fault.
fn pairing_status(refusal: PairingRefusal, fault: &mut u64) -> i32
    ensures status { result ≡ pairing_status_of refusal }
    ensures fault { fault.new ≡ pairing_fault_of refusal fault.old }
    ensures refused { result ≢ pos 0 }
    ensures no_answer { result ≢ pos 2 }
{
    match refusal {
        PairingRefusal::Lists(refusal) => status(refusal, fault),
        PairingRefusal::BadPair(column) => {
            *fault = column as u64;
            BAD_PAIR
        }
    }
}
