//! The heaviest diagonal.

ghost use Rattle.blocktri_c.specs.DiagonalStatuses.{weighted_lists};
ghost use Rattle.blocktri_c.specs.HeaviestStatuses.{AnswersHeaviest, TellsHeaviestFault, heaviest_lists};

use crate::diagonal_statuses::diagonal_status;
use crate::statuses::OK;
use blocktri::{Compressed, Narrow, Sum, Weighted, Wide};
use std::alloc::Global;

/// `blocktri::heaviest` of numbers of 32 bits. What `row_of_column`, `row_prices` and
/// `column_prices` get stands there, where they are wanted; the sum is written to `sum`.
#[unsafe(no_mangle)]
pub extern "C" fn proved_heaviest(
    alloc: Global,
    others: u32,
    starts: &[u32],
    ids: &[u32],
    values: &[i64],
    by_rows: bool,
    row_of_column: &mut [u32],
    row_prices: &mut [i64],
    column_prices: &mut [i64],
    sum: &mut Sum,
    fault: &mut u64,
) -> i32
    ensures answers { AnswersHeaviest result
        (weighted_lists others starts.now ids.now values.now by_rows)
        (heaviest_lists row_of_column.old row_prices.old column_prices.old sum.old)
        (heaviest_lists row_of_column.new row_prices.new column_prices.new sum.new) }
    ensures fault { TellsHeaviestFault result
        (weighted_lists others starts.now ids.now values.now by_rows)
        (heaviest_lists row_of_column.old row_prices.old column_prices.old sum.old)
        fault.old fault.new }
{
    let matrix = Compressed {
        others: others as u64,
        starts: Narrow { list: starts },
        ids: Narrow { list: ids },
        by_rows,
    };
    let weighted = Weighted {
        matrix: &matrix,
        values,
    };
    match blocktri::heaviest(alloc, &weighted, row_of_column, row_prices, column_prices) {
        Ok(found) => {
            *sum = found;
            OK
        }
        Err(refusal) => diagonal_status(refusal, fault),
    }
}

/// `blocktri::heaviest` of numbers of 64 bits. What `row_of_column`, `row_prices` and
/// `column_prices` get stands there, where they are wanted; the sum is written to `sum`.
#[unsafe(no_mangle)]
pub extern "C" fn proved_heaviest_64(
    alloc: Global,
    others: u64,
    starts: &[u64],
    ids: &[u64],
    values: &[i64],
    by_rows: bool,
    row_of_column: &mut [u32],
    row_prices: &mut [i64],
    column_prices: &mut [i64],
    sum: &mut Sum,
    fault: &mut u64,
) -> i32
    ensures answers { AnswersHeaviest result
        (weighted_lists others starts.now ids.now values.now by_rows)
        (heaviest_lists row_of_column.old row_prices.old column_prices.old sum.old)
        (heaviest_lists row_of_column.new row_prices.new column_prices.new sum.new) }
    ensures fault { TellsHeaviestFault result
        (weighted_lists others starts.now ids.now values.now by_rows)
        (heaviest_lists row_of_column.old row_prices.old column_prices.old sum.old)
        fault.old fault.new }
{
    let matrix = Compressed {
        others,
        starts: Wide { list: starts },
        ids: Wide { list: ids },
        by_rows,
    };
    let weighted = Weighted {
        matrix: &matrix,
        values,
    };
    match blocktri::heaviest(alloc, &weighted, row_of_column, row_prices, column_prices) {
        Ok(found) => {
            *sum = found;
            OK
        }
        Err(refusal) => diagonal_status(refusal, fault),
    }
}
