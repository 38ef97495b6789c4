//! The bottleneck.

ghost use Rattle.blocktri_c.specs.BottleneckStatuses.{AnswersBottleneck, TellsBottleneckFault, bottleneck_lists};
ghost use Rattle.blocktri_c.specs.DiagonalStatuses.{weighted_lists};

use crate::diagonal_statuses::diagonal_status;
use crate::statuses::OK;
use blocktri::{Compressed, Narrow, Weighted, Wide};
use std::alloc::Global;

/// `blocktri::bottleneck` of numbers of 32 bits. What `row_of_column` and `columns` get stands
/// there, where they are wanted; the least weight is written to `least`, and how many columns show
/// it to `columns_count`.
#[unsafe(no_mangle)]
pub extern "C" fn proved_bottleneck(
    alloc: Global,
    others: u32,
    starts: &[u32],
    ids: &[u32],
    values: &[i64],
    by_rows: bool,
    row_of_column: &mut [u32],
    least: &mut u64,
    columns: &mut [u32],
    columns_count: &mut u32,
    fault: &mut u64,
) -> i32
    ensures answers { AnswersBottleneck result
        (weighted_lists others starts.now ids.now values.now by_rows)
        (bottleneck_lists row_of_column.old least.old columns.old columns_count.old)
        (bottleneck_lists row_of_column.new least.new columns.new columns_count.new) }
    ensures fault { TellsBottleneckFault result
        (weighted_lists others starts.now ids.now values.now by_rows)
        (bottleneck_lists row_of_column.old least.old columns.old columns_count.old)
        fault.old fault.new }
{
    let matrix = Compressed {
        others: others as u64,
        starts: Narrow { list: starts },
        ids: Narrow { list: ids },
        by_rows,
    };
    let weighted = Weighted {
        matrix: &matrix,
        values,
    };
    match blocktri::bottleneck(alloc, &weighted, row_of_column, columns) {
        Ok(found) => {
            *least = found.weight;
            *columns_count = found.columns;
            OK
        }
        Err(refusal) => diagonal_status(refusal, fault),
    }
}

/// `blocktri::bottleneck` of numbers of 64 bits. What `row_of_column` and `columns` get stands
/// there, where they are wanted; the least weight is written to `least`, and how many columns show
/// it to `columns_count`.
#[unsafe(no_mangle)]
pub extern "C" fn proved_bottleneck_64(
    alloc: Global,
    others: u64,
    starts: &[u64],
    ids: &[u64],
    values: &[i64],
    by_rows: bool,
    row_of_column: &mut [u32],
    least: &mut u64,
    columns: &mut [u32],
    columns_count: &mut u32,
    fault: &mut u64,
) -> i32
    ensures answers { AnswersBottleneck result
        (weighted_lists others starts.now ids.now values.now by_rows)
        (bottleneck_lists row_of_column.old least.old columns.old columns_count.old)
        (bottleneck_lists row_of_column.new least.new columns.new columns_count.new) }
    ensures fault { TellsBottleneckFault result
        (weighted_lists others starts.now ids.now values.now by_rows)
        (bottleneck_lists row_of_column.old least.old columns.old columns_count.old)
        fault.old fault.new }
{
    let matrix = Compressed {
        others,
        starts: Wide { list: starts },
        ids: Wide { list: ids },
        by_rows,
    };
    let weighted = Weighted {
        matrix: &matrix,
        values,
    };
    match blocktri::bottleneck(alloc, &weighted, row_of_column, columns) {
        Ok(found) => {
            *least = found.weight;
            *columns_count = found.columns;
            OK
        }
        Err(refusal) => diagonal_status(refusal, fault),
    }
}
