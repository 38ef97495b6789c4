//! Maximum matchings.

ghost use Rattle.blocktri_c.specs.MatchingStatuses.{AnswersMatching, HasRoomForMates, mates_lists};
ghost use Rattle.blocktri_c.specs.Statuses.{TellsFault, lists_of};

use crate::compressed_lists::{narrow, wide};
use crate::statuses::{OK, status};
use std::alloc::Global;

/// `blocktri::matching` of numbers of 32 bits. What `row_of_column` and `column_of_row` get
/// stands there; the number of pairs is written to `size`.
#[unsafe(no_mangle)]
pub extern "C" fn proved_matching(
    alloc: Global,
    others: u32,
    starts: &[u32],
    ids: &[u32],
    by_rows: bool,
    is_least: bool,
    row_of_column: &mut [u32],
    column_of_row: &mut [u32],
    size: &mut u32,
    fault: &mut u64,
) -> i32
    ensures answers { AnswersMatching result (lists_of others starts.now ids.now by_rows) is_least
        (mates_lists row_of_column.old column_of_row.old size.old)
        (mates_lists row_of_column.new column_of_row.new size.new) }
    ensures fault { TellsFault result
        (HasRoomForMates (lists_of others starts.now ids.now by_rows)
        (mates_lists row_of_column.old column_of_row.old size.old))
        (lists_of others starts.now ids.now by_rows) fault.old fault.new }
{
    let matrix = narrow(others, starts, ids, by_rows);
    match blocktri::matching(alloc, &matrix, is_least, row_of_column, column_of_row) {
        Ok(found) => {
            *size = found;
            OK
        }
        Err(refusal) => status(refusal, fault),
    }
}

/// `blocktri::matching` of numbers of 64 bits. What `row_of_column` and `column_of_row` get
/// stands there; the number of pairs is written to `size`.
#[unsafe(no_mangle)]
pub extern "C" fn proved_matching_64(
    alloc: Global,
    others: u64,
    starts: &[u64],
    ids: &[u64],
    by_rows: bool,
    is_least: bool,
    row_of_column: &mut [u32],
    column_of_row: &mut [u32],
    size: &mut u32,
    fault: &mut u64,
) -> i32
    ensures answers { AnswersMatching result (lists_of others starts.now ids.now by_rows) is_least
        (mates_lists row_of_column.old column_of_row.old size.old)
        (mates_lists row_of_column.new column_of_row.new size.new) }
    ensures fault { TellsFault result
        (HasRoomForMates (lists_of others starts.now ids.now by_rows)
        (mates_lists row_of_column.old column_of_row.old size.old))
        (lists_of others starts.now ids.now by_rows) fault.old fault.new }
{
    let matrix = wide(others, starts, ids, by_rows);
    match blocktri::matching(alloc, &matrix, is_least, row_of_column, column_of_row) {
        Ok(found) => {
            *size = found;
            OK
        }
        Err(refusal) => status(refusal, fault),
    }
}
