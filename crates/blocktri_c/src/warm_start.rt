//! Maximum matchings from pairs that the caller has.

ghost use Rattle.std.specs.Prelude.{◌≡◌, ◌≢◌, pos};
ghost use Rattle.blocktri_c.specs.MatchingStatuses.{mates_lists};
ghost use Rattle.blocktri_c.specs.PairsStatuses.{AnswersMatchingFrom, TellsPairsFault, pairs_fault_of, pairs_status_of};
ghost use Rattle.blocktri_c.specs.Statuses.{lists_of};

use crate::compressed_lists::{narrow, wide};
use crate::statuses::{OK, status};
use blocktri::{PairsRefusal, Refusal};
use std::alloc::Global;

// The status where a pair that is given is no entry, or has the row of a pair before it.
const BAD_PAIR: i32 = 27;

/// `blocktri::matching_from` of numbers of 32 bits. `row_of_column` is read first; what it and
/// `column_of_row` get stands there; the number of pairs is written to `size`.
#[unsafe(no_mangle)]
pub extern "C" fn proved_matching_from(
    alloc: Global,
    others: u32,
    starts: &[u32],
    ids: &[u32],
    by_rows: bool,
    is_least: bool,
    row_of_column: &mut [u32],
    column_of_row: &mut [u32],
    size: &mut u32,
    fault: &mut u64,
) -> i32
    ensures answers { AnswersMatchingFrom result (lists_of others starts.now ids.now by_rows)
        is_least (mates_lists row_of_column.old column_of_row.old size.old)
        (mates_lists row_of_column.new column_of_row.new size.new) }
    ensures fault { TellsPairsFault result (lists_of others starts.now ids.now by_rows)
        (mates_lists row_of_column.old column_of_row.old size.old) fault.old fault.new }
{
    let matrix = narrow(others, starts, ids, by_rows);
    match blocktri::matching_from(alloc, &matrix, is_least, row_of_column, column_of_row) {
        Ok(found) => {
            *size = found;
            OK
        }
        Err(refusal) => pairs_status(refusal, fault),
    }
}

/// `blocktri::matching_from` of numbers of 64 bits. `row_of_column` is read first; what it and
/// `column_of_row` get stands there; the number of pairs is written to `size`.
#[unsafe(no_mangle)]
pub extern "C" fn proved_matching_from_64(
    alloc: Global,
    others: u64,
    starts: &[u64],
    ids: &[u64],
    by_rows: bool,
    is_least: bool,
    row_of_column: &mut [u32],
    column_of_row: &mut [u32],
    size: &mut u32,
    fault: &mut u64,
) -> i32
    ensures answers { AnswersMatchingFrom result (lists_of others starts.now ids.now by_rows)
        is_least (mates_lists row_of_column.old column_of_row.old size.old)
        (mates_lists row_of_column.new column_of_row.new size.new) }
    ensures fault { TellsPairsFault result (lists_of others starts.now ids.now by_rows)
        (mates_lists row_of_column.old column_of_row.old size.old) fault.old fault.new }
{
    let matrix = wide(others, starts, ids, by_rows);
    match blocktri::matching_from(alloc, &matrix, is_least, row_of_column, column_of_row) {
        Ok(found) => {
            *size = found;
            OK
        }
        Err(refusal) => pairs_status(refusal, fault),
    }
}

// The status where there is no answer, with the place of the fault.
fn pairs_status(refusal: PairsRefusal, fault: &mut u64) -> i32
    ensures status { result ≡ pairs_status_of refusal }
    ensures fault { fault.new ≡ pairs_fault_of refusal fault.old }
    ensures refused { result ≢ pos 0 }
{
    match refusal {
        PairsRefusal::Lengths => status(Refusal::Lengths, fault),
        PairsRefusal::Columns(error) => status(Refusal::Columns(error), fault),
        PairsRefusal::BadPair(column) => {
            *fault = column as u64;
            BAD_PAIR
        }
    }
}
