//! The rank after each edit.

ghost use Rattle.blocktri_c.specs.EditStatuses.{AnswersEdits, TellsEditsFault, lists_of_edits};
ghost use Rattle.blocktri_c.specs.Statuses.{lists_of};

use crate::compressed_lists::{narrow, wide};
use crate::edit_statuses::edits_status;
use crate::statuses::OK;
use blocktri::{Narrow, Wide};
use blocktri_edits::EditPlaces;
use std::alloc::Global;

/// `blocktri_edits::edits` of numbers of 32 bits. The rank after each edit is written to `ranks`.
#[unsafe(no_mangle)]
pub extern "C" fn proved_edits(
    alloc: Global,
    others: u32,
    starts: &[u32],
    ids: &[u32],
    by_rows: bool,
    edit_rows: &[u32],
    edit_columns: &[u32],
    sets: &[i32],
    ranks: &mut [u32],
    fault: &mut u64,
) -> i32
    ensures answers { AnswersEdits result (lists_of others starts.now ids.now by_rows)
        (lists_of_edits edit_rows.now edit_columns.now sets.now) ranks.old ranks.new }
    ensures fault { TellsEditsFault result (lists_of others starts.now ids.now by_rows)
        (lists_of_edits edit_rows.now edit_columns.now sets.now) ranks.old fault.old fault.new }
{
    let matrix = narrow(others, starts, ids, by_rows);
    let places = EditPlaces {
        rows: Narrow { list: edit_rows },
        columns: Narrow { list: edit_columns },
        sets,
    };
    match blocktri_edits::edits(alloc, &matrix, &places, ranks) {
        Ok(_done) => OK,
        Err(refusal) => edits_status(refusal, fault),
    }
}

/// `blocktri_edits::edits` of numbers of 64 bits. The rank after each edit is written to `ranks`.
#[unsafe(no_mangle)]
pub extern "C" fn proved_edits_64(
    alloc: Global,
    others: u64,
    starts: &[u64],
    ids: &[u64],
    by_rows: bool,
    edit_rows: &[u64],
    edit_columns: &[u64],
    sets: &[i32],
    ranks: &mut [u32],
    fault: &mut u64,
) -> i32
    ensures answers { AnswersEdits result (lists_of others starts.now ids.now by_rows)
        (lists_of_edits edit_rows.now edit_columns.now sets.now) ranks.old ranks.new }
    ensures fault { TellsEditsFault result (lists_of others starts.now ids.now by_rows)
        (lists_of_edits edit_rows.now edit_columns.now sets.now) ranks.old fault.old fault.new }
{
    let matrix = wide(others, starts, ids, by_rows);
    let places = EditPlaces {
        rows: Wide { list: edit_rows },
        columns: Wide { list: edit_columns },
        sets,
    };
    match blocktri_edits::edits(alloc, &matrix, &places, ranks) {
        Ok(_done) => OK,
        Err(refusal) => edits_status(refusal, fault),
    }
}
