//! Maximum matchings, written into the caller's lists.

ghost use Rattle.std.specs.Prelude.{◌≡◌, IfOk, OnErr, false, true};
ghost use Rattle.blocktri.specs.Answers.{HaveMatesRoom, TellsMatching};
ghost use Rattle.blocktri.specs.Causes.{RefusesRightly};
ghost use Rattle.blocktri.specs.Compressed.{AreCompressed, HasMatrix, matrix_given};

use crate::compressed::{Compressed, is_room};
use crate::full_diagonal::full_diagonal;
use crate::mates::{write_wanted_columns, write_wanted_rows};
use crate::maximum::{matched_for_the_least, maximum_matching};
use crate::refusals::Refusal;
use least_match::least;
use sp_ids::OutOfMemory;
use sp_pattern::NumberList;
use std::alloc::Global;

/// A maximum matching: for each column its row, and for each row its column, or 4,294,967,295 where
/// it has none. Gives the number of pairs. With `is_least` it is the least maximum matching: as a
/// list over the columns, with the number of rows for none, no maximum matching comes before it.
/// Without, it keeps the diagonal where each of its places is an entry.
///
/// `row_of_column` must have a place for each column and `column_of_row` for each row. A list of
/// length 0 is not wanted. These lengths are looked at first. After an `Err` nothing was written.
///
/// Where each place of the diagonal is an entry, or the first look that [`crate::rank`] describes
/// finds a maximum matching, the call makes no pattern, unless the least matching is asked for.
///
/// Returns `OutOfMemory` if it cannot allocate 4 bytes a row and 4 a column, and where `rank` does;
/// for the least matching also if it cannot allocate the pattern, and where `least_match::least`
/// does. Work: as `rank`, and one write for each place of a list; for the least matching the
/// pattern, where the first look finds no maximum one the start of Karp and Sipser and phases from
/// it, and what `least_match::least` says of its.
pub fn matching<N: NumberList>(
    alloc: Global,
    matrix: &Compressed<N>,
    is_least: bool,
    row_of_column: &mut [u32],
    column_of_row: &mut [u32],
) -> Result<u32, Refusal>
    ensures found { IfOk result (λ k. HasMatrix matrix.now (λ a. TellsMatching a is_least k
        row_of_column.old row_of_column.new column_of_row.old column_of_row.new)) }
    ensures refused { RefusesRightly (HaveMatesRoom matrix.now row_of_column.old column_of_row.old)
        matrix.now result }
    ensures kept { OnErr result ((row_of_column.new ≡ row_of_column.old)
        × (column_of_row.new ≡ column_of_row.old)) }
{
    if !is_room(row_of_column, matrix.columns()) || !is_room(column_of_row, matrix.rows()) {
        return Err(Refusal::Lengths);
    }
    matrix.check()?;
    let size = if is_least {
        write_least(alloc, matrix, row_of_column, column_of_row)?
    } else {
        write_any(alloc, matrix, row_of_column, column_of_row)?
    };
    Ok(size)
}

/// Writes the least maximum matching.
pub fn write_least<N: NumberList>(
    alloc: Global,
    matrix: &Compressed<N>,
    row_of_column: &mut [u32],
    column_of_row: &mut [u32],
) -> Result<u32, OutOfMemory>
    requires compressed { AreCompressed matrix.now }
    requires room { HaveMatesRoom matrix.now row_of_column.old column_of_row.old }
    ensures found { IfOk result (λ k. TellsMatching (matrix_given matrix.now) true k
        row_of_column.old row_of_column.new column_of_row.old column_of_row.new) }
    ensures kept { OnErr result ((row_of_column.new ≡ row_of_column.old)
        × (column_of_row.new ≡ column_of_row.old)) }
{
    let (pattern, matching) = matched_for_the_least(alloc, matrix)?;
    let matching = least(alloc, &pattern, matching)?;
    write_wanted_rows(&matching, row_of_column);
    write_wanted_columns(&matching, column_of_row);
    Ok(matching.size())
}

// Writes a maximum matching: that of a full diagonal, else one of the matrix whose compressed
// columns the lists are, turned where they are compressed rows.
fn write_any<N: NumberList>(
    alloc: Global,
    matrix: &Compressed<N>,
    row_of_column: &mut [u32],
    column_of_row: &mut [u32],
) -> Result<u32, OutOfMemory>
    requires compressed { AreCompressed matrix.now }
    requires room { HaveMatesRoom matrix.now row_of_column.old column_of_row.old }
    ensures found { IfOk result (λ k. TellsMatching (matrix_given matrix.now) false k
        row_of_column.old row_of_column.new column_of_row.old column_of_row.new) }
    ensures kept { OnErr result ((row_of_column.new ≡ row_of_column.old)
        × (column_of_row.new ≡ column_of_row.old)) }
{
    if let Some(matching) = full_diagonal(alloc, matrix)? {
        write_wanted_rows(&matching, row_of_column);
        write_wanted_columns(&matching, column_of_row);
        return Ok(matching.size());
    }
    let matching = maximum_matching(alloc, matrix)?;
    if matrix.by_rows {
        write_wanted_rows(&matching, column_of_row);
        write_wanted_columns(&matching, row_of_column);
    } else {
        write_wanted_rows(&matching, row_of_column);
        write_wanted_columns(&matching, column_of_row);
    }
    Ok(matching.size())
}
