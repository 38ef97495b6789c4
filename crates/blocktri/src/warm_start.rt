//! Maximum matchings that begin at pairs which the caller has.

ghost use Rattle.std.specs.Prelude.{◌≡◌, ◌↔◌, ◌<◌, IfOk, IsTrue, OnErr};
ghost use Rattle.bip_defs.specs.Lists.{Among};
ghost use Rattle.bip_defs.specs.Matching.{Covers, IsMaximum};
ghost use Rattle.bip_graph.specs.Matching.{IsMatchingOf, IsMaximumOf};
ghost use Rattle.blocktri.specs.Compressed.{AreCompressed, HasMatrix, matrix_given, pick};
ghost use Rattle.blocktri.specs.GivenPairs.{HavePairsRoom, RefusesPairsRightly, TellsMatchingFrom, lists_matched};

use crate::compressed::{Compressed, is_room};
use crate::given_pairs::given_matching;
use crate::matchings::write_least;
use crate::mates::{write_wanted_columns, write_wanted_rows};
use crate::pairs_refusals::PairsRefusal;
use crate::rising_columns::{RisingColumns, are_rising};
use bip_graph::Matching;
use breadth_first_match::{complete, complete_from};
use sp_ids::{Col, OutOfMemory, Row};
use sp_pattern::{NumberList, columns_give_their_places};
use std::alloc::Global;

/// A maximum matching, from pairs that the caller has, as [`crate::matching`] gives one. Where a
/// matrix has changed little since it was matched, most of its pairs are still right, and few
/// searches are left.
///
/// `row_of_column` is read first: for each column its row, or 4,294,967,295 for none. Each pair must
/// be an entry, and no row may have two columns. Each row and each column that is matched there is
/// matched in the answer too, if not by the same pair. With `is_least` the pairs are looked at, and
/// the answer is the least maximum matching, which does not depend on them.
///
/// `row_of_column` must have a place for each column, `column_of_row` for each row or none where it
/// is not wanted. These lengths are looked at first, then the matrix, then the pairs: `BadPair`
/// exactly where one of them is wrong, with the first column where one is. After an `Err` nothing
/// was written.
///
/// Where all rows are matched by the pairs, or all columns, or all columns that have entries, by
/// rows all rows that have some, the call makes no pattern. Else searches from all unmatched columns at once go on from the pairs: of
/// compressed columns whose numbers rise over a copy of 4 bytes a number and 4 a column, of all
/// others over the pattern, from the side on which fewer are unmatched.
///
/// Returns `OutOfMemory` if it cannot allocate 4 bytes a row and 4 a column and what these searches
/// take; for the least matching where [`crate::matching`] does. Work: one look at each pair and at
/// most one at each number for the pairs, one at each number for whether they rise, and then as
/// `breadth_first_match::complete_from` or `complete` says; for the least matching as `matching`.
pub fn matching_from<N: NumberList>(
    alloc: Global,
    matrix: &Compressed<N>,
    is_least: bool,
    row_of_column: &mut [u32],
    column_of_row: &mut [u32],
) -> Result<u32, PairsRefusal>
    ensures found { IfOk result (λ k. HasMatrix matrix.now (λ a. TellsMatchingFrom a is_least k
        row_of_column.old row_of_column.new column_of_row.old column_of_row.new)) }
    ensures refused { RefusesPairsRightly
        (HavePairsRoom matrix.now row_of_column.old column_of_row.old) matrix.now
        row_of_column.old result }
    ensures kept { OnErr result ((row_of_column.new ≡ row_of_column.old)
        × (column_of_row.new ≡ column_of_row.old)) }
{
    if !have_room(matrix, row_of_column, column_of_row) {
        return Err(PairsRefusal::Lengths);
    }
    matrix.check()?;
    let start = given_matching(alloc, matrix, row_of_column)?;
    if is_least {
        drop(start);
        let size = write_least(alloc, matrix, row_of_column, column_of_row)?;
        return Ok(size);
    }
    let matching = completed(alloc, matrix, start)?;
    write_wanted_rows(&matching, row_of_column);
    write_wanted_columns(&matching, column_of_row);
    Ok(matching.size())
}

// Whether the list to be read has a place for each column, and the other one the right length.
fn have_room<N: NumberList>(
    matrix: &Compressed<N>,
    row_of_column: &[u32],
    column_of_row: &[u32],
) -> bool
    ensures { IsTrue result ↔ HavePairsRoom matrix.now row_of_column.now column_of_row.now }
{
    row_of_column.len() as u64 == matrix.columns() && is_room(column_of_row, matrix.rows())
}

// A maximum matching in which each row and column is matched that was.
fn completed<N: NumberList>(
    alloc: Global,
    matrix: &Compressed<N>,
    start: Matching,
) -> Result<Matching, OutOfMemory>
    requires compressed { AreCompressed matrix.now }
    requires start { IsMatchingOf (matrix_given matrix.now) start }
    ensures maximum { IfOk result (IsMaximumOf (matrix_given matrix.now)) }
    ensures covered { IfOk result (λ m. Covers start.pairs m.pairs) }
{
    if is_complete(matrix, &start) {
        return Ok(start);
    }
    if !matrix.by_rows && are_rising(matrix.starts, matrix.ids) {
        let rows = matrix.others as u32;
        let columns = RisingColumns::copy(alloc, rows, matrix.starts, matrix.ids)?;
        return complete_from(alloc, &columns, start);
    }
    let pattern = matrix.pattern(alloc)?;
    complete(alloc, &pattern, start)
}

// Whether all rows are matched, or all columns, or all columns, by rows all rows, that have
// entries.
fn is_complete<N: NumberList>(matrix: &Compressed<N>, matching: &Matching) -> bool
    requires compressed { AreCompressed matrix.now }
    requires matching { IsMatchingOf (matrix_given matrix.now) matching.now }
    ensures { IsTrue result → IsMaximum (matrix_given matrix.now) matching.now.pairs }
{
    let size = matching.size();
    if size == matching.rows() {
        return true;
    }
    if size == matching.cols() {
        return true;
    }
    are_lists_matched(matrix, matching)
}

// Whether all columns, by rows all rows, that have entries are matched.
fn are_lists_matched<N: NumberList>(matrix: &Compressed<N>, matching: &Matching) -> bool
    requires compressed { AreCompressed matrix.now }
    requires matching { IsMatchingOf (matrix_given matrix.now) matching.now }
    ensures { IsTrue result → IsMaximum (matrix_given matrix.now) matching.now.pairs }
{
    columns_give_their_places();
    let lists = (matrix.starts.len() - 1) as u32;
    for list in 0..lists {
        let from = matrix.starts.at(list as usize);
        let to = matrix.starts.at(list as usize + 1);
        if from < to {
            if !is_matched(matching, matrix.by_rows, list) {
                return false;
            }
        }
    }
    true
}

// Whether a column, by rows a row, is matched.
fn is_matched(matching: &Matching, by_rows: bool, list: u32) -> bool
    requires list { list < pick by_rows matching.now.rows matching.now.cols }
    ensures { IsTrue result → Among list (lists_matched by_rows matching.now.pairs) }
{
    if by_rows {
        matching.col_of(Row(list)).is_some()
    } else {
        matching.row_of(Col(list)).is_some()
    }
}
