//! Maximum matchings by Pothen and Fan's phases of depth-first searches for augmenting paths, and
//! then by breadth-first ones.
//!
//! Phases search from the columns or from the rows: from the side on which fewer unmatched ones
//! have entries, since most searches from the other side are bound to fail, and such a search looks
//! at all that it reaches (Davis 2006 compares the sides of the matrix, before any is matched).
//! What follows is said of columns; from the rows it is the same for the transpose.
//!
//! A phase, after Pothen and Fan (1990), searches once from each unmatched column, and comes to each
//! row at most once: no row is visited by two of its searches, so its paths have no vertex in
//! common. Each column's list is looked through for an unmatched row before the search goes deeper,
//! from where the last look-ahead ended: rows that were found matched stay matched. So a phase is
//! at most two passes over the entries. Phases turn the direction in which lists are read (Duff,
//! Kaya and Uçar 2011).
//!
//! There is at least one such phase, and another one as long as the last one has matched at least
//! half of what was left. They find many paths fast, but a path may go through thousands of columns
//! where one of twenty is there, and where few columns are left, a phase still goes over most of
//! the matrix. So after a phase that matched less than half another search completes the matching:
//! that of `breadth_first_match`, whose trees grow from all unmatched columns at once.
#![tactic(auto)]

mod longer;
mod sweep;

ghost use Rattle.std.specs.Prelude.{◌≡◌, ◌⊎◌, ◌↔◌, ◌+◌, ◌<◌, length, IfOk, OnErr};
ghost use Rattle.bip_defs.specs.Matching.{Covers, IsMaximum};
ghost use Rattle.bip_graph.specs.Matching.{IsMatchingOf, IsMaximumOf};
ghost use Rattle.bip_graph.specs.OuterMarks.{AreOuterMarks};

use crate::longer::{complete_from_with_marks, lengthen_from};
use bip_graph::{Matching, OuterMarks, matchings_of_the_transpose};
use path_search::count_roots;
use sp_ids::OutOfMemory;
use sp_pattern::{FromRows, Pattern};
use std::alloc::Global;
pub use sweep::phase_from;

/// One depth-first phase from the columns. Gives by how much the matching has grown: 0 exactly
/// where it was maximum, and then it stays as it was.
///
/// The matching must be of the pattern's entries and sizes, and no row or column loses its mate
/// without a new one. Returns `OutOfMemory` if it cannot allocate 17 bytes a row, 4 a column and 4
/// an unmatched column that has entries; the matching is as before then. Work: at most two passes
/// over the entries, one of look-ahead and one of the searches.
pub fn phase(alloc: Global, pattern: &Pattern, matching: &mut Matching) -> Result<u32, OutOfMemory>
    requires matching { IsMatchingOf pattern.now matching.old }
    ensures matching { IsMatchingOf pattern.now matching.new }
    ensures growth { IfOk result (λ k. length matching.new.pairs ≡ length matching.old.pairs + k) }
    ensures maximum { IfOk result (λ k. (k ≡ 0) ↔ IsMaximum pattern.now matching.old.pairs) }
    ensures same { IfOk result (λ k. k ≡ 0 → matching.new ≡ matching.old) }
    ensures covered { Covers matching.old.pairs matching.new.pairs }
    ensures refused { OnErr result (matching.new ≡ matching.old) }
{
    phase_from(alloc, pattern, matching)
}

/// A maximum matching, in which every row and column that was matched before is matched.
///
/// Phases search from the side on which fewer unmatched rows or columns have entries, and from the
/// columns where they are as many: depth-first as [`lengthen`] does, and then, unless the last of
/// these found no path, as `breadth_first_match::complete` does. The matching must be of the
/// pattern's entries and sizes. Returns `OutOfMemory` if it cannot allocate 4 bytes a vertex of the
/// side that is searched from, 4 more where it is unmatched and has entries, and 17 a vertex of the
/// other side, or for what the other search takes after these are freed; the matching is dropped
/// then. Work: one look at each row and column, at most two passes over the entries for each
/// depth-first phase, and the work of the other search. All phases but the last of each kind make
/// the matching larger.
pub fn complete(
    alloc: Global,
    pattern: &Pattern,
    matching: Matching,
) -> Result<Matching, OutOfMemory>
    requires matching { IsMatchingOf pattern.now matching }
    ensures maximum { IfOk result (λ m. IsMaximumOf pattern.now m) }
    ensures covered { IfOk result (λ m. Covers matching.pairs m.pairs) }
{
    let (maximum, _marks) = complete_with_marks(alloc, pattern, matching)?;
    Ok(maximum)
}

/// [`complete`], with what the last phase has marked: the horizontal rows where phases searched from
/// the columns, and the vertical columns where they searched from the rows.
///
/// A phase that finds no path has gone over exactly the rows of the columns that alternating paths
/// lead to from unmatched columns (Dulmage and Mendelsohn 1958; Pothen and Fan 1990), and seen from
/// the rows over the columns of such rows. Memory, errors and work: as those of `complete`; of its
/// memory a byte a row, or a byte a column, stays in use.
pub fn complete_with_marks(
    alloc: Global,
    pattern: &Pattern,
    matching: Matching,
) -> Result<(Matching, OuterMarks), OutOfMemory>
    requires matching { IsMatchingOf pattern.now matching }
    ensures maximum { IfOk result (λ p. IsMaximumOf pattern.now p.0) }
    ensures covered { IfOk result (λ p. Covers matching.pairs p.0.pairs) }
    ensures marks { IfOk result (λ p. AreOuterMarks pattern.now p.1) }
{
    matchings_of_the_transpose();
    let from_rows = FromRows { pattern };
    if count_roots(&from_rows, &matching) < count_roots(pattern, &matching) {
        let (maximum, marks) = complete_from_with_marks(alloc, &from_rows, matching)?;
        Ok((maximum, OuterMarks::VerticalCols(marks)))
    } else {
        let (maximum, marks) = complete_from_with_marks(alloc, pattern, matching)?;
        Ok((maximum, OuterMarks::HorizontalRows(marks)))
    }
}

/// A longer matching, in which every row and column that was matched before is matched, unless the
/// matching was maximum: then it is as long.
///
/// It makes depth-first phases, at least one, from the side that `complete` searches from, and
/// another after each that has matched at least half of what was unmatched and has entries. So it
/// need not end at a maximum matching: it takes what is found fast. The matching must be of the
/// pattern's entries and sizes. Returns `OutOfMemory` if it cannot allocate 4 bytes a vertex of the
/// side that is searched from, 4 more where it is unmatched and has entries, and 17 a vertex of the
/// other side; the matching is dropped then. Work: one look at each row and column, and at most two
/// passes over the entries for each phase.
pub fn lengthen(
    alloc: Global,
    pattern: &Pattern,
    matching: Matching,
) -> Result<Matching, OutOfMemory>
    requires matching { IsMatchingOf pattern.now matching }
    ensures matching { IfOk result (λ m. IsMatchingOf pattern.now m) }
    ensures longer { IfOk result (λ m. IsMaximum pattern.now m.pairs
        ⊎ (length matching.pairs < length m.pairs)) }
    ensures covered { IfOk result (λ m. Covers matching.pairs m.pairs) }
{
    matchings_of_the_transpose();
    let from_rows = FromRows { pattern };
    if count_roots(&from_rows, &matching) < count_roots(pattern, &matching) {
        let (longer, _marks) = lengthen_from(alloc, &from_rows, matching)?;
        Ok(longer)
    } else {
        let (longer, _marks) = lengthen_from(alloc, pattern, matching)?;
        Ok(longer)
    }
}
