//! Maximum matchings by phases of breadth-first searches for augmenting paths, from all unmatched
//! columns or rows at once.
//!
//! Phases search from the columns or from the rows: from the side on which fewer unmatched ones
//! have entries, since most searches from the other side are bound to fail, and such a search looks
//! at all that it reaches (Davis 2006 compares the sides of the matrix, before any is matched).
//! What follows is said of columns; from the rows it is the same for the transpose.
//!
//! A phase grows a tree from each unmatched column, all of them side by side and each until it
//! finds an unmatched row (Azad, Buluç and Pothen 2017, whose trees are grafted between phases and
//! here grow anew). Its paths are short, but unlike those of Hopcroft and Karp (1973) they need not
//! be the shortest, nor as many as there can be.
//!
//! Nothing bounds the number of such phases but the rank. So after 128 of them, which few matrices
//! come to, all further ones exchange shortest augmenting paths without a vertex in common, until
//! none is left beside them (Hopcroft and Karp 1973): they are at most twice the square root of the
//! rank, and two more. They are not begun with, since on many matrices they find few paths each.
#![tactic(auto)]

mod phases;
mod shortest;

ghost use Rattle.std.specs.Prelude.{IfOk};
ghost use Rattle.bip_defs.specs.Matching.{Covers};
ghost use Rattle.bip_graph.specs.Matching.{IsMatchingOf, IsMaximumOf};
ghost use Rattle.bip_graph.specs.OuterMarks.{AreOuterMarks};

use bip_graph::{Matching, OuterMarks, matchings_of_the_transpose};
use path_search::count_roots;
pub use phases::{complete_from, complete_from_with_marks};
use sp_ids::OutOfMemory;
use sp_pattern::{FromRows, Pattern};
use std::alloc::Global;

/// A maximum matching, in which every row and column that was matched before is matched.
///
/// Phases search from the side on which fewer unmatched rows or columns have entries, and from the
/// columns where they are as many. The matching must be of the pattern's entries and sizes. Returns
/// `OutOfMemory` if it cannot allocate 12 bytes a vertex of the side that is searched from and 9 a
/// vertex of the other, for phases of shortest paths 8 more of the first, with what two growing
/// lists of vertices take; the matching is dropped then. Work: one look at each row and column, and
/// at most one pass over the entries for each phase. All but the last make the matching larger.
/// They are at most 128, and then at most 2 sqrt(rank) + 2 of shortest paths, of two passes each,
/// the last of which makes a pass more.
pub fn complete(
    alloc: Global,
    pattern: &Pattern,
    matching: Matching,
) -> Result<Matching, OutOfMemory>
    requires matching { IsMatchingOf pattern.now matching }
    ensures maximum { IfOk result (λ m. IsMaximumOf pattern.now m) }
    ensures covered { IfOk result (λ m. Covers matching.pairs m.pairs) }
{
    let (maximum, _marks) = complete_with_marks(alloc, pattern, matching)?;
    Ok(maximum)
}

/// [`complete`], with what the last phase has marked: the horizontal rows where phases searched from
/// the columns, and the vertical columns where they searched from the rows.
///
/// A phase that finds no path has gone over exactly the rows of the columns that alternating paths
/// lead to from unmatched columns (Dulmage and Mendelsohn 1958; Pothen and Fan 1990), and seen from
/// the rows over the columns of such rows. Memory, errors and work: as those of `complete`; of its
/// memory a byte a row, or a byte a column, stays in use.
pub fn complete_with_marks(
    alloc: Global,
    pattern: &Pattern,
    matching: Matching,
) -> Result<(Matching, OuterMarks), OutOfMemory>
    requires matching { IsMatchingOf pattern.now matching }
    ensures maximum { IfOk result (λ p. IsMaximumOf pattern.now p.0) }
    ensures covered { IfOk result (λ p. Covers matching.pairs p.0.pairs) }
    ensures marks { IfOk result (λ p. AreOuterMarks pattern.now p.1) }
{
    matchings_of_the_transpose();
    let from_rows = FromRows { pattern };
    if count_roots(&from_rows, &matching) < count_roots(pattern, &matching) {
        let (maximum, marks) = complete_from_with_marks(alloc, &from_rows, matching)?;
        Ok((maximum, OuterMarks::VerticalCols(marks)))
    } else {
        let (maximum, marks) = complete_from_with_marks(alloc, pattern, matching)?;
        Ok((maximum, OuterMarks::HorizontalRows(marks)))
    }
}
