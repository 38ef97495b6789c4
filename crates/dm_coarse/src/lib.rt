//! The coarse parts of a matrix, from a maximum matching, and the connected components of the outer
//! two.
#![tactic(auto)]

mod connected_components;
mod known_side;
mod searches;
mod split;

ghost use Rattle.std.specs.Prelude.{IfOk};
ghost use Rattle.bip_defs.specs.Parts.{MarkHorizontalRows, MarkVerticalCols};
ghost use Rattle.bip_graph.specs.Decompositions.{HasParts};
ghost use Rattle.bip_graph.specs.Matching.{IsIfMaximum, IsMatchingOf, IsMaximumOf};
ghost use Rattle.bip_graph.specs.OuterMarks.{AreOuterMarks};
ghost use Rattle.dm_coarse.specs.Searches.{AreColsIfMaximum, AreRowsIfMaximum};
ghost use Rattle.dm_coarse.specs.Split.{AreKnown};

use crate::known_side::mark_horizontal_cols;
use crate::searches::Matched;
use crate::split::split;
use bip_graph::{Matching, OuterMarks, Parts, matchings_of_the_transpose};
pub use connected_components::components;
use hall_witness::reached;
pub use known_side::horizontal_cols;
use sp_ids::{Col, OutOfMemory, Row};
use sp_pattern::{FromRows, Pattern};
use std::alloc::Global;
use std::thread::Threads;

/// The coarse parts of a matrix, from a maximum matching (Dulmage and Mendelsohn 1958; Pothen and
/// Fan 1990).
///
/// Two searches at once, from the unmatched columns and from the unmatched rows, mark the columns
/// and the rows that some maximum matching misses; where no thread can be made they run one after
/// the other. The rows of the horizontal part are the mates of its columns, the columns of the
/// vertical part those of its rows, and the square part has the rest.
///
/// Returns `OutOfMemory` if it cannot allocate 9 bytes a row and 9 a column for the searches, or 4
/// each for the lists. Work: each entry is looked at twice at most, and each row and column a fixed
/// number of times.
pub fn coarse<R: Threads + Sync>(
    rt: &R,
    alloc: Global,
    pattern: &Pattern,
    matching: &Matching,
) -> Result<Parts, OutOfMemory>
    requires maximum { IsMaximumOf pattern.now matching.now }
    ensures { IfOk result (HasParts pattern.now) }
{
    match coarse_if_maximum(rt, alloc, pattern, matching)? {
        Some(parts) => Ok(parts),
        None => unreachable!(),
    }
}

/// [`coarse`] on the calling thread alone, by one search after the other.
pub fn coarse_in_turn(
    alloc: Global,
    pattern: &Pattern,
    matching: &Matching,
) -> Result<Parts, OutOfMemory>
    requires maximum { IsMaximumOf pattern.now matching.now }
    ensures { IfOk result (HasParts pattern.now) }
{
    let matched = Matched { pattern, matching };
    let (cols, rows) = matched.marks_in_turn(alloc);
    match parts_if_marked(alloc, pattern, matching, cols?, rows?)? {
        Some(parts) => Ok(parts),
        None => unreachable!(),
    }
}

/// [`coarse`], where the last phase's marks are known: by one search, from the other side.
///
/// The horizontal columns are the unmatched ones and the mates of the horizontal rows, and the
/// vertical rows the unmatched ones and the mates of the vertical columns. Returns `OutOfMemory` if
/// it cannot allocate 9 bytes for each row or column on the side of the marks and 1 for each on the
/// other, or 4 each for the lists. Work: each entry is looked at once at most, and each row and
/// column a fixed number of times.
pub fn coarse_by_marks(
    alloc: Global,
    pattern: &Pattern,
    matching: &Matching,
    marks: &OuterMarks,
) -> Result<Parts, OutOfMemory>
    requires maximum { IsMaximumOf pattern.now matching.now }
    requires marks { AreOuterMarks pattern.now marks.now }
    ensures { IfOk result (HasParts pattern.now) }
{
    match marks {
        OuterMarks::HorizontalRows(rows) => {
            coarse_by_rows(alloc, pattern, matching, rows.as_slice())
        }
        OuterMarks::VerticalCols(cols) => {
            coarse_by_cols(alloc, pattern, matching, cols.as_slice())
        }
    }
}

// The parts, where it is known which rows are horizontal.
fn coarse_by_rows(
    alloc: Global,
    pattern: &Pattern,
    matching: &Matching,
    horizontal: &[bool],
) -> Result<Parts, OutOfMemory>
    requires maximum { IsMaximumOf pattern.now matching.now }
    requires rows { MarkHorizontalRows pattern.now horizontal.now }
    ensures { IfOk result (HasParts pattern.now) }
{
    matchings_of_the_transpose();
    let cols = mark_horizontal_cols(alloc, pattern, matching, horizontal)?;
    let rows = reached(alloc, &FromRows { pattern }, matching)?;
    parts_by(alloc, pattern, matching, cols.as_slice(), rows.as_slice())
}

// The parts, where it is known which columns are vertical.
fn coarse_by_cols(
    alloc: Global,
    pattern: &Pattern,
    matching: &Matching,
    vertical: &[bool],
) -> Result<Parts, OutOfMemory>
    requires maximum { IsMaximumOf pattern.now matching.now }
    requires cols { MarkVerticalCols pattern.now vertical.now }
    ensures { IfOk result (HasParts pattern.now) }
{
    matchings_of_the_transpose();
    // The vertical columns are the horizontal rows of the transpose.
    let rows = mark_horizontal_cols(alloc, &FromRows { pattern }, matching, vertical)?;
    let cols = reached(alloc, pattern, matching)?;
    parts_by(alloc, pattern, matching, cols.as_slice(), rows.as_slice())
}

/// [`coarse`] from a matching of which it is not known whether it is maximum: the same two searches
/// tell. Where it is not, there are no parts.
///
/// The matching must be of the pattern's entries and sizes. Answers `OutOfMemory` as `coarse` does.
/// Work: as much at most; where the matching is not maximum, each search ends where it comes to the
/// end of an augmenting path (Berge 1957).
pub fn coarse_if_maximum<R: Threads + Sync>(
    rt: &R,
    alloc: Global,
    pattern: &Pattern,
    matching: &Matching,
) -> Result<Option<Parts>, OutOfMemory>
    requires matching { IsMatchingOf pattern.now matching.now }
    ensures { IfOk result (IsIfMaximum pattern.now matching.now.pairs (HasParts pattern.now)) }
{
    let matched = Matched { pattern, matching };
    let (cols, rows) = matched.marks(rt, alloc);
    parts_if_marked(alloc, pattern, matching, cols?, rows?)
}

// The parts, where both searches have marked what they look for, which tells that the matching is
// maximum.
fn parts_if_marked(
    alloc: Global,
    pattern: &Pattern,
    matching: &Matching,
    horizontal: Option<Vec<bool>>,
    vertical: Option<Vec<bool>>,
) -> Result<Option<Parts>, OutOfMemory>
    requires matching { IsMatchingOf pattern.now matching.now }
    requires horizontal { AreColsIfMaximum pattern.now matching.now horizontal }
    requires vertical { AreRowsIfMaximum pattern.now matching.now vertical }
    ensures { IfOk result (IsIfMaximum pattern.now matching.now.pairs (HasParts pattern.now)) }
{
    let Some(cols) = horizontal else {
        return Ok(None);
    };
    let Some(rows) = vertical else {
        return Ok(None);
    };
    let parts = parts_by(alloc, pattern, matching, cols.as_slice(), rows.as_slice())?;
    Ok(Some(parts))
}

// The parts, where it is known which columns are horizontal and which rows are vertical.
fn parts_by(
    alloc: Global,
    pattern: &Pattern,
    matching: &Matching,
    horizontal: &[bool],
    vertical: &[bool],
) -> Result<Parts, OutOfMemory>
    requires { AreKnown pattern.now matching.now horizontal.now vertical.now }
    ensures { IfOk result (HasParts pattern.now) }
{
    matchings_of_the_transpose();
    let of_rows = split::<Row, Pattern>(alloc, pattern, matching, horizontal, vertical)?;
    // The horizontal columns are the vertical rows of the transpose.
    let side = FromRows { pattern };
    let of_cols = split::<Col, FromRows>(alloc, &side, matching, vertical, horizontal)?;
    Ok(Parts {
        hr: of_rows.horizontal,
        hc: of_cols.vertical,
        sr: of_rows.square,
        sc: of_cols.square,
        vr: of_rows.vertical,
        vc: of_cols.horizontal,
    })
}
