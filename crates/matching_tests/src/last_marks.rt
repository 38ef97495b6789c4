//! What the last phase of the engine of Pothen and Fan has marked, the coarse parts and the horizontal
//! columns by it, and the horizontal rows by a search, worked out by hand.

ghost use Rattle.bip_defs.specs.Parts.{MarkHorizontalRows};
ghost use Rattle.bip_graph.specs.Matching.{IsMaximumOf};
ghost use Rattle.bip_graph.specs.OuterMarks.{AreOuterMarks};

use crate::pairs::are_marks;
use bip_graph::{Matching, OuterMarks, Parts};
use dm_coarse::{coarse_by_marks, horizontal_cols};
use horizontal_rows::horizontal_rows;
use pothen_fan::complete_with_marks;
use sp_ids::OutOfMemory;
use sp_pattern::Pattern;
use sp_ports::NoGate;
use std::alloc::Global;
use std::test::Fail;
use std::thread::Threads;
use test_matrices::{are, matching_of, pattern_of};

/// Rows and columns of a part, which count from 1.
type Part = (&'static [u32], &'static [u32]);

/// A matrix, what is marked in it where phases begin at no pairs, and its parts.
#[derive(Clone, Copy)]
struct Marked {
    name: &'static str,
    rows: u32,
    cols: u32,
    places: &'static [(u32, u32)],
    // Whether phases search from the rows, and so mark columns.
    from_rows: bool,
    marked: &'static [u32],
    horizontal: Part,
    square: Part,
    vertical: Part,
}

#[rattlefmt::skip]
static MARKED: [Marked; 9] = [
    // Columns 1 and 2 have row 1 alone, and rows 2 and 3 have column 3 alone.
    Marked {
        name: "square and deficient", rows: 3, cols: 3, places: &[(1, 1), (1, 2), (2, 3), (3, 3)],
        from_rows: false, marked: &[1],
        horizontal: (&[1], &[1, 2]), square: (&[], &[]), vertical: (&[2, 3], &[3]),
    },
    // Each column is missed by a matching of two others.
    Marked {
        name: "wide", rows: 2, cols: 4, places: &[(1, 1), (1, 2), (1, 3), (2, 3), (2, 4)],
        from_rows: true, marked: &[],
        horizontal: (&[1, 2], &[1, 2, 3, 4]), square: (&[], &[]), vertical: (&[], &[]),
    },
    Marked {
        name: "tall", rows: 4, cols: 2, places: &[(1, 1), (2, 1), (3, 2), (4, 2)],
        from_rows: false, marked: &[],
        horizontal: (&[], &[]), square: (&[], &[]), vertical: (&[1, 2, 3, 4], &[1, 2]),
    },
    Marked {
        name: "perfect", rows: 2, cols: 2, places: &[(1, 1), (1, 2), (2, 2)],
        from_rows: false, marked: &[],
        horizontal: (&[], &[]), square: (&[1, 2], &[1, 2]), vertical: (&[], &[]),
    },
    Marked {
        name: "no rows, no columns", rows: 0, cols: 0, places: &[],
        from_rows: false, marked: &[],
        horizontal: (&[], &[]), square: (&[], &[]), vertical: (&[], &[]),
    },
    Marked {
        name: "no entries", rows: 2, cols: 3, places: &[],
        from_rows: false, marked: &[],
        horizontal: (&[], &[1, 2, 3]), square: (&[], &[]), vertical: (&[1, 2], &[]),
    },
    Marked {
        name: "unmatched columns without entries", rows: 2, cols: 3, places: &[(1, 2), (2, 2)],
        from_rows: false, marked: &[],
        horizontal: (&[], &[1, 3]), square: (&[], &[]), vertical: (&[1, 2], &[2]),
    },
    // Fewer rows have entries than columns.
    Marked {
        name: "all entries in few rows", rows: 3, cols: 4,
        places: &[(1, 1), (2, 1), (3, 2), (3, 3), (3, 4)],
        from_rows: true, marked: &[1],
        horizontal: (&[3], &[2, 3, 4]), square: (&[], &[]), vertical: (&[1, 2], &[1]),
    },
    // Walks lead from column 1 over row 1 to column 2 and over row 2 to column 3, or back. Rows
    // 1 and 3 have entries in later parts too.
    Marked {
        name: "all three parts", rows: 6, cols: 5,
        places: &[
            (1, 1), (1, 2), (2, 2), (2, 3), (1, 4), (3, 4), (3, 5), (4, 5), (5, 5), (6, 5),
        ],
        from_rows: false, marked: &[1, 2],
        horizontal: (&[1, 2], &[1, 2, 3]), square: (&[3], &[4]), vertical: (&[4, 5, 6], &[5]),
    },
];

/// Whether these are the six lists of the parts.
fn are_parts(wanted: &Marked, parts: &Parts) -> bool {
    are(parts.hr.as_slice(), wanted.horizontal.0)
        && are(parts.hc.as_slice(), wanted.horizontal.1)
        && are(parts.sr.as_slice(), wanted.square.0)
        && are(parts.sc.as_slice(), wanted.square.1)
        && are(parts.vr.as_slice(), wanted.vertical.0)
        && are(parts.vc.as_slice(), wanted.vertical.1)
}

/// Whether marks of rows lead to the horizontal columns.
fn has_cols(
    alloc: Global,
    wanted: &Marked,
    pattern: &Pattern,
    matching: &Matching,
    rows: &[bool],
) -> Result<bool, OutOfMemory>
    requires maximum { IsMaximumOf pattern.now matching.now }
    requires rows { MarkHorizontalRows pattern.now rows.now }
{
    let cols = horizontal_cols(alloc, pattern, matching, rows)?;
    Ok(are(cols.as_slice(), wanted.horizontal.1))
}

/// Whether the marks are as wanted, and where they are of rows, so are the horizontal columns.
fn has_marks(
    alloc: Global,
    wanted: &Marked,
    pattern: &Pattern,
    matching: &Matching,
    marks: &OuterMarks,
) -> Result<bool, OutOfMemory>
    requires maximum { IsMaximumOf pattern.now matching.now }
    requires marks { AreOuterMarks pattern.now marks.now }
{
    match marks {
        OuterMarks::HorizontalRows(rows) => {
            let are_right = are_marks(rows.as_slice(), wanted.rows, wanted.marked);
            let leads_to_cols = has_cols(alloc, wanted, pattern, matching, rows.as_slice())?;
            Ok(!wanted.from_rows && are_right && leads_to_cols)
        }
        OuterMarks::VerticalCols(cols) => {
            Ok(wanted.from_rows && are_marks(cols.as_slice(), wanted.cols, wanted.marked))
        }
    }
}

/// Whether the parts by the marks are as wanted.
fn has_parts(
    alloc: Global,
    wanted: &Marked,
    pattern: &Pattern,
    matching: &Matching,
    marks: &OuterMarks,
) -> Result<bool, OutOfMemory>
    requires maximum { IsMaximumOf pattern.now matching.now }
    requires marks { AreOuterMarks pattern.now marks.now }
{
    let parts = coarse_by_marks(alloc, pattern, matching, marks)?;
    Ok(are_parts(wanted, &parts))
}

/// Whether the search that takes up the columns in order marks the horizontal rows.
fn has_rows(
    alloc: Global,
    wanted: &Marked,
    pattern: &Pattern,
    matching: &Matching,
) -> Result<bool, OutOfMemory>
    requires maximum { IsMaximumOf pattern.now matching.now }
{
    let rows = horizontal_rows(alloc, pattern, matching)?;
    Ok(are_marks(rows.as_slice(), wanted.rows, wanted.horizontal.0))
}

/// Whether the last phase marks what it is to mark, and the rows and parts are as wanted.
fn marks_all(alloc: Global, wanted: &Marked, pattern: &Pattern) -> Result<bool, Fail> {
    let no_pairs = matching_of(alloc, pattern, &[])?;
    let (matching, marks) = complete_with_marks(alloc, pattern, no_pairs)?;
    Ok(
        has_rows(alloc, wanted, pattern, &matching)?
            && has_marks(alloc, wanted, pattern, &matching, &marks)?
            && has_parts(alloc, wanted, pattern, &matching, &marks)?,
    )
}

/// Whether the last serial phase of the search by workers marks the same. There is none without
/// entries.
fn serial_marks_all<R: AllocGlobal + Threads + Sync>(
    rt: &R,
    wanted: &Marked,
    pattern: &Pattern,
) -> Result<bool, Fail> {
    let no_pairs = matching_of(rt.alloc(), pattern, &[])?;
    let completed = tree_graft::complete_with_marks(rt, rt.alloc(), pattern, no_pairs, 2, &NoGate);
    let (matching, marks) = completed?;
    match marks {
        Some(marks) => Ok(
            !wanted.places.is_empty()
                && has_marks(rt.alloc(), wanted, pattern, &matching, &marks)?
                && has_parts(rt.alloc(), wanted, pattern, &matching, &marks)?,
        ),
        None => Ok(wanted.places.is_empty()),
    }
}

#[test]
fn the_last_phase_marks_the_horizontal_rows(rt: HostRuntime) -> Result<(), Fail> {
    for wanted in &MARKED {
        let pattern = pattern_of(&rt, wanted.rows, wanted.cols, wanted.places)?;
        assert!(rt; marks_all(rt.alloc(), wanted, &pattern)?, "{}", wanted.name);
    }
    Ok(())
}

#[test]
fn so_does_the_last_serial_phase_before_workers(rt: HostRuntime) -> Result<(), Fail> {
    for wanted in &MARKED {
        let pattern = pattern_of(&rt, wanted.rows, wanted.cols, wanted.places)?;
        assert!(rt; serial_marks_all(&rt, wanted, &pattern)?, "{}", wanted.name);
    }
    Ok(())
}
