//! Each matrix of the table as compressed columns of both widths, in which the rows of a column stand
//! in no order and each place is given twice; and lists that are no compressed columns.

ghost use Rattle.bip_graph.specs.Matching.{IsMaximumOf};

use crate::parts::{has_fine_blocks, has_parts};
use bip_graph::Matching;
use dm_coarse::coarse_in_turn;
use hall_witness::plain;
use sp_ids::{Col, Row};
use sp_pattern::{ColumnsError, Narrow, NumberList, Pattern, Wide, check_columns};
use std::alloc::Global;
use std::test::Fail;
use test_matrices::{Worked, worked_matrices};

/// A matrix as compressed columns.
#[derive(Drop)]
struct Columns {
    rows: u32,
    starts: Vec<u32>,
    ids: Vec<u32>,
}

/// Adds the rows of a column, which counts from 0, among places, which count from 1: from its last
/// place to its first, and then once more from the first to the last. Tells how many.
fn push_rows(ids: &mut Vec<u32>, places: &[(u32, u32)], col: u32) -> Result<u32, Fail> {
    let mut count: u32 = 0;
    for (row, at) in places.iter().rev() {
        if at.wrapping_sub(1) == col {
            ids.push(row.wrapping_sub(1))?;
            count = count.wrapping_add(1);
        }
    }
    for (row, at) in places {
        if at.wrapping_sub(1) == col {
            ids.push(row.wrapping_sub(1))?;
            count = count.wrapping_add(1);
        }
    }
    Ok(count)
}

/// The columns of a matrix.
fn columns_of(alloc: Global, worked: &Worked<'_>) -> Result<Columns, Fail> {
    let (rows, cols) = sizes_of(alloc, worked)?;
    let places = worked.pairs(alloc, "places")?;
    compressed(alloc, rows, cols, places.as_slice())
}

fn sizes_of(alloc: Global, worked: &Worked<'_>) -> Result<(u32, u32), Fail> {
    let sizes = worked.pairs(alloc, "sizes")?;
    Ok(*sizes.get(0).ok_or("no sizes")?)
}

fn compressed(alloc: Global, rows: u32, cols: u32, places: &[(u32, u32)]) -> Result<Columns, Fail> {
    let mut starts = vec![in alloc; 0]?;
    let mut ids = Vec::new(alloc);
    let mut count: u32 = 0;
    for col in 0..cols {
        count = count.wrapping_add(push_rows(&mut ids, places, col)?);
        starts.push(count)?;
    }
    Ok(Columns { rows, starts, ids })
}

/// The numbers, in 64 bits.
fn widened(alloc: Global, numbers: &[u32]) -> Result<Vec<u64>, Fail> {
    let mut wide = Vec::new(alloc);
    for number in numbers {
        wide.push(*number as u64)?;
    }
    Ok(wide)
}

/// Whether the pattern has these places, each once. Rows and columns count from 1.
fn has_places(pattern: &Pattern, places: &[(u32, u32)]) -> bool {
    for (row, col) in places {
        if !pattern.has(Row(row.wrapping_sub(1)), Col(col.wrapping_sub(1))) {
            return false;
        }
    }
    pattern.entries() as usize == places.len()
}

/// Whether the parts and the blocks are those of the table.
fn is_decomposed(
    alloc: Global,
    worked: &Worked<'_>,
    pattern: &Pattern,
    matching: &Matching,
) -> Result<bool, Fail>
    requires { IsMaximumOf pattern.now matching.now }
{
    let parts = coarse_in_turn(alloc, pattern, matching)?;
    Ok(
        has_parts(alloc, worked, &parts)?
            && has_fine_blocks(alloc, worked, pattern, matching, &parts)?,
    )
}

/// Whether the places, the rank, the parts and the blocks of a pattern are those of the table.
fn is_analysed(alloc: Global, worked: &Worked<'_>, pattern: &Pattern) -> Result<bool, Fail> {
    let places = worked.pairs(alloc, "places")?;
    let rank = worked.rank(alloc)?;
    let (matching, _columns) = plain(alloc, pattern)?;
    Ok(
        has_places(pattern, places.as_slice())
            && matching.size() == rank
            && is_decomposed(alloc, worked, pattern, &matching)?,
    )
}

/// Whether columns have a pattern of so many rows, with all that the table tells of it.
fn are_right<N: NumberList>(
    alloc: Global,
    worked: &Worked<'_>,
    rows: u32,
    starts: N,
    ids: N,
) -> Result<bool, Fail> {
    match Pattern::of_columns(alloc, rows as u64, starts, ids) {
        Ok(pattern) => Ok(pattern.rows() == rows && is_analysed(alloc, worked, &pattern)?),
        Err(_) => Ok(false),
    }
}

/// Whether columns of 32 bits are right.
fn narrow_are_right(alloc: Global, worked: &Worked<'_>, columns: &Columns) -> Result<bool, Fail> {
    let starts = Narrow {
        list: columns.starts.as_slice(),
    };
    let ids = Narrow {
        list: columns.ids.as_slice(),
    };
    are_right(alloc, worked, columns.rows, starts, ids)
}

/// Whether columns of 64 bits are.
fn wide_are_right(alloc: Global, worked: &Worked<'_>, columns: &Columns) -> Result<bool, Fail> {
    let wide_starts = widened(alloc, columns.starts.as_slice())?;
    let wide_ids = widened(alloc, columns.ids.as_slice())?;
    let starts = Wide {
        list: wide_starts.as_slice(),
    };
    let ids = Wide {
        list: wide_ids.as_slice(),
    };
    are_right(alloc, worked, columns.rows, starts, ids)
}

#[test]
fn columns_in_no_order(rt: HostRuntime) -> Result<(), Fail> {
    for worked in &worked_matrices(rt.alloc())? {
        let columns = columns_of(rt.alloc(), worked)?;
        assert!(rt;
            narrow_are_right(rt.alloc(), worked, &columns)?,
            "{}",
            worked.name()
        );
        assert!(rt;
            wide_are_right(rt.alloc(), worked, &columns)?,
            "{}, 64 bits",
            worked.name()
        );
    }
    Ok(())
}

/// Whether these lists are no compressed columns for this reason.
fn are_refused<N: NumberList>(
    alloc: Global,
    rows: u64,
    starts: N,
    ids: N,
    error: ColumnsError,
) -> bool {
    let pattern = Pattern::of_columns(alloc, rows, starts, ids);
    check_columns(rows, starts, ids) == Err(error) && pattern.err() == Some(error)
}

/// Lists that are no compressed columns, for a reason.
#[derive(Clone, Copy)]
struct Wrong {
    rows: u64,
    starts: &'static [u32],
    ids: &'static [u32],
    error: ColumnsError,
}

/// Whether they are refused as numbers of both widths.
fn both_are_refused(alloc: Global, wrong: &Wrong) -> Result<bool, Fail> {
    let wide_starts = widened(alloc, wrong.starts)?;
    let wide_ids = widened(alloc, wrong.ids)?;
    let starts = Wide {
        list: wide_starts.as_slice(),
    };
    let ids = Wide {
        list: wide_ids.as_slice(),
    };
    Ok(narrow_are_refused(alloc, wrong) && are_refused(alloc, wrong.rows, starts, ids, wrong.error))
}

fn narrow_are_refused(alloc: Global, wrong: &Wrong) -> bool {
    let starts = Narrow { list: wrong.starts };
    let ids = Narrow { list: wrong.ids };
    are_refused(alloc, wrong.rows, starts, ids, wrong.error)
}

fn all_are_refused(alloc: Global, list: &[Wrong]) -> Result<bool, Fail> {
    for wrong in list {
        if !both_are_refused(alloc, wrong)? {
            return Ok(false);
        }
    }
    Ok(true)
}

/// The number of rows is looked at before the starts.
#[rattlefmt::skip]
static MANY_ROWS: [Wrong; 2] = [
    Wrong { rows: 4294967296, starts: &[0, 1], ids: &[0], error: ColumnsError::TooManyRows },
    Wrong { rows: 4294967296, starts: &[], ids: &[], error: ColumnsError::TooManyRows },
];

#[test]
fn too_many_rows(rt: HostRuntime) -> Result<(), Fail> {
    assert!(rt; all_are_refused(rt.alloc(), &MANY_ROWS)?);
    Ok(())
}

/// There is no start; the first is not 0; one falls, and a later one too; the last is not the number
/// of ids. Starts are looked at before ids.
#[rattlefmt::skip]
static STARTS: [Wrong; 8] = [
    Wrong { rows: 2, starts: &[], ids: &[], error: ColumnsError::BadStart(0) },
    Wrong { rows: 2, starts: &[], ids: &[0], error: ColumnsError::BadStart(0) },
    Wrong { rows: 2, starts: &[1, 1], ids: &[0], error: ColumnsError::BadStart(0) },
    Wrong { rows: 2, starts: &[0, 2, 1], ids: &[0], error: ColumnsError::BadStart(2) },
    Wrong { rows: 2, starts: &[0, 1, 3, 2, 1], ids: &[0], error: ColumnsError::BadStart(3) },
    Wrong { rows: 2, starts: &[0, 1], ids: &[0, 1], error: ColumnsError::BadStart(1) },
    Wrong { rows: 2, starts: &[0, 1, 3], ids: &[0, 1], error: ColumnsError::BadStart(2) },
    Wrong { rows: 1, starts: &[0, 0], ids: &[7], error: ColumnsError::BadStart(1) },
];

#[test]
fn first_start_that_is_not_right(rt: HostRuntime) -> Result<(), Fail> {
    assert!(rt; all_are_refused(rt.alloc(), &STARTS)?);
    Ok(())
}

/// Of 3 rows 3, 5 and 7 are none, of 2 rows 2, and of no rows 0.
#[rattlefmt::skip]
static ROWS: [Wrong; 4] = [
    Wrong { rows: 3, starts: &[0, 2, 3], ids: &[3, 0, 0], error: ColumnsError::BadRow(0) },
    Wrong { rows: 3, starts: &[0, 1, 3], ids: &[2, 5, 7], error: ColumnsError::BadRow(1) },
    Wrong { rows: 2, starts: &[0, 2, 4], ids: &[1, 0, 1, 2], error: ColumnsError::BadRow(3) },
    Wrong { rows: 0, starts: &[0, 1], ids: &[0], error: ColumnsError::BadRow(0) },
];

#[test]
fn first_id_that_is_no_row(rt: HostRuntime) -> Result<(), Fail> {
    assert!(rt; all_are_refused(rt.alloc(), &ROWS)?);
    Ok(())
}

// The greatest number of 64 bits is the signed -1, and the lower half of 2^32 is 0.
#[test]
fn numbers_past_32_bits(rt: HostRuntime) {
    let alloc = rt.alloc();
    let (starts, ids) = (Wide { list: &[0, 2] }, Wide { list: &[0, 1] });
    let past = Wide {
        list: &[0, u64::MAX],
    };
    assert!(rt; are_refused(alloc, 2, past, ids, ColumnsError::BadStart(1)));
    assert!(rt; are_refused(alloc, 2, starts, past, ColumnsError::BadRow(1)));
    let lower = Wide {
        list: &[0, 4294967296],
    };
    assert!(rt; are_refused(alloc, 2, starts, lower, ColumnsError::BadRow(1)));
}
