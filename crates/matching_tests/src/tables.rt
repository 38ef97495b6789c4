//! Tables of at most four rows and columns, and what all ways to give columns rows of their own
//! come to. Rows and columns count from 0.

use sp_ids::{Col, OutOfMemory, Row};
use std::alloc::Global;

/// The value at each place, and none where there is no entry.
pub(crate) type Table = [[Option<i64>; 4]; 4];

/// The bits of all places of four rows and columns.
pub(crate) const FULL: u32 = 65535;

/// Values of which few are alike.
pub(crate) const UNLIKE: [[i64; 4]; 4] = [[7, 5, -9, 2], [6, 4, 8, 9], [1, -3, 3, 9], [8, 2, 7, 1]];

/// What a way is to have the most of: the sum of its magnitudes, or the least of them.
#[derive(Clone, Copy)]
pub(crate) enum Aim {
    Sum,
    Least,
}

/// The values at the places of the first rows and columns whose bits are set in a number, column by
/// column.
pub(crate) fn table_of(values: &[[i64; 4]; 4], size: u32, bits: u32) -> Table {
    let mut table = [[None; 4]; 4];
    let mut left = bits;
    for col in 0..4 {
        for row in 0..4 {
            if row < size && col < size {
                if left % 2 == 1 {
                    table[row as usize][col as usize] = Some(values[row as usize][col as usize]);
                }
                left /= 2;
            }
        }
    }
    table
}

/// The entries of a table as those of a file, which count from 1.
pub(crate) fn entries_of(
    alloc: Global,
    table: &Table,
) -> Result<Vec<(u32, u32, i64)>, OutOfMemory> {
    let mut entries = Vec::new(alloc);
    for row in 0..4 {
        for col in 0..4 {
            if let Some(value) = table[row as usize][col as usize] {
                entries.push((row + 1, col + 1, value))?;
            }
        }
    }
    Ok(entries)
}

/// The magnitude of an entry, and none where there is none, or outside of the table.
pub(crate) fn magnitude(table: &Table, row: Row, col: Col) -> Option<u64> {
    if row.0 < 4 && col.0 < 4 {
        let value = table[row.0 as usize][col.0 as usize]?;
        Some(value.unsigned_abs())
    } else {
        None
    }
}

fn joined(aim: Aim, magnitude: u64, rest: u64) -> u64 {
    match aim {
        Aim::Sum => magnitude.saturating_add(rest),
        Aim::Least => magnitude.min(rest),
    }
}

/// The most over all ways to give each column from this one on an entry in a row of its own that is
/// not taken, and none where there is no way.
pub(crate) fn by_all_ways(
    table: &Table,
    aim: Aim,
    size: usize,
    col: usize,
    taken: [bool; 4],
) -> Option<u64> {
    if col >= size || col >= 4 {
        return match aim {
            Aim::Sum => Some(0),
            Aim::Least => Some(u64::MAX),
        };
    }
    let mut most = None;
    for row in 0..4 {
        if let (false, Some(value)) = (taken[row], table[row][col]) {
            let mut next = taken;
            next[row] = true;
            if let Some(rest) = by_all_ways(table, aim, size, col + 1, next) {
                most = greater(most, joined(aim, value.unsigned_abs(), rest));
            }
        }
    }
    most
}

fn greater(most: Option<u64>, other: u64) -> Option<u64> {
    match most {
        Some(most) => Some(most.max(other)),
        None => Some(other),
    }
}

/// How many columns from this one on can be given entries in rows of their own that are not taken.
pub(crate) fn rank_of(table: &Table, size: usize, col: usize, taken: [bool; 4]) -> u32 {
    if col >= size || col >= 4 {
        return 0;
    }
    let mut most = rank_of(table, size, col + 1, taken);
    for row in 0..4 {
        if !taken[row] && table[row][col].is_some() {
            let mut next = taken;
            next[row] = true;
            let with_row = rank_of(table, size, col + 1, next).saturating_add(1);
            most = most.max(with_row);
        }
    }
    most
}

/// Whether a row has an entry in these columns, above a magnitude where one is given.
fn has_entry(table: &Table, row: u32, columns: &[Col], above: Option<u64>) -> bool {
    for col in columns {
        match (magnitude(table, Row(row), *col), above) {
            (Some(found), Some(least)) => {
                if found > least {
                    return true;
                }
            }
            (Some(_), None) => return true,
            (None, _) => {}
        }
    }
    false
}

/// How many rows have such an entry.
pub(crate) fn neighbours(table: &Table, columns: &[Col], above: Option<u64>) -> usize {
    let mut count: usize = 0;
    for row in 0..4 {
        if has_entry(table, row, columns, above) {
            count = count.saturating_add(1);
        }
    }
    count
}

/// Whether the rank is that of the table and below the size, and the columns have fewer neighbours
/// than they are, by as many as the rank is below the size.
pub(crate) fn is_singular(table: &Table, size: u32, rank: u32, columns: &[Col]) -> bool {
    if rank >= size || rank != rank_of(table, size as usize, 0, [false; 4]) {
        return false;
    }
    let fewer = (size - rank) as usize;
    neighbours(table, columns, None).saturating_add(fewer) == columns.len()
}
