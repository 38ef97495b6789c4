//! Heaviest diagonals of full and of sparse tables, by all ways. Those of matrices that were worked
//! out by hand are in `run_tests`.

ghost use Rattle.std.specs.Prelude.{◌≡◌};
ghost use Rattle.sp_ids.specs.declared.triples.Field.TheVariants.{Integer};

use crate::tables::{
    Aim, FULL, Table, UNLIKE, by_all_ways, entries_of, is_singular, magnitude, table_of,
};
use bip_graph::Heaviest;
use integer_diagonal::heaviest;
use sp_ids::{Col, Row, Triples};
use sp_pattern::{Pattern, Weights};
use std::alloc::Global;
use std::test::Fail;
use std::thread::Threads;
use test_matrices::integers_of;

// Whether no entry weighs more than the prices of its row and its column together.
fn are_fair(entries: &[(u32, u32, i64)], u: &[i128], v: &[i128]) -> bool {
    for (row, col, value) in entries {
        let (row, col) = (*row as usize, *col as usize);
        if row == 0 || row > u.len() || col == 0 || col > v.len() {
            return false;
        }
        if value.unsigned_abs() as i128 > u[row - 1].saturating_add(v[col - 1]) {
            return false;
        }
    }
    true
}

// The sum of the magnitudes of these pairs, and none where one is no entry.
fn sum_of(table: &Table, pairs: &[(Row, Col)]) -> Option<u64> {
    let mut sum: u64 = 0;
    for (row, col) in pairs {
        sum = sum.saturating_add(magnitude(table, *row, *col)?);
    }
    Some(sum)
}

// The heaviest diagonal of a matrix with these entries.
fn heaviest_of(alloc: Global, pattern: &Pattern, given: &Triples) -> Result<Heaviest, Fail>
    requires { given.now.field ≡ Integer }
{
    let weights = Weights::build(alloc, pattern, given)?;
    Ok(heaviest(alloc, pattern, &weights)?)
}

// Whether pairs are on a diagonal of the table with this sum, which is that of all ways.
fn has_sum(table: &Table, size: u32, pairs: &[(Row, Col)], sum: i128) -> bool {
    let most = by_all_ways(table, Aim::Sum, size as usize, 0, [false; 4]);
    match most {
        Some(most) => {
            pairs.len() == size as usize
                && sum == most as i128
                && sum_of(table, pairs) == Some(most)
        }
        None => false,
    }
}

// Whether the answer has the sum that all ways have at most, and fair prices. Or there is no way,
// and it tells why.
fn tells_greatest(size: u32, table: &Table, entries: &[(u32, u32, i64)], found: &Heaviest) -> bool {
    match found {
        Heaviest::Diagonal { pairs, u, v, sum } => {
            has_sum(table, size, pairs.as_slice(), *sum)
                && are_fair(entries, u.as_slice(), v.as_slice())
        }
        Heaviest::Singular { rank, hall } => {
            is_singular(table, size, *rank, hall.as_slice())
                && by_all_ways(table, Aim::Sum, size as usize, 0, [false; 4]).is_none()
        }
        Heaviest::Rectangular => false,
    }
}

fn is_greatest<R: AllocGlobal + Threads + Sync>(
    rt: &R,
    size: u32,
    table: &Table,
) -> Result<bool, Fail> {
    let entries = entries_of(rt.alloc(), table)?;
    let given = integers_of(rt.alloc(), size, size, entries.as_slice())?;
    let pattern = Pattern::build(rt, rt.alloc(), &given)?;
    let found = heaviest_of(rt.alloc(), &pattern, &given)?;
    Ok(tells_greatest(size, table, entries.as_slice(), &found))
}

/// Tables, each with the number of its rows and columns that are looked at. Of the first 5 and 4
/// together are more than 3 and 1.
#[rattlefmt::skip]
static TABLES: [(u32, [[i64; 4]; 4]); 7] = [
    (2, [[3, 5, 0, 0], [4, 1, 0, 0], [0; 4], [0; 4]]),
    (0, [[0; 4]; 4]),
    (3, [[6; 4]; 4]),
    (3, UNLIKE),
    (4, UNLIKE),
    (3, [[4, 4, 1, 0], [4, 3, 0, 1], [2, 1, 5, 5], [-6, 6, 5, 4]]),
    (4, [[4, 4, 1, 0], [4, 3, 0, 1], [2, 1, 5, 5], [-6, 6, 5, 4]]),
];

#[test]
fn greatest_of_all_ways(rt: HostRuntime) -> Result<(), Fail> {
    for (size, values) in &TABLES {
        assert!(rt;
            is_greatest(&rt, *size, &table_of(values, *size, FULL))?,
            "{values:?}"
        );
    }
    Ok(())
}

// All choices of places of three rows and columns, and of four one in 131. Where the last column is
// the one without a row of its own, the searches for the others come first.
#[test]
fn greatest_of_all_ways_by_some_places(rt: HostRuntime) -> Result<(), Fail> {
    for bits in 0..512 {
        assert!(rt; is_greatest(&rt, 3, &table_of(&UNLIKE, 3, bits))?, "{bits}");
    }
    for part in 0..500 {
        assert!(rt;
            is_greatest(&rt, 4, &table_of(&UNLIKE, 4, part * 131))?,
            "{part}"
        );
    }
    Ok(())
}
