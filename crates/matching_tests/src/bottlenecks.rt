//! Perfect matchings of greatest least weight, by all ways for full and for sparse tables. Those of
//! matrices that were worked out by hand are in `run_tests`.

ghost use Rattle.std.specs.Prelude.{◌≡◌};
ghost use Rattle.sp_ids.specs.declared.triples.Field.TheVariants.{Integer};

use crate::tables::{
    Aim, FULL, Table, UNLIKE, by_all_ways, entries_of, is_singular, magnitude, neighbours, table_of,
};
use bip_graph::Bottleneck;
use bottleneck::best;
use sp_ids::{Col, Row, Triples};
use sp_pattern::{Pattern, Weights};
use std::alloc::Global;
use std::test::Fail;
use std::thread::Threads;
use test_matrices::integers_of;

// The least magnitude of these pairs, the greatest number where there is no pair, and none where a
// pair is no entry.
fn least_of(table: &Table, pairs: &[(Row, Col)]) -> Option<u64> {
    let mut least = u64::MAX;
    for (row, col) in pairs {
        least = least.min(magnitude(table, *row, *col)?);
    }
    Some(least)
}

// The bottleneck of a matrix with these entries.
fn bottleneck_of(alloc: Global, pattern: &Pattern, given: &Triples) -> Result<Bottleneck, Fail>
    requires { given.now.field ≡ Integer }
{
    let weights = Weights::build(alloc, pattern, given)?;
    Ok(best(alloc, pattern, &weights)?)
}

// Whether pairs are on a diagonal of the table whose least weight is this one, which is that of all
// ways.
fn has_least(table: &Table, size: u32, pairs: &[(Row, Col)], least: u64) -> bool {
    pairs.len() == size as usize
        && least_of(table, pairs) == Some(least)
        && by_all_ways(table, Aim::Least, size as usize, 0, [false; 4]) == Some(least)
}

// Whether the answer has the least weight that all ways have at most, in one pair and in none less,
// and columns with fewer neighbours above it. Or there is no way, and it tells why.
fn tells_greatest(size: u32, table: &Table, found: &Bottleneck) -> bool {
    match found {
        Bottleneck::Best { pairs, least, hall } => {
            let columns = hall.as_slice();
            has_least(table, size, pairs.as_slice(), *least)
                && neighbours(table, columns, Some(*least)) < columns.len()
        }
        Bottleneck::Singular { rank, hall } => {
            is_singular(table, size, *rank, hall.as_slice())
                && by_all_ways(table, Aim::Least, size as usize, 0, [false; 4]).is_none()
        }
        Bottleneck::Rectangular => false,
    }
}

fn is_greatest<R: AllocGlobal + Threads + Sync>(
    rt: &R,
    size: u32,
    table: &Table,
) -> Result<bool, Fail> {
    let entries = entries_of(rt.alloc(), table)?;
    let given = integers_of(rt.alloc(), size, size, entries.as_slice())?;
    let pattern = Pattern::build(rt, rt.alloc(), &given)?;
    let found = bottleneck_of(rt.alloc(), &pattern, &given)?;
    Ok(tells_greatest(size, table, &found))
}

/// Tables, each with the number of its rows and columns that are looked at. In the first two the
/// pairs off the diagonal have the greater least weight.
#[rattlefmt::skip]
static TABLES: [(u32, [[i64; 4]; 4]); 9] = [
    (2, [[3, 5, 0, 0], [4, 1, 0, 0], [0; 4], [0; 4]]),
    (2, [[12, 6, 0, 0], [5, 1, 0, 0], [0; 4], [0; 4]]),
    (1, [[0; 4]; 4]),
    (3, [[6; 4]; 4]),
    (2, UNLIKE),
    (3, UNLIKE),
    (4, UNLIKE),
    (3, [[4, 4, 1, 0], [4, 3, 0, 1], [2, 1, 5, 5], [-6, 6, 5, 4]]),
    (4, [[4, 4, 1, 0], [4, 3, 0, 1], [2, 1, 5, 5], [-6, 6, 5, 4]]),
];

#[test]
fn greatest_of_all_ways(rt: HostRuntime) -> Result<(), Fail> {
    for (size, values) in &TABLES {
        assert!(rt;
            is_greatest(&rt, *size, &table_of(values, *size, FULL))?,
            "{values:?}"
        );
    }
    Ok(())
}

// All choices of places of three rows and columns, and of four one in 131.
#[test]
fn greatest_of_all_ways_by_some_places(rt: HostRuntime) -> Result<(), Fail> {
    for bits in 0..512 {
        assert!(rt; is_greatest(&rt, 3, &table_of(&UNLIKE, 3, bits))?, "{bits}");
    }
    for part in 0..500 {
        assert!(rt;
            is_greatest(&rt, 4, &table_of(&UNLIKE, 4, part * 131))?,
            "{part}"
        );
    }
    Ok(())
}
