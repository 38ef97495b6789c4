//! The least maximum matching beside all matchings of small matrices. Whole runs by each engine are
//! in `run_tests`.

ghost use Rattle.std.specs.Prelude.{IfOk};
ghost use Rattle.bip_graph.specs.Matching.{IsMaximumOf};

use bip_graph::Matching;
use hall_witness::plain;
use least_match::least;
use sp_ids::{Col, OutOfMemory};
use sp_pattern::Pattern;
use std::alloc::Global;
use std::test::Fail;
use std::thread::Threads;
use test_matrices::pattern_of;

/// What makes the maximum matching from which the least one is made.
#[derive(Clone, Copy)]
enum Engine {
    Plain,
    PothenFan,
}

fn maximum(alloc: Global, engine: Engine, pattern: &Pattern) -> Result<Matching, OutOfMemory>
    ensures { IfOk result (IsMaximumOf pattern.now) }
{
    match engine {
        Engine::Plain => {
            let (matching, _witness) = plain(alloc, pattern)?;
            Ok(matching)
        }
        Engine::PothenFan => {
            let empty = Matching::empty(alloc, pattern.rows(), pattern.cols())?;
            pothen_fan::complete(alloc, pattern, empty)
        }
    }
}

/// The places of a matrix whose entries are the bits of a number, column by column.
fn places_of(
    alloc: Global,
    rows: u32,
    cols: u32,
    bits: u32,
) -> Result<Vec<(u32, u32)>, OutOfMemory> {
    let mut places = Vec::new(alloc);
    let mut left = bits;
    for col in 1..=cols {
        for row in 1..=rows {
            if left % 2 == 1 {
                places.push((row, col))?;
            }
            left /= 2;
        }
    }
    Ok(places)
}

/// Whether a code is that of a matching: each mate is an entry, and no row stands twice.
fn is_matching(places: &[(u32, u32)], code: &[u32], none: u32) -> bool {
    let mut col: u32 = 0;
    for at in 0..code.len() {
        let row = code[at];
        col = col.saturating_add(1);
        let fits = places.contains(&(row, col)) && !code[..at].contains(&row);
        if row != none && !fits {
            return false;
        }
    }
    true
}

/// How many columns have a mate.
fn size_of(code: &[u32], none: u32) -> u32 {
    let mut size: u32 = 0;
    for row in code {
        if *row != none {
            size = size.saturating_add(1);
        }
    }
    size
}

/// Goes on to the next code in lexicographic order. Whether there is one.
fn advance(code: &mut [u32], none: u32) -> bool {
    let len = code.len();
    for back in 0..len {
        let at = len - 1 - back;
        if code[at] < none {
            code[at] += 1;
            return true;
        }
        code[at] = 1;
    }
    false
}

/// The first, in lexicographic order, of the codes of the largest matchings, found among all lists
/// of mates. Fails where there are too many of them.
fn first_code(
    alloc: Global,
    none: u32,
    cols: u32,
    places: &[(u32, u32)],
) -> Result<Vec<u32>, Fail> {
    let mut code = vec![in alloc; 1u32; cols as usize]?;
    let mut first = vec![in alloc; none; cols as usize]?;
    let mut size: u32 = 0;
    for _ in 0..1_000_000u32 {
        let next = size_of(code.as_slice(), none);
        if next > size && is_matching(places, code.as_slice(), none) {
            size = next;
            first = Vec::from_slice(alloc, code.as_slice())?;
        }
        if !advance(code.as_mut_slice(), none) {
            return Ok(first);
        }
    }
    Err(Fail::new("too many codes"))
}

/// Whether a code is that of a matching.
fn is_code_of(matching: &Matching, code: &[u32]) -> bool {
    for col in 0..matching.cols() {
        let mate = match matching.row_of(Col(col)) {
            Some(row) => row.0.saturating_add(1),
            None => matching.rows().saturating_add(1),
        };
        if code.get(col as usize) != Some(&mate) {
            return false;
        }
    }
    code.len() == matching.cols() as usize
}

/// Whether the least matching, made from that of an engine, has this code.
fn has_code(
    alloc: Global,
    engine: Engine,
    pattern: &Pattern,
    code: &[u32],
) -> Result<bool, OutOfMemory> {
    let start = maximum(alloc, engine, pattern)?;
    let found = least(alloc, pattern, start)?;
    Ok(is_code_of(&found, code))
}

/// Whether the least matching of these places, from the matchings of two engines, has the first code.
fn has_first_code<R: AllocGlobal + Threads + Sync>(
    rt: &R,
    rows: u32,
    cols: u32,
    places: &[(u32, u32)],
) -> Result<bool, Fail> {
    let first = first_code(rt.alloc(), rows.saturating_add(1), cols, places)?;
    let pattern = pattern_of(rt, rows, cols, places)?;
    Ok(
        has_code(rt.alloc(), Engine::Plain, &pattern, first.as_slice())?
            && has_code(rt.alloc(), Engine::PothenFan, &pattern, first.as_slice())?,
    )
}

/// The same of the matrix of these bits.
fn is_least<R: AllocGlobal + Threads + Sync>(
    rt: &R,
    rows: u32,
    cols: u32,
    bits: u32,
) -> Result<bool, Fail> {
    let places = places_of(rt.alloc(), rows, cols, bits)?;
    has_first_code(rt, rows, cols, places.as_slice())
}

#[test]
fn has_the_first_code_of_all_small_matrices(rt: HostRuntime) -> Result<(), Fail> {
    for bits in 0..64 {
        assert!(rt;
            is_least(&rt, 2, 3, bits)? && is_least(&rt, 3, 2, bits)?,
            "{bits}"
        );
    }
    for bits in 0..512 {
        assert!(rt; is_least(&rt, 3, 3, bits)?, "{bits}");
    }
    // Of the matrices of four rows and columns, one in 131.
    for part in 0..500 {
        assert!(rt; is_least(&rt, 4, 4, part * 131)?, "{part}");
    }
    Ok(())
}
