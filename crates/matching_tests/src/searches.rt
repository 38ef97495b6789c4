//! Searches for an augmenting path in a matrix after an edit, from the pairs that are left of the
//! matching before it.

ghost use Rattle.std.specs.Prelude.{◌≡◌, ◌<◌};
ghost use Rattle.bip_graph.specs.Matching.{IsMatchingOf};

use crate::pairs::{are_marks, are_pairs};
use bip_graph::Matching;
use hall_witness::{Reach, Steps, reach, reach_in, reached_if_maximum};
use sp_ids::OutOfMemory;
use sp_pattern::Pattern;
use std::alloc::Global;
use std::marker::Brand;
use std::sync::ledger::{Blank, Ledger};
use std::test::Fail;
use std::thread::Threads;
use test_matrices::{are, matching_of, pattern_of};

/// What a search is to find: the columns that some maximum matching misses, or the pairs of the one
/// augmenting path, in order from its unmatched column. Rows and columns count from 1.
#[derive(Clone, Copy)]
enum Wanted<'a> {
    Missed(&'a [u32]),
    Path(&'a [(u32, u32)]),
}

/// The places after an edit, the pairs that are left, and what the search is to find.
#[derive(Clone, Copy)]
struct SearchCase<'a> {
    name: &'a str,
    rows: u32,
    cols: u32,
    places: &'a [(u32, u32)],
    pairs: &'a [(u32, u32)],
    wanted: Wanted<'a>,
}

const SEARCHES: [SearchCase<'static>; 8] = [
    SearchCase {
        name: "a first search in a row of two entries",
        rows: 1,
        cols: 2,
        places: &[(1, 1), (1, 2)],
        pairs: &[],
        wanted: Wanted::Path(&[(1, 1)]),
    },
    SearchCase {
        name: "a set that moves a pair",
        rows: 2,
        cols: 2,
        places: &[(1, 1), (2, 1), (1, 2)],
        pairs: &[(1, 1)],
        wanted: Wanted::Path(&[(1, 2), (2, 1)]),
    },
    SearchCase {
        name: "a set in a row and a column without mates",
        rows: 2,
        cols: 2,
        places: &[(1, 1), (2, 2)],
        pairs: &[(1, 1)],
        wanted: Wanted::Path(&[(2, 2)]),
    },
    SearchCase {
        name: "a set of an entry that was there",
        rows: 2,
        cols: 2,
        places: &[(1, 1), (2, 1), (1, 1)],
        pairs: &[(1, 1)],
        wanted: Wanted::Missed(&[2]),
    },
    SearchCase {
        name: "a set that leads to no row without a mate",
        rows: 2,
        cols: 3,
        places: &[(1, 1), (2, 2), (1, 3)],
        pairs: &[(1, 1), (2, 2)],
        wanted: Wanted::Missed(&[1, 3]),
    },
    SearchCase {
        name: "a clear of a pair, whose row and column are paired anew",
        rows: 2,
        cols: 2,
        places: &[(2, 1), (1, 2), (2, 2)],
        pairs: &[(2, 2)],
        wanted: Wanted::Path(&[(2, 1), (1, 2)]),
    },
    SearchCase {
        name: "a clear of a pair, which lowers the rank",
        rows: 2,
        cols: 2,
        places: &[(1, 1), (1, 2)],
        pairs: &[(1, 1)],
        wanted: Wanted::Missed(&[1, 2]),
    },
    SearchCase {
        name: "a clear of the only entry",
        rows: 1,
        cols: 2,
        places: &[],
        pairs: &[],
        wanted: Wanted::Missed(&[1, 2]),
    },
];

/// Whether there are no marks where there is a path, and the missed columns are marked else.
fn has_marks(
    alloc: Global,
    search: &SearchCase<'_>,
    pattern: &Pattern,
    matching: &Matching,
) -> Result<bool, OutOfMemory>
    requires { IsMatchingOf pattern.now matching.now }
{
    let found = reached_if_maximum(alloc, pattern, matching)?;
    match (found, search.wanted) {
        (Some(marks), Wanted::Missed(numbers)) => {
            Ok(are_marks(marks.as_slice(), search.cols, numbers))
        }
        (None, Wanted::Path(_)) => Ok(true),
        _ => Ok(false),
    }
}

/// Whether a search has found the columns or the path that it is to find.
fn is_wanted(search: &SearchCase<'_>, found: &Reach) -> bool {
    match (found, search.wanted) {
        (Reach::Witness(columns), Wanted::Missed(numbers)) => are(columns.as_slice(), numbers),
        (Reach::Path(path), Wanted::Path(pairs)) => are_pairs(path.as_slice(), pairs),
        _ => false,
    }
}

/// Whether the search finds what it is to find.
fn finds(
    alloc: Global,
    search: &SearchCase<'_>,
    pattern: &Pattern,
    matching: &Matching,
) -> Result<bool, OutOfMemory>
    requires { IsMatchingOf pattern.now matching.now }
{
    let found = reach(alloc, pattern, matching)?;
    Ok(is_wanted(search, &found))
}

/// The same with its steps counted.
fn finds_in<L: Ledger>(
    alloc: Global,
    search: &SearchCase<'_>,
    pattern: &Pattern,
    matching: &Matching,
    steps: &mut Steps<L>,
) -> Result<bool, OutOfMemory>
    requires { IsMatchingOf pattern.now matching.now }
{
    let found = reach_in(alloc, pattern, matching, steps)?;
    Ok(is_wanted(search, &found))
}

/// Whether the search finds what it is to find, with its steps counted and without.
fn finds_all<R: AllocGlobal + Threads + Sync, L: Ledger>(
    rt: &R,
    search: &SearchCase<'_>,
    steps: &mut Steps<L>,
) -> Result<bool, Fail> {
    let pattern = pattern_of(rt, search.rows, search.cols, search.places)?;
    let matching = matching_of(rt.alloc(), &pattern, search.pairs)?;
    Ok(
        has_marks(rt.alloc(), search, &pattern, &matching)?
            && finds(rt.alloc(), search, &pattern, &matching)?
            && finds_in(rt.alloc(), search, &pattern, &matching, steps)?,
    )
}

/// The first search that does not find what it is to find. All count their steps on one ledger.
fn first_wrong<R: AllocGlobal + Threads + Sync, L: Ledger>(
    rt: &R,
    blank: Blank,
) -> Result<Option<&'static str>, Fail>
    requires name { blank.name ≡ L.name }
    requires parts { blank.parts ≡ L.parts }
    requires some { 0 < blank.parts }
{
    let mut steps = Steps::<L>::new(blank);
    for search in &SEARCHES {
        if !finds_all(rt, search, &mut steps)? {
            return Ok(Some(search.name));
        }
    }
    Ok(None)
}

#[test]
fn finds_the_path_or_the_missed_columns(rt: HostRuntime) -> Result<(), Fail> {
    match first_wrong::<HostRuntime, Brand>(&rt, Blank::new(1))? {
        Some(name) => panic!(rt; "{name}"),
        None => Ok(()),
    }
}
