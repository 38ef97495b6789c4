//! The permutations of the Dulmage-Mendelsohn decomposition of each matrix of the table.

use crate::block_forms::WANTS;
use crate::lists::{DmpermLists, sizes_of};
use crate::matrices::{MATRICES, Worked};
use crate::small::{CHOICES, Given, Wanted, widened};
use blocktri::{Compressed, NumberList, Wants};
use std::alloc::Global;

/// Whether the sizes and the lists are those of the table, as far as they are wanted: those with
/// one of the matchings.
fn has_permutations<N: NumberList>(
    alloc: Global,
    matrix: &Compressed<N>,
    worked: &Worked<'_>,
    wants: Wants,
    wanted: Wanted,
) -> bool {
    let mut lists = DmpermLists::of(worked, wanted);
    let found = lists.write(alloc, matrix, wants);
    found == Ok(sizes_of(worked, wants))
        && has_pairs(worked, &lists, wants.blocks)
        && lists.have_cuts(worked, wants.blocks)
        && lists.have_components(worked, wants.components)
}

fn has_pairs(worked: &Worked<'_>, lists: &DmpermLists, wants_blocks: bool) -> bool {
    for pairs in worked.matchings {
        if lists.have_pairs(pairs, wants_blocks) {
            return true;
        }
    }
    false
}

/// The same of all that may be wanted.
fn has_all<N: NumberList>(
    alloc: Global,
    matrix: &Compressed<N>,
    worked: &Worked<'_>,
    wanted: Wanted,
) -> bool {
    for wants in &WANTS {
        if !has_permutations(alloc, matrix, worked, *wants, wanted) {
            return false;
        }
    }
    true
}

/// The same of all lists, of each alone, and of none.
fn has_each_wanted(alloc: Global, worked: &Worked<'_>, by_rows: bool) -> bool {
    let matrix = Given::of(worked, by_rows).narrow();
    for wanted in &CHOICES {
        if !has_all(alloc, &matrix, worked, *wanted) {
            return false;
        }
    }
    true
}

/// The same with numbers of 64 bits, of all lists.
fn wide_has_all(alloc: Global, worked: &Worked<'_>, by_rows: bool) -> bool {
    let given = Given::of(worked, by_rows);
    let (starts, ids) = (widened(given.starts), widened(given.ids));
    let matrix = given.wide(&starts, &ids);
    has_all(alloc, &matrix, worked, Wanted::All)
}

#[test]
fn permutations_by_columns(rt: HostRuntime) {
    for worked in &MATRICES {
        assert!(rt;
            has_each_wanted(rt.alloc(), worked, false),
            "{}",
            worked.name
        );
        assert!(rt; wide_has_all(rt.alloc(), worked, false), "{}", worked.name);
    }
}

#[test]
fn permutations_by_rows(rt: HostRuntime) {
    for worked in &MATRICES {
        assert!(rt;
            has_each_wanted(rt.alloc(), worked, true),
            "{}",
            worked.name
        );
        assert!(rt; wide_has_all(rt.alloc(), worked, true), "{}", worked.name);
    }
}
