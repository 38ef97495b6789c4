//! The rank, the matchings, the block triangular form and the components of each matrix of the
//! table, as compressed columns and as compressed rows, with numbers of both widths.

use crate::lists::{FormLists, MateLists, sizes_of};
use crate::matrices::{MATRICES, Worked};
use crate::small::{CHOICES, Given, Wanted, widened};
use blocktri::{Compressed, NumberList, Wants, rank};
use std::alloc::Global;

const ALL: Wants = Wants {
    blocks: true,
    components: true,
};

/// What may be wanted.
#[rattlefmt::skip]
pub(crate) static WANTS: [Wants; 4] = [
    Wants { blocks: true, components: true },
    Wants { blocks: true, components: false },
    Wants { blocks: false, components: true },
    Wants { blocks: false, components: false },
];

/// Whether the form has the sizes and the lists of the table, as far as they are wanted.
fn has_form<N: NumberList>(
    alloc: Global,
    matrix: &Compressed<N>,
    worked: &Worked<'_>,
    wants: Wants,
    wanted: Wanted,
) -> bool {
    let mut lists = FormLists::of(worked, wanted);
    let found = lists.write(alloc, matrix, wants);
    found == Ok(sizes_of(worked, wants)) && lists.have(worked, wants)
}

/// Whether the least matching is that of the table.
fn has_least<N: NumberList>(
    alloc: Global,
    matrix: &Compressed<N>,
    worked: &Worked<'_>,
    wanted: Wanted,
) -> bool {
    let mut lists = MateLists::of(worked, wanted);
    let found = lists.write(alloc, matrix, true);
    found == Ok(worked.sizes.rank) && lists.have(worked.least, worked.least_of_rows)
}

/// Whether a matching is one of those of the table.
fn has_any<N: NumberList>(
    alloc: Global,
    matrix: &Compressed<N>,
    worked: &Worked<'_>,
    wanted: Wanted,
) -> bool {
    let mut lists = MateLists::of(worked, wanted);
    let found = lists.write(alloc, matrix, false);
    found == Ok(worked.sizes.rank) && is_of_table(worked, &lists)
}

fn is_of_table(worked: &Worked<'_>, lists: &MateLists) -> bool {
    for pairs in worked.matchings {
        if lists.have(pairs.row_of_column, pairs.column_of_row) {
            return true;
        }
    }
    false
}

/// Whether all answers are those of the table.
fn has_answers<N: NumberList>(alloc: Global, matrix: &Compressed<N>, worked: &Worked<'_>) -> bool {
    rank(alloc, matrix) == Ok(worked.sizes.rank)
        && has_least(alloc, matrix, worked, Wanted::All)
        && has_any(alloc, matrix, worked, Wanted::All)
        && has_form(alloc, matrix, worked, ALL, Wanted::All)
}

/// The same with numbers of 32 bits.
fn narrow_has_answers(alloc: Global, worked: &Worked<'_>, by_rows: bool) -> bool {
    has_answers(alloc, &Given::of(worked, by_rows).narrow(), worked)
}

/// The same with numbers of 64 bits.
fn wide_has_answers(alloc: Global, worked: &Worked<'_>, by_rows: bool) -> bool {
    let given = Given::of(worked, by_rows);
    let (starts, ids) = (widened(given.starts), widened(given.ids));
    let matrix = given.wide(&starts, &ids);
    has_answers(alloc, &matrix, worked)
}

/// Whether the answers are those of the table where these lists are wanted.
fn has_wanted(alloc: Global, worked: &Worked<'_>, by_rows: bool, wanted: Wanted) -> bool {
    let matrix = Given::of(worked, by_rows).narrow();
    for wants in &WANTS {
        if !has_form(alloc, &matrix, worked, *wants, wanted) {
            return false;
        }
    }
    has_least(alloc, &matrix, worked, wanted) && has_any(alloc, &matrix, worked, wanted)
}

/// The same of all lists, of each alone, and of none.
fn has_each_wanted(alloc: Global, worked: &Worked<'_>, by_rows: bool) -> bool {
    for wanted in &CHOICES {
        if !has_wanted(alloc, worked, by_rows, *wanted) {
            return false;
        }
    }
    true
}

#[test]
fn columns_of_32_bits(rt: HostRuntime) {
    for worked in &MATRICES {
        assert!(rt;
            narrow_has_answers(rt.alloc(), worked, false),
            "{}",
            worked.name
        );
    }
}

#[test]
fn columns_of_64_bits(rt: HostRuntime) {
    for worked in &MATRICES {
        assert!(rt;
            wide_has_answers(rt.alloc(), worked, false),
            "{}",
            worked.name
        );
    }
}

#[test]
fn rows_of_32_bits(rt: HostRuntime) {
    for worked in &MATRICES {
        assert!(rt;
            narrow_has_answers(rt.alloc(), worked, true),
            "{}",
            worked.name
        );
    }
}

#[test]
fn rows_of_64_bits(rt: HostRuntime) {
    for worked in &MATRICES {
        assert!(rt;
            wide_has_answers(rt.alloc(), worked, true),
            "{}",
            worked.name
        );
    }
}

// A list that is not wanted has no place, and what is not looked for is neither written nor told.
#[test]
fn lists_that_are_not_wanted(rt: HostRuntime) {
    for worked in &MATRICES {
        assert!(rt;
            has_each_wanted(rt.alloc(), worked, false),
            "{}",
            worked.name
        );
        assert!(rt;
            has_each_wanted(rt.alloc(), worked, true),
            "{}",
            worked.name
        );
    }
}
