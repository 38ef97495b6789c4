//! Maximum matchings from pairs that are given, on matrices that were worked out by hand: each has
//! one maximum matching that leaves nothing unmatched that was matched.

use crate::small::{Given, List, widened};
use blocktri::{Compressed, NumberList, PairsRefusal, matching_from};
use std::alloc::Global;

const NONE: u32 = u32::MAX;

/// Pairs, and the matching that is found from them: the row of each column, and the column of each
/// row.
struct Start {
    name: &'static str,
    given: Given<'static>,
    start: &'static [u32],
    is_least: bool,
    rows: &'static [u32],
    columns: &'static [u32],
    size: u32,
}

/// Columns 0 and 1 have rows 0 and 1, and row 0.
const CORNER: Given<'static> = Given {
    others: 2,
    starts: &[0, 2, 3],
    ids: &[0, 1, 0],
    by_rows: false,
};

/// The same by rows: row 0 has columns 0 and 1, row 1 column 0.
const CORNER_BY_ROWS: Given<'static> = Given {
    others: 2,
    starts: &[0, 2, 3],
    ids: &[1, 0, 0],
    by_rows: true,
};

/// Columns 0, 1 and 2 have rows 0 and 1, rows 1 and 2, and row 2.
const STAIRS: Given<'static> = Given {
    others: 3,
    starts: &[0, 2, 4, 5],
    ids: &[0, 1, 1, 2, 2],
    by_rows: false,
};

/// The same, with ids that do not rise.
const STAIRS_TURNED: Given<'static> = Given {
    others: 3,
    starts: &[0, 2, 4, 5],
    ids: &[1, 0, 2, 1, 2],
    by_rows: false,
};

/// One row with two columns.
const WIDE_ROW: Given<'static> = Given {
    others: 1,
    starts: &[0, 1, 2],
    ids: &[0, 0],
    by_rows: false,
};

/// One column with two rows, by rows.
const TALL_COLUMN: Given<'static> = Given {
    others: 1,
    starts: &[0, 1, 2],
    ids: &[0, 0],
    by_rows: true,
};

static STARTS: [Start; 10] = [
    Start {
        name: "a path of one exchange",
        given: CORNER,
        start: &[0, NONE],
        is_least: false,
        rows: &[1, 0],
        columns: &[1, 0],
        size: 2,
    },
    Start {
        name: "a path of one exchange by rows",
        given: CORNER_BY_ROWS,
        start: &[0, NONE],
        is_least: false,
        rows: &[1, 0],
        columns: &[1, 0],
        size: 2,
    },
    Start {
        name: "no pairs",
        given: CORNER,
        start: &[NONE, NONE],
        is_least: false,
        rows: &[1, 0],
        columns: &[1, 0],
        size: 2,
    },
    Start {
        name: "a path of two exchanges",
        given: STAIRS,
        start: &[1, 2, NONE],
        is_least: false,
        rows: &[0, 1, 2],
        columns: &[0, 1, 2],
        size: 3,
    },
    Start {
        name: "ids that do not rise",
        given: STAIRS_TURNED,
        start: &[1, 2, NONE],
        is_least: false,
        rows: &[0, 1, 2],
        columns: &[0, 1, 2],
        size: 3,
    },
    Start {
        name: "no column of each row is wanted",
        given: STAIRS,
        start: &[NONE, 1, 2],
        is_least: false,
        rows: &[0, 1, 2],
        columns: &[],
        size: 3,
    },
    Start {
        name: "the column that was matched stays matched",
        given: WIDE_ROW,
        start: &[NONE, 0],
        is_least: false,
        rows: &[NONE, 0],
        columns: &[1],
        size: 1,
    },
    Start {
        name: "the least matching does not depend on the pairs",
        given: WIDE_ROW,
        start: &[NONE, 0],
        is_least: true,
        rows: &[0, NONE],
        columns: &[0],
        size: 1,
    },
    Start {
        name: "the row that was matched stays matched",
        given: TALL_COLUMN,
        start: &[1],
        is_least: false,
        rows: &[1],
        columns: &[NONE, 0],
        size: 1,
    },
    Start {
        name: "the least row",
        given: TALL_COLUMN,
        start: &[1],
        is_least: true,
        rows: &[0],
        columns: &[0, NONE],
        size: 1,
    },
];

/// Pairs that are refused, and why.
struct Wrong {
    name: &'static str,
    given: Given<'static>,
    start: &'static [u32],
    refusal: PairsRefusal,
}

static WRONG: [Wrong; 6] = [
    Wrong {
        name: "a pair that is no entry",
        given: CORNER,
        start: &[NONE, 1],
        refusal: PairsRefusal::BadPair(1),
    },
    Wrong {
        name: "a pair that is no entry by rows",
        given: CORNER_BY_ROWS,
        start: &[NONE, 1],
        refusal: PairsRefusal::BadPair(1),
    },
    Wrong {
        name: "a row of two columns",
        given: CORNER,
        start: &[0, 0],
        refusal: PairsRefusal::BadPair(1),
    },
    Wrong {
        name: "a row that the matrix has not",
        given: CORNER,
        start: &[2, NONE],
        refusal: PairsRefusal::BadPair(0),
    },
    Wrong {
        name: "too few pairs",
        given: CORNER,
        start: &[1],
        refusal: PairsRefusal::Lengths,
    },
    Wrong {
        name: "no pairs to be read",
        given: CORNER,
        start: &[],
        refusal: PairsRefusal::Lengths,
    },
];

/// A list with these numbers.
fn list_of(numbers: &[u32]) -> List {
    let mut list = List::new(numbers.len());
    let places = list.places();
    for at in 0..places.len().min(numbers.len()) {
        places[at] = numbers[at];
    }
    list
}

fn is_found<N: NumberList>(alloc: Global, matrix: &Compressed<N>, start: &Start) -> bool {
    let mut rows = list_of(start.start);
    let mut columns = List::new(start.columns.len());
    let (least, found) = (start.is_least, columns.places());
    let size = matching_from(alloc, matrix, least, rows.places(), found);
    size == Ok(start.size) && rows.has(start.rows) && columns.has(start.columns)
}

fn is_refused(alloc: Global, wrong: &Wrong) -> bool {
    let mut rows = list_of(wrong.start);
    let mut columns = List::new(2);
    let matrix = wrong.given.narrow();
    let size = matching_from(alloc, &matrix, false, rows.places(), columns.places());
    size == Err(wrong.refusal) && rows.has(wrong.start) && columns.is_left()
}

#[test]
fn matchings_from_pairs(rt: HostRuntime) {
    for start in &STARTS {
        let given = start.given;
        let (starts, ids) = (widened(given.starts), widened(given.ids));
        assert!(rt;
            is_found(rt.alloc(), &given.narrow(), start),
            "{}",
            start.name
        );
        let wide = given.wide(&starts, &ids);
        assert!(rt; is_found(rt.alloc(), &wide, start), "{}", start.name);
    }
}

#[test]
fn pairs_that_are_refused(rt: HostRuntime) {
    for wrong in &WRONG {
        assert!(rt; is_refused(rt.alloc(), wrong), "{}", wrong.name);
    }
}
