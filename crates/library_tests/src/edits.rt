//! The rank after each edit, with numbers of 32 and of 64 bits. The ranks were worked out by hand.

use crate::small::{Given, List, widened};
use blocktri::{ColumnsError, Compressed, Narrow, NumberList, Wide};
use blocktri_edits::{EditPlaces, EditsRefusal, edits};
use std::alloc::Global;

/// A matrix and edits of it, and the ranks after them or why there are none.
#[derive(Clone, Copy)]
struct Edited<'a> {
    name: &'a str,
    given: Given<'a>,
    rows: &'a [u32],
    columns: &'a [u32],
    sets: &'a [i32],
    /// How long the list of ranks is.
    room: usize,
    ranks: Result<&'a [u32], EditsRefusal>,
}

/// Two rows and two columns, and an entry in the first row and column, given twice.
const CORNER: Given<'static> = Given {
    others: 2,
    starts: &[0, 2, 2],
    ids: &[0, 0],
    by_rows: false,
};

/// x . x
/// . . .
const TWO_IN_A_ROW: Given<'static> = Given {
    others: 3,
    starts: &[0, 3, 3],
    ids: &[2, 0, 2],
    by_rows: true,
};

/// No row, and one column.
const NO_ROWS: Given<'static> = Given {
    others: 0,
    starts: &[0, 0],
    ids: &[],
    by_rows: false,
};

/// The first start is not 0.
const BAD_START: Given<'static> = Given {
    others: 2,
    starts: &[1, 1],
    ids: &[0],
    by_rows: false,
};

/// The edits of the first two cases set and clear entries, set one that is there, and clear one that
/// is not.
#[rattlefmt::skip]
const CASES: [Edited<'static>; 12] = [
    Edited {
        name: "a corner",
        given: CORNER,
        rows: &[1, 0, 0, 1, 0, 1, 1, 0],
        columns: &[1, 0, 0, 1, 1, 0, 1, 1],
        sets: &[1, 0, 0, 1, 1, 1, 0, 0],
        room: 8,
        ranks: Ok(&[2, 1, 1, 1, 1, 2, 2, 1]),
    },
    Edited {
        name: "rows; any number but 0 sets",
        given: TWO_IN_A_ROW,
        rows: &[1, 0, 0, 1, 1],
        columns: &[2, 0, 1, 2, 1],
        sets: &[-1, 0, 7, 0, -2147483648],
        room: 5,
        ranks: Ok(&[2, 1, 2, 1, 2]),
    },
    Edited {
        name: "no edits",
        given: CORNER,
        rows: &[],
        columns: &[],
        sets: &[],
        room: 0,
        ranks: Ok(&[]),
    },
    Edited {
        name: "no edits of lists with a fault",
        given: BAD_START,
        rows: &[],
        columns: &[],
        sets: &[],
        room: 0,
        ranks: Err(EditsRefusal::Columns(ColumnsError::BadStart(0))),
    },
    Edited {
        name: "no place in a matrix without rows",
        given: NO_ROWS,
        rows: &[0],
        columns: &[0],
        sets: &[1],
        room: 1,
        ranks: Err(EditsRefusal::BadEdit(0)),
    },
    Edited {
        name: "a row outside, cleared",
        given: TWO_IN_A_ROW,
        rows: &[1, 2, 5],
        columns: &[2, 0, 0],
        sets: &[1, 0, 0],
        room: 3,
        ranks: Err(EditsRefusal::BadEdit(1)),
    },
    Edited {
        name: "a column outside, set last",
        given: TWO_IN_A_ROW,
        rows: &[1, 0, 0],
        columns: &[2, 0, 3],
        sets: &[1, 0, 1],
        room: 3,
        ranks: Err(EditsRefusal::BadEdit(2)),
    },
    Edited {
        name: "lists with a fault, and an edit outside",
        given: BAD_START,
        rows: &[7],
        columns: &[7],
        sets: &[1],
        room: 1,
        ranks: Err(EditsRefusal::Columns(ColumnsError::BadStart(0))),
    },
    Edited {
        name: "a row less, and lists with a fault",
        given: BAD_START,
        rows: &[0],
        columns: &[0, 1],
        sets: &[1, 1],
        room: 2,
        ranks: Err(EditsRefusal::Lengths),
    },
    Edited {
        name: "a column more",
        given: CORNER,
        rows: &[0],
        columns: &[0, 1],
        sets: &[1],
        room: 1,
        ranks: Err(EditsRefusal::Lengths),
    },
    Edited {
        name: "a number that sets more",
        given: CORNER,
        rows: &[0],
        columns: &[0],
        sets: &[1, 1],
        room: 1,
        ranks: Err(EditsRefusal::Lengths),
    },
    Edited {
        name: "no room for the last rank",
        given: CORNER,
        rows: &[0, 1],
        columns: &[0, 1],
        sets: &[1, 1],
        room: 1,
        ranks: Err(EditsRefusal::Lengths),
    },
];

// Whether the ranks, or the refusal, are those of the case. At a refusal nothing is written.
fn are_ranks<N: NumberList>(
    alloc: Global,
    matrix: &Compressed<N>,
    places: &EditPlaces<'_, N>,
    case: &Edited<'_>,
) -> bool {
    let mut ranks = List::new(case.room);
    let found = edits(alloc, matrix, places, ranks.places());
    match case.ranks {
        Ok(wanted) => found == Ok(()) && ranks.has(wanted),
        Err(refusal) => found == Err(refusal) && ranks.is_left(),
    }
}

fn are_narrow_ranks(alloc: Global, case: &Edited<'_>) -> bool {
    let places = EditPlaces {
        rows: Narrow { list: case.rows },
        columns: Narrow { list: case.columns },
        sets: case.sets,
    };
    are_ranks(alloc, &case.given.narrow(), &places, case)
}

#[test]
fn ranks_after_edits(rt: HostRuntime) {
    for case in &CASES {
        assert!(rt; are_narrow_ranks(rt.alloc(), case), "{}", case.name);
    }
}

// The case with an edit of 2^32 in its row or in its column, which 32 bits would take for 0.
fn is_not_cut_off(alloc: Global, row: u64, column: u64) -> bool {
    let starts = widened(CORNER.starts);
    let ids = widened(CORNER.ids);
    let places = EditPlaces {
        rows: Wide { list: &[row] },
        columns: Wide { list: &[column] },
        sets: &[1],
    };
    let mut ranks = List::new(1);
    let found = edits(alloc, &CORNER.wide(&starts, &ids), &places, ranks.places());
    found == Err(EditsRefusal::BadEdit(0)) && ranks.is_left()
}

#[test]
fn numbers_of_64_bits(rt: HostRuntime) {
    assert!(rt; is_not_cut_off(rt.alloc(), 4294967296, 0));
    assert!(rt; is_not_cut_off(rt.alloc(), 0, 4294967296));
}
