//! Matrices with values that have no diagonal, and lists that are refused. Nothing is written then.

use blocktri::{
    ColumnsError, Compressed, DiagonalRefusal, Narrow, Refusal, Sum, Weighted, bottleneck, heaviest,
};
use std::alloc::Global;

const MOST: i64 = i64::MAX;

const LEAST: i64 = i64::MIN;

// Whether all numbers are 7, as before the call.
fn are_sevens(list: &[u32]) -> bool {
    for number in list {
        if *number != 7 {
            return false;
        }
    }
    true
}

// The same of prices.
fn prices_are_sevens(list: &[i64]) -> bool {
    for number in list {
        if *number != 7 {
            return false;
        }
    }
    true
}

/// A matrix, and the reason for which it is refused.
#[derive(Clone, Copy)]
struct Wrong {
    others: u64,
    starts: &'static [u32],
    ids: &'static [u32],
    values: &'static [i64],
    by_rows: bool,
    reason: DiagonalRefusal,
}

fn lists_of(wrong: &Wrong) -> Compressed<Narrow<'static>> {
    Compressed {
        others: wrong.others,
        starts: Narrow { list: wrong.starts },
        ids: Narrow { list: wrong.ids },
        by_rows: wrong.by_rows,
    }
}

// Whether the heaviest diagonal is refused where lists of these lengths, at most 4, are to be
// written: for the mates, the prices of the rows and those of the columns.
fn heaviest_is_refused(
    alloc: Global,
    wrong: &Wrong,
    mates: usize,
    rows: usize,
    columns: usize,
) -> bool {
    if mates > 4 || rows > 4 || columns > 4 {
        return false;
    }
    let matrix = lists_of(wrong);
    let weighted = Weighted {
        matrix: &matrix,
        values: wrong.values,
    };
    let (mut row_of_column, mut u, mut v) = ([7; 4], [7; 4], [7; 4]);
    let found = heaviest(
        alloc,
        &weighted,
        &mut row_of_column[..mates],
        &mut u[..rows],
        &mut v[..columns],
    );
    found == Err(wrong.reason)
        && are_sevens(&row_of_column)
        && prices_are_sevens(&u)
        && prices_are_sevens(&v)
}

// The same of the bottleneck, with lists for the mates and for the columns that show it.
fn bottleneck_is_refused(alloc: Global, wrong: &Wrong, mates: usize, columns: usize) -> bool {
    if mates > 4 || columns > 4 {
        return false;
    }
    let matrix = lists_of(wrong);
    let weighted = Weighted {
        matrix: &matrix,
        values: wrong.values,
    };
    let (mut row_of_column, mut shown_by) = ([7; 4], [7; 4]);
    let found = bottleneck(
        alloc,
        &weighted,
        &mut row_of_column[..mates],
        &mut shown_by[..columns],
    );
    found == Err(wrong.reason) && are_sevens(&row_of_column) && are_sevens(&shown_by)
}

// Whether both are refused where the lists have the right lengths.
fn both_are_refused(alloc: Global, wrong: &Wrong) -> bool {
    let (others, lists) = (wrong.others as usize, wrong.starts.len().saturating_sub(1));
    let (rows, columns) = if wrong.by_rows {
        (lists, others)
    } else {
        (others, lists)
    };
    heaviest_is_refused(alloc, wrong, columns, rows, columns)
        && bottleneck_is_refused(alloc, wrong, columns, columns)
}

// Whether they are of all these matrices.
fn all_are_refused(alloc: Global, list: &[Wrong]) -> bool {
    for wrong in list {
        if !both_are_refused(alloc, wrong) {
            return false;
        }
    }
    true
}

/// In the first, the sum at row 1 of column 1 is 2^63, and its first id is the one at place 1; in
/// the third, that of row 0 is -2^63 and stands above it, at place 2. A sum past the limit comes
/// before the want of a perfect matching. By rows the sums at (0 1) and (1 0) pass the limit, and
/// the second is of the lesser column; and then those at (1 0) and (0 0).
#[rattlefmt::skip]
static SUMS: [Wrong; 5] = [
    Wrong {
        by_rows: false, others: 2, starts: &[0, 1, 4], ids: &[0, 1, 0, 1], values: &[1, MOST, 1, 1],
        reason: DiagonalRefusal::SumLimit(1),
    },
    Wrong {
        by_rows: false, others: 3, starts: &[0, 1, 2], ids: &[0, 1], values: &[1, LEAST],
        reason: DiagonalRefusal::SumLimit(1),
    },
    Wrong {
        by_rows: false, others: 2, starts: &[0, 1, 4], ids: &[0, 1, 0, 1], values: &[1, MOST, LEAST, 1],
        reason: DiagonalRefusal::SumLimit(2),
    },
    Wrong {
        by_rows: true, others: 2, starts: &[0, 2, 3], ids: &[1, 1, 0], values: &[MOST, 1, LEAST],
        reason: DiagonalRefusal::SumLimit(2),
    },
    Wrong {
        by_rows: true, others: 2, starts: &[0, 3, 4], ids: &[1, 0, 0, 0], values: &[1, MOST, 9, LEAST],
        reason: DiagonalRefusal::SumLimit(1),
    },
];

#[test]
fn sum_past_the_limit(rt: HostRuntime) {
    assert!(rt; all_are_refused(rt.alloc(), &SUMS));
}

/// Both columns have their entry in row 0, and then both rows in column 0.
#[rattlefmt::skip]
static SINGULAR: [Wrong; 2] = [
    Wrong {
        by_rows: false, others: 2, starts: &[0, 1, 2], ids: &[0, 0], values: &[1, 2],
        reason: DiagonalRefusal::Singular,
    },
    Wrong {
        by_rows: true, others: 2, starts: &[0, 1, 2], ids: &[0, 0], values: &[1, 2],
        reason: DiagonalRefusal::Singular,
    },
];

#[test]
fn no_perfect_matching(rt: HostRuntime) {
    assert!(rt; all_are_refused(rt.alloc(), &SINGULAR));
}

/// There are more rows than columns, and then fewer; by rows the other way.
#[rattlefmt::skip]
static NOT_SQUARE: [Wrong; 4] = [
    Wrong {
        by_rows: false, others: 3, starts: &[0, 1, 2], ids: &[0, 1], values: &[1, 2],
        reason: DiagonalRefusal::NotSquare,
    },
    Wrong {
        by_rows: false, others: 1, starts: &[0, 1, 2], ids: &[0, 0], values: &[1, 2],
        reason: DiagonalRefusal::NotSquare,
    },
    Wrong {
        by_rows: true, others: 3, starts: &[0, 1, 2], ids: &[0, 1], values: &[1, 2],
        reason: DiagonalRefusal::NotSquare,
    },
    Wrong {
        by_rows: true, others: 1, starts: &[0, 1, 2], ids: &[0, 0], values: &[1, 2],
        reason: DiagonalRefusal::NotSquare,
    },
];

#[test]
fn not_as_many_rows_as_columns(rt: HostRuntime) {
    assert!(rt; all_are_refused(rt.alloc(), &NOT_SQUARE));
}

/// A start that falls, an id that is no row, and fewer and more values than ids; of the last the ids
/// are not looked at.
#[rattlefmt::skip]
static LISTS: [Wrong; 4] = [
    Wrong {
        by_rows: false, others: 2, starts: &[0, 2, 1], ids: &[0], values: &[1],
        reason: DiagonalRefusal::Lists(Refusal::Columns(ColumnsError::BadStart(2))),
    },
    Wrong {
        by_rows: false, others: 2, starts: &[0, 1, 2], ids: &[0, 2], values: &[1, 1],
        reason: DiagonalRefusal::Lists(Refusal::Columns(ColumnsError::BadRow(1))),
    },
    Wrong {
        by_rows: false, others: 2, starts: &[0, 1, 2], ids: &[0, 1], values: &[1],
        reason: DiagonalRefusal::Lists(Refusal::Lengths),
    },
    Wrong {
        by_rows: false, others: 2, starts: &[0, 1, 2], ids: &[0, 5], values: &[1, 1, 1],
        reason: DiagonalRefusal::Lists(Refusal::Lengths),
    },
];

#[test]
fn lists_that_are_not_right(rt: HostRuntime) {
    assert!(rt; all_are_refused(rt.alloc(), &LISTS));
}

#[rattlefmt::skip]
static NO_STARTS: Wrong = Wrong {
    by_rows: false, others: 1, starts: &[], ids: &[], values: &[],
    reason: DiagonalRefusal::Lists(Refusal::Columns(ColumnsError::BadStart(0))),
};

#[test]
fn no_starts(rt: HostRuntime) {
    assert!(rt; both_are_refused(rt.alloc(), &NO_STARTS));
}

#[rattlefmt::skip]
static MANY_ROWS: Wrong = Wrong {
    by_rows: false, others: 4294967296, starts: &[0, 1], ids: &[0], values: &[1],
    reason: DiagonalRefusal::Lists(Refusal::Columns(ColumnsError::TooManyRows)),
};

// The call that writes a price for each row looks at the length of that list first, where it is
// wanted.
#[test]
fn too_many_rows(rt: HostRuntime) {
    assert!(rt; bottleneck_is_refused(rt.alloc(), &MANY_ROWS, 1, 1));
    assert!(rt; heaviest_is_refused(rt.alloc(), &MANY_ROWS, 1, 0, 1));
}

/// One entry. Each of the lists should have one place, or none.
#[rattlefmt::skip]
static ONE_ENTRY: Wrong = Wrong {
    by_rows: false, others: 1, starts: &[0, 1], ids: &[0], values: &[1],
    reason: DiagonalRefusal::Lists(Refusal::Lengths),
};

#[test]
fn lengths_of_the_heaviest(rt: HostRuntime) {
    assert!(rt; heaviest_is_refused(rt.alloc(), &ONE_ENTRY, 2, 1, 1));
    assert!(rt; heaviest_is_refused(rt.alloc(), &ONE_ENTRY, 0, 2, 1));
    assert!(rt; heaviest_is_refused(rt.alloc(), &ONE_ENTRY, 1, 0, 2));
}

#[test]
fn lengths_of_the_bottleneck(rt: HostRuntime) {
    assert!(rt; bottleneck_is_refused(rt.alloc(), &ONE_ENTRY, 2, 1));
    assert!(rt; bottleneck_is_refused(rt.alloc(), &ONE_ENTRY, 0, 2));
}

/// The diagonal of zeros is the one there is, and each row's price is at least 2^63 - 1 more than
/// that of the row above it. So no prices of four rows fit.
#[rattlefmt::skip]
static HIGH_PRICES: Wrong = Wrong {
    by_rows: false, others: 4, starts: &[0, 2, 4, 6, 7], ids: &[0, 1, 1, 2, 2, 3, 3],
    values: &[0, MOST, 0, MOST, 0, MOST, 0],
    reason: DiagonalRefusal::PriceLimit,
};

#[test]
fn price_past_64_bits(rt: HostRuntime) {
    assert!(rt; heaviest_is_refused(rt.alloc(), &HIGH_PRICES, 4, 4, 4));
    assert!(rt; heaviest_is_refused(rt.alloc(), &HIGH_PRICES, 4, 4, 0));
    assert!(rt; heaviest_is_refused(rt.alloc(), &HIGH_PRICES, 0, 0, 4));
}

// Where no prices are wanted, they need not fit.
#[test]
fn no_prices_are_wanted(rt: HostRuntime) {
    let matrix = lists_of(&HIGH_PRICES);
    let weighted = Weighted {
        matrix: &matrix,
        values: HIGH_PRICES.values,
    };
    let mut row_of_column = [7; 4];
    let found = heaviest(rt.alloc(), &weighted, &mut row_of_column, &mut [], &mut []);
    assert!(rt; found == Ok(Sum { low: 0, high: 0 }) && row_of_column == [0, 1, 2, 3]);
}
