//! Diagonals of matrices with values. The expected values are worked out beside each.

use blocktri::{
    Compressed, DiagonalRefusal, LeastWeight, Narrow, NumberList, Sum, Weighted, Wide, bottleneck,
    heaviest,
};
use std::alloc::Global;

// The greatest value, which is also the greatest weight.
const MOST: i64 = i64::MAX;

/// A matrix with values, by columns or by rows, of as many rows as columns.
#[derive(Clone, Copy)]
struct Given {
    size: usize,
    starts: &'static [u32],
    ids: &'static [u32],
    values: &'static [i64],
    by_rows: bool,
}

/// The rows (3 5) and (4 1). The rows of a column stand in no order, and places are given twice:
/// 4 as 1 + 3, 5 as 7 - 2, and 1 as the magnitude of -2 + 1.
#[rattlefmt::skip]
static OF_TWO: Given = Given {
    size: 2, by_rows: false,
    starts: &[0, 3, 7],
    ids: &[1, 0, 1, 1, 0, 0, 1],
    values: &[1, 3, 3, -2, 7, -2, 1],
};

/// The same by rows.
#[rattlefmt::skip]
static OF_TWO_BY_ROWS: Given = Given {
    size: 2, by_rows: true,
    starts: &[0, 3, 7],
    ids: &[1, 0, 1, 0, 0, 1, 1],
    values: &[7, 3, -2, 1, 3, -2, 1],
};

/// The rows (4 4 1), (4 3 0) and (2 1 5), from below in the first and the last column, and 4 of the
/// second column given as 9 and -5.
#[rattlefmt::skip]
static OF_THREE: Given = Given {
    size: 3, by_rows: false,
    starts: &[0, 3, 7, 10],
    ids: &[2, 1, 0, 0, 2, 1, 0, 2, 1, 0],
    values: &[2, 4, -4, 9, 1, 3, -5, 5, 0, 1],
};

/// The same by rows.
#[rattlefmt::skip]
static OF_THREE_BY_ROWS: Given = Given {
    size: 3, by_rows: true,
    starts: &[0, 4, 7, 10],
    ids: &[1, 0, 1, 2, 0, 1, 2, 2, 1, 0],
    values: &[9, -4, -5, 1, 4, 3, 0, 5, 1, 2],
};

/// The diagonal of 2^63 - 1, with one sign the other way.
#[rattlefmt::skip]
static OF_MOST: Given = Given {
    size: 3, by_rows: false,
    starts: &[0, 1, 2, 3],
    ids: &[0, 1, 2],
    values: &[MOST, -MOST, MOST],
};

/// The values of row 1 of the second column pass the limit on the way, and come back to 2^63 - 1.
#[rattlefmt::skip]
static COMING_BACK: Given = Given {
    size: 2, by_rows: false,
    starts: &[0, 1, 4],
    ids: &[0, 1, 1, 1],
    values: &[1, MOST, MOST, -MOST],
};

/// No rows and no columns.
#[rattlefmt::skip]
static EMPTY: Given = Given { size: 0, by_rows: true, starts: &[0], ids: &[], values: &[] };

/// The lists of a matrix.
fn lists_of(given: &Given) -> Compressed<Narrow<'static>> {
    Compressed {
        others: given.size as u64,
        starts: Narrow { list: given.starts },
        ids: Narrow { list: given.ids },
        by_rows: given.by_rows,
    }
}

/// What is answered, and lists of three places, which are 7 where nothing is written.
#[derive(Clone, Copy)]
struct Heavy {
    sum: Result<Sum, DiagonalRefusal>,
    rows: [u32; 3],
    u: [i64; 3],
    v: [i64; 3],
}

/// The heaviest diagonal of a matrix, with lists of these lengths, at most three: for the mates, the
/// prices of the rows and those of the columns.
fn heaviest_with<N: NumberList>(
    alloc: Global,
    matrix: &Weighted<'_, N>,
    (mates, rows, columns): (usize, usize, usize),
) -> Heavy {
    let (mut list, mut u, mut v) = ([7; 3], [7; 3], [7; 3]);
    let sum = heaviest(
        alloc,
        matrix,
        &mut list[..mates.min(3)],
        &mut u[..rows.min(3)],
        &mut v[..columns.min(3)],
    );
    Heavy {
        sum,
        rows: list,
        u,
        v,
    }
}

/// The same with all lists.
fn heaviest_of(alloc: Global, given: &Given) -> Heavy {
    let matrix = lists_of(given);
    let weighted = Weighted {
        matrix: &matrix,
        values: given.values,
    };
    heaviest_with(alloc, &weighted, (given.size, given.size, given.size))
}

/// Whether these are the sum and the rows.
fn has_sum(found: &Heavy, low: u64, high: u64, rows: &[u32]) -> bool {
    found.sum == Ok(Sum { low, high }) && found.rows.as_slice() == rows
}

/// The prices of a row and of a column together, of at most three.
fn price(found: &Heavy, row: usize, col: usize) -> i64 {
    found.u[row % 3].saturating_add(found.v[col % 3])
}

// 5 + 4 is more than 3 + 1. Prices are fair where the four entries weigh no more than theirs.
fn is_of_two(found: &Heavy) -> bool {
    has_sum(found, 9, 0, &[1, 0, 7])
        && price(found, 1, 0) == 4
        && price(found, 0, 1) == 5
        && 3 <= price(found, 0, 0)
        && 1 <= price(found, 1, 1)
}

#[test]
fn heaviest_of_two(rt: HostRuntime) {
    assert!(rt; is_of_two(&heaviest_of(rt.alloc(), &OF_TWO)));
    assert!(rt; is_of_two(&heaviest_of(rt.alloc(), &OF_TWO_BY_ROWS)));
}

// Of the six diagonals 4 + 4 + 5 is most: the others are 12, 6, 6, 6 and 5.
fn is_of_three(found: &Heavy) -> bool {
    has_sum(found, 13, 0, &[1, 0, 2]) && price(found, 2, 2) == 5
}

#[test]
fn heaviest_of_three(rt: HostRuntime) {
    assert!(rt; is_of_three(&heaviest_of(rt.alloc(), &OF_THREE)));
    assert!(rt; is_of_three(&heaviest_of(rt.alloc(), &OF_THREE_BY_ROWS)));
}

// The rows (3 5) and (4 1) in numbers of 64 bits.
#[test]
fn heaviest_of_wide_lists(rt: HostRuntime) {
    let matrix = Compressed {
        others: 2,
        starts: Wide { list: &[0, 2, 4] },
        ids: Wide {
            list: &[0, 1, 0, 1],
        },
        by_rows: false,
    };
    let weighted = Weighted {
        matrix: &matrix,
        values: &[3, 4, 5, 1],
    };
    assert!(rt; is_of_two(&heaviest_with(rt.alloc(), &weighted, (2, 2, 2))));
}

// Three times 2^63 - 1 are 2^64 and 2^63 - 3.
#[test]
fn sum_of_two_words(rt: HostRuntime) {
    let found = heaviest_of(rt.alloc(), &OF_MOST);
    assert!(rt; has_sum(&found, 9223372036854775805, 1, &[0, 1, 2]));
}

#[test]
fn sum_that_comes_back(rt: HostRuntime) {
    let found = heaviest_of(rt.alloc(), &COMING_BACK);
    assert!(rt; has_sum(&found, 9223372036854775808, 0, &[0, 1, 7]));
}

// Lists that are not wanted stay, and what is in the others is as with them.
#[test]
fn lists_that_are_not_wanted(rt: HostRuntime) {
    let matrix = lists_of(&OF_TWO);
    let weighted = Weighted {
        matrix: &matrix,
        values: OF_TWO.values,
    };
    let found = heaviest_with(rt.alloc(), &weighted, (2, 0, 0));
    assert!(rt; has_sum(&found, 9, 0, &[1, 0, 7]));
    assert!(rt; found.u == [7; 3] && found.v == [7; 3]);
    let found = heaviest_with(rt.alloc(), &weighted, (0, 2, 2));
    assert!(rt; has_sum(&found, 9, 0, &[7, 7, 7]) && price(&found, 1, 0) == 4);
    let found = heaviest_with(rt.alloc(), &weighted, (0, 0, 0));
    assert!(rt; has_sum(&found, 9, 0, &[7, 7, 7]) && found.u == [7; 3] && found.v == [7; 3]);
}

/// Whether the bottleneck of a matrix, with lists of these lengths, at most three, for the mates and
/// for the columns that show it, is this weight, with these rows and with so many columns that show
/// it, which are these. The lists have three places, which are 7 where nothing is written.
fn has_least(
    alloc: Global,
    given: &Given,
    (mates, places): (usize, usize),
    least: LeastWeight,
    (rows, columns): (&[u32], &[u32]),
) -> bool {
    let matrix = lists_of(given);
    let weighted = Weighted {
        matrix: &matrix,
        values: given.values,
    };
    let (mut row_of_column, mut shown_by) = ([7; 3], [7; 3]);
    let found = bottleneck(
        alloc,
        &weighted,
        &mut row_of_column[..mates.min(3)],
        &mut shown_by[..places.min(3)],
    );
    found == Ok(least) && row_of_column.as_slice() == rows && shown_by.as_slice() == columns
}

// Of two the pair of 5 and 4 has the greater least weight, and above 4 there is an entry in the
// second column alone, so that the first one shows it.
#[test]
fn bottleneck_of_two(rt: HostRuntime) {
    let (weight, columns) = (4, 1);
    let least = LeastWeight { weight, columns };
    let lists: (&[u32], &[u32]) = (&[1, 0, 7], &[0, 7, 7]);
    assert!(rt; has_least(rt.alloc(), &OF_TWO, (2, 2), least, lists));
    assert!(rt; has_least(rt.alloc(), &OF_TWO_BY_ROWS, (2, 2), least, lists));
}

// 4, 4 and 5 are the one diagonal without an entry below 4. Above 4 the first two columns have
// none.
#[test]
fn bottleneck_of_three(rt: HostRuntime) {
    let (weight, columns) = (4, 2);
    let least = LeastWeight { weight, columns };
    let lists: (&[u32], &[u32]) = (&[1, 0, 2], &[0, 1, 7]);
    assert!(rt; has_least(rt.alloc(), &OF_THREE, (3, 3), least, lists));
    assert!(rt; has_least(rt.alloc(), &OF_THREE_BY_ROWS, (3, 3), least, lists));
    assert!(rt;
        has_least(
            rt.alloc(),
            &OF_THREE,
            (0, 3),
            least,
            (&[7, 7, 7], &[0, 1, 7])
        )
    );
    assert!(rt;
        has_least(
            rt.alloc(),
            &OF_THREE,
            (3, 0),
            least,
            (&[1, 0, 2], &[7, 7, 7])
        )
    );
}

// Of no rows and columns the diagonal is empty: its sum and its least weight are 0.
#[test]
fn no_pair(rt: HostRuntime) {
    let found = heaviest_of(rt.alloc(), &EMPTY);
    assert!(rt; has_sum(&found, 0, 0, &[7, 7, 7]));
    let (weight, columns) = (0, 0);
    let least = LeastWeight { weight, columns };
    assert!(rt; has_least(rt.alloc(), &EMPTY, (0, 0), least, (&[7, 7, 7], &[7, 7, 7])));
}
