//! Orders by a completed matching, and by pairs that are given.

use crate::matrices::NONE;
use crate::small::{Given, List};
use blocktri::{Narrow, OrderBy, PairedOrder, PairingRefusal, Refusal, completed_order, order_by};
use std::alloc::Global;

/// A matrix as compressed columns or rows, and what the calls have to answer of it.
struct Paired {
    given: Given<'static>,
    /// For each column its row in the pairs that are given.
    pairs: &'static [u32],
    rows: &'static [u32],
    columns: &'static [u32],
    starts: &'static [u32],
    /// For each column its row in the one maximum matching.
    mates: &'static [u32],
    rank: u32,
    blocks: u32,
}

/// No entry at all: the pairs are (0, 0) and (1, 1), and each is a block.
static EMPTY_TWO: Paired = Paired {
    given: Given {
        others: 2,
        starts: &[0, 0, 0],
        ids: &[],
        by_rows: false,
    },
    pairs: &[0, 1],
    rows: &[0, 1],
    columns: &[0, 1],
    starts: &[0, 1, 2],
    mates: &[NONE, NONE],
    rank: 0,
    blocks: 2,
};

/// x x .
/// x . .
/// . . .
///
/// Row 1 has column 0, so row 0 has column 1; row 2 and column 2 are left. Column 0 has an entry in
/// the row of column 1, whose block stands before it.
static SINGULAR: Paired = Paired {
    given: Given {
        others: 3,
        starts: &[0, 3, 4, 4],
        ids: &[1, 0, 1, 0],
        by_rows: false,
    },
    pairs: &[1, 0, 2],
    rows: &[0, 1, 2],
    columns: &[1, 0, 2],
    starts: &[0, 1, 2, 3],
    mates: &[1, 0, NONE],
    rank: 2,
    blocks: 3,
};

/// The same by rows.
static SINGULAR_ROWS: Paired = Paired {
    given: Given {
        others: 3,
        starts: &[0, 2, 3, 3],
        ids: &[1, 0, 0],
        by_rows: true,
    },
    pairs: &[1, 0, 2],
    rows: &[0, 1, 2],
    columns: &[1, 0, 2],
    starts: &[0, 1, 2, 3],
    mates: &[1, 0, NONE],
    rank: 2,
    blocks: 3,
};

/// . . x
/// x . .
/// . x .
///
/// Each column has one entry, and no column has one in the row of another: three blocks by their
/// columns.
static CYCLE: Paired = Paired {
    given: Given {
        others: 3,
        starts: &[0, 1, 2, 3],
        ids: &[1, 2, 0],
        by_rows: false,
    },
    pairs: &[1, 2, 0],
    rows: &[1, 2, 0],
    columns: &[0, 1, 2],
    starts: &[0, 1, 2, 3],
    mates: &[1, 2, 0],
    rank: 3,
    blocks: 3,
};

/// x .
/// . x
///
/// The pairs (1, 0) and (0, 1) are no entries. With them each column has both rows: one block, in
/// which the rows rise and the columns fall.
static CROSSED: Given<'static> = Given {
    others: 2,
    starts: &[0, 1, 2],
    ids: &[0, 1],
    by_rows: false,
};

/// Two rows and one column.
static TALL: Given<'static> = Given {
    others: 2,
    starts: &[0, 1],
    ids: &[0],
    by_rows: false,
};

// Whether both calls answer so.
fn has_answers(alloc: Global, worked: &Paired) -> bool {
    let matrix = worked.given.narrow();
    let mut rows = List::new(worked.rows.len());
    let mut columns = List::new(worked.columns.len());
    let mut starts = List::new(worked.starts.len());
    let mut mates = List::new(worked.mates.len());
    let found = completed_order(
        alloc,
        &matrix,
        true,
        rows.places(),
        columns.places(),
        starts.places(),
        mates.places(),
    );
    let are_completed = rows.has(worked.rows)
        && columns.has(worked.columns)
        && starts.has(worked.starts)
        && mates.has(worked.mates)
        && found == Ok(PairedOrder::Square(worked.rank, Some(worked.blocks)));
    let mut rows = List::new(worked.rows.len());
    let mut columns = List::new(worked.columns.len());
    let mut starts = List::new(worked.starts.len());
    let ordered = order_by(
        alloc,
        &matrix,
        Narrow { list: worked.pairs },
        rows.places(),
        columns.places(),
        starts.places(),
    );
    are_completed
        && rows.has(worked.rows)
        && columns.has(worked.columns)
        && starts.has(worked.starts)
        && ordered == Ok(OrderBy::Ordered(worked.blocks))
}

#[test]
fn completed_pairs(rt: HostRuntime) {
    assert!(rt; has_answers(rt.alloc(), &EMPTY_TWO));
    assert!(rt; has_answers(rt.alloc(), &SINGULAR));
    assert!(rt; has_answers(rt.alloc(), &SINGULAR_ROWS));
    assert!(rt; has_answers(rt.alloc(), &CYCLE));
}

// The rows of a block rise, whatever their mates.
#[test]
fn pairs_across(rt: HostRuntime) {
    let mut rows = List::new(2);
    let mut columns = List::new(2);
    let ordered = order_by(
        rt.alloc(),
        &CROSSED.narrow(),
        Narrow { list: &[1, 0] },
        rows.places(),
        columns.places(),
        &mut [],
    );
    assert!(rt; ordered == Ok(OrderBy::Ordered(1)));
    assert!(rt; rows.has(&[0, 1]));
    assert!(rt; columns.has(&[1, 0]));
}

// A matrix that is not square has no orders, and a list of another length is refused first.
#[test]
fn neither_square_nor_long_enough(rt: HostRuntime) {
    let alloc = rt.alloc();
    assert!(rt; answer(alloc, TALL, &[0]) == Ok(OrderBy::NotSquare));
    assert!(rt; answer(alloc, TALL, &[0, 1]) == Err(PairingRefusal::Lists(Refusal::Lengths)));
    let matrix = TALL.narrow();
    let found = completed_order(alloc, &matrix, true, &mut [], &mut [], &mut [], &mut []);
    assert!(rt; found == Ok(PairedOrder::NotSquare));
}

// What the pairs of a matrix are answered, with no list wanted.
fn answer(alloc: Global, given: Given<'_>, pairs: &[u32]) -> Result<OrderBy, PairingRefusal> {
    order_by(
        alloc,
        &given.narrow(),
        Narrow { list: pairs },
        &mut [],
        &mut [],
        &mut [],
    )
}

// The first number that is no row, or stands there already, is told.
#[test]
fn pairs_that_are_wrong(rt: HostRuntime) {
    let alloc = rt.alloc();
    let bad = |at: usize| Err(PairingRefusal::BadPair(at));
    assert!(rt; answer(alloc, SINGULAR.given, &[3, 0, 1]) == bad(0));
    assert!(rt; answer(alloc, SINGULAR.given, &[0, 0, 3]) == bad(1));
    assert!(rt; answer(alloc, SINGULAR.given, &[0, 1, 1]) == bad(2));
    assert!(rt; answer(alloc, SINGULAR.given, &[0, 1, 2]) == Ok(OrderBy::Ordered(2)));
}
