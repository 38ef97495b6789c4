//! Matrices with entries all along the diagonal: their matchings are that diagonal, though other
//! entries stand before it in the lists. The least matching takes no part in this.

use crate::block_forms::WANTS;
use crate::lists::{DmpermLists, MateLists, OrderLists};
use crate::matrices::{LEFT, Matched, NONE};
use crate::small::Given;
use blocktri::{Compressed, Narrow, SquareOrder};
use std::alloc::Global;

/// Lists with a full diagonal, and what is answered of the matrix whose compressed columns they
/// are, or of its transpose, whose compressed rows they are: where the lists do not give a square,
/// the columns beyond the diagonal come first in `q`, and the rows beyond it last in `p`.
struct Full<'a> {
    others: u64,
    starts: &'a [u32],
    ids: &'a [u32],
    order: SquareOrder,
    block_starts: &'a [u32],
    as_columns: Matched<'a>,
    as_rows: Matched<'a>,
}

const OF_THREE: Matched<'static> = Matched {
    row_of_column: &[0, 1, 2],
    column_of_row: &[0, 1, 2],
    p: &[0, 1, 2],
    q: &[0, 1, 2],
};

const OF_ONE_BLOCK: &'static [u32] = &[0, 3, LEFT, LEFT];

/// Two columns of three rows.
const TALL: Matched<'static> = Matched {
    row_of_column: &[0, 1],
    column_of_row: &[0, 1, NONE],
    p: &[0, 1, 2],
    q: &[0, 1],
};

/// Three columns of two rows.
const WIDE: Matched<'static> = Matched {
    row_of_column: &[0, 1, NONE],
    column_of_row: &[0, 1],
    p: &[0, 1],
    q: &[2, 0, 1],
};

/// Four columns of two rows.
const WIDER: Matched<'static> = Matched {
    row_of_column: &[0, 1, NONE, NONE],
    column_of_row: &[0, 1],
    p: &[0, 1],
    q: &[2, 3, 0, 1],
};

/// Two columns of four rows.
const TALLER: Matched<'static> = Matched {
    row_of_column: &[0, 1],
    column_of_row: &[0, 1, NONE, NONE],
    p: &[0, 1, 2, 3],
    q: &[0, 1],
};

/// A cycle of three with what is beside the diagonal first; all nine entries, from the last to the
/// first, and shuffled, with places given twice; all six, and four columns of which one has no
/// entry.
#[rattlefmt::skip]
static FULL: [Full<'static>; 5] = [
    Full {
        others: 3, starts: &[0, 2, 4, 6], ids: &[2, 0, 0, 1, 1, 2],
        order: SquareOrder::Full(Some(1)), block_starts: OF_ONE_BLOCK,
        as_columns: OF_THREE, as_rows: OF_THREE,
    },
    Full {
        others: 3, starts: &[0, 3, 6, 9], ids: &[2, 1, 0, 2, 1, 0, 2, 1, 0],
        order: SquareOrder::Full(Some(1)), block_starts: OF_ONE_BLOCK,
        as_columns: OF_THREE, as_rows: OF_THREE,
    },
    Full {
        others: 3, starts: &[0, 4, 8, 11], ids: &[1, 1, 2, 0, 2, 0, 2, 1, 1, 0, 2],
        order: SquareOrder::Full(Some(1)), block_starts: OF_ONE_BLOCK,
        as_columns: OF_THREE, as_rows: OF_THREE,
    },
    Full {
        others: 3, starts: &[0, 3, 6], ids: &[2, 1, 0, 0, 2, 1],
        order: SquareOrder::NotSquare, block_starts: &[LEFT, LEFT, LEFT],
        as_columns: TALL, as_rows: WIDE,
    },
    Full {
        others: 2, starts: &[0, 2, 4, 5, 5], ids: &[1, 0, 0, 1, 1],
        order: SquareOrder::NotSquare, block_starts: &[LEFT, LEFT, LEFT, LEFT, LEFT],
        as_columns: WIDER, as_rows: TALLER,
    },
];

/// Whether the matching that is not the least is this one.
fn has_matching(alloc: Global, matrix: &Compressed<Narrow<'_>>, kept: &Matched<'_>) -> bool {
    let mut lists = MateLists::new([kept.row_of_column.len(), kept.column_of_row.len()]);
    let found = lists.write(alloc, matrix, false);
    found.is_ok() && lists.have(kept.row_of_column, kept.column_of_row)
}

/// Whether it stands on the diagonal of the permutations, whatever is wanted beside it.
fn has_permutations(alloc: Global, matrix: &Compressed<Narrow<'_>>, kept: &Matched<'_>) -> bool {
    for wants in &WANTS {
        let columns = kept.q.len();
        let mut lists = DmpermLists::new([kept.p.len(), columns, 0, 0, columns, 0, 0]);
        let found = lists.write(alloc, matrix, *wants);
        if found.is_err() || !lists.have_pairs(kept, wants.blocks) {
            return false;
        }
    }
    true
}

/// Whether it stands on the diagonal of the orders of a square matrix.
fn has_order(
    alloc: Global,
    matrix: &Compressed<Narrow<'_>>,
    kept: &Matched<'_>,
    full: &Full<'_>,
) -> bool {
    let columns = kept.q.len();
    let starts = columns.saturating_add(1);
    let mut lists = OrderLists::new([kept.p.len(), columns, starts, columns]);
    let found = lists.write(alloc, matrix, true);
    if found != Ok(full.order) {
        return false;
    }
    match full.order {
        SquareOrder::NotSquare => lists.are_left(),
        _ => lists.have(kept, full.block_starts, true),
    }
}

/// Whether the diagonal is kept where blocks are not wanted.
fn has_diagonal(
    alloc: Global,
    matrix: &Compressed<Narrow<'_>>,
    kept: &Matched<'_>,
    full: &Full<'_>,
) -> bool {
    let mut lists = OrderLists::new([0, 0, 0, kept.q.len()]);
    let found = lists.write(alloc, matrix, false);
    match full.order {
        SquareOrder::NotSquare => found == Ok(SquareOrder::NotSquare) && lists.are_left(),
        _ => found == Ok(SquareOrder::Full(None)) && lists.have(kept, &[], false),
    }
}

/// Whether each call that makes a matching keeps the diagonal.
fn keeps_diagonal(alloc: Global, full: &Full<'_>, by_rows: bool) -> bool {
    let given = Given {
        others: full.others,
        starts: full.starts,
        ids: full.ids,
        by_rows,
    };
    let matrix = given.narrow();
    let kept = if by_rows {
        full.as_rows
    } else {
        full.as_columns
    };
    has_matching(alloc, &matrix, &kept)
        && has_permutations(alloc, &matrix, &kept)
        && has_order(alloc, &matrix, &kept, full)
        && has_diagonal(alloc, &matrix, &kept, full)
}

#[test]
fn diagonal_by_columns(rt: HostRuntime) {
    for full in &FULL {
        assert!(rt; keeps_diagonal(rt.alloc(), full, false));
    }
}

#[test]
fn diagonal_by_rows(rt: HostRuntime) {
    for full in &FULL {
        assert!(rt; keeps_diagonal(rt.alloc(), full, true));
    }
}
