//! Matrices that were worked out by hand from the definitions, as compressed columns and as
//! compressed rows. Each column has its rows from the last one to the first, and each row its
//! columns, and of each matrix with entries one place is given twice. Rows and columns are counted
//! from 0.

use blocktri::{ComponentCounts, Sizes, SquareOrder};

/// Stands for no row and for no component.
pub(crate) const NONE: u32 = u32::MAX;

/// What no call writes.
pub(crate) const LEFT: u32 = 1000;

/// A maximum matching, and the permutations in which it stands on the diagonal.
#[derive(Clone, Copy)]
pub(crate) struct Matched<'a> {
    /// For each column its row.
    pub(crate) row_of_column: &'a [u32],
    /// For each row its column.
    pub(crate) column_of_row: &'a [u32],
    /// The rows of the columns that have one, in the order of `q`, and the rows without a column.
    pub(crate) p: &'a [u32],
    /// The columns without a row, the other horizontal ones, those of the blocks, and the vertical
    /// ones.
    pub(crate) q: &'a [u32],
}

/// A matrix, and what the calls have to answer of it. The horizontal part is what alternating paths
/// from the unmatched columns of a maximum matching meet, the vertical part what those from its
/// unmatched rows meet.
pub(crate) struct Worked<'a> {
    pub(crate) name: &'a str,
    pub(crate) rows: u32,
    pub(crate) columns: u32,
    /// Where the rows of each column begin in `ids`.
    pub(crate) starts: &'a [u32],
    pub(crate) ids: &'a [u32],
    /// Where the columns of each row begin in `row_ids`.
    pub(crate) row_starts: &'a [u32],
    pub(crate) row_ids: &'a [u32],
    pub(crate) sizes: Sizes,
    /// The rows of the horizontal part, those of each block, and those of the vertical part.
    pub(crate) row_order: &'a [u32],
    /// The columns in the same way.
    pub(crate) column_order: &'a [u32],
    /// Where each block begins, then the number of square rows, and then what is not written.
    pub(crate) block_starts: &'a [u32],
    /// For each column its row in the least maximum matching.
    pub(crate) least: &'a [u32],
    /// For each row its column in that one.
    pub(crate) least_of_rows: &'a [u32],
    /// For each row the number of its component in its part, counted from 0.
    pub(crate) row_component: &'a [u32],
    /// For each column in the same way.
    pub(crate) column_component: &'a [u32],
    /// Whether it is square and of full rank.
    pub(crate) order: SquareOrder,
    /// Where the horizontal part, each block and the vertical part begin in `p`, of those that
    /// there are, then the number of rows, and then what is not written.
    pub(crate) row_cuts: &'a [u32],
    /// The same in `q`.
    pub(crate) column_cuts: &'a [u32],
    /// All maximum matchings, or where each place of the diagonal is an entry, that of the
    /// diagonal.
    pub(crate) matchings: &'a [Matched<'a>],
}

/// x x
/// . .
///
/// One of the columns stays unmatched, and through row 0 both are met. Row 1 is alone.
const TWO_COLUMNS: Worked<'static> = Worked {
    name: "two columns in one row",
    rows: 2,
    columns: 2,
    starts: &[0, 1, 3],
    ids: &[0, 0, 0],
    row_starts: &[0, 3, 3],
    row_ids: &[1, 0, 1],
    sizes: Sizes {
        rank: 1,
        horizontal_rows: 1,
        horizontal_columns: 2,
        square: 0,
        vertical_rows: 1,
        vertical_columns: 0,
        blocks: Some(0),
        components: Some(ComponentCounts {
            horizontal: 1,
            vertical: 1,
        }),
    },
    row_order: &[0, 1],
    column_order: &[0, 1],
    block_starts: &[0, LEFT, LEFT],
    least: &[0, NONE],
    least_of_rows: &[0, NONE],
    row_component: &[0, 0],
    column_component: &[0, 0],
    order: SquareOrder::Singular(1),
    row_cuts: &[0, 1, 2, LEFT],
    column_cuts: &[0, 2, 2, LEFT],
    matchings: &[
        Matched {
            row_of_column: &[0, NONE],
            column_of_row: &[0, NONE],
            p: &[0, 1],
            q: &[1, 0],
        },
        Matched {
            row_of_column: &[NONE, 0],
            column_of_row: &[1, NONE],
            p: &[0, 1],
            q: &[0, 1],
        },
    ],
};

/// x
/// x
const TWO_ROWS: Worked<'static> = Worked {
    name: "two rows in one column",
    rows: 2,
    columns: 1,
    starts: &[0, 3],
    ids: &[1, 0, 1],
    row_starts: &[0, 2, 3],
    row_ids: &[0, 0, 0],
    sizes: Sizes {
        rank: 1,
        horizontal_rows: 0,
        horizontal_columns: 0,
        square: 0,
        vertical_rows: 2,
        vertical_columns: 1,
        blocks: Some(0),
        components: Some(ComponentCounts {
            horizontal: 0,
            vertical: 1,
        }),
    },
    row_order: &[0, 1],
    column_order: &[0],
    block_starts: &[0, LEFT],
    least: &[0],
    least_of_rows: &[0, NONE],
    row_component: &[0, 0],
    column_component: &[0],
    order: SquareOrder::NotSquare,
    row_cuts: &[0, 2, LEFT],
    column_cuts: &[0, 1, LEFT],
    matchings: &[Matched {
        row_of_column: &[0],
        column_of_row: &[0, NONE],
        p: &[0, 1],
        q: &[0],
    }],
};

/// x x x .
/// . . x x
/// . . . x
/// . . . x
///
/// Row 0 has to be with column 0 or 1 and column 3 with row 2 or 3, so that row 1 and column 2 are
/// left to each other.
const THREE_PARTS: Worked<'static> = Worked {
    name: "three parts",
    rows: 4,
    columns: 4,
    starts: &[0, 1, 2, 4, 8],
    ids: &[0, 0, 1, 0, 3, 2, 1, 3],
    row_starts: &[0, 3, 6, 7, 8],
    row_ids: &[2, 1, 0, 3, 2, 3, 3, 3],
    sizes: Sizes {
        rank: 3,
        horizontal_rows: 1,
        horizontal_columns: 2,
        square: 1,
        vertical_rows: 2,
        vertical_columns: 1,
        blocks: Some(1),
        components: Some(ComponentCounts {
            horizontal: 1,
            vertical: 1,
        }),
    },
    row_order: &[0, 1, 2, 3],
    column_order: &[0, 1, 2, 3],
    block_starts: &[0, 1, LEFT, LEFT, LEFT],
    least: &[0, NONE, 1, 2],
    least_of_rows: &[0, 2, 3, NONE],
    row_component: &[0, NONE, 0, 0],
    column_component: &[0, 0, NONE, 0],
    order: SquareOrder::Singular(3),
    row_cuts: &[0, 1, 2, 4, LEFT, LEFT],
    column_cuts: &[0, 2, 3, 4, LEFT, LEFT],
    matchings: &[
        Matched {
            row_of_column: &[0, NONE, 1, 2],
            column_of_row: &[0, 2, 3, NONE],
            p: &[0, 1, 2, 3],
            q: &[1, 0, 2, 3],
        },
        Matched {
            row_of_column: &[0, NONE, 1, 3],
            column_of_row: &[0, 2, NONE, 3],
            p: &[0, 1, 3, 2],
            q: &[1, 0, 2, 3],
        },
        Matched {
            row_of_column: &[NONE, 0, 1, 2],
            column_of_row: &[1, 2, 3, NONE],
            p: &[0, 1, 2, 3],
            q: &[0, 1, 2, 3],
        },
        Matched {
            row_of_column: &[NONE, 0, 1, 3],
            column_of_row: &[1, 2, NONE, 3],
            p: &[0, 1, 3, 2],
            q: &[0, 1, 2, 3],
        },
    ],
};

/// x . .
/// x x .
/// x x x
///
/// The diagonal is the one perfect matching. The last row and column come first, so that no entry
/// is below a block.
pub(crate) const TRIANGLE: Worked<'static> = Worked {
    name: "lower triangle",
    rows: 3,
    columns: 3,
    starts: &[0, 3, 6, 7],
    ids: &[2, 1, 0, 2, 1, 1, 2],
    row_starts: &[0, 1, 4, 7],
    row_ids: &[0, 1, 0, 1, 2, 1, 0],
    sizes: Sizes {
        rank: 3,
        horizontal_rows: 0,
        horizontal_columns: 0,
        square: 3,
        vertical_rows: 0,
        vertical_columns: 0,
        blocks: Some(3),
        components: Some(ComponentCounts {
            horizontal: 0,
            vertical: 0,
        }),
    },
    row_order: &[2, 1, 0],
    column_order: &[2, 1, 0],
    block_starts: &[0, 1, 2, 3],
    least: &[0, 1, 2],
    least_of_rows: &[0, 1, 2],
    row_component: &[NONE, NONE, NONE],
    column_component: &[NONE, NONE, NONE],
    order: SquareOrder::Full(Some(3)),
    row_cuts: &[0, 1, 2, 3, LEFT],
    column_cuts: &[0, 1, 2, 3, LEFT],
    matchings: &[Matched {
        row_of_column: &[0, 1, 2],
        column_of_row: &[0, 1, 2],
        p: &[2, 1, 0],
        q: &[2, 1, 0],
    }],
};

/// x x .
/// . x x
/// x . x
///
/// The diagonal is a perfect matching, and the other entries lead round all three columns.
pub(crate) const CYCLE: Worked<'static> = Worked {
    name: "cycle of three",
    rows: 3,
    columns: 3,
    starts: &[0, 2, 4, 7],
    ids: &[2, 0, 1, 0, 2, 1, 2],
    row_starts: &[0, 3, 5, 7],
    row_ids: &[1, 0, 1, 2, 1, 2, 0],
    sizes: Sizes {
        rank: 3,
        horizontal_rows: 0,
        horizontal_columns: 0,
        square: 3,
        vertical_rows: 0,
        vertical_columns: 0,
        blocks: Some(1),
        components: Some(ComponentCounts {
            horizontal: 0,
            vertical: 0,
        }),
    },
    row_order: &[0, 1, 2],
    column_order: &[0, 1, 2],
    block_starts: &[0, 3, LEFT, LEFT],
    least: &[0, 1, 2],
    least_of_rows: &[0, 1, 2],
    row_component: &[NONE, NONE, NONE],
    column_component: &[NONE, NONE, NONE],
    order: SquareOrder::Full(Some(1)),
    row_cuts: &[0, 3, LEFT, LEFT, LEFT],
    column_cuts: &[0, 3, LEFT, LEFT, LEFT],
    matchings: &[Matched {
        row_of_column: &[0, 1, 2],
        column_of_row: &[0, 1, 2],
        p: &[0, 1, 2],
        q: &[0, 1, 2],
    }],
};

/// x . . . . .
/// x . . . . .
/// . x . x . x
/// x x x . . .
/// . x x . . .
///
/// Columns 3 and 5 share row 2, column 4 has no entry, and rows 0 and 1 share column 0. Left are
/// rows 3 and 4 and columns 1 and 2, with all four entries.
const COLUMN_ALONE: Worked<'static> = Worked {
    name: "a column alone in a part",
    rows: 5,
    columns: 6,
    starts: &[0, 3, 7, 9, 10, 10, 11],
    ids: &[3, 1, 0, 4, 3, 2, 3, 4, 3, 2, 2],
    row_starts: &[0, 1, 2, 5, 8, 11],
    row_ids: &[0, 0, 5, 3, 1, 2, 1, 0, 2, 1, 2],
    sizes: Sizes {
        rank: 4,
        horizontal_rows: 1,
        horizontal_columns: 3,
        square: 2,
        vertical_rows: 2,
        vertical_columns: 1,
        blocks: Some(1),
        components: Some(ComponentCounts {
            horizontal: 2,
            vertical: 1,
        }),
    },
    row_order: &[2, 3, 4, 0, 1],
    column_order: &[3, 4, 5, 1, 2, 0],
    block_starts: &[0, 2, LEFT, LEFT, LEFT, LEFT, LEFT],
    least: &[0, 3, 4, 2, NONE, NONE],
    least_of_rows: &[0, NONE, 3, 1, 2],
    row_component: &[0, 0, 0, NONE, NONE],
    column_component: &[0, NONE, NONE, 0, 1, 0],
    order: SquareOrder::NotSquare,
    row_cuts: &[0, 1, 3, 5, LEFT, LEFT, LEFT],
    column_cuts: &[0, 3, 5, 6, LEFT, LEFT, LEFT],
    matchings: &[
        Matched {
            row_of_column: &[0, 3, 4, 2, NONE, NONE],
            column_of_row: &[0, NONE, 3, 1, 2],
            p: &[2, 3, 4, 0, 1],
            q: &[4, 5, 3, 1, 2, 0],
        },
        Matched {
            row_of_column: &[1, 3, 4, 2, NONE, NONE],
            column_of_row: &[NONE, 0, 3, 1, 2],
            p: &[2, 3, 4, 1, 0],
            q: &[4, 5, 3, 1, 2, 0],
        },
        Matched {
            row_of_column: &[0, 4, 3, 2, NONE, NONE],
            column_of_row: &[0, NONE, 3, 2, 1],
            p: &[2, 4, 3, 0, 1],
            q: &[4, 5, 3, 1, 2, 0],
        },
        Matched {
            row_of_column: &[1, 4, 3, 2, NONE, NONE],
            column_of_row: &[NONE, 0, 3, 2, 1],
            p: &[2, 4, 3, 1, 0],
            q: &[4, 5, 3, 1, 2, 0],
        },
        Matched {
            row_of_column: &[0, 3, 4, NONE, NONE, 2],
            column_of_row: &[0, NONE, 5, 1, 2],
            p: &[2, 3, 4, 0, 1],
            q: &[3, 4, 5, 1, 2, 0],
        },
        Matched {
            row_of_column: &[1, 3, 4, NONE, NONE, 2],
            column_of_row: &[NONE, 0, 5, 1, 2],
            p: &[2, 3, 4, 1, 0],
            q: &[3, 4, 5, 1, 2, 0],
        },
        Matched {
            row_of_column: &[0, 4, 3, NONE, NONE, 2],
            column_of_row: &[0, NONE, 5, 2, 1],
            p: &[2, 4, 3, 0, 1],
            q: &[3, 4, 5, 1, 2, 0],
        },
        Matched {
            row_of_column: &[1, 4, 3, NONE, NONE, 2],
            column_of_row: &[NONE, 0, 5, 2, 1],
            p: &[2, 4, 3, 1, 0],
            q: &[3, 4, 5, 1, 2, 0],
        },
    ],
};

/// . x . x
/// x . x x
/// . x . .
/// x . x .
///
/// Row 2 has column 1 alone, so that row 0 is with column 3, and rows 1 and 3 and columns 0 and 2
/// have all four entries. Row 1 has column 3 and row 0 column 1, so that the three blocks stand in
/// this order: that of four entries, that of column 3, and that of column 1.
const BLOCKS_IN_TURN: Worked<'static> = Worked {
    name: "blocks in turn",
    rows: 4,
    columns: 4,
    starts: &[0, 2, 4, 6, 9],
    ids: &[3, 1, 2, 0, 3, 1, 1, 0, 1],
    row_starts: &[0, 2, 5, 6, 9],
    row_ids: &[3, 1, 3, 2, 0, 1, 2, 0, 2],
    sizes: Sizes {
        rank: 4,
        horizontal_rows: 0,
        horizontal_columns: 0,
        square: 4,
        vertical_rows: 0,
        vertical_columns: 0,
        blocks: Some(3),
        components: Some(ComponentCounts {
            horizontal: 0,
            vertical: 0,
        }),
    },
    row_order: &[1, 3, 0, 2],
    column_order: &[0, 2, 3, 1],
    block_starts: &[0, 2, 3, 4, LEFT],
    least: &[1, 2, 3, 0],
    least_of_rows: &[3, 0, 1, 2],
    row_component: &[NONE, NONE, NONE, NONE],
    column_component: &[NONE, NONE, NONE, NONE],
    order: SquareOrder::Full(Some(3)),
    row_cuts: &[0, 2, 3, 4, LEFT, LEFT],
    column_cuts: &[0, 2, 3, 4, LEFT, LEFT],
    matchings: &[
        Matched {
            row_of_column: &[1, 2, 3, 0],
            column_of_row: &[3, 0, 1, 2],
            p: &[1, 3, 0, 2],
            q: &[0, 2, 3, 1],
        },
        Matched {
            row_of_column: &[3, 2, 1, 0],
            column_of_row: &[3, 2, 1, 0],
            p: &[3, 1, 0, 2],
            q: &[0, 2, 3, 1],
        },
    ],
};

/// No rows and no columns.
pub(crate) const EMPTY: Worked<'static> = Worked {
    name: "no rows and no columns",
    rows: 0,
    columns: 0,
    starts: &[0],
    ids: &[],
    row_starts: &[0],
    row_ids: &[],
    sizes: Sizes {
        rank: 0,
        horizontal_rows: 0,
        horizontal_columns: 0,
        square: 0,
        vertical_rows: 0,
        vertical_columns: 0,
        blocks: Some(0),
        components: Some(ComponentCounts {
            horizontal: 0,
            vertical: 0,
        }),
    },
    row_order: &[],
    column_order: &[],
    block_starts: &[0],
    least: &[],
    least_of_rows: &[],
    row_component: &[],
    column_component: &[],
    order: SquareOrder::Full(Some(0)),
    row_cuts: &[0, LEFT],
    column_cuts: &[0, LEFT],
    matchings: &[Matched {
        row_of_column: &[],
        column_of_row: &[],
        p: &[],
        q: &[],
    }],
};

/// Two columns, each alone.
const NO_ROWS: Worked<'static> = Worked {
    name: "no rows",
    rows: 0,
    columns: 2,
    starts: &[0, 0, 0],
    ids: &[],
    row_starts: &[0],
    row_ids: &[],
    sizes: Sizes {
        rank: 0,
        horizontal_rows: 0,
        horizontal_columns: 2,
        square: 0,
        vertical_rows: 0,
        vertical_columns: 0,
        blocks: Some(0),
        components: Some(ComponentCounts {
            horizontal: 2,
            vertical: 0,
        }),
    },
    row_order: &[],
    column_order: &[0, 1],
    block_starts: &[0, LEFT, LEFT],
    least: &[NONE, NONE],
    least_of_rows: &[],
    row_component: &[],
    column_component: &[0, 1],
    order: SquareOrder::NotSquare,
    row_cuts: &[0, 0],
    column_cuts: &[0, 2],
    matchings: &[Matched {
        row_of_column: &[NONE, NONE],
        column_of_row: &[],
        p: &[],
        q: &[0, 1],
    }],
};

/// Three rows, each alone.
const NO_COLUMNS: Worked<'static> = Worked {
    name: "no columns",
    rows: 3,
    columns: 0,
    starts: &[0],
    ids: &[],
    row_starts: &[0, 0, 0, 0],
    row_ids: &[],
    sizes: Sizes {
        rank: 0,
        horizontal_rows: 0,
        horizontal_columns: 0,
        square: 0,
        vertical_rows: 3,
        vertical_columns: 0,
        blocks: Some(0),
        components: Some(ComponentCounts {
            horizontal: 0,
            vertical: 3,
        }),
    },
    row_order: &[0, 1, 2],
    column_order: &[],
    block_starts: &[0],
    least: &[],
    least_of_rows: &[NONE, NONE, NONE],
    row_component: &[0, 1, 2],
    column_component: &[],
    order: SquareOrder::NotSquare,
    row_cuts: &[0, 3],
    column_cuts: &[0, 0],
    matchings: &[Matched {
        row_of_column: &[],
        column_of_row: &[NONE, NONE, NONE],
        p: &[0, 1, 2],
        q: &[],
    }],
};

pub(crate) const MATRICES: [Worked<'static>; 10] = [
    EMPTY,
    NO_ROWS,
    NO_COLUMNS,
    TWO_COLUMNS,
    TWO_ROWS,
    THREE_PARTS,
    TRIANGLE,
    CYCLE,
    COLUMN_ALONE,
    BLOCKS_IN_TURN,
];
