//! `diagonal` on small files, worked out by hand. Several prices are fair, so the prices of a text
//! are read, and judged by the entries of the file.

use crate::runs::{ANSWERED, Devices, INTEGERS, Outcome, Run, STEADY, all_go, outcome_of};
use sp_ids::Status;
use std::alloc::Global;
use std::thread::Threads;

/// A square integer matrix with one heaviest diagonal. Rows and columns count from 0 here, and a
/// weight is the magnitude of the sum of a place's values.
#[derive(Clone, Copy)]
struct Example<'a> {
    file: &'a [u8],
    size: usize,
    entries: &'a [(usize, usize, i64)],
    pairs: &'a [(usize, usize, i64)],
    /// The text up to its prices.
    front: &'a str,
}

/// 5 and 4 together are more than 3 and 1.
const FIVE_AND_FOUR: Example<'static> = Example {
    file: b"%%MatrixMarket matrix coordinate integer general\n2 2 4\n1 1 3\n1 2 5\n2 1 4\n2 2 1\n",
    size: 2,
    entries: &[(0, 0, 3), (0, 1, 5), (1, 0, 4), (1, 1, 1)],
    pairs: &[(1, 0, 4), (0, 1, 5)],
    front: "diagonal 2 9\n2 1 4\n1 2 5\n",
};

/// 5 and 4 together are more than 7 and 1.
const SEVEN_BELOW_ZERO: Example<'static> = Example {
    file: b"%%MatrixMarket matrix coordinate integer general\n2 2 4\n1 1 -7\n1 2 5\n2 1 4\n2 2 1\n",
    size: 2,
    entries: &[(0, 0, 7), (0, 1, 5), (1, 0, 4), (1, 1, 1)],
    pairs: &[(1, 0, 4), (0, 1, 5)],
    front: "diagonal 2 9\n2 1 4\n1 2 5\n",
};

/// Column 1 has row 1 alone, so the 8 is left out.
const ZERO_AND_THREE: Example<'static> = Example {
    file: b"%%MatrixMarket matrix coordinate integer general\n2 2 3\n1 1 0\n2 2 3\n1 2 -8\n",
    size: 2,
    entries: &[(0, 0, 0), (1, 1, 3), (0, 1, 8)],
    pairs: &[(0, 0, 0), (1, 1, 3)],
    front: "diagonal 2 3\n1 1 0\n2 2 3\n",
};

/// A value and its negative make a weight of 0.
const FIVE_LESS_FIVE: Example<'static> = Example {
    file: b"%%MatrixMarket matrix coordinate integer general\r\n1 1 2\r\n1 1 5\r\n1 1 -5",
    size: 1,
    entries: &[(0, 0, 0)],
    pairs: &[(0, 0, 0)],
    front: "diagonal 1 0\n1 1 0\n",
};

/// The values of an array file: column 1 has 0 and 4, column 2 has 5 and 0.
const FIVE_AND_FOUR_IN_COLUMNS: Example<'static> = Example {
    file: b"%%MatrixMarket matrix array integer general\n2 2\n0\n4\n5\n0\n",
    size: 2,
    entries: &[(1, 0, 4), (0, 1, 5)],
    pairs: &[(1, 0, 4), (0, 1, 5)],
    front: "diagonal 2 9\n2 1 4\n1 2 5\n",
};

/// The example file of weights. Its three diagonals weigh 3 + 1 + 7, 3 + 2 + 6 and 5 + 4 + 7.
const WEIGHTS: Example<'static> = Example {
    file: b"%%MatrixMarket matrix coordinate integer general\n% three rows and columns, with six diagonals of which three are there\n3 3 7\n1 1 3\n1 2 5\n2 1 -4\n2 2 1\n2 3 2\n3 2 6\n3 3 7\n",
    size: 3,
    entries: &[
        (0, 0, 3),
        (0, 1, 5),
        (1, 0, 4),
        (1, 1, 1),
        (1, 2, 2),
        (2, 1, 6),
        (2, 2, 7),
    ],
    pairs: &[(1, 0, 4), (0, 1, 5), (2, 2, 7)],
    front: "diagonal 3 16\n2 1 4\n1 2 5\n3 3 7\n",
};

/// Two weights whose sum is past the greatest value.
const TWICE_THE_GREATEST: Example<'static> = Example {
    file: b"%%MatrixMarket matrix coordinate integer general\n2 2 2\n1 1 9223372036854775807\n2 2 9223372036854775807\n",
    size: 2,
    entries: &[(0, 0, 9223372036854775807), (1, 1, 9223372036854775807)],
    pairs: &[(0, 0, 9223372036854775807), (1, 1, 9223372036854775807)],
    front: "diagonal 2 18446744073709551614\n1 1 9223372036854775807\n2 2 9223372036854775807\n",
};

/// What the prices of an entry's row and column are together above its weight.
fn above(rows: &[i64], cols: &[i64], entry: &(usize, usize, i64)) -> Option<i64> {
    let (row, col, weight) = *entry;
    let price = rows.get(row)?.checked_add(*cols.get(col)?)?;
    price.checked_sub(weight)
}

/// Whether no entry weighs more than its row and column cost.
fn cost_enough(rows: &[i64], cols: &[i64], entries: &[(usize, usize, i64)]) -> bool {
    for entry in entries {
        match above(rows, cols, entry) {
            None => return false,
            Some(above) => {
                if above < 0 {
                    return false;
                }
            }
        }
    }
    true
}

/// Whether each pair weighs as much.
fn cost_no_more(rows: &[i64], cols: &[i64], pairs: &[(usize, usize, i64)]) -> bool {
    for pair in pairs {
        if above(rows, cols, pair) != Some(0) {
            return false;
        }
    }
    true
}

/// Whether there is a price for each row and column, and they are fair.
fn are_fair(example: &Example<'_>, rows: &[i64], cols: &[i64]) -> bool {
    (rows.len(), cols.len()) == (example.size, example.size)
        && cost_enough(rows, cols, example.entries)
        && cost_no_more(rows, cols, example.pairs)
}

/// The numbers of a line behind its word and a space.
fn numbers(alloc: Global, line: &str, word: &str) -> Option<Vec<i64>> {
    let list = line.strip_prefix(word)?;
    let mut numbers = Vec::new(alloc);
    for number in list.split(' ') {
        let Ok(value) = number.parse::<i64>() else {
            return None;
        };
        if numbers.push(value).is_err() {
            return None;
        }
    }
    Some(numbers)
}

/// The two lines of prices of a text: what stands between its front and its last line.
fn price_lines<'a>(text: &'a str, front: &str) -> Option<(&'a str, &'a str)> {
    let rest = text.strip_prefix(front)?;
    let lines = rest.strip_suffix("\nend\n")?;
    lines.split_once('\n')
}

/// Whether the prices of the columns are fair beside those of the rows.
fn are_fair_beside(alloc: Global, example: &Example<'_>, rows: &[i64], cols: &str) -> bool {
    match numbers(alloc, cols, "column_prices ") {
        None => false,
        Some(cols) => are_fair(example, rows, cols.as_slice()),
    }
}

/// Whether these lines are fair prices.
fn are_fair_lines(alloc: Global, example: &Example<'_>, rows: &str, cols: &str) -> bool {
    match numbers(alloc, rows, "row_prices ") {
        None => false,
        Some(rows) => are_fair_beside(alloc, example, rows.as_slice(), cols),
    }
}

/// Whether a text is the diagonal and fair prices, and nothing else.
fn is_heaviest(alloc: Global, example: &Example<'_>, text: &[u8]) -> bool {
    let Ok(text) = str::from_utf8(text) else {
        return false;
    };
    match price_lines(text, example.front) {
        None => false,
        Some((rows, cols)) => are_fair_lines(alloc, example, rows, cols),
    }
}

/// Whether what came of a run is that text.
fn tells_heaviest(alloc: Global, example: &Example<'_>, found: &Outcome) -> bool {
    found.is_answer(Status::Ok) && is_heaviest(alloc, example, found.text())
}

/// Whether it is what `diagonal` answers on an example's file.
fn is_found<R: Threads + AllocGlobal + Sync>(rt: &R, example: &Example<'_>) -> bool {
    match outcome_of(rt, &["diagonal"], example.file, &STEADY) {
        Err(_) => false,
        Ok(found) => tells_heaviest(rt.alloc(), example, &found),
    }
}

static EXAMPLES: [Example<'static>; 7] = [
    FIVE_AND_FOUR,
    SEVEN_BELOW_ZERO,
    ZERO_AND_THREE,
    FIVE_LESS_FIVE,
    FIVE_AND_FOUR_IN_COLUMNS,
    WEIGHTS,
    TWICE_THE_GREATEST,
];

/// Whether it is what `diagonal` answers on each of these.
fn all_are_found<R: Threads + AllocGlobal + Sync>(rt: &R, examples: &[Example<'_>]) -> bool {
    for example in examples {
        if !is_found(rt, example) {
            return false;
        }
    }
    true
}

// A diagonal and its prices.
#[test]
fn heaviest_diagonals(rt: HostRuntime) {
    assert!(rt; all_are_found(&rt, &EXAMPLES));
}

const DIAGONAL: Run = Run {
    commands: &["diagonal"],
    ..ANSWERED
};

/// Of no rows and columns the diagonal is empty.
#[rattlefmt::skip]
static WITHOUT_A_PAIR: [Run; 3] = [
    Run {
        file: &[INTEGERS, b"0 0 0\n"],
        out: b"diagonal 0 0\nrow_prices\ncolumn_prices\nend\n",
        ..DIAGONAL
    },
    Run {
        file: &[INTEGERS, b"2 2 2\n1 1 1\n1 2 1\n"],
        status: Status::Negative,
        out: b"singular 1\nrows 1\ncolumns 1 2\nend\n",
        ..DIAGONAL
    },
    Run {
        file: &[INTEGERS, b"2 1 1\n1 1 1\n"],
        status: Status::Negative,
        out: b"rectangular 2 1\n",
        ..DIAGONAL
    },
];

#[test]
fn matrices_without_a_pair(rt: HostRuntime) {
    assert!(rt; all_go(&rt, &WITHOUT_A_PAIR));
}

/// A sum past the limit is reported by the least column, then the least row; of a file that is no
/// integer file no sums are made.
#[rattlefmt::skip]
static REFUSED: [Run; 4] = [
    Run {
        file: &[INTEGERS, b"1 1 2\n1 1 9223372036854775807\n1 1 1\n"],
        status: Status::Limit,
        err: b"btf: limit: sum at 1 1\n",
        ..DIAGONAL
    },
    Run {
        file: &[INTEGERS, b"3 2 4\n1 2 9223372036854775807\n1 2 1\n3 1 -9223372036854775807\n3 1 -1\n"],
        status: Status::Limit,
        err: b"btf: limit: sum at 3 1\n",
        ..DIAGONAL
    },
    Run {
        file: &[b"%%MatrixMarket matrix coordinate real general\n2 2 2\n1 1 1.5e-3\n2 2 nan\n"],
        status: Status::NeedsInteger,
        err: b"btf: needs an integer file\n",
        ..DIAGONAL
    },
    Run {
        file: &[b"%%MatrixMarket matrix coordinate integer general\n1 1 1\n1 1 1\n"],
        devices: Devices { failing_writes: &[0], ..STEADY },
        status: Status::WriteFault,
        err: b"btf: write fault\n",
        ..DIAGONAL
    },
];

#[test]
fn diagonal_is_refused(rt: HostRuntime) {
    assert!(rt; all_go(&rt, &REFUSED));
}
