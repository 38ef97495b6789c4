//! Reports with the pairs of the least maximum matching.

use crate::runs::{ANSWERED, Run, all_go};

/// Each engine gives the same report, and so does any number of workers, with `--pairs` beside
/// `--least` too.
const LEAST: Run = Run {
    commands: &[
        "analyse --report 1 --least --engine plain",
        "analyse --report 1 --least --engine mc21",
        "analyse --report 1 --least --engine pf",
        "analyse --report 1 --least --engine graft",
        "analyse --pairs --least --report 1 --workers 1",
        "analyse --pairs --least --report 1 --workers 2",
        "analyse --pairs --least --report 1 --workers 64",
    ],
    ..ANSWERED
};

/// Of the first each maximum matching has one pair of row 1, column 3's pair in row 2, and one pair
/// of column 4; of the second, whose matching is perfect and one alone, the pairs cross; of the
/// third the one row is column 1's, though column 2 could have it; of the fourth the one column has
/// row 1; of the fifth, a cycle, each column has the row of its own number.
#[rattlefmt::skip]
static REPORTS: [Run; 5] = [
    Run {
        file: &[b"%%MatrixMarket matrix coordinate pattern general\n4 4 7\n1 1\n1 2\n1 3\n2 3\n2 4\n3 4\n4 4\n"],
        out: b"btf 1\nmatrix 4 4 7\nrank 3\nhorizontal 1 2\nrows 1\ncolumns 1 2\nsquare 1 1\nblock 1 1\nrows 2\ncolumns 3\nvertical 2 1\nrows 3 4\ncolumns 4\npairs 3\n1 1\n2 3\n3 4\nend\n",
        ..LEAST
    },
    Run {
        file: &[b"%%MatrixMarket matrix coordinate pattern general\n2 2 3\n1 1\n2 1\n1 2\n"],
        out: b"btf 1\nmatrix 2 2 3\nrank 2\nhorizontal 0 0\nsquare 2 2\nblock 1 1\nrows 1\ncolumns 2\nblock 2 1\nrows 2\ncolumns 1\nvertical 0 0\npairs 2\n2 1\n1 2\nend\n",
        ..LEAST
    },
    Run {
        file: &[b"%%MatrixMarket matrix coordinate pattern general\n1 2 2\n1 1\n1 2\n"],
        out: b"btf 1\nmatrix 1 2 2\nrank 1\nhorizontal 1 2\nrows 1\ncolumns 1 2\nsquare 0 0\nvertical 0 0\npairs 1\n1 1\nend\n",
        ..LEAST
    },
    Run {
        file: &[b"%%MatrixMarket matrix coordinate pattern general\n2 1 2\n1 1\n2 1\n"],
        out: b"btf 1\nmatrix 2 1 2\nrank 1\nhorizontal 0 0\nsquare 0 0\nvertical 2 1\nrows 1 2\ncolumns 1\npairs 1\n1 1\nend\n",
        ..LEAST
    },
    Run {
        file: &[b"%%MatrixMarket matrix coordinate pattern general\n3 3 6\n1 2\n2 3\n3 1\n1 1\n2 2\n3 3\n"],
        out: b"btf 1\nmatrix 3 3 6\nrank 3\nhorizontal 0 0\nsquare 3 1\nblock 1 3\nrows 1 2 3\ncolumns 1 2 3\nvertical 0 0\npairs 3\n1 1\n2 2\n3 3\nend\n",
        ..LEAST
    },
];

#[test]
fn least_pairs_by_each_engine(rt: HostRuntime) {
    assert!(rt; all_go(&rt, &REPORTS));
}
