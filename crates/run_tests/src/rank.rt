//! `rank` on small files, with texts worked out by hand.

use crate::runs::{ANSWERED, BANNER, Run, SMALLEST_RANK, THREE_PARTS, THREE_PARTS_EXAMPLE, all_go};

const RANK: Run = Run {
    commands: &["rank"],
    ..ANSWERED
};

#[rattlefmt::skip]
static SMALL_MATRICES: [Run; 9] = [
    Run { file: &[BANNER, b"1 1 1\n1 1\n"], out: SMALLEST_RANK, ..RANK },
    Run {
        file: &[BANNER, b"2 2 3\n1 1\n1 1\n2 1\n"],
        out: b"matrix 2 2 2\nrank 1\nhorizontal 0 1\nrows\ncolumns 2\nend\n",
        ..RANK
    },
    Run {
        file: &[BANNER, b"2 2 2\n1 1\n1 2\n"],
        out: b"matrix 2 2 2\nrank 1\nhorizontal 1 2\nrows 1\ncolumns 1 2\nend\n",
        ..RANK
    },
    Run {
        file: &[BANNER, b"2 1 2\n1 1\n2 1\n"],
        out: b"matrix 2 1 2\nrank 1\nhorizontal 0 0\nend\n",
        ..RANK
    },
    Run {
        file: &[BANNER, THREE_PARTS],
        out: b"matrix 4 4 7\nrank 3\nhorizontal 1 2\nrows 1\ncolumns 1 2\nend\n",
        ..RANK
    },
    Run {
        file: &[BANNER, THREE_PARTS_EXAMPLE],
        out: b"matrix 4 4 7\nrank 3\nhorizontal 1 2\nrows 1\ncolumns 1 2\nend\n",
        ..RANK
    },
    // Each of columns 1 to 4 is missed by a matching of rows 1 to 3 with the others, and walks from
    // it lead to lesser and greater numbers. Row 4 has column 5 alone.
    Run {
        file: &[BANNER, b"4 5 8\n1 1\n1 3\n1 5\n2 1\n2 4\n3 2\n3 4\n4 5\n"],
        out: b"matrix 4 5 8\nrank 4\nhorizontal 3 4\nrows 1 2 3\ncolumns 1 2 3 4\nend\n",
        ..RANK
    },
    Run {
        file: &[BANNER, b"9 9 1\n+007 00009\n"],
        out: b"matrix 9 9 1\nrank 1\nhorizontal 0 8\nrows\ncolumns 1 2 3 4 5 6 7 8\nend\n",
        ..RANK
    },
    Run {
        file: &[BANNER, b"0 0 0\n"],
        out: b"matrix 0 0 0\nrank 0\nhorizontal 0 0\nend\n",
        ..RANK
    },
];

#[test]
fn ranks_of_small_matrices(rt: HostRuntime) {
    assert!(rt; all_go(&rt, &SMALL_MATRICES));
}

#[rattlefmt::skip]
static FIELDS_AND_SYMMETRIES: [Run; 4] = [
    Run {
        file: &[b"%%MatrixMarket matrix coordinate pattern symmetric\n2 2 1\n2 1\n"],
        out: b"matrix 2 2 2\nrank 2\nhorizontal 0 0\nend\n",
        ..RANK
    },
    Run {
        file: &[b"%%MatrixMarket MATRIX Coordinate complex hermitian\n2 2 2\n1 1 1 0\n2 1 0 1\n"],
        out: b"matrix 2 2 3\nrank 2\nhorizontal 0 0\nend\n",
        ..RANK
    },
    Run {
        file: &[b"%%MatrixMarket matrix coordinate integer general\r\n1 1 2\r\n1 1 5\r\n1 1 -5"],
        out: SMALLEST_RANK,
        ..RANK
    },
    Run {
        file: &[b"%%MatrixMarket matrix coordinate real general\n2 2 2\n1 1 1.5e-3\n2 2 nan\n"],
        out: b"matrix 2 2 2\nrank 2\nhorizontal 0 0\nend\n",
        ..RANK
    },
];

#[test]
fn ranks_of_all_fields_and_symmetries(rt: HostRuntime) {
    assert!(rt; all_go(&rt, &FIELDS_AND_SYMMETRIES));
}
