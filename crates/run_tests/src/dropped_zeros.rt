//! The jobs where zeros are dropped: a place whose values add up to 0 is no entry.

use crate::runs::{ANSWERED, Run, SMALLEST, all_go};
use sp_ids::Status;

/// One place, whose two values add up to 0.
const FIVE_LESS_FIVE: &[u8] =
    b"%%MatrixMarket matrix coordinate integer general\n1 1 2\n1 1 5\n1 1 -5\n";

/// The report of the matrix of one row, one column and no entry, up to its pairs.
const NO_ENTRY: &[u8] =
    b"btf 2\nmatrix 1 1 0\nrank 0\nhorizontal 0 1\nrows\ncolumns 1\nhorizontal_components 1\ncomponent 1 0 1\nrows\ncolumns 1\nsquare 0 0\nvertical 1 0\nrows 1\ncolumns\nvertical_components 1\ncomponent 1 1 0\nrows 1\ncolumns\n";

/// The report of the matrix of one entry, in the first version, up to its pairs.
const ONE_ENTRY: &[u8] =
    b"btf 1\nmatrix 1 1 1\nrank 1\nhorizontal 0 0\nsquare 1 1\nblock 1 1\nrows 1\ncolumns 1\nvertical 0 0\n";

const RANK: Run = Run {
    commands: &["rank --drop-zeros"],
    ..ANSWERED
};

#[rattlefmt::skip]
static RANKS: [Run; 3] = [
    Run {
        file: &[FIVE_LESS_FIVE],
        out: b"matrix 1 1 0\nrank 0\nhorizontal 0 1\nrows\ncolumns 1\nend\n",
        ..RANK
    },
    Run {
        file: &[b"%%MatrixMarket matrix coordinate integer general\r\n1 1 2\r\n1 1 5\r\n1 1 -5"],
        out: b"matrix 1 1 0\nrank 0\nhorizontal 0 1\nrows\ncolumns 1\nend\n",
        ..RANK
    },
    // The 0 of row 1 is dropped, and the 2 and 3 of row 2 are one entry.
    Run {
        file: &[b"%%MatrixMarket matrix coordinate integer general\n2 2 4\n1 1 0\n2 2 3\n1 2 -8\n2 2 2\n"],
        out: b"matrix 2 2 2\nrank 1\nhorizontal 0 1\nrows\ncolumns 1\nend\n",
        ..RANK
    },
];

#[test]
fn ranks_without_zeros(rt: HostRuntime) {
    assert!(rt; all_go(&rt, &RANKS));
}

/// The report of the second version is that of no entry, which ends without pairs.
#[rattlefmt::skip]
static REPORTS: [Run; 2] = [
    Run {
        commands: &["analyse --drop-zeros --report 1"],
        file: &[FIVE_LESS_FIVE],
        out: b"btf 1\nmatrix 1 1 0\nrank 0\nhorizontal 0 1\nrows\ncolumns 1\nsquare 0 0\nvertical 1 0\nrows 1\ncolumns\nend\n",
        ..ANSWERED
    },
    Run {
        commands: &["analyse --drop-zeros"],
        file: &[FIVE_LESS_FIVE],
        out: b"btf 2\nmatrix 1 1 0\nrank 0\nhorizontal 0 1\nrows\ncolumns 1\nhorizontal_components 1\ncomponent 1 0 1\nrows\ncolumns 1\nsquare 0 0\nvertical 1 0\nrows 1\ncolumns\nvertical_components 1\ncomponent 1 1 0\nrows 1\ncolumns\nend\n",
        ..ANSWERED
    },
];

#[test]
fn analysis_without_zeros(rt: HostRuntime) {
    assert!(rt; all_go(&rt, &REPORTS));
}

/// With the 0 the diagonal has the pair of row 1 and column 1; without it column 1 has no entry. A
/// sum past the limit is no zero.
#[rattlefmt::skip]
static DIAGONALS: [Run; 2] = [
    Run {
        commands: &["diagonal --drop-zeros"],
        file: &[b"%%MatrixMarket matrix coordinate integer general\n2 2 3\n1 1 0\n2 2 3\n1 2 -8\n"],
        status: Status::Negative,
        out: b"singular 1\nrows\ncolumns 1\nend\n",
        ..ANSWERED
    },
    Run {
        commands: &["diagonal --drop-zeros"],
        file: &[b"%%MatrixMarket matrix coordinate integer general\n1 2 4\n1 1 5\n1 1 -5\n1 2 9223372036854775807\n1 2 1\n"],
        status: Status::Limit,
        err: b"btf: limit: sum at 1 2\n",
        ..ANSWERED
    },
];

#[test]
fn diagonals_without_zeros(rt: HostRuntime) {
    assert!(rt; all_go(&rt, &DIAGONALS));
}

/// Each report is that of the one matrix and not of the other: a matrix with an entry has a longer
/// matching than none, and a pair at a place that is dropped is no entry.
#[rattlefmt::skip]
static VERDICTS: [Run; 4] = [
    Run {
        commands: &["check --drop-zeros"],
        file: &[FIVE_LESS_FIVE, NO_ENTRY, b"pairs 0\nend\n"],
        out: b"valid\n",
        ..ANSWERED
    },
    Run {
        commands: &["check"],
        file: &[FIVE_LESS_FIVE, NO_ENTRY, b"pairs 0\nend\n"],
        status: Status::Negative,
        out: b"invalid 3\n",
        ..ANSWERED
    },
    Run {
        commands: &["check"],
        file: &[FIVE_LESS_FIVE, ONE_ENTRY, b"pairs 1\n1 1\nend\n"],
        out: b"valid\n",
        ..ANSWERED
    },
    Run {
        commands: &["check --drop-zeros"],
        file: &[FIVE_LESS_FIVE, ONE_ENTRY, b"pairs 1\n1 1\nend\n"],
        status: Status::Negative,
        out: b"invalid 2\n",
        ..ANSWERED
    },
];

#[test]
fn verdicts_without_zeros(rt: HostRuntime) {
    assert!(rt; all_go(&rt, &VERDICTS));
}

/// A file whose values are no integers is refused for that by each of these.
const NO_INTEGERS: Run = Run {
    commands: &[
        "rank --drop-zeros",
        "analyse --drop-zeros",
        "diagonal --drop-zeros",
        "check --drop-zeros",
    ],
    status: Status::NeedsInteger,
    err: b"btf: needs an integer file\n",
    ..ANSWERED
};

/// It is, whatever follows it; a bad line is reported first.
#[rattlefmt::skip]
static OTHER_FIELDS: [Run; 5] = [
    Run { file: &[SMALLEST], ..NO_INTEGERS },
    Run {
        file: &[b"%%MatrixMarket matrix coordinate real general\n1 1 1\n1 1 0.0\n"],
        ..NO_INTEGERS
    },
    Run {
        file: &[b"%%MatrixMarket matrix coordinate pattern general\n1 1 1\n2 1\n"],
        status: Status::Malformed,
        err: b"btf: malformed line 3: RowRange\n",
        ..NO_INTEGERS
    },
    Run {
        commands: &["check --drop-zeros"],
        file: &[
            SMALLEST,
            b"btf 1\nmatrix 1 1 1\nrank 1\nhorizontal 0 0\nsquare 1 1\nblock 1 1\nrows 1\ncolumns 1\nvertical 0 0\npairs 1\n1 1\nend\n",
        ],
        ..NO_INTEGERS
    },
    Run { commands: &["check --drop-zeros"], file: &[SMALLEST, b"no report"], ..NO_INTEGERS },
];

#[test]
fn other_fields_are_refused(rt: HostRuntime) {
    assert!(rt; all_go(&rt, &OTHER_FIELDS));
}
