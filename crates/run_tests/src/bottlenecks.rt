//! The job `bottleneck`.

use crate::runs::{ANSWERED, INTEGERS, Run, SMALLEST, all_go};
use sp_ids::Status;

const BOTTLENECK: Run = Run {
    commands: &["bottleneck"],
    ..ANSWERED
};

/// Of the first the two diagonals weigh 3 and 1 and 4 and 5; of the second 12 and 1 and 5 and 6, and
/// the heaviest is not the one whose least weight is greatest. Of the last no entry is above 7.
#[rattlefmt::skip]
static ANSWERS: [Run; 7] = [
    Run {
        file: &[INTEGERS, b"2 2 4\n1 1 3\n1 2 5\n2 1 4\n2 2 1\n"],
        out: b"bottleneck 2 4\n2 1 4\n1 2 5\nabove_rows\nabove_columns 1\nend\n",
        ..BOTTLENECK
    },
    Run {
        file: &[INTEGERS, b"2 2 4\n1 1 12\n1 2 6\n2 1 5\n2 2 1\n"],
        out: b"bottleneck 2 5\n2 1 5\n1 2 6\nabove_rows 1\nabove_columns 1 2\nend\n",
        ..BOTTLENECK
    },
    Run {
        file: &[INTEGERS, b"2 2 2\n1 1 1\n1 2 1\n"],
        status: Status::Negative,
        out: b"singular 1\nrows 1\ncolumns 1 2\nend\n",
        ..BOTTLENECK
    },
    Run {
        file: &[INTEGERS, b"0 0 0\n"],
        out: b"bottleneck 0 0\nabove_rows\nabove_columns\nend\n",
        ..BOTTLENECK
    },
    Run {
        file: &[INTEGERS, b"2 1 1\n1 1 1\n"],
        status: Status::Negative,
        out: b"rectangular 2 1\n",
        ..BOTTLENECK
    },
    Run {
        file: &[INTEGERS, b"1 1 2\n1 1 5\n1 1 -5\n"],
        out: b"bottleneck 1 0\n1 1 0\nabove_rows\nabove_columns 1\nend\n",
        ..BOTTLENECK
    },
    Run {
        file: &[INTEGERS, b"2 2 2\n2 1 -7\n1 2 7\n"],
        out: b"bottleneck 2 7\n2 1 7\n1 2 7\nabove_rows\nabove_columns 1 2\nend\n",
        ..BOTTLENECK
    },
];

#[test]
fn least_weights_that_are_greatest(rt: HostRuntime) {
    assert!(rt; all_go(&rt, &ANSWERS));
}

/// A dropped place is no entry. A sum past the limit is reported before the shape, and another
/// field before both.
#[rattlefmt::skip]
static NO_BOTTLENECK: [Run; 4] = [
    Run {
        commands: &["bottleneck --drop-zeros"],
        file: &[b"%%MatrixMarket matrix coordinate integer general\n1 1 2\n1 1 5\n1 1 -5\n"],
        status: Status::Negative,
        out: b"singular 0\nrows\ncolumns 1\nend\n",
        ..ANSWERED
    },
    Run {
        file: &[b"%%MatrixMarket matrix coordinate integer general\n1 2 2\n1 1 9223372036854775807\n1 1 1\n"],
        status: Status::Limit,
        err: b"btf: limit: sum at 1 1\n",
        ..BOTTLENECK
    },
    Run {
        file: &[b"%%MatrixMarket matrix coordinate integer general\n1 1 2\n1 1 9223372036854775807\n1 1 1\n"],
        status: Status::Limit,
        err: b"btf: limit: sum at 1 1\n",
        ..BOTTLENECK
    },
    Run {
        file: &[SMALLEST],
        status: Status::NeedsInteger,
        err: b"btf: needs an integer file\n",
        ..BOTTLENECK
    },
];

#[test]
fn what_has_no_bottleneck(rt: HostRuntime) {
    assert!(rt; all_go(&rt, &NO_BOTTLENECK));
}
