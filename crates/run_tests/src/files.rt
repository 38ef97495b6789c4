//! Files that are refused.

use crate::runs::{ANSWERED, BANNER, Run, all_go, goes};
use sp_ids::Status;

/// Each job that reads a matrix to the end of the input refuses a file for the same line.
const MALFORMED: Run = Run {
    commands: &["rank", "analyse", "diagonal"],
    status: Status::Malformed,
    ..ANSWERED
};

const LIMIT: Run = Run {
    status: Status::Limit,
    ..MALFORMED
};

#[rattlefmt::skip]
static REFUSED: [Run; 29] = [
    Run { file: &[b"%%NotIt\n"], err: b"btf: malformed line 1: NoBanner\n", ..MALFORMED },
    Run {
        file: &[b"%%MatrixMarket matrix coordinate pattern\n"],
        err: b"btf: malformed line 1: HeaderWords\n",
        ..MALFORMED
    },
    Run {
        file: &[b"%%MatrixMarket vector array real general\n"],
        err: b"btf: malformed line 1: Object\n",
        ..MALFORMED
    },
    Run {
        file: &[b"%%MatrixMarket matrix array real general\n"],
        err: b"btf: malformed line 1: ArrayField\n",
        ..MALFORMED
    },
    Run {
        file: &[b"%%MatrixMarket matrix dense real general\n"],
        err: b"btf: malformed line 1: Format\n",
        ..MALFORMED
    },
    Run {
        file: &[b"%%MatrixMarket matrix coordinate boolean general\n"],
        err: b"btf: malformed line 1: Field\n",
        ..MALFORMED
    },
    Run {
        file: &[b"%%MatrixMarket matrix coordinate pattern triangular\n"],
        err: b"btf: malformed line 1: Symmetry\n",
        ..MALFORMED
    },
    Run {
        file: &[b"%%MatrixMarket matrix coordinate pattern hermitian\n"],
        err: b"btf: malformed line 1: Combination\n",
        ..MALFORMED
    },
    Run { file: &[BANNER], err: b"btf: malformed line 1: NoSize\n", ..MALFORMED },
    Run { file: &[BANNER, b"2 2\n"], err: b"btf: malformed line 2: SizeWords\n", ..MALFORMED },
    Run { file: &[BANNER, b"2 2 -1\n"], err: b"btf: malformed line 2: SizeNumber\n", ..MALFORMED },
    Run { file: &[BANNER, b"134217729 1 0\n"], err: b"btf: limit line 2: Rows\n", ..LIMIT },
    Run { file: &[BANNER, b"1 134217729 0\n"], err: b"btf: limit line 2: Columns\n", ..LIMIT },
    Run { file: &[BANNER, b"1 1 134217729\n"], err: b"btf: limit line 2: Entries\n", ..LIMIT },
    Run {
        file: &[b"%%MatrixMarket matrix coordinate pattern symmetric\n2 3 0\n"],
        err: b"btf: malformed line 2: NotSquare\n",
        ..MALFORMED
    },
    Run { file: &[BANNER, b"1 1 1\n1\n"], err: b"btf: malformed line 3: EntryWords\n", ..MALFORMED },
    Run { file: &[BANNER, b"1 1 1\nx 1\n"], err: b"btf: malformed line 3: RowNumber\n", ..MALFORMED },
    Run {
        file: &[BANNER, b"1 1 1\n1 x\n"],
        err: b"btf: malformed line 3: ColumnNumber\n",
        ..MALFORMED
    },
    Run { file: &[BANNER, b"2 2 1\n0 1\n"], err: b"btf: malformed line 3: RowRange\n", ..MALFORMED },
    Run { file: &[BANNER, b"1 1 1\n2 1\n"], err: b"btf: malformed line 3: RowRange\n", ..MALFORMED },
    Run {
        file: &[BANNER, b"1 1 1\n1 2\n"],
        err: b"btf: malformed line 3: ColumnRange\n",
        ..MALFORMED
    },
    Run {
        file: &[b"%%MatrixMarket matrix coordinate integer general\n1 1 1\n1 1 5.0\n"],
        err: b"btf: malformed line 3: ValueNumber\n",
        ..MALFORMED
    },
    Run {
        file: &[b"%%MatrixMarket matrix coordinate integer general\n1 1 1\n1 1 9223372036854775808\n"],
        err: b"btf: limit line 3: Value\n",
        ..LIMIT
    },
    Run {
        file: &[b"%%MatrixMarket matrix coordinate pattern symmetric\n2 2 1\n1 2\n"],
        err: b"btf: malformed line 3: UpperEntry\n",
        ..MALFORMED
    },
    Run {
        file: &[b"%%MatrixMarket matrix coordinate integer skew-symmetric\n2 2 1\n1 1 4\n"],
        err: b"btf: malformed line 3: DiagonalEntry\n",
        ..MALFORMED
    },
    Run {
        file: &[BANNER, b"1 1 2\n1 1\n"],
        err: b"btf: malformed line 3: MissingEntries\n",
        ..MALFORMED
    },
    Run {
        file: &[BANNER, b"1 1 1\n1 1\n1 1\n"],
        err: b"btf: malformed line 4: Trailing\n",
        ..MALFORMED
    },
    Run {
        file: &[BANNER, b"% c\n\n1 1 1\n% c\n2 1\n"],
        err: b"btf: malformed line 6: RowRange\n",
        ..MALFORMED
    },
    Run {
        file: &[BANNER, b"1 1 1\n1 1\n% c\n\n1\n"],
        err: b"btf: malformed line 6: Trailing\n",
        ..MALFORMED
    },
];

#[test]
fn refused_files(rt: HostRuntime) {
    assert!(rt; all_go(&rt, &REFUSED));
}

/// No bytes at all, and the first bytes of a compressed file.
#[rattlefmt::skip]
static BYTES: [Run; 2] = [
    Run { file: &[b""], err: b"btf: malformed line 1: NoBanner\n", ..MALFORMED },
    Run { file: &[b"\x1f\x8b\x08"], err: b"btf: malformed line 1: NoBanner\n", ..MALFORMED },
];

#[test]
fn refused_bytes(rt: HostRuntime) {
    assert!(rt; all_go(&rt, &BYTES));
}

const HUNDRED_DIGITS: &[u8] =
    b"9999999999999999999999999999999999999999999999999999999999999999999999999999999999999999999999999999";

/// A number of 400 digits.
#[rattlefmt::skip]
static MANY_DIGITS: Run = Run {
    commands: &["rank"],
    file: &[BANNER, HUNDRED_DIGITS, HUNDRED_DIGITS, HUNDRED_DIGITS, HUNDRED_DIGITS, b" 1 0\n"],
    status: Status::Limit,
    err: b"btf: limit line 2: Rows\n",
    ..ANSWERED
};

#[test]
fn a_number_of_many_digits(rt: HostRuntime) {
    assert!(rt; goes(&rt, &MANY_DIGITS));
}
