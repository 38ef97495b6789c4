//! Integer array files, with texts worked out by hand. Their values stand column by column, and a
//! value of 0 gives no entry.

use crate::runs::{ANSWERED, Run, all_go};
use sp_ids::Status;

/// The rank of a file none of whose values is 0 at an entry, so that none is left out.
const RANK: Run = Run {
    commands: &["rank", "rank --drop-zeros"],
    ..ANSWERED
};

/// A symmetric file gives the values from the diagonal down, a skew-symmetric one those below it.
#[rattlefmt::skip]
static RANKS: [Run; 4] = [
    Run {
        file: &[b"%%MatrixMarket matrix array integer general\n2 2\n0\n4\n5\n0\n"],
        out: b"matrix 2 2 2\nrank 2\nhorizontal 0 0\nend\n",
        ..RANK
    },
    Run {
        file: &[b"%%MatrixMarket matrix array integer symmetric\n2 2\n0\n4\n0\n"],
        out: b"matrix 2 2 2\nrank 2\nhorizontal 0 0\nend\n",
        ..RANK
    },
    Run {
        file: &[b"%%MatrixMarket matrix array integer skew-symmetric\n2 2\n-4\n"],
        out: b"matrix 2 2 2\nrank 2\nhorizontal 0 0\nend\n",
        ..RANK
    },
    Run {
        file: &[b"%%MatrixMarket matrix array integer general\n1 2\n7\n-1\n"],
        out: b"matrix 1 2 2\nrank 1\nhorizontal 1 2\nrows 1\ncolumns 1 2\nend\n",
        ..RANK
    },
];

#[test]
fn ranks_of_array_files(rt: HostRuntime) {
    assert!(rt; all_go(&rt, &RANKS));
}

const MALFORMED: Run = Run {
    commands: &["rank"],
    status: Status::Malformed,
    ..ANSWERED
};

/// The 400,000,000 values are too many, and the line of a file with too few or with two on a line
/// is reported.
#[rattlefmt::skip]
static REFUSED: [Run; 5] = [
    Run {
        file: &[b"%%MatrixMarket matrix array integer general\n20000 20000\n"],
        status: Status::Limit,
        err: b"btf: limit line 2: Entries\n",
        ..MALFORMED
    },
    Run {
        file: &[b"%%MatrixMarket matrix array integer general\n2 1\n5\n"],
        err: b"btf: malformed line 3: MissingEntries\n",
        ..MALFORMED
    },
    Run {
        file: &[b"%%MatrixMarket matrix array integer general\n2 1\n5 4\n"],
        err: b"btf: malformed line 3: EntryWords\n",
        ..MALFORMED
    },
    Run {
        file: &[b"%%MatrixMarket matrix array integer general\n1 1\n5\n4\n"],
        err: b"btf: malformed line 4: Trailing\n",
        ..MALFORMED
    },
    Run {
        file: &[b"%%MatrixMarket matrix array integer general\n1 1 1\n5\n"],
        err: b"btf: malformed line 2: SizeWords\n",
        ..MALFORMED
    },
];

#[test]
fn array_files_are_refused(rt: HostRuntime) {
    assert!(rt; all_go(&rt, &REFUSED));
}
