//! Sessions of edits.

use crate::runs::{ANSWERED, Run, all_go};
use sp_ids::Status;

/// A matrix of two rows, two columns and one entry.
const ONE_OF_TWO: &[u8] = b"%%MatrixMarket matrix coordinate pattern general\n2 2 1\n1 1\n";

const SESSION: Run = Run {
    commands: &["edit"],
    ..ANSWERED
};

/// With the second entry the rank is 2; with the first one gone column 1 and row 1 have no entry.
#[rattlefmt::skip]
static SESSIONS: [Run; 3] = [
    Run {
        file: &[ONE_OF_TWO, b"set 2 2\nclear 1 1\nreport\n"],
        out: b"rank 1\nrank 2\nrank 1\nbtf 2\nmatrix 2 2 1\nrank 1\nhorizontal 0 1\nrows\ncolumns 1\nhorizontal_components 1\ncomponent 1 0 1\nrows\ncolumns 1\nsquare 1 1\nblock 1 1\nrows 2\ncolumns 2\nvertical 1 0\nrows 1\ncolumns\nvertical_components 1\ncomponent 1 1 0\nrows 1\ncolumns\nend\n",
        ..SESSION
    },
    Run { file: &[ONE_OF_TWO, b""], out: b"rank 1\n", ..SESSION },
    // Skipped lines, blanks, a sign, leading zeros, no last line end; an entry that stands, and a
    // place that is none.
    Run {
        file: &[
            ONE_OF_TWO,
            b"% of the second entry\n\n set\t+2 002 \r\nset 2 2\nclear 2 1\nclear 2 2\nset 2 1",
        ],
        out: b"rank 1\nrank 2\nrank 2\nrank 2\nrank 1\nrank 1\n",
        ..SESSION
    },
];

#[test]
fn ranks_and_reports_of_a_session(rt: HostRuntime) {
    assert!(rt; all_go(&rt, &SESSIONS));
}

const MALFORMED: Run = Run {
    status: Status::Malformed,
    ..SESSION
};

/// Line numbers go on from the file's three lines, and nothing is written.
#[rattlefmt::skip]
static BAD_LINES: [Run; 12] = [
    Run { file: &[ONE_OF_TWO, b"set 3 1\n"], err: b"btf: malformed line 4: RowRange\n", ..MALFORMED },
    Run { file: &[ONE_OF_TWO, b"set 0 1\n"], err: b"btf: malformed line 4: RowRange\n", ..MALFORMED },
    Run { file: &[ONE_OF_TWO, b"clear 1 3\n"], err: b"btf: malformed line 4: ColumnRange\n", ..MALFORMED },
    Run {
        file: &[ONE_OF_TWO, b"set 2 2\n\nset x 1\nset 3 1\n"],
        err: b"btf: malformed line 6: RowNumber\n",
        ..MALFORMED
    },
    Run { file: &[ONE_OF_TWO, b"set 1 -1\n"], err: b"btf: malformed line 4: ColumnNumber\n", ..MALFORMED },
    Run { file: &[ONE_OF_TWO, b"set 1\n"], err: b"btf: malformed line 4: EditWords\n", ..MALFORMED },
    Run { file: &[ONE_OF_TWO, b"report 1\n"], err: b"btf: malformed line 4: EditWords\n", ..MALFORMED },
    Run { file: &[ONE_OF_TWO, b"Set 1 1\n"], err: b"btf: malformed line 4: EditWord\n", ..MALFORMED },
    Run { file: &[ONE_OF_TWO, b"1 1\n"], err: b"btf: malformed line 4: EditWord\n", ..MALFORMED },
    Run { file: &[ONE_OF_TWO, b"report\nset 3 1"], err: b"btf: malformed line 5: RowRange\n", ..MALFORMED },
    Run {
        file: &[b"%%MatrixMarket matrix coordinate pattern general\n2 2 1\n3 1\nset 9 9\n"],
        err: b"btf: malformed line 3: RowRange\n",
        ..MALFORMED
    },
    Run {
        file: &[b"%%MatrixMarket matrix coordinate pattern general\n2 2 2\n1 1\n"],
        err: b"btf: malformed line 3: MissingEntries\n",
        ..MALFORMED
    },
];

#[test]
fn bad_edit_lines(rt: HostRuntime) {
    assert!(rt; all_go(&rt, &BAD_LINES));
}
