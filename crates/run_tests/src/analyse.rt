//! `analyse` on small files in the first version of reports, with texts worked out by hand.

use crate::runs::{
    ANSWERED, BANNER, Outcome, Run, SMALLEST_REPORT, STEADY, THREE_PARTS, THREE_PARTS_EXAMPLE,
    all_go, outcome_on,
};
use sp_ids::Status;
use std::thread::Threads;

/// A report of the first version.
const REPORT: Run = Run {
    commands: &["analyse --report 1"],
    ..ANSWERED
};

#[rattlefmt::skip]
static ONE_PART: [Run; 4] = [
    Run { file: &[BANNER, b"1 1 1\n1 1\n"], out: SMALLEST_REPORT, ..REPORT },
    Run {
        file: &[BANNER, b"0 0 0\n"],
        out: b"btf 1\nmatrix 0 0 0\nrank 0\nhorizontal 0 0\nsquare 0 0\nvertical 0 0\nend\n",
        ..REPORT
    },
    Run {
        file: &[BANNER, b"2 2 2\n1 1\n1 2\n"],
        out: b"btf 1\nmatrix 2 2 2\nrank 1\nhorizontal 1 2\nrows 1\ncolumns 1 2\nsquare 0 0\nvertical 1 0\nrows 2\ncolumns\nend\n",
        ..REPORT
    },
    Run {
        file: &[BANNER, b"2 1 2\n1 1\n2 1\n"],
        out: b"btf 1\nmatrix 2 1 2\nrank 1\nhorizontal 0 0\nsquare 0 0\nvertical 2 1\nrows 1 2\ncolumns 1\nend\n",
        ..REPORT
    },
];

#[test]
fn reports_of_one_part(rt: HostRuntime) {
    assert!(rt; all_go(&rt, &ONE_PART));
}

#[rattlefmt::skip]
static BLOCKS: [Run; 2] = [
    Run {
        file: &[BANNER, b"3 3 3\n1 1\n2 2\n3 3\n"],
        out: b"btf 1\nmatrix 3 3 3\nrank 3\nhorizontal 0 0\nsquare 3 3\nblock 1 1\nrows 1\ncolumns 1\nblock 2 1\nrows 2\ncolumns 2\nblock 3 1\nrows 3\ncolumns 3\nvertical 0 0\nend\n",
        ..REPORT
    },
    Run {
        file: &[BANNER, b"3 3 6\n1 2\n2 3\n3 1\n1 1\n2 2\n3 3\n"],
        out: b"btf 1\nmatrix 3 3 6\nrank 3\nhorizontal 0 0\nsquare 3 1\nblock 1 3\nrows 1 2 3\ncolumns 1 2 3\nvertical 0 0\nend\n",
        ..REPORT
    },
];

#[test]
fn reports_of_blocks(rt: HostRuntime) {
    assert!(rt; all_go(&rt, &BLOCKS));
}

/// A report with both orders.
const ORDERED: Run = Run {
    commands: &["analyse --report 1 --order"],
    ..ANSWERED
};

/// Column 1 of the lower triangle waits for columns 2 and 3, and column 2 for column 3. Of one row
/// and two columns the empty column comes first.
#[rattlefmt::skip]
static ORDERS: [Run; 3] = [
    Run {
        file: &[BANNER, b"3 3 6\n1 1\n2 1\n3 1\n2 2\n3 2\n3 3\n"],
        out: b"btf 1\nmatrix 3 3 6\nrank 3\nhorizontal 0 0\nsquare 3 3\nblock 1 1\nrows 3\ncolumns 3\nblock 2 1\nrows 2\ncolumns 2\nblock 3 1\nrows 1\ncolumns 1\nvertical 0 0\nrow_order 3 2 1\ncolumn_order 3 2 1\nend\n",
        ..ORDERED
    },
    Run {
        file: &[BANNER, b"1 2 1\n1 2\n"],
        out: b"btf 1\nmatrix 1 2 1\nrank 1\nhorizontal 0 1\nrows\ncolumns 1\nsquare 1 1\nblock 1 1\nrows 1\ncolumns 2\nvertical 0 0\nrow_order 1\ncolumn_order 1 2\nend\n",
        ..ORDERED
    },
    Run {
        commands: &["analyse --pairs --report 1 --order"],
        file: &[BANNER, b"0 0 0\n"],
        out: b"btf 1\nmatrix 0 0 0\nrank 0\nhorizontal 0 0\nsquare 0 0\nvertical 0 0\nrow_order\ncolumn_order\npairs 0\nend\n",
        ..ANSWERED
    },
];

#[test]
fn orders(rt: HostRuntime) {
    assert!(rt; all_go(&rt, &ORDERS));
}

/// Each engine finds the same parts and blocks.
const BY_ENGINES: Run = Run {
    commands: &[
        "analyse --report 1 --order",
        "analyse --engine plain --order --report=1",
        "analyse --engine mc21 --order --report=1",
        "analyse --engine pf --order --report=1",
        "analyse --engine graft --order --report=1",
    ],
    out: b"btf 1\nmatrix 4 4 7\nrank 3\nhorizontal 1 2\nrows 1\ncolumns 1 2\nsquare 1 1\nblock 1 1\nrows 2\ncolumns 3\nvertical 2 1\nrows 3 4\ncolumns 4\nrow_order 1 2 3 4\ncolumn_order 1 2 3 4\nend\n",
    ..ANSWERED
};

#[rattlefmt::skip]
static ENGINES: [Run; 2] = [
    Run { file: &[BANNER, THREE_PARTS], ..BY_ENGINES },
    Run { file: &[BANNER, THREE_PARTS_EXAMPLE], ..BY_ENGINES },
];

#[test]
fn engines(rt: HostRuntime) {
    assert!(rt; all_go(&rt, &ENGINES));
}

/// The ends of its report with pairs: column 1 or 2 has row 1, column 3 has row 2, and column 4 has
/// row 3 or 4.
static PAIRS: [&[u8]; 4] = [
    b"columns 4\npairs 3\n1 1\n2 3\n3 4\nend\n",
    b"columns 4\npairs 3\n1 1\n2 3\n4 4\nend\n",
    b"columns 4\npairs 3\n1 2\n2 3\n3 4\nend\n",
    b"columns 4\npairs 3\n1 2\n2 3\n4 4\nend\n",
];

/// Whether a text ends in one of these ways.
fn has_end(text: &[u8], ends: &[&[u8]]) -> bool {
    for end in ends {
        if text.ends_with(end) {
            return true;
        }
    }
    false
}

/// Whether what came of a run is a report that ends so.
fn ends_with_pairs(found: &Outcome) -> bool {
    found.is_answer(Status::Ok) && has_end(found.text(), &PAIRS)
}

/// Whether the report of the matrix with all three parts does.
fn has_pairs<R: Threads + AllocGlobal + Sync>(rt: &R) -> bool {
    let words = ["analyse --pairs --report 1"];
    match outcome_on(rt, &words, &[BANNER, THREE_PARTS], &STEADY) {
        Err(_) => false,
        Ok(found) => ends_with_pairs(&found),
    }
}

#[test]
fn pairs(rt: HostRuntime) {
    assert!(rt; has_pairs(&rt));
}

#[rattlefmt::skip]
static OTHER_BANNERS: [Run; 5] = [
    Run {
        file: &[b"%%MatrixMarket matrix coordinate pattern symmetric\n2 2 1\n2 1\n"],
        out: b"btf 1\nmatrix 2 2 2\nrank 2\nhorizontal 0 0\nsquare 2 2\nblock 1 1\nrows 2\ncolumns 1\nblock 2 1\nrows 1\ncolumns 2\nvertical 0 0\nend\n",
        ..REPORT
    },
    Run {
        file: &[b"%%MatrixMarket MATRIX Coordinate complex hermitian\n2 2 2\n1 1 1 0\n2 1 0 1\n"],
        out: b"btf 1\nmatrix 2 2 3\nrank 2\nhorizontal 0 0\nsquare 2 2\nblock 1 1\nrows 1\ncolumns 2\nblock 2 1\nrows 2\ncolumns 1\nvertical 0 0\nend\n",
        ..REPORT
    },
    Run {
        file: &[b"%%MatrixMarket matrix coordinate real general\n2 2 2\n1 1 1.5e-3\n2 2 nan\n"],
        out: b"btf 1\nmatrix 2 2 2\nrank 2\nhorizontal 0 0\nsquare 2 2\nblock 1 1\nrows 1\ncolumns 1\nblock 2 1\nrows 2\ncolumns 2\nvertical 0 0\nend\n",
        ..REPORT
    },
    Run {
        file: &[b"%%MatrixMarket matrix coordinate integer general\r\n1 1 2\r\n1 1 5\r\n1 1 -5"],
        out: SMALLEST_REPORT,
        ..REPORT
    },
    Run {
        file: &[b"%%MatrixMarket matrix coordinate integer general\n1 1 2\n1 1 9223372036854775807\n1 1 1\n"],
        out: SMALLEST_REPORT,
        ..REPORT
    },
];

#[test]
fn reports_of_other_banners(rt: HostRuntime) {
    assert!(rt; all_go(&rt, &OTHER_BANNERS));
}
