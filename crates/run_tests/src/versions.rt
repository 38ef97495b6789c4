//! Reports of the second version, which have the connected components of the horizontal and the
//! vertical part.

use crate::runs::{ANSWERED, BANNER, Run, all_go};
use sp_ids::Status;

/// Two rows and four columns: columns 1 and 3 have row 1, and columns 2 and 4 have row 2.
const TWO_COMPONENTS: &[u8] = b"2 4 4\n1 1\n1 3\n2 2\n2 4\n";

/// Its report up to its components.
const HEAD: &[u8] =
    b"btf 2\nmatrix 2 4 4\nrank 2\nhorizontal 2 4\nrows 1 2\ncolumns 1 2 3 4\nhorizontal_components 2\n";

/// And behind them.
const TAIL: &[u8] = b"square 0 0\nvertical 0 0\nvertical_components 0\n";

const REPORT: Run = Run {
    commands: &["analyse", "analyse --report 2"],
    ..ANSWERED
};

/// A row without an entry of the horizontal part is no row of it; a column without entries is a
/// component by itself, and so is a row of the vertical part without entries.
#[rattlefmt::skip]
static REPORTS: [Run; 5] = [
    Run {
        file: &[BANNER, b"0 0 0\n"],
        out: b"btf 2\nmatrix 0 0 0\nrank 0\nhorizontal 0 0\nhorizontal_components 0\nsquare 0 0\nvertical 0 0\nvertical_components 0\nend\n",
        ..REPORT
    },
    Run {
        file: &[BANNER, b"1 1 1\n1 1\n"],
        out: b"btf 2\nmatrix 1 1 1\nrank 1\nhorizontal 0 0\nhorizontal_components 0\nsquare 1 1\nblock 1 1\nrows 1\ncolumns 1\nvertical 0 0\nvertical_components 0\nend\n",
        ..REPORT
    },
    Run {
        file: &[BANNER, TWO_COMPONENTS],
        out: b"btf 2\nmatrix 2 4 4\nrank 2\nhorizontal 2 4\nrows 1 2\ncolumns 1 2 3 4\nhorizontal_components 2\ncomponent 1 1 2\nrows 1\ncolumns 1 3\ncomponent 2 1 2\nrows 2\ncolumns 2 4\nsquare 0 0\nvertical 0 0\nvertical_components 0\nend\n",
        ..REPORT
    },
    Run {
        file: &[BANNER, b"2 2 2\n1 1\n1 2\n"],
        out: b"btf 2\nmatrix 2 2 2\nrank 1\nhorizontal 1 2\nrows 1\ncolumns 1 2\nhorizontal_components 1\ncomponent 1 1 2\nrows 1\ncolumns 1 2\nsquare 0 0\nvertical 1 0\nrows 2\ncolumns\nvertical_components 1\ncomponent 1 1 0\nrows 2\ncolumns\nend\n",
        ..REPORT
    },
    Run {
        file: &[BANNER, b"1 2 1\n1 2\n"],
        out: b"btf 2\nmatrix 1 2 1\nrank 1\nhorizontal 0 1\nrows\ncolumns 1\nhorizontal_components 1\ncomponent 1 0 1\nrows\ncolumns 1\nsquare 1 1\nblock 1 1\nrows 1\ncolumns 2\nvertical 0 0\nvertical_components 0\nend\n",
        ..REPORT
    },
];

#[test]
fn second_version(rt: HostRuntime) {
    assert!(rt; all_go(&rt, &REPORTS));
}

const PAIRS: &[u8] = b"pairs 2\n1 1\n2 2\nend\n";

const CHECK: Run = Run {
    commands: &["check"],
    ..ANSWERED
};

/// Reports with these lines of the two horizontal components. Components are judged last. Lists
/// that rise and have the lengths that are written are of the grammar, whatever stands in them.
#[rattlefmt::skip]
static COMPONENTS: [Run; 10] = [
    Run {
        file: &[BANNER, TWO_COMPONENTS, HEAD, b"component 1 1 2\nrows 1\ncolumns 1 3\ncomponent 2 1 2\nrows 2\ncolumns 2 4\n", TAIL, PAIRS],
        out: b"valid\n",
        ..CHECK
    },
    // The two are exchanged, one row is, or all are one.
    Run {
        file: &[BANNER, TWO_COMPONENTS, HEAD, b"component 1 1 2\nrows 2\ncolumns 2 4\ncomponent 2 1 2\nrows 1\ncolumns 1 3\n", TAIL, PAIRS],
        status: Status::Negative,
        out: b"invalid 6\n",
        ..CHECK
    },
    Run {
        file: &[BANNER, TWO_COMPONENTS, HEAD, b"component 1 1 2\nrows 2\ncolumns 1 3\ncomponent 2 1 2\nrows 1\ncolumns 2 4\n", TAIL, PAIRS],
        status: Status::Negative,
        out: b"invalid 6\n",
        ..CHECK
    },
    Run {
        file: &[BANNER, TWO_COMPONENTS, HEAD, b"component 1 2 2\nrows 1 2\ncolumns 1 3\ncomponent 2 0 2\nrows\ncolumns 2 4\n", TAIL, PAIRS],
        status: Status::Negative,
        out: b"invalid 6\n",
        ..CHECK
    },
    // A row that is not in the matrix.
    Run {
        file: &[BANNER, TWO_COMPONENTS, HEAD, b"component 1 1 2\nrows 4294967295\ncolumns 1 3\ncomponent 2 1 2\nrows 2\ncolumns 2 4\n", TAIL, PAIRS],
        status: Status::Negative,
        out: b"invalid 6\n",
        ..CHECK
    },
    // No report: two lengths of 0, a list that does not rise, another number, fewer than told,
    // more than told.
    Run {
        file: &[BANNER, TWO_COMPONENTS, HEAD, b"component 1 0 0\nrows\ncolumns\ncomponent 2 1 2\nrows 2\ncolumns 2 4\n", TAIL, PAIRS],
        status: Status::Negative,
        out: b"invalid 1\n",
        ..CHECK
    },
    Run {
        file: &[BANNER, TWO_COMPONENTS, HEAD, b"component 1 1 2\nrows 1\ncolumns 3 1\ncomponent 2 1 2\nrows 2\ncolumns 2 4\n", TAIL, PAIRS],
        status: Status::Negative,
        out: b"invalid 1\n",
        ..CHECK
    },
    Run {
        file: &[BANNER, TWO_COMPONENTS, HEAD, b"component 1 1 2\nrows 1\ncolumns 1 3\ncomponent 3 1 2\nrows 2\ncolumns 2 4\n", TAIL, PAIRS],
        status: Status::Negative,
        out: b"invalid 1\n",
        ..CHECK
    },
    Run {
        file: &[BANNER, TWO_COMPONENTS, HEAD, b"component 1 1 2\nrows 1\ncolumns 1 3\n", TAIL, PAIRS],
        status: Status::Negative,
        out: b"invalid 1\n",
        ..CHECK
    },
    Run {
        file: &[BANNER, TWO_COMPONENTS, HEAD, b"component 1 4294967295 2\nrows 1\ncolumns 1 3\ncomponent 2 1 2\nrows 2\ncolumns 2 4\n", TAIL, PAIRS],
        status: Status::Negative,
        out: b"invalid 1\n",
        ..CHECK
    },
];

#[test]
fn verdicts_on_components(rt: HostRuntime) {
    assert!(rt; all_go(&rt, &COMPONENTS));
}

/// The lines behind the first one, up to the horizontal components.
const LINES: &[u8] = b"matrix 2 4 4\nrank 2\nhorizontal 2 4\nrows 1 2\ncolumns 1 2 3 4\n";

/// Those behind them, up to the vertical components.
const REST: &[u8] = b"square 0 0\nvertical 0 0\n";

/// The same matrix with a report of the first version; with the first line of one version over the
/// lines of the other; and with lists of components that promise more than they hold.
#[rattlefmt::skip]
static VERSIONS: [Run; 5] = [
    Run {
        file: &[BANNER, TWO_COMPONENTS, b"btf 1\n", LINES, REST, PAIRS],
        out: b"valid\n",
        ..CHECK
    },
    Run {
        file: &[BANNER, TWO_COMPONENTS, b"btf 2\n", LINES, REST, PAIRS],
        status: Status::Negative,
        out: b"invalid 1\n",
        ..CHECK
    },
    Run {
        file: &[BANNER, TWO_COMPONENTS, b"btf 3\n", LINES, REST, PAIRS],
        status: Status::Negative,
        out: b"invalid 1\n",
        ..CHECK
    },
    Run {
        file: &[
            BANNER, TWO_COMPONENTS, b"btf 2\n", LINES, b"horizontal_components 4294967295\n", REST,
            b"vertical_components 0\n", PAIRS,
        ],
        status: Status::Negative,
        out: b"invalid 1\n",
        ..CHECK
    },
    Run {
        file: &[
            BANNER, TWO_COMPONENTS, b"btf 2\n", LINES, b"horizontal_components 0\n", REST,
            b"vertical_components 0\n", PAIRS,
        ],
        status: Status::Negative,
        out: b"invalid 6\n",
        ..CHECK
    },
];

#[test]
fn verdicts_on_versions(rt: HostRuntime) {
    assert!(rt; all_go(&rt, &VERSIONS));
}

/// The two components in each other's place.
const EXCHANGED: &[u8] =
    b"component 1 1 2\nrows 2\ncolumns 2 4\ncomponent 2 1 2\nrows 1\ncolumns 1 3\n";

/// An earlier reason comes first: the pairs are not maximum, and then an order is another, beside
/// components that are exchanged.
#[rattlefmt::skip]
static EARLIER: [Run; 2] = [
    Run {
        file: &[BANNER, TWO_COMPONENTS, HEAD, EXCHANGED, TAIL, b"pairs 1\n1 1\nend\n"],
        status: Status::Negative,
        out: b"invalid 3\n",
        ..CHECK
    },
    Run {
        file: &[
            BANNER, TWO_COMPONENTS, HEAD, EXCHANGED, TAIL,
            b"row_order 1 2\ncolumn_order 1 2 4 3\n", PAIRS,
        ],
        status: Status::Negative,
        out: b"invalid 5\n",
        ..CHECK
    },
];

#[test]
fn components_are_judged_last(rt: HostRuntime) {
    assert!(rt; all_go(&rt, &EARLIER));
}
