//! `check` on changes of a report of the second version, which has connected components.

use crate::hostile::{
    Change, all_come_to, each_byte_goes, each_comes_to, is_none_if_cut, needs_each_line,
};

/// The report of the matrix with all three parts.
static LINES: [&[u8]; 28] = [
    b"btf 2\n",
    b"matrix 4 4 7\n",
    b"rank 3\n",
    b"horizontal 1 2\n",
    b"rows 1\n",
    b"columns 1 2\n",
    b"horizontal_components 1\n",
    b"component 1 1 2\n",
    b"rows 1\n",
    b"columns 1 2\n",
    b"square 1 1\n",
    b"block 1 1\n",
    b"rows 2\n",
    b"columns 3\n",
    b"vertical 2 1\n",
    b"rows 3 4\n",
    b"columns 4\n",
    b"vertical_components 1\n",
    b"component 1 2 1\n",
    b"rows 3 4\n",
    b"columns 4\n",
    b"row_order 1 2 3 4\n",
    b"column_order 1 2 3 4\n",
    b"pairs 3\n",
    b"1 1\n",
    b"2 3\n",
    b"3 4\n",
    b"end\n",
];

/// Changes after which the report is still one of the matrix: none, no orders, and other pairs.
#[rattlefmt::skip]
static VALID: [Change; 3] = [
    Change { from: 0, to: 0, others: b"" },
    Change { from: 21, to: 23, others: b"" },
    Change { from: 24, to: 27, others: b"1 2\n2 3\n4 4\n" },
];

/// Changes after which the bytes are no report.
#[rattlefmt::skip]
static NO_REPORT: [Change; 16] = [
    // The first version has no components, and the second has both lists of them.
    Change { from: 0, to: 1, others: b"btf 1\n" },
    Change { from: 0, to: 1, others: b"btf 3\n" },
    Change { from: 6, to: 10, others: b"" },
    Change { from: 17, to: 21, others: b"" },
    Change { from: 6, to: 7, others: b"vertical_components 1\n" },
    Change { from: 6, to: 7, others: b"horizontal_components 01\n" },
    // There are more or fewer than told, another number, or one with two empty lists.
    Change { from: 6, to: 7, others: b"horizontal_components 2\n" },
    Change { from: 6, to: 7, others: b"horizontal_components 0\n" },
    Change { from: 7, to: 8, others: b"component 2 1 2\n" },
    Change { from: 7, to: 8, others: b"component 0 1 2\n" },
    Change { from: 7, to: 10, others: b"component 1 0 0\nrows\ncolumns\n" },
    // A list is shorter or longer than told, does not rise, or has a number 0 or past 32 bits.
    Change { from: 8, to: 9, others: b"rows\n" },
    Change { from: 9, to: 10, others: b"columns 2 1\n" },
    Change { from: 9, to: 10, others: b"columns 0 2\n" },
    Change { from: 9, to: 10, others: b"columns 1 4294967296\n" },
    Change { from: 18, to: 19, others: b"component 1 2\n" },
];

/// Changes of earlier reasons, beside which the components differ too.
#[rattlefmt::skip]
static EARLIER: [(Change, &[u8]); 5] = [
    (Change { from: 7, to: 25, others: b"component 1 1 2\nrows 2\ncolumns 1 2\nsquare 1 1\nblock 1 1\nrows 2\ncolumns 3\nvertical 2 1\nrows 3 4\ncolumns 4\nvertical_components 0\npairs 3\n4 1\n" }, b"invalid 2\n"),
    (Change { from: 17, to: 27, others: b"vertical_components 0\npairs 2\n1 1\n2 3\n" }, b"invalid 3\n"),
    (Change { from: 1, to: 7, others: b"matrix 4 4 8\nrank 3\nhorizontal 1 2\nrows 1\ncolumns 1 2\nhorizontal_components 2\ncomponent 1 1 0\nrows 1\ncolumns\n" }, b"invalid 1\n"),
    (Change { from: 14, to: 21, others: b"vertical 1 1\nrows 3\ncolumns 4\nvertical_components 0\n" }, b"invalid 4\n"),
    (Change { from: 17, to: 23, others: b"vertical_components 0\nrow_order 1 2 4 3\ncolumn_order 1 2 3 4\n" }, b"invalid 5\n"),
];

/// Changes of the components alone: of how many there are, of what stands in them, and of which
/// part has them.
#[rattlefmt::skip]
static OTHER_COMPONENTS: [Change; 10] = [
    Change { from: 6, to: 10, others: b"horizontal_components 0\n" },
    Change { from: 17, to: 21, others: b"vertical_components 0\n" },
    Change { from: 8, to: 9, others: b"rows 2\n" },
    Change { from: 8, to: 9, others: b"rows 4294967295\n" },
    Change { from: 9, to: 10, others: b"columns 1 3\n" },
    Change { from: 7, to: 10, others: b"component 1 1 1\nrows 1\ncolumns 1\n" },
    Change { from: 6, to: 10, others: b"horizontal_components 2\ncomponent 1 1 1\nrows 1\ncolumns 1\ncomponent 2 0 1\nrows\ncolumns 2\n" },
    Change { from: 17, to: 21, others: b"vertical_components 2\ncomponent 1 1 1\nrows 3\ncolumns 4\ncomponent 2 1 0\nrows 4\ncolumns\n" },
    Change { from: 17, to: 21, others: b"vertical_components 1\ncomponent 1 1 2\nrows 1\ncolumns 1 2\n" },
    Change { from: 18, to: 20, others: b"component 1 3 1\nrows 2 3 4\n" },
];

/// Changes that promise up to 4,294,967,295 of what there are few.
#[rattlefmt::skip]
static PROMISES: [Change; 5] = [
    Change { from: 6, to: 7, others: b"horizontal_components 4294967295\n" },
    Change { from: 7, to: 8, others: b"component 1 4294967295 2\n" },
    Change { from: 7, to: 8, others: b"component 1 1 4294967295\n" },
    Change { from: 7, to: 8, others: b"component 4294967295 1 2\n" },
    Change { from: 17, to: 18, others: b"vertical_components 4294967295\n" },
];

#[test]
fn changes_of_the_report(rt: HostRuntime) {
    assert!(rt; all_come_to(&rt, &LINES, &VALID, b"valid\n"));
    assert!(rt; all_come_to(&rt, &LINES, &NO_REPORT, b"invalid 1\n"));
    assert!(rt; all_come_to(&rt, &LINES, &OTHER_COMPONENTS, b"invalid 6\n"));
    assert!(rt; all_come_to(&rt, &LINES, &PROMISES, b"invalid 1\n"));
    assert!(rt; each_comes_to(&rt, &LINES, &EARLIER));
}

#[test]
fn each_line_is_needed(rt: HostRuntime) {
    assert!(rt; needs_each_line(&rt, &LINES));
}

#[test]
fn a_report_cut_at_each_of_its_bytes(rt: HostRuntime) {
    assert!(rt; is_none_if_cut(&rt, &LINES));
}

#[test]
fn each_byte_changed(rt: HostRuntime) {
    assert!(rt; each_byte_goes(&rt, &LINES, b"024\n"));
}
