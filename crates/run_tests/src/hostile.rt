//! `check` on changes of a report, on bytes that are made to mislead it, and on reports that
//! promise more than they hold.

use crate::runs::{
    ANSWERED, BANNER, Devices, Outcome, Run, STEADY, THREE_PARTS, goes, joined, outcome_of,
};
use sp_ids::{OutOfMemory, Status};
use std::alloc::Global;
use std::thread::Threads;

/// The report of the matrix with all three parts.
static LINES: [&[u8]; 20] = [
    b"btf 1\n",
    b"matrix 4 4 7\n",
    b"rank 3\n",
    b"horizontal 1 2\n",
    b"rows 1\n",
    b"columns 1 2\n",
    b"square 1 1\n",
    b"block 1 1\n",
    b"rows 2\n",
    b"columns 3\n",
    b"vertical 2 1\n",
    b"rows 3 4\n",
    b"columns 4\n",
    b"row_order 1 2 3 4\n",
    b"column_order 1 2 3 4\n",
    b"pairs 3\n",
    b"1 1\n",
    b"2 3\n",
    b"3 4\n",
    b"end\n",
];

/// Lines of the report, from one on and up to another, that are exchanged for others.
#[derive(Clone, Copy)]
pub(crate) struct Change {
    pub(crate) from: usize,
    pub(crate) to: usize,
    pub(crate) others: &'static [u8],
}

/// Changes after which the report is still one of the matrix: none, no orders, and other pairs.
#[rattlefmt::skip]
static VALID: [Change; 3] = [
    Change { from: 0, to: 0, others: b"" },
    Change { from: 13, to: 15, others: b"" },
    Change { from: 16, to: 19, others: b"1 2\n2 3\n4 4\n" },
];

/// Changes after which the bytes are no report.
#[rattlefmt::skip]
static NO_REPORT: [Change; 8] = [
    Change { from: 0, to: 20, others: b"" },
    Change { from: 0, to: 20, others: b"requests are not reports\n" },
    Change { from: 7, to: 8, others: b"block 1 1\r\n" },
    // It is cut before its last byte, or goes on behind it.
    Change { from: 19, to: 20, others: b"end" },
    Change { from: 19, to: 20, others: b"end\n\n" },
    // A number begins with a zero, there are fewer pairs than told, and a row has number 0.
    Change { from: 2, to: 3, others: b"rank 03\n" },
    Change { from: 15, to: 16, others: b"pairs 4294967295\n" },
    Change { from: 16, to: 17, others: b"0 1\n" },
];

/// Changes after which the pairs are no matching of entries. The first reason is reported: in the
/// last two the pairs are not maximum either, or the rank differs too.
#[rattlefmt::skip]
static NO_MATCHING: [Change; 5] = [
    // Row 4 has no entry there, row 9 is not in the matrix, and row 2 has two pairs.
    Change { from: 16, to: 17, others: b"4 1\n" },
    Change { from: 16, to: 17, others: b"9 1\n" },
    Change { from: 18, to: 19, others: b"2 4\n" },
    Change { from: 15, to: 19, others: b"pairs 2\n4 1\n2 3\n" },
    Change {
        from: 2,
        to: 19,
        others: b"rank 2\nhorizontal 1 2\nrows 1\ncolumns 1 2\nsquare 1 1\nblock 1 1\nrows 2\ncolumns 3\nvertical 2 1\nrows 3 4\ncolumns 4\npairs 3\n4 1\n2 3\n3 4\n",
    },
];

/// Changes after which the pairs are not maximum. In the second the orders differ too.
#[rattlefmt::skip]
static NOT_MAXIMUM: [Change; 2] = [
    Change { from: 15, to: 19, others: b"pairs 2\n1 1\n2 3\n" },
    Change { from: 13, to: 19, others: b"row_order\ncolumn_order\npairs 0\n" },
];

/// Changes of sizes, the rank and the coarse parts.
#[rattlefmt::skip]
static OTHER_PARTS: [Change; 8] = [
    Change { from: 1, to: 2, others: b"matrix 4294967295 4 7\n" },
    Change { from: 1, to: 2, others: b"matrix 4 3 7\n" },
    Change { from: 1, to: 2, others: b"matrix 4 4 8\n" },
    Change { from: 2, to: 3, others: b"rank 2\n" },
    // A row is moved from the vertical part to the horizontal one.
    Change {
        from: 3,
        to: 13,
        others: b"horizontal 2 2\nrows 1 3\ncolumns 1 2\nsquare 1 1\nblock 1 1\nrows 2\ncolumns 3\nvertical 1 1\nrows 4\ncolumns 4\n",
    },
    Change { from: 3, to: 6, others: b"horizontal 1 1\nrows 1\ncolumns 2\n" },
    // The block has a column of the vertical part, or there is none.
    Change { from: 9, to: 10, others: b"columns 4\n" },
    Change { from: 6, to: 10, others: b"square 0 0\n" },
];

/// Changes of the orders.
#[rattlefmt::skip]
static OTHER_ORDERS: [Change; 4] = [
    Change { from: 13, to: 14, others: b"row_order 1 2 4 3\n" },
    Change { from: 14, to: 15, others: b"column_order 2 1 3 4\n" },
    Change { from: 14, to: 15, others: b"column_order 1 2 3\n" },
    Change { from: 13, to: 15, others: b"row_order\ncolumn_order\n" },
];

/// The report of these lines after a change.
fn changed(alloc: Global, lines: &[&[u8]], change: &Change) -> Result<Vec<u8>, OutOfMemory> {
    let mut text = Vec::new(alloc);
    for (at, line) in lines.iter().enumerate() {
        if at == change.from {
            text.extend_from_slice(change.others)?;
        }
        if at < change.from || at >= change.to {
            text.extend_from_slice(line)?;
        }
    }
    Ok(text)
}

/// Devices that give large pieces.
const LARGE: Devices<'static> = Devices {
    piece: 65536,
    ..STEADY
};

/// What `check` makes of the matrix with all three parts followed by these bytes.
fn judged<R: Threads + AllocGlobal + Sync>(rt: &R, report: &[u8]) -> Result<Outcome, OutOfMemory> {
    let file = joined(rt.alloc(), &[BANNER, THREE_PARTS, report])?;
    outcome_of(rt, &["check"], file.as_slice(), &LARGE)
}

/// Whether this is a reason for which a report is not valid, and nothing else was told.
fn is_reason(found: &Outcome) -> bool {
    found.is_answer(Status::Negative)
        && found.text().starts_with(b"invalid ")
        && found.text().len() == 10
}

/// Whether this verdict was told by its status, and nothing else.
fn is_verdict(found: &Outcome, wanted: &[u8]) -> bool {
    if wanted == b"valid\n".as_slice() {
        found.is(Status::Ok, wanted, b"")
    } else {
        is_reason(found) && found.text() == wanted
    }
}

/// Whether these bytes have this verdict.
pub(crate) fn has_verdict<R: Threads + AllocGlobal + Sync>(
    rt: &R,
    report: &[u8],
    wanted: &[u8],
) -> bool {
    match judged(rt, report) {
        Err(_) => false,
        Ok(found) => is_verdict(&found, wanted),
    }
}

/// Whether the report of these lines has this verdict after a change.
pub(crate) fn comes_to<R: Threads + AllocGlobal + Sync>(
    rt: &R,
    lines: &[&[u8]],
    change: &Change,
    wanted: &[u8],
) -> bool {
    match changed(rt.alloc(), lines, change) {
        Err(_) => false,
        Ok(text) => has_verdict(rt, text.as_slice(), wanted),
    }
}

/// Whether it has this verdict after each of these changes.
pub(crate) fn all_come_to<R: Threads + AllocGlobal + Sync>(
    rt: &R,
    lines: &[&[u8]],
    changes: &[Change],
    wanted: &[u8],
) -> bool {
    for change in changes {
        if !comes_to(rt, lines, change, wanted) {
            return false;
        }
    }
    true
}

/// Whether it has its own verdict after each of these.
pub(crate) fn each_comes_to<R: Threads + AllocGlobal + Sync>(
    rt: &R,
    lines: &[&[u8]],
    changes: &[(Change, &[u8])],
) -> bool {
    for (change, wanted) in changes {
        if !comes_to(rt, lines, change, wanted) {
            return false;
        }
    }
    true
}

#[test]
fn changes_of_the_report(rt: HostRuntime) {
    assert!(rt; all_come_to(&rt, &LINES, &VALID, b"valid\n"));
    assert!(rt; all_come_to(&rt, &LINES, &NO_REPORT, b"invalid 1\n"));
    assert!(rt; all_come_to(&rt, &LINES, &NO_MATCHING, b"invalid 2\n"));
    assert!(rt; all_come_to(&rt, &LINES, &NOT_MAXIMUM, b"invalid 3\n"));
    assert!(rt; all_come_to(&rt, &LINES, &OTHER_PARTS, b"invalid 4\n"));
    assert!(rt; all_come_to(&rt, &LINES, &OTHER_ORDERS, b"invalid 5\n"));
}

/// Whether the report of these lines is none without any of them.
pub(crate) fn needs_each_line<R: Threads + AllocGlobal + Sync>(rt: &R, lines: &[&[u8]]) -> bool {
    for from in 0..lines.len() {
        let left_out = Change {
            from,
            to: from.saturating_add(1),
            others: b"",
        };
        if !comes_to(rt, lines, &left_out, b"invalid 1\n") {
            return false;
        }
    }
    true
}

#[test]
fn each_line_is_needed(rt: HostRuntime) {
    assert!(rt; needs_each_line(&rt, &LINES));
}

/// A matrix whose entries are its diagonal, and its report, but for the blocks: all rows and columns
/// are in one, as if a cycle went through them.
#[rattlefmt::skip]
static ONE_BLOCK: Run = Run {
    commands: &["check"],
    file: &[
        BANNER, b"3 3 3\n1 1\n2 2\n3 3\n",
        b"btf 1\nmatrix 3 3 3\nrank 3\nhorizontal 0 0\nsquare 3 1\nblock 1 3\nrows 1 2 3\ncolumns 1 2 3\nvertical 0 0\npairs 3\n1 1\n2 2\n3 3\nend\n",
    ],
    status: Status::Negative,
    out: b"invalid 5\n",
    ..ANSWERED
};

#[test]
fn blocks_of_another_matrix(rt: HostRuntime) {
    assert!(rt; goes(&rt, &ONE_BLOCK));
}

/// Whether a report is none where it is cut at any of its bytes.
fn needs_its_end<R: Threads + AllocGlobal + Sync>(rt: &R, whole: &[u8]) -> bool {
    for len in 0..whole.len() {
        if !has_verdict(rt, &whole[..len], b"invalid 1\n") {
            return false;
        }
    }
    true
}

/// No change of a report.
const NO_CHANGE: Change = Change {
    from: 0,
    to: 0,
    others: b"",
};

/// Whether that holds of the report of these lines.
pub(crate) fn is_none_if_cut<R: Threads + AllocGlobal + Sync>(rt: &R, lines: &[&[u8]]) -> bool {
    match changed(rt.alloc(), lines, &NO_CHANGE) {
        Err(_) => false,
        Ok(whole) => needs_its_end(rt, whole.as_slice()),
    }
}

// A report ends with the LF behind `end`, so none is the beginning of another.
#[test]
fn a_report_cut_at_each_of_its_bytes(rt: HostRuntime) {
    assert!(rt; is_none_if_cut(&rt, &LINES));
}

/// The whole report as a change of its last line, so that it stands there twice.
const TWICE: Change = Change {
    from: 19,
    to: 20,
    others: b"end\nbtf 1\nmatrix 4 4 7\nrank 3\nhorizontal 1 2\nrows 1\ncolumns 1 2\nsquare 1 1\nblock 1 1\nrows 2\ncolumns 3\nvertical 2 1\nrows 3 4\ncolumns 4\nrow_order 1 2 3 4\ncolumn_order 1 2 3 4\npairs 3\n1 1\n2 3\n3 4\nend\n",
};

#[test]
fn two_reports_one_behind_the_other(rt: HostRuntime) {
    assert!(rt; comes_to(&rt, &LINES, &TWICE, b"invalid 1\n"));
}

/// The bytes that stand in place of each byte of a report, one at a time.
const OTHER_BYTES: &[u8] = b"0124 \n-x\xff";

/// A text in which one byte is another.
fn with_byte(alloc: Global, text: &[u8], at: usize, byte: u8) -> Result<Vec<u8>, OutOfMemory> {
    let mut other = text.to_vec(alloc)?;
    if let Some(place) = other.as_mut_slice().get_mut(at) {
        *place = byte;
    }
    Ok(other)
}

/// The byte that may stand so many bytes before the end of the report and leave a report of the
/// matrix: the row of the last pair may be 4, and the column of the first one 2. Rows 3 and 4 both
/// have column 4 alone, and row 1 has columns 1 and 2.
fn other_pair(before_end: usize) -> Option<u8> {
    if before_end == b"3 4\nend\n".len() {
        Some(b'4')
    } else if before_end == b"1\n2 3\n3 4\nend\n".len() {
        Some(b'2')
    } else {
        None
    }
}

/// Whether these bytes are a report of the matrix, or are refused as none.
fn is_valid_or_not<R: Threads + AllocGlobal + Sync>(rt: &R, report: &[u8], valid: bool) -> bool {
    match judged(rt, report) {
        Err(_) => false,
        Ok(found) => {
            if valid {
                is_verdict(&found, b"valid\n")
            } else {
                is_reason(&found)
            }
        }
    }
}

/// Whether a text in which one byte is another is a report of the matrix just where it may be.
fn byte_goes<R: Threads + AllocGlobal + Sync>(rt: &R, whole: &[u8], at: usize, byte: u8) -> bool {
    let valid = other_pair(whole.len().saturating_sub(at)) == Some(byte);
    match with_byte(rt.alloc(), whole, at, byte) {
        Err(_) => false,
        Ok(other) => other.as_slice() == whole || is_valid_or_not(rt, other.as_slice(), valid),
    }
}

/// Whether that holds of each of these bytes at each place.
fn bytes_go<R: Threads + AllocGlobal + Sync>(rt: &R, whole: &[u8], others: &[u8]) -> bool {
    for at in 0..whole.len() {
        for byte in others {
            if !byte_goes(rt, whole, at, *byte) {
                return false;
            }
        }
    }
    true
}

/// Whether it does in the report of these lines.
pub(crate) fn each_byte_goes<R: Threads + AllocGlobal + Sync>(
    rt: &R,
    lines: &[&[u8]],
    others: &[u8],
) -> bool {
    match changed(rt.alloc(), lines, &NO_CHANGE) {
        Err(_) => false,
        Ok(whole) => bytes_go(rt, whole.as_slice(), others),
    }
}

#[test]
fn each_byte_changed(rt: HostRuntime) {
    assert!(rt; each_byte_goes(&rt, &LINES, OTHER_BYTES));
}

/// Changes that promise up to 4,294,967,295 of what there are few, or have a number that is no
/// longer one of 32 bits.
#[rattlefmt::skip]
static PROMISES: [Change; 9] = [
    Change { from: 3, to: 4, others: b"horizontal 4294967295 2\n" },
    Change { from: 6, to: 7, others: b"square 4294967295 1\n" },
    Change { from: 6, to: 7, others: b"square 1 4294967295\n" },
    Change { from: 7, to: 8, others: b"block 1 4294967295\n" },
    Change { from: 7, to: 8, others: b"block 4294967295 1\n" },
    Change { from: 10, to: 11, others: b"vertical 2 4294967295\n" },
    Change { from: 15, to: 16, others: b"pairs 4294967295\n" },
    Change { from: 1, to: 2, others: b"matrix 4 4 4294967296\n" },
    Change { from: 11, to: 12, others: b"rows 3 4294967296\n" },
];

/// Changes to the greatest numbers: of the sizes, of a part, of a pair and of an order.
#[rattlefmt::skip]
static GREATEST: [(Change, &[u8]); 5] = [
    (Change { from: 1, to: 2, others: b"matrix 4294967295 4294967295 4294967295\n" }, b"invalid 4\n"),
    (Change { from: 2, to: 3, others: b"rank 4294967295\n" }, b"invalid 4\n"),
    (Change { from: 11, to: 12, others: b"rows 3 4294967295\n" }, b"invalid 4\n"),
    (Change { from: 18, to: 19, others: b"4294967295 4294967295\n" }, b"invalid 2\n"),
    (Change { from: 13, to: 14, others: b"row_order 1 2 3 4294967295\n" }, b"invalid 5\n"),
];

#[test]
fn reports_that_promise_more_than_they_hold(rt: HostRuntime) {
    assert!(rt; all_come_to(&rt, &LINES, &PROMISES, b"invalid 1\n"));
    assert!(rt; each_comes_to(&rt, &LINES, &GREATEST));
}

/// So many sevens.
fn sevens(alloc: Global, count: usize) -> Result<Vec<u8>, OutOfMemory> {
    Ok(Vec::from_elem(alloc, b'7', count)?)
}

/// A report that ends within a number of so many digits.
fn long_report(alloc: Global, digits: usize) -> Result<Vec<u8>, OutOfMemory> {
    let digits = sevens(alloc, digits)?;
    joined(alloc, &[b"btf 1\nmatrix 4 4 ", digits.as_slice()])
}

/// Whether such a report is none.
fn is_none_if_long<R: Threads + AllocGlobal + Sync>(rt: &R, digits: usize) -> bool {
    match long_report(rt.alloc(), digits) {
        Err(_) => false,
        Ok(text) => has_verdict(rt, text.as_slice(), b"invalid 1\n"),
    }
}

// A number of ten million digits.
#[test]
fn a_number_of_ten_million_digits(rt: HostRuntime) {
    assert!(rt; is_none_if_long(&rt, 10_000_000));
}
