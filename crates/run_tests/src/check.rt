//! `check` on small files and what follows them, with verdicts worked out by hand.

use crate::runs::{
    ANSWERED, BANNER, Devices, Outcome, Run, STEADY, THREE_PARTS, THREE_PARTS_EXAMPLE, all_go,
    joined, outcome_of, outcome_on,
};
use sp_ids::{OutOfMemory, Status};
use sp_ports::{Failed, Source};
use std::alloc::Global;
use std::thread::Threads;

/// The report of the matrix with all three parts, up to its pairs.
const SIZES: &[u8] = b"btf 1\nmatrix 4 4 7\nrank 3\n";

const HORIZONTAL: &[u8] = b"horizontal 1 2\nrows 1\ncolumns 1 2\n";

const OTHERS: &[u8] =
    b"square 1 1\nblock 1 1\nrows 2\ncolumns 3\nvertical 2 1\nrows 3 4\ncolumns 4\n";

const VALID: Run = Run {
    commands: &["check"],
    out: b"valid\n",
    ..ANSWERED
};

const INVALID: Run = Run {
    status: Status::Negative,
    ..VALID
};

/// A report that is cut before its end; a pair that is no entry; a pair too few; and a column that
/// is left out.
#[rattlefmt::skip]
static THREE: [Run; 5] = [
    Run {
        file: &[BANNER, THREE_PARTS, SIZES, HORIZONTAL, OTHERS, b"pairs 3\n1 1\n2 3\n3 4\nend\n"],
        ..VALID
    },
    Run {
        file: &[BANNER, THREE_PARTS, SIZES, HORIZONTAL, OTHERS, b"pairs 3\n1 1\n2 3\n3 4\n"],
        out: b"invalid 1\n",
        ..INVALID
    },
    Run {
        file: &[BANNER, THREE_PARTS, SIZES, HORIZONTAL, OTHERS, b"pairs 3\n4 1\n2 3\n3 4\nend\n"],
        out: b"invalid 2\n",
        ..INVALID
    },
    Run {
        file: &[BANNER, THREE_PARTS, SIZES, HORIZONTAL, OTHERS, b"pairs 2\n1 1\n2 3\nend\n"],
        out: b"invalid 3\n",
        ..INVALID
    },
    Run {
        file: &[
            BANNER, THREE_PARTS, SIZES, b"horizontal 1 1\nrows 1\ncolumns 2\n", OTHERS,
            b"pairs 3\n1 1\n2 3\n3 4\nend\n",
        ],
        out: b"invalid 4\n",
        ..INVALID
    },
];

#[test]
fn verdicts_on_three_parts(rt: HostRuntime) {
    assert!(rt; all_go(&rt, &THREE));
}

/// A report with both orders of no rows and no columns.
const EMPTY_REPORT: &[u8] =
    b"btf 1\nmatrix 0 0 0\nrank 0\nhorizontal 0 0\nsquare 0 0\nvertical 0 0\nrow_order\ncolumn_order\npairs 0\nend\n";

/// The second and the first block in each other's place; an input that ends with its last entry
/// line; the report of no rows and no columns; and a comment before it, which belongs to the report.
#[rattlefmt::skip]
static SMALL: [Run; 4] = [
    Run {
        file: &[
            BANNER,
            b"3 3 3\n1 1\n2 2\n3 3\nbtf 1\nmatrix 3 3 3\nrank 3\nhorizontal 0 0\nsquare 3 3\nblock 1 1\nrows 2\ncolumns 2\nblock 2 1\nrows 1\ncolumns 1\nblock 3 1\nrows 3\ncolumns 3\nvertical 0 0\npairs 3\n1 1\n2 2\n3 3\nend\n",
        ],
        out: b"invalid 5\n",
        ..INVALID
    },
    Run { file: &[BANNER, b"1 1 1\n1 1"], out: b"invalid 1\n", ..INVALID },
    Run { file: &[BANNER, b"0 0 0\n", EMPTY_REPORT], ..VALID },
    Run { file: &[BANNER, b"0 0 0\n", b"% c\n", EMPTY_REPORT], out: b"invalid 1\n", ..INVALID },
];

#[test]
fn verdicts_on_small_files(rt: HostRuntime) {
    assert!(rt; all_go(&rt, &SMALL));
}

/// Call 0 of `read` gives the whole file, which ends within its last entry line, and call 1 tells
/// its end. Call 2 fails.
const ENDING: Devices<'static> = Devices {
    piece: 4096,
    failing_reads: &[2],
    ..STEADY
};

/// Whether the verdict was given with no call that failed, and call 2 is made here.
fn is_not_asked(found: &mut Outcome) -> bool {
    found.is(Status::Negative, b"invalid 1\n", b"")
        && found.devices.input.failed_calls() == 0
        && found.devices.input.read(&mut [0u8; 16]) == Err(Failed)
}

/// Whether that holds of a run on it.
fn ended_is_not_asked<R: Threads + AllocGlobal + Sync>(rt: &R) -> bool {
    match outcome_on(rt, &["check"], &[BANNER, b"1 1 1\n1 1"], &ENDING) {
        Err(_) => false,
        Ok(mut found) => is_not_asked(&mut found),
    }
}

#[test]
fn an_input_that_has_ended_is_not_asked_again(rt: HostRuntime) {
    assert!(rt; ended_is_not_asked(&rt));
}

/// A text without one of its lines, which count from 0.
fn without_line(alloc: Global, text: &[u8], left_out: usize) -> Result<Vec<u8>, OutOfMemory> {
    let mut bytes = Vec::new(alloc);
    let mut line = 0usize;
    for byte in text {
        if line != left_out {
            bytes.push(*byte)?;
        }
        if *byte == b'\n' {
            line = line.saturating_add(1);
        }
    }
    Ok(bytes)
}

/// What `check` makes of a file with these bytes behind it.
fn judged<R: Threads + AllocGlobal + Sync>(
    rt: &R,
    file: &[u8],
    report: &[u8],
) -> Result<Outcome, OutOfMemory> {
    let mut followed = file.to_vec(rt.alloc())?;
    followed.extend_from_slice(report)?;
    outcome_of(rt, &["check"], followed.as_slice(), &STEADY)
}

/// Whether the report behind a file is valid.
fn is_valid<R: Threads + AllocGlobal + Sync>(rt: &R, file: &[u8], report: &[u8]) -> bool {
    match judged(rt, file, report) {
        Err(_) => false,
        Ok(found) => found.is(Status::Ok, b"valid\n", b""),
    }
}

/// Whether it is not.
fn is_invalid<R: Threads + AllocGlobal + Sync>(rt: &R, file: &[u8], report: &[u8]) -> bool {
    match judged(rt, file, report) {
        Err(_) => false,
        Ok(found) => found.is_answer(Status::Negative) && found.text().starts_with(b"invalid "),
    }
}

/// Whether it is not where a line is left out.
fn needs_line<R: Threads + AllocGlobal + Sync>(
    rt: &R,
    file: &[u8],
    report: &[u8],
    left_out: usize,
) -> bool {
    match without_line(rt.alloc(), report, left_out) {
        Err(_) => false,
        Ok(less) => is_invalid(rt, file, less.as_slice()),
    }
}

/// How many lines a text has.
fn lines_of(text: &[u8]) -> usize {
    let mut lines = 0usize;
    for byte in text {
        if *byte == b'\n' {
            lines = lines.saturating_add(1);
        }
    }
    lines
}

/// Whether that holds of each of its lines.
fn needs_each_line<R: Threads + AllocGlobal + Sync>(rt: &R, file: &[u8], report: &[u8]) -> bool {
    for left_out in 0..lines_of(report) {
        if !needs_line(rt, file, report, left_out) {
            return false;
        }
    }
    true
}

/// Whether what came of a run on a file is its report, and is none without any of its lines.
fn is_report<R: Threads + AllocGlobal + Sync>(rt: &R, file: &[u8], found: &Outcome) -> bool {
    found.is_answer(Status::Ok)
        && is_valid(rt, file, found.text())
        && needs_each_line(rt, file, found.text())
}

/// Reports with pairs, with orders and without.
static WITH_PAIRS: [&str; 4] = [
    "analyse --pairs",
    "analyse --pairs --order",
    "analyse --pairs --report 1",
    "analyse --pairs --order --report 1",
];

/// Whether what these words answer on a file is its report.
fn has_report<R: Threads + AllocGlobal + Sync>(rt: &R, words: &str, file: &[u8]) -> bool {
    match outcome_of(rt, &[words], file, &STEADY) {
        Err(_) => false,
        Ok(found) => is_report(rt, file, &found),
    }
}

/// Whether that holds of each of them on the file with these lines.
fn has_reports<R: Threads + AllocGlobal + Sync>(rt: &R, lines: &[u8]) -> bool {
    let Ok(file) = joined(rt.alloc(), &[BANNER, lines]) else {
        return false;
    };
    for words in &WITH_PAIRS {
        if !has_report(rt, words, file.as_slice()) {
            return false;
        }
    }
    true
}

/// Files from their size lines on.
static FILES: [&[u8]; 9] = [
    b"1 1 1\n1 1\n",
    b"0 0 0\n",
    b"2 2 2\n1 1\n1 2\n",
    b"2 1 2\n1 1\n2 1\n",
    b"3 3 6\n1 1\n2 1\n3 1\n2 2\n3 2\n3 3\n",
    b"3 3 6\n1 2\n2 3\n3 1\n1 1\n2 2\n3 3\n",
    b"1 2 1\n1 2\n",
    THREE_PARTS,
    THREE_PARTS_EXAMPLE,
];

/// Whether it holds of each of these files.
fn have_reports<R: Threads + AllocGlobal + Sync>(rt: &R, files: &[&[u8]]) -> bool {
    for lines in files {
        if !has_reports(rt, lines) {
            return false;
        }
    }
    true
}

#[test]
fn reports_are_valid(rt: HostRuntime) {
    assert!(rt; have_reports(&rt, &FILES));
}

/// The lines of a report of one entry up to its rank.
const CUT: &[u8] = b"btf 1\nmatrix 1 1 1\nrank 1\n";

/// A bad line of the matrix is reported, whatever follows. A read that fails behind the matrix is a
/// fault, and so is a write.
#[rattlefmt::skip]
static REFUSED: [Run; 4] = [
    Run {
        file: &[b"%%MatrixMarket matrix coordinate pattern general\n1 1 1\n1 2\nbtf 1\n"],
        status: Status::Malformed,
        out: b"",
        err: b"btf: malformed line 3: ColumnRange\n",
        ..VALID
    },
    Run {
        file: &[BANNER, b"1 1 1\n1 1\n", CUT],
        devices: Devices { failing_reads: &[7], ..STEADY },
        status: Status::ReadFault,
        out: b"",
        err: b"btf: read fault\n",
        ..VALID
    },
    Run {
        file: &[BANNER, b"1 1 1\n1 1\n", CUT],
        devices: Devices { failing_writes: &[0], ..STEADY },
        status: Status::WriteFault,
        out: b"",
        err: b"btf: write fault\n",
        ..VALID
    },
    Run { file: &[BANNER, b"1 1 1\n1 1\n", CUT], out: b"invalid 1\n", ..INVALID },
];

#[test]
fn check_is_refused(rt: HostRuntime) {
    assert!(rt; all_go(&rt, &REFUSED));
}
