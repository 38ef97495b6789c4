//! Devices that fail in one call, have little room, or do what is asked.

use crate::runs::{
    ANSWERED, Devices, INTEGERS, Outcome, Run, SMALLEST, SMALLEST_RANK, SMALLEST_REPORT, STEADY,
    all_go, outcome_of, run_over,
};
use sp_ids::Status;
use sp_ports::{NoGate, SteadySink, SteadySource};
use std::thread::Threads;

/// Whether one read failed, and nothing was written but the line that reports it.
fn tells_a_fault(found: &Outcome) -> bool {
    found.is(Status::ReadFault, b"", b"btf: read fault\n")
        && found.devices.input.failed_calls() == 1
}

/// Whether a job whose read with this number fails reports it.
fn read_fails<R: Threads + AllocGlobal + Sync>(rt: &R, job: &str, call: u64) -> bool {
    let devices = Devices {
        failing_reads: &[call],
        ..STEADY
    };
    match outcome_of(rt, &[job], SMALLEST, &devices) {
        Err(_) => false,
        Ok(found) => tells_a_fault(&found),
    }
}

/// Whether a job reports it whichever read fails: the 59 bytes come in six pieces, and call 6 finds
/// the end.
fn each_read_fails<R: Threads + AllocGlobal + Sync>(rt: &R, job: &str) -> bool {
    for call in 0u64..7 {
        if !read_fails(rt, job, call) {
            return false;
        }
    }
    true
}

#[test]
fn each_read_fails_in_turn(rt: HostRuntime) {
    assert!(rt; each_read_fails(&rt, "rank"));
    assert!(rt; each_read_fails(&rt, "analyse"));
}

const BOTH: Run = Run {
    commands: &["rank", "analyse"],
    ..ANSWERED
};

/// A line is judged once its end was given. So the last line of 63 bytes, an entry line too many, is
/// reported where call 63 fails, and not where call 62 does; an entry line is missing only at the end
/// of the input, which a failed call is not.
#[rattlefmt::skip]
static ENDS_OF_LINES: [Run; 4] = [
    Run {
        file: &[b"%%MatrixMarket matrix coordinate pattern general\n1 1 1\n1 1\n1 1\n"],
        devices: Devices { piece: 1, failing_reads: &[62], ..STEADY },
        status: Status::ReadFault,
        err: b"btf: read fault\n",
        ..BOTH
    },
    Run {
        file: &[b"%%MatrixMarket matrix coordinate pattern general\n1 1 1\n1 1\n1 1\n"],
        devices: Devices { piece: 1, failing_reads: &[63], ..STEADY },
        status: Status::Malformed,
        err: b"btf: malformed line 4: Trailing\n",
        ..BOTH
    },
    Run {
        file: &[b"%%MatrixMarket matrix coordinate pattern general\n1 1 2\n1 1\n"],
        devices: Devices { piece: 4096, failing_reads: &[1], ..STEADY },
        status: Status::ReadFault,
        err: b"btf: read fault\n",
        ..BOTH
    },
    Run {
        file: &[b"%%NotIt\n"],
        devices: Devices { piece: 8, failing_reads: &[1], ..STEADY },
        status: Status::Malformed,
        err: b"btf: malformed line 1: NoBanner\n",
        ..BOTH
    },
];

#[test]
fn a_line_is_judged_where_its_end_was_given(rt: HostRuntime) {
    assert!(rt; all_go(&rt, &ENDS_OF_LINES));
}

/// Whether these bytes are the first of the report of one entry, up to so many.
fn is_cut(found: &Outcome, taken: usize) -> bool {
    match SMALLEST_REPORT.get(..taken) {
        None => false,
        Some(text) => found.is(Status::WriteFault, text, b"btf: write fault\n"),
    }
}

/// Whether so much of that report was taken by a device that fails.
fn report_is_cut<R: Threads + AllocGlobal + Sync>(
    rt: &R,
    devices: &Devices<'_>,
    taken: usize,
) -> bool {
    match outcome_of(rt, &["analyse --report 1"], SMALLEST, devices) {
        Err(_) => false,
        Ok(found) => is_cut(&found, taken),
    }
}

/// Calls of `write`, and how many bytes were taken before each: the 96 bytes of the report go out
/// ten a call, and call 10 hands them on.
#[rattlefmt::skip]
static WRITES: [(u64, usize); 11] = [
    (0, 0), (1, 10), (2, 20), (3, 30), (4, 40), (5, 50), (6, 60), (7, 70), (8, 80), (9, 90), (10, 96),
];

/// Whether the report is cut so where this call fails.
fn write_fails<R: Threads + AllocGlobal + Sync>(rt: &R, call: u64, taken: usize) -> bool {
    let devices = Devices {
        failing_writes: &[call],
        ..STEADY
    };
    report_is_cut(rt, &devices, taken)
}

/// Whether it is cut so at each of these calls.
fn each_write_fails<R: Threads + AllocGlobal + Sync>(rt: &R, writes: &[(u64, usize)]) -> bool {
    for (call, taken) in writes {
        if !write_fails(rt, *call, *taken) {
            return false;
        }
    }
    true
}

#[test]
fn each_write_fails_in_turn(rt: HostRuntime) {
    assert!(rt; each_write_fails(&rt, &WRITES));
}

/// Devices with room for 50 bytes of an answer.
const FIFTY: Devices<'static> = Devices { room: 50, ..STEADY };

const LOST: Run = Run {
    status: Status::WriteFault,
    err: b"btf: write fault\n",
    ..ANSWERED
};

#[rattlefmt::skip]
static LITTLE_ROOM: [Run; 1] = [
    Run {
        commands: &["rank"],
        file: &[SMALLEST],
        devices: Devices { room: 12, ..STEADY },
        out: b"matrix 1 1 1",
        ..LOST
    },
];

#[test]
fn a_sink_with_little_room_takes_what_it_can(rt: HostRuntime) {
    assert!(rt; report_is_cut(&rt, &FIFTY, 50));
    assert!(rt; all_go(&rt, &LITTLE_ROOM));
}

/// The line of a refusal may be lost, whole or in part: the status stays.
#[rattlefmt::skip]
static LOST_LINES: [Run; 2] = [
    Run {
        commands: &["analyse"],
        file: &[SMALLEST],
        devices: Devices { failing_writes: &[0], err_room: 0, ..STEADY },
        status: Status::WriteFault,
        ..ANSWERED
    },
    Run {
        commands: &["analyse"],
        file: &[b""],
        devices: Devices { err_room: 5, ..STEADY },
        status: Status::Malformed,
        err: b"btf: ",
        ..ANSWERED
    },
];

#[test]
fn lines_of_refusals_may_be_lost(rt: HostRuntime) {
    assert!(rt; all_go(&rt, &LOST_LINES));
}

/// One entry, with its report behind it.
const JUDGED: &[u8] =
    b"%%MatrixMarket matrix coordinate pattern general\n1 1 1\n1 1\nbtf 1\nmatrix 1 1 1\nrank 1\nhorizontal 0 0\nsquare 1 1\nblock 1 1\nrows 1\ncolumns 1\nvertical 0 0\npairs 1\n1 1\nend\n";

const SUMMARY: &[u8] = b"matrix 1 1 1\nrank 1\nhorizontal 0 0\nsquare 1 1\nvertical 0 0\n";

const BEST: &[u8] = b"bottleneck 1 0\n1 1 0\nabove_rows\nabove_columns 1\nend\n";

/// Calls of 10 bytes write the 39 bytes of `rank` in 4, the 96 of `analyse` in 10, the 6 of `check`
/// in 1, the 59 of `load` in 6, the 16 of `diagonal` in 2, the 7 of `edit` in 1 and the 52 of
/// `bottleneck` in 6. The one after them hands the text on, and is the last: where it fails the text
/// is lost, and a failure behind it is none.
#[rattlefmt::skip]
static HANDED_ON: [Run; 14] = [
    Run {
        commands: &["rank"],
        file: &[SMALLEST],
        devices: Devices { failing_writes: &[4], ..STEADY },
        out: SMALLEST_RANK,
        ..LOST
    },
    Run {
        commands: &["rank"],
        file: &[SMALLEST],
        devices: Devices { failing_writes: &[5], ..STEADY },
        out: SMALLEST_RANK,
        ..ANSWERED
    },
    Run {
        commands: &["analyse --report 1"],
        file: &[SMALLEST],
        devices: Devices { failing_writes: &[10], ..STEADY },
        out: SMALLEST_REPORT,
        ..LOST
    },
    Run {
        commands: &["analyse --report 1"],
        file: &[SMALLEST],
        devices: Devices { failing_writes: &[11], ..STEADY },
        out: SMALLEST_REPORT,
        ..ANSWERED
    },
    Run {
        commands: &["check"],
        file: &[JUDGED],
        devices: Devices { failing_writes: &[1], ..STEADY },
        out: b"valid\n",
        ..LOST
    },
    Run {
        commands: &["check"],
        file: &[JUDGED],
        devices: Devices { failing_writes: &[2], ..STEADY },
        out: b"valid\n",
        ..ANSWERED
    },
    Run {
        commands: &["load --size 1 --seed 5"],
        file: &[],
        devices: Devices { failing_writes: &[6], ..STEADY },
        out: SUMMARY,
        ..LOST
    },
    Run {
        commands: &["load --size 1 --seed 5"],
        file: &[],
        devices: Devices { failing_writes: &[7], ..STEADY },
        out: SUMMARY,
        ..ANSWERED
    },
    Run {
        commands: &["diagonal"],
        file: &[INTEGERS, b"2 1 1\n1 1 1\n"],
        devices: Devices { failing_writes: &[2], ..STEADY },
        out: b"rectangular 2 1\n",
        ..LOST
    },
    Run {
        commands: &["diagonal"],
        file: &[INTEGERS, b"2 1 1\n1 1 1\n"],
        devices: Devices { failing_writes: &[3], ..STEADY },
        status: Status::Negative,
        out: b"rectangular 2 1\n",
        ..ANSWERED
    },
    Run {
        commands: &["edit"],
        file: &[SMALLEST],
        devices: Devices { failing_writes: &[1], ..STEADY },
        out: b"rank 1\n",
        ..LOST
    },
    Run {
        commands: &["edit"],
        file: &[SMALLEST],
        devices: Devices { failing_writes: &[2], ..STEADY },
        out: b"rank 1\n",
        ..ANSWERED
    },
    Run {
        commands: &["bottleneck"],
        file: &[INTEGERS, b"1 1 2\n1 1 5\n1 1 -5\n"],
        devices: Devices { failing_writes: &[6], ..STEADY },
        out: BEST,
        ..LOST
    },
    Run {
        commands: &["bottleneck"],
        file: &[INTEGERS, b"1 1 2\n1 1 5\n1 1 -5\n"],
        devices: Devices { failing_writes: &[7], ..STEADY },
        out: BEST,
        ..ANSWERED
    },
];

#[test]
fn a_text_is_handed_on_once(rt: HostRuntime) {
    assert!(rt; all_go(&rt, &HANDED_ON));
}

const REPORT: Run = Run {
    commands: &["analyse --report 1"],
    file: &[SMALLEST],
    out: SMALLEST_REPORT,
    ..ANSWERED
};

#[rattlefmt::skip]
static PIECES: [Run; 3] = [
    Run { devices: Devices { piece: 1, ..STEADY }, ..REPORT },
    Run { devices: Devices { piece: 7, ..STEADY }, ..REPORT },
    Run { devices: Devices { piece: 59, ..STEADY }, ..REPORT },
];

#[test]
fn pieces_of_the_input_change_nothing(rt: HostRuntime) {
    assert!(rt; all_go(&rt, &PIECES));
}

/// Whether a command over one entry writes this text to the first of two sinks.
fn writes<R: Threads + AllocGlobal + Sync>(
    rt: &R,
    command: &str,
    text: &[u8],
    out: &mut SteadySink,
    err: &mut SteadySink,
) -> bool {
    let Ok(bytes) = SMALLEST.to_vec(rt.alloc()) else {
        return false;
    };
    let mut input = SteadySource::new(bytes, 10);
    let status = run_over(rt, &[command], &mut input, out, err, &NoGate);
    status == Ok(Status::Ok) && out.bytes() == text && err.bytes().is_empty()
}

/// Whether it does to a first sink, by devices that do what is asked and count nothing.
fn writes_to<R: Threads + AllocGlobal + Sync>(
    rt: &R,
    command: &str,
    text: &[u8],
    out: &mut SteadySink,
) -> bool {
    match SteadySink::new(rt.alloc(), 4096, 10) {
        Err(_) => false,
        Ok(mut err) => writes(rt, command, text, out, &mut err),
    }
}

/// Whether it does to sinks that are made for it.
fn writes_steadily<R: Threads + AllocGlobal + Sync>(rt: &R, command: &str, text: &[u8]) -> bool {
    match SteadySink::new(rt.alloc(), 4096, 10) {
        Err(_) => false,
        Ok(mut out) => writes_to(rt, command, text, &mut out),
    }
}

#[test]
fn steady_devices(rt: HostRuntime) {
    assert!(rt; writes_steadily(&rt, "rank", SMALLEST_RANK));
    assert!(rt; writes_steadily(&rt, "analyse --report 1", SMALLEST_REPORT));
}
