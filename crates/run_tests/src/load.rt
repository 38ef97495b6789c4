//! `load` on small sizes, with texts worked out by hand.

use crate::runs::{ANSWERED, Devices, Outcome, Run, STEADY, all_go, outcome_of};
use sp_ids::Status;
use sp_ports::{Failed, Source};
use std::thread::Threads;

/// The words of a size and of a seed, and what is written for them.
struct Summary {
    size: &'static str,
    seed: &'static str,
    text: &'static [u8],
}

/// Seed 0 and size 30: column j has the rows 2 j, 3 j and 5 j, so multiples of 2, 3 or 5, of which
/// there are 22 below 30. Of size 2 and seed 1, column 0 has the rows 1, 0 and 1, and column 1 the
/// rows 1, 1 and 0. Of size 1 there is one place.
#[rattlefmt::skip]
static SMALL: [Summary; 4] = [
    Summary {
        size: "--size 30",
        seed: "--seed 0",
        text: b"matrix 30 30 85\nrank 22\nhorizontal 22 30\nsquare 0 0\nvertical 8 0\n",
    },
    Summary {
        size: "--size 2",
        seed: "--seed 1",
        text: b"matrix 2 2 4\nrank 2\nhorizontal 0 0\nsquare 2 1\nvertical 0 0\n",
    },
    Summary {
        size: "--size 1",
        seed: "--seed 5",
        text: b"matrix 1 1 1\nrank 1\nhorizontal 0 0\nsquare 1 1\nvertical 0 0\n",
    },
    Summary {
        size: "--size 1",
        seed: "--seed 18446744073709551615",
        text: b"matrix 1 1 1\nrank 1\nhorizontal 0 0\nsquare 1 1\nvertical 0 0\n",
    },
];

/// That this matrix makes one block is what CXSparse and SuiteSparse BTF say of it.
static LARGE: Summary = Summary {
    size: "--size 10001",
    seed: "--seed 7",
    text: b"matrix 10001 10001 30000\nrank 10001\nhorizontal 0 0\nsquare 10001 1\nvertical 0 0\n",
};

/// One worker and several.
static WORKERS: [&str; 3] = ["load --workers 1", "load --workers 2", "load --workers 64"];

/// The words of each engine.
static ENGINES: [&str; 4] = [
    "--engine plain",
    "--engine mc21",
    "--engine pf",
    "--engine graft",
];

/// Whether these words give this text. A file that is there is not looked at.
fn is_summed<R: Threads + AllocGlobal + Sync>(rt: &R, words: &[&str], text: &[u8]) -> bool {
    match outcome_of(rt, words, b"no matrix", &STEADY) {
        Err(_) => false,
        Ok(found) => found.is(Status::Ok, text, b""),
    }
}

/// Whether an engine gives a summary with each number of workers.
fn is_given_by<R: Threads + AllocGlobal + Sync>(
    rt: &R,
    engine: &'static str,
    summary: &Summary,
) -> bool {
    for workers in &WORKERS {
        let words = [*workers, summary.seed, engine, summary.size];
        if !is_summed(rt, &words, summary.text) {
            return false;
        }
    }
    true
}

/// Whether each engine gives a summary, and no choice at all.
fn is_given<R: Threads + AllocGlobal + Sync>(rt: &R, summary: &Summary) -> bool {
    for engine in &ENGINES {
        if !is_given_by(rt, *engine, summary) {
            return false;
        }
    }
    is_summed(rt, &["load", summary.size, summary.seed], summary.text)
}

/// Whether each of these is.
fn are_given<R: Threads + AllocGlobal + Sync>(rt: &R, summaries: &[Summary]) -> bool {
    for summary in summaries {
        if !is_given(rt, summary) {
            return false;
        }
    }
    true
}

#[test]
fn summaries_by_each_engine(rt: HostRuntime) {
    assert!(rt; are_given(&rt, &SMALL));
}

#[test]
fn large_summary_unasked(rt: HostRuntime) {
    assert!(rt; is_summed(&rt, &["load", LARGE.size, LARGE.seed], LARGE.text));
}

#[test]
fn large_summary_by_the_plain_engine(rt: HostRuntime) {
    assert!(rt; is_given_by(&rt, "--engine plain", &LARGE));
}

#[test]
fn large_summary_by_mc21(rt: HostRuntime) {
    assert!(rt; is_given_by(&rt, "--engine mc21", &LARGE));
}

#[test]
fn large_summary_by_pothen_fan(rt: HostRuntime) {
    assert!(rt; is_given_by(&rt, "--engine pf", &LARGE));
}

#[test]
fn large_summary_by_graft(rt: HostRuntime) {
    assert!(rt; is_given_by(&rt, "--engine graft", &LARGE));
}

/// Devices whose first read fails.
const FIRST_FAILS: Devices<'static> = Devices {
    piece: 4,
    failing_reads: &[0],
    ..STEADY
};

/// Whether there is an answer, and the next read is still the first one, which fails, and then the
/// bytes come from the front.
fn is_untouched(found: &mut Outcome) -> bool {
    let mut buffer = [0u8; 16];
    found.status == Status::Ok
        && found.devices.input.failed_calls() == 0
        && found.devices.input.read(&mut buffer) == Err(Failed)
        && found.devices.input.read(&mut buffer) == Ok(4)
        && buffer.starts_with(b"no m")
}

/// Whether that holds of a run.
fn leaves_its_input<R: Threads + AllocGlobal + Sync>(rt: &R) -> bool {
    match outcome_of(rt, &["load --size 1 --seed 5"], b"no matrix", &FIRST_FAILS) {
        Err(_) => false,
        Ok(mut found) => is_untouched(&mut found),
    }
}

#[test]
fn the_input_is_left_alone(rt: HostRuntime) {
    assert!(rt; leaves_its_input(&rt));
}

const LOST: Run = Run {
    commands: &["load --size 1 --seed 5"],
    status: Status::WriteFault,
    err: b"btf: write fault\n",
    ..ANSWERED
};

#[rattlefmt::skip]
static FAILING: [Run; 2] = [
    Run { devices: Devices { failing_writes: &[0], ..STEADY }, ..LOST },
    Run {
        devices: Devices { room: 20, ..STEADY },
        out: b"matrix 1 1 1\nrank 1\n",
        ..LOST
    },
];

#[test]
fn load_on_failing_devices(rt: HostRuntime) {
    assert!(rt; all_go(&rt, &FAILING));
}
