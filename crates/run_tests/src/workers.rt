//! Several workers: that they work at once, and that no text depends on how many there are or on
//! who is first.

use crate::runs::{BANNER, InMemory, Outcome, STEADY, THREE_PARTS, joined, outcome_of, run_in};
use sp_ids::Status;
use sp_ports::{Gate, MeetGate};
use std::thread::Threads;
use test_gates::BarrierGate;

/// Whether two workers at this gate find the parts of the matrix of size 30 and number 0.
fn two_search_in<R: Threads + AllocGlobal + Sync, G: Gate>(
    rt: &R,
    devices: &mut InMemory,
    gate: &G,
) -> bool {
    let text = b"matrix 30 30 85\nrank 22\nhorizontal 22 30\nsquare 0 0\nvertical 8 0\n";
    run_in(rt, &["load --size 30 --seed 0 --workers 2"], devices, gate) == Ok(Status::Ok)
        && devices.out.bytes() == text.as_slice()
}

/// The same over devices that are made for it.
fn two_search_at<R: Threads + AllocGlobal + Sync, G: Gate>(rt: &R, gate: &G) -> bool {
    match InMemory::new(rt.alloc(), b"", &STEADY) {
        Err(_) => false,
        Ok(mut devices) => two_search_in(rt, &mut devices, gate),
    }
}

/// Whether both have arrived, as often as each other, and worker 0 has not gone on alone.
fn have_met(gate: &MeetGate) -> bool {
    !gate.ran_out()
        && 0 < gate.arrivals(0)
        && gate.arrivals(0) == gate.arrivals(1)
        && gate.arrivals(2) == 0
}

/// Whether that holds of two workers who search, where worker 0 waits at each of its arrivals until
/// worker 1 has arrived as often.
fn two_meet<R: Threads + AllocGlobal + Sync>(rt: &R) -> bool {
    match MeetGate::new(rt.alloc()) {
        Err(_) => false,
        Ok(gate) => two_search_at(rt, &gate) && have_met(&gate),
    }
}

#[test]
fn two_workers_meet(rt: HostRuntime) {
    assert!(rt; two_meet(&rt));
}

/// Whether both have arrived as often as each other, and neither has gone on alone.
fn have_waited(gate: &BarrierGate) -> bool {
    0 < gate.arrivals(0) && gate.have_arrived(2, gate.arrivals(0)) && !gate.ran_out()
}

/// Whether that holds of two workers who search, where each waits for the other.
fn two_wait<R: Threads + AllocGlobal + Sync>(rt: &R) -> bool {
    match BarrierGate::new(rt.alloc(), 2) {
        Err(_) => false,
        Ok(gate) => two_search_at(rt, &gate) && have_waited(&gate),
    }
}

#[test]
fn two_workers_wait_for_each_other(rt: HostRuntime) {
    assert!(rt; two_wait(&rt));
}

/// Numbers of workers.
static NUMBERS: [&str; 6] = [
    "--workers 1",
    "--workers 2",
    "--workers 3",
    "--workers 4",
    "--workers 8",
    "--workers 64",
];

/// Whether these words give this text.
fn is_text<R: Threads + AllocGlobal + Sync>(
    rt: &R,
    words: &[&str],
    file: &[u8],
    text: &[u8],
) -> bool {
    match outcome_of(rt, words, file, &STEADY) {
        Err(_) => false,
        Ok(found) => found.is(Status::Ok, text, b""),
    }
}

/// Whether these words, with any number of workers before the last ones, give what was found.
fn all_find<R: Threads + AllocGlobal + Sync>(
    rt: &R,
    words: (&str, &str),
    file: &[u8],
    found: &Outcome,
) -> bool {
    for workers in &NUMBERS {
        if !is_text(rt, &[words.0, workers, words.1], file, found.text()) {
            return false;
        }
    }
    found.is_answer(Status::Ok)
}

/// Whether with each number of workers the report of a file is that of the plain engine.
fn same_reports<R: Threads + AllocGlobal + Sync>(rt: &R, file: &[u8]) -> bool {
    match outcome_of(rt, &["analyse --order --engine plain"], file, &STEADY) {
        Err(_) => false,
        Ok(found) => all_find(rt, ("analyse", "--order"), file, &found),
    }
}

/// Files from their size lines on.
static FILES: [&[u8]; 5] = [
    b"0 0 0\n",
    b"1 2 2\n1 1\n1 2\n",
    b"2 1 2\n1 1\n2 1\n",
    b"3 3 5\n1 1\n1 2\n3 2\n1 3\n2 3\n",
    THREE_PARTS,
];

/// Whether that holds of the file of places alone with these lines.
fn has_same_reports<R: Threads + AllocGlobal + Sync>(rt: &R, lines: &[u8]) -> bool {
    match joined(rt.alloc(), &[BANNER, lines]) {
        Err(_) => false,
        Ok(file) => same_reports(rt, file.as_slice()),
    }
}

/// Whether it holds of each of these.
fn have_same_reports<R: Threads + AllocGlobal + Sync>(rt: &R, files: &[&[u8]]) -> bool {
    for lines in files {
        if !has_same_reports(rt, lines) {
            return false;
        }
    }
    true
}

#[test]
fn reports_of_small_matrices(rt: HostRuntime) {
    assert!(rt; have_same_reports(&rt, &FILES));
}

/// Thirty columns that all have entries in the same four rows.
const CONTESTED: &[u8] =
    b"4 30 120\n1 1\n2 1\n3 1\n4 1\n1 2\n2 2\n3 2\n4 2\n1 3\n2 3\n3 3\n4 3\n1 4\n2 4\n3 4\n4 4\n1 5\n2 5\n3 5\n4 5\n1 6\n2 6\n3 6\n4 6\n1 7\n2 7\n3 7\n4 7\n1 8\n2 8\n3 8\n4 8\n1 9\n2 9\n3 9\n4 9\n1 10\n2 10\n3 10\n4 10\n1 11\n2 11\n3 11\n4 11\n1 12\n2 12\n3 12\n4 12\n1 13\n2 13\n3 13\n4 13\n1 14\n2 14\n3 14\n4 14\n1 15\n2 15\n3 15\n4 15\n1 16\n2 16\n3 16\n4 16\n1 17\n2 17\n3 17\n4 17\n1 18\n2 18\n3 18\n4 18\n1 19\n2 19\n3 19\n4 19\n1 20\n2 20\n3 20\n4 20\n1 21\n2 21\n3 21\n4 21\n1 22\n2 22\n3 22\n4 22\n1 23\n2 23\n3 23\n4 23\n1 24\n2 24\n3 24\n4 24\n1 25\n2 25\n3 25\n4 25\n1 26\n2 26\n3 26\n4 26\n1 27\n2 27\n3 27\n4 27\n1 28\n2 28\n3 28\n4 28\n1 29\n2 29\n3 29\n4 29\n1 30\n2 30\n3 30\n4 30\n";

/// Whether it holds of that matrix so many times.
fn is_same_again<R: Threads + AllocGlobal + Sync>(rt: &R, times: u32) -> bool {
    for _ in 0..times {
        if !has_same_reports(rt, CONTESTED) {
            return false;
        }
    }
    true
}

#[test]
fn a_contested_matrix_again_and_again(rt: HostRuntime) {
    assert!(rt; is_same_again(&rt, 10));
}

/// Whether with each number of workers the summary of a matrix of this seed is that of one engine.
fn same_summaries<R: Threads + AllocGlobal + Sync>(rt: &R, seed: &str) -> bool {
    match outcome_of(rt, &["load --size 3400 --engine pf", seed], b"", &STEADY) {
        Err(_) => false,
        Ok(found) => all_find(rt, ("load --size 3400", seed), b"", &found),
    }
}

// Matrices of some ten thousand entries.
#[test]
fn summaries_of_larger_matrices(rt: HostRuntime) {
    assert!(rt; same_summaries(&rt, "--seed 0"));
    assert!(rt; same_summaries(&rt, "--seed 1"));
    assert!(rt; same_summaries(&rt, "--seed 12345"));
}
