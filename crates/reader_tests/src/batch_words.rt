//! The words of `btf_batch`: which are taken, and the number of workers that they name.

use crate::words::words_of;
use btf_words::{WordsError, batch_usage_line, read_batch_words};
use std::alloc::Global;

/// Words that are taken, a line each, and the number of workers that they name.
#[rattlefmt::skip]
static TAKEN: [(&str, u32); 6] = [
    ("--", 4),
    ("--workers 1", 1),
    ("--workers 64", 64),
    ("--workers=64", 64),
    ("--workers 007", 7),
    ("--workers +8 --", 8),
];

/// Words that are not taken, a line each.
static OTHER_WORDS: [&str; 22] = [
    "",
    "--workers",
    "--workers ",
    "--workers=",
    "--workers 0",
    "--workers 65",
    "--workers -1",
    "--workers x",
    "--workers 2 --workers 2",
    "--workers 2 2",
    "--worker 2",
    "-workers 2",
    "2",
    "rank",
    "-- rank",
    "-- --",
    "--engine pf",
    "help",
    "--help",
    "-h",
    "--version",
    "-V",
];

/// Whether words are read as this.
fn are_read(alloc: Global, words: &[String], wanted: Result<u32, WordsError>) -> bool {
    match read_batch_words(alloc, words) {
        Ok(workers) => wanted == Ok(workers.number()),
        Err(error) => wanted == Err(error),
    }
}

/// Whether the words of a line are.
fn is_read(alloc: Global, line: &str, wanted: Result<u32, WordsError>) -> bool {
    match words_of(alloc, line) {
        Err(_) => false,
        Ok(words) => are_read(alloc, words.as_slice(), wanted),
    }
}

/// Whether the words of each line are taken.
fn are_taken(alloc: Global, lines: &[(&str, u32)]) -> bool {
    for (line, workers) in lines {
        if !is_read(alloc, line, Ok(*workers)) {
            return false;
        }
    }
    true
}

#[test]
fn takes_a_number_of_workers_or_nothing(rt: HostRuntime) {
    assert!(rt; are_read(rt.alloc(), &[], Ok(4)));
    assert!(rt; are_taken(rt.alloc(), &TAKEN));
}

/// Whether the words of each line are refused.
fn are_refused(alloc: Global, lines: &[&str]) -> bool {
    for line in lines {
        if !is_read(alloc, line, Err(WordsError::Usage)) {
            return false;
        }
    }
    true
}

#[test]
fn refuses_other_words(rt: HostRuntime) {
    assert!(rt; are_refused(rt.alloc(), &OTHER_WORDS));
}

#[test]
fn tells_how_it_is_called(rt: HostRuntime) {
    assert!(rt; batch_usage_line() == "btf_batch: usage: btf_batch [--workers W]\n");
}
