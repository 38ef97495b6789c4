//! Words that name no job.

use crate::runs::{ANSWERED, Run, SMALLEST, goes};
use btf_tool::{Refusal, want_of_words};
use sp_ids::Status;
use std::io::{Error, ErrorKind};

/// Words that are not taken, and the line for them.
static OTHER_WORDS: Run = Run {
    commands: &[
        "",
        "--help",
        "rank rank",
        "rank --engine fast",
        "analyse --engine fast",
        "analyse --workers 0",
        "analyse --workers 65",
        "analyse --report 3",
        "load --size 1 --seed 1 --drop-zeros",
        "load --size 0 --seed 1",
        "load --size 16777217 --seed 1",
        "load --size 1",
        "edit --report 1",
        "bottleneck --least",
        "rank --least",
    ],
    file: &[SMALLEST],
    status: Status::Usage,
    err: b"btf: usage: btf rank [--drop-zeros] | analyse [--engine E] [--workers W] [--order] [--pairs] [--drop-zeros] [--report V] [--least] | diagonal [--drop-zeros] | check [--drop-zeros] | load --size N --seed S [--engine E] [--workers W] | edit | bottleneck [--drop-zeros]\n",
    ..ANSWERED
};

#[test]
fn other_words_are_refused(rt: HostRuntime) {
    assert!(rt; goes(&rt, &OTHER_WORDS));
}

/// Whether a process that gets no words for this reason is refused so.
fn is_refused_for(kind: ErrorKind, refusal: &Refusal) -> bool {
    Refusal::from(want_of_words(&Error::from(kind))) == *refusal
}

#[test]
fn want_of_memory_is_told_apart(rt: HostRuntime) {
    assert!(rt; is_refused_for(ErrorKind::OutOfMemory, &Refusal::OutOfMemory));
    assert!(rt; is_refused_for(ErrorKind::InvalidData, &Refusal::Usage));
}
