//! Sources and sinks in memory, called by the bounds of their traits.

use crate::files::source_of;
use sp_ids::OutOfMemory;
use sp_ports::{
    Failed, LentSource, MemSink, MemSource, Sink, Source, SteadySink, SteadySource, write_all,
};
use std::alloc::Global;

fn read_by_bound<S: Source>(source: &mut S, buf: &mut [u8]) -> Result<usize, Failed> {
    source.read(buf)
}

/// A call of `read`: what it answers, the buffer behind it, and how many calls have failed so far.
type Read = (Result<usize, Failed>, &'static [u8], u64);

static READS: [Read; 5] = [
    (Ok(3), b"abc.", 0),
    (Err(Failed), b"abc.", 1),
    (Ok(3), b"def.", 1),
    (Ok(2), b"ghf.", 1),
    (Ok(0), b"ghf.", 1),
];

/// Whether a source answers these calls so.
fn gives_in_turn(source: &mut MemSource) -> bool {
    let mut buf = [b'.'; 4];
    for (answer, held, failed) in &READS {
        if read_by_bound(source, &mut buf) != *answer
            || buf.as_slice() != *held
            || source.failed_calls() != *failed
        {
            return false;
        }
    }
    true
}

/// Whether a source of eight bytes in pieces of three does, whose second call fails.
fn eight_are_given(alloc: Global) -> bool {
    match source_of(alloc, b"abcdefgh", 3, &[1]) {
        Err(_) => false,
        Ok(mut source) => gives_in_turn(&mut source),
    }
}

#[test]
fn pieces_and_a_failing_call(rt: HostRuntime) {
    assert!(rt; eight_are_given(rt.alloc()));
}

/// Of calls of `read` with room for three bytes, how many come of five, and the buffer behind it.
static THREES: [(usize, &[u8]); 3] = [(3, b"abc"), (2, b"dec"), (0, b"dec")];

/// Whether a source answers these calls so.
fn gives_threes<S: Source>(source: &mut S) -> bool {
    let mut buf = [b'.'; 3];
    for (count, held) in &THREES {
        if read_by_bound(source, &mut buf) != Ok(*count) || buf.as_slice() != *held {
            return false;
        }
    }
    true
}

/// Whether a steady source does, and gives nothing where there is no room.
fn five_are_given(alloc: Global) -> bool {
    match b"abcde".to_vec(alloc) {
        Err(_) => false,
        Ok(bytes) => {
            let mut source = SteadySource::new(bytes, 4);
            gives_threes(&mut source) && read_by_bound(&mut source, &mut []) == Ok(0)
        }
    }
}

#[test]
fn steady_pieces(rt: HostRuntime) {
    assert!(rt; five_are_given(rt.alloc()));
}

#[test]
fn lent_bytes_in_order(rt: HostRuntime) {
    assert!(rt; gives_threes(&mut LentSource::new(b"abcde")));
}

fn write_by_bound<K: Sink>(sink: &mut K, piece: &[u8]) -> Result<usize, Failed> {
    sink.write(piece)
}

fn flush_by_bound<K: Sink>(sink: &mut K) -> Result<(), Failed> {
    sink.flush()
}

/// Whether a sink answers calls of `write` so, and then hands on.
fn takes<K: Sink>(sink: &mut K, calls: &[(&[u8], Result<usize, Failed>)]) -> bool {
    for (piece, answer) in calls {
        if write_by_bound(sink, piece) != *answer {
            return false;
        }
    }
    flush_by_bound(sink) == Ok(())
}

static WRITES: [(&[u8], Result<usize, Failed>); 4] = [
    (b"abc", Ok(2)),
    (b"cde", Err(Failed)),
    (b"cde", Ok(1)),
    (b"def", Err(Failed)),
];

/// Whether a sink with room for three bytes takes them, two in a call, and its second call fails.
fn takes_in_turn(sink: &mut MemSink) -> bool {
    takes(sink, &WRITES) && sink.bytes() == b"abc".as_slice() && sink.failed_calls() == 2
}

fn sink_of(alloc: Global, room: usize, failing: &[u64]) -> Result<MemSink, OutOfMemory> {
    let failing = failing.to_vec(alloc)?;
    MemSink::new(alloc, room, 2, failing)
}

/// Whether one that is made for it does.
fn three_are_taken(alloc: Global) -> bool {
    match sink_of(alloc, 3, &[1]) {
        Err(_) => false,
        Ok(mut sink) => takes_in_turn(&mut sink),
    }
}

#[test]
fn room_pieces_and_failing_calls(rt: HostRuntime) {
    assert!(rt; three_are_taken(rt.alloc()));
}

static STEADY_WRITES: [(&[u8], Result<usize, Failed>); 3] = [
    (b"abc", Ok(2)),
    (b"cde", Ok(1)),
    (b"def", Ok(2)),
];

/// Whether a steady sink does, and drops what it has no room for.
fn takes_steadily(sink: &mut SteadySink) -> bool {
    takes(sink, &STEADY_WRITES) && sink.bytes() == b"abc".as_slice()
}

/// Whether one with room for three bytes does.
fn three_are_taken_steadily(alloc: Global) -> bool {
    match SteadySink::new(alloc, 3, 2) {
        Err(_) => false,
        Ok(mut sink) => takes_steadily(&mut sink),
    }
}

#[test]
fn a_steady_sink_drops_what_it_has_no_room_for(rt: HostRuntime) {
    assert!(rt; three_are_taken_steadily(rt.alloc()));
}

/// Whether all is written to a sink with room for seven bytes, and nothing behind it, which needs
/// no room.
fn takes_all(sink: &mut MemSink) -> bool {
    write_all(sink, b"abcdefg") == Ok(())
        && sink.bytes() == b"abcdefg".as_slice()
        && write_all(sink, b"") == Ok(())
        && sink.failed_calls() == 0
}

/// Whether it is to one that is made for it.
fn seven_are_taken(alloc: Global) -> bool {
    match sink_of(alloc, 7, &[]) {
        Err(_) => false,
        Ok(mut sink) => takes_all(&mut sink),
    }
}

#[test]
fn all_is_written_in_pieces(rt: HostRuntime) {
    assert!(rt; seven_are_taken(rt.alloc()));
}
