//! Devices whose count of failures rises by two for each call that fails.

ghost use Rattle.std.specs.Prelude.{◌≡◌, ◌≤◌, ◌+◌};

use crate::runs::{Devices, InMemory, SMALLEST, SMALLEST_REPORT, STEADY, run_over};
use sp_ids::Status;
use sp_ports::{Failed, MemSink, MemSource, NoGate, Sink, Source};
use std::thread::Threads;

/// A device that counts each failure of another device a second time.
#[derive(Drop)]
struct Twice<D> {
    device: D,
    /// The second counts, up to the last value of a u64.
    again: u64,
}

impl<D> Twice<D> {
    /// One over a device that has not failed.
    fn of(device: D) -> Twice<D> {
        Twice { device, again: 0 }
    }

    /// Counts a failure that the device has counted.
    fn count_again(&mut self) -> Failed
        ensures device { self.new.device ≡ self.old.device }
        ensures again { self.old.again ≤ self.new.again }
    {
        self.again = self.again.saturating_add(1);
        Failed
    }
}

impl<S: Source> Source for Twice<S> {
    ghost left = { λ s. S.left s.device };

    ghost faults = { λ s. S.faults s.device + s.again };

    fn read(&mut self, buf: &mut [u8]) -> Result<usize, Failed> {
        match self.device.read(buf) {
            Ok(count) => Ok(count),
            Err(Failed) => Err(self.count_again()),
        }
    }
}

impl<K: Sink> Sink for Twice<K> {
    ghost taken = { λ s. K.taken s.device };

    ghost faults = { λ s. K.faults s.device + s.again };

    fn write(&mut self, piece: &[u8]) -> Result<usize, Failed> {
        match self.device.write(piece) {
            Ok(count) => Ok(count),
            Err(Failed) => Err(self.count_again()),
        }
    }

    fn flush(&mut self) -> Result<(), Failed> {
        match self.device.flush() {
            Ok(()) => Ok(()),
            Err(Failed) => Err(self.count_again()),
        }
    }
}

/// The devices of a run over one entry, and what it must tell: the status, what was written of an
/// answer and of a refusal, and the counts of the input, the output and the line's device.
struct Counted {
    devices: Devices<'static>,
    status: Status,
    text: &'static [u8],
    line: &'static [u8],
    counts: (u64, u64, u64),
}

/// The count of a source.
fn reads_failed(input: &Twice<MemSource>) -> u64 {
    input.device.failed_calls().saturating_add(input.again)
}

/// The count of a sink.
fn writes_failed(out: &Twice<MemSink>) -> u64 {
    out.device.failed_calls().saturating_add(out.again)
}

/// Whether a sink has taken this text and counts so much.
fn took(sink: &Twice<MemSink>, text: &[u8], count: u64) -> bool {
    sink.device.bytes() == text && writes_failed(sink) == count
}

/// Whether a run over these devices tells what it must.
fn is_told<R: Threads + AllocGlobal + Sync>(rt: &R, devices: InMemory, counted: &Counted) -> bool {
    let InMemory { input, out, err } = devices;
    let mut input = Twice::of(input);
    let mut out = Twice::of(out);
    let mut err = Twice::of(err);
    let words = ["analyse --report 1"];
    run_over(rt, &words, &mut input, &mut out, &mut err, &NoGate) == Ok(counted.status)
        && reads_failed(&input) == counted.counts.0
        && took(&out, counted.text, counted.counts.1)
        && took(&err, counted.line, counted.counts.2)
}

/// Whether a run over one entry does.
fn is_counted<R: Threads + AllocGlobal + Sync>(rt: &R, counted: &Counted) -> bool {
    match InMemory::new(rt.alloc(), SMALLEST, &counted.devices) {
        Err(_) => false,
        Ok(devices) => is_told(rt, devices, counted),
    }
}

static NO_FAILURE: Counted = Counted {
    devices: STEADY,
    status: Status::Ok,
    text: SMALLEST_REPORT,
    line: b"",
    counts: (0, 0, 0),
};

#[test]
fn no_call_fails(rt: HostRuntime) {
    assert!(rt; is_counted(&rt, &NO_FAILURE));
}

/// The third of the seven calls that the 59 bytes take fails.
static FAILED_READ: Counted = Counted {
    devices: Devices {
        failing_reads: &[2],
        ..STEADY
    },
    status: Status::ReadFault,
    text: b"",
    line: b"btf: read fault\n",
    counts: (2, 0, 0),
};

#[test]
fn a_read_fails(rt: HostRuntime) {
    assert!(rt; is_counted(&rt, &FAILED_READ));
}

static FAILED_WRITE: Counted = Counted {
    devices: Devices {
        failing_writes: &[0],
        ..STEADY
    },
    status: Status::WriteFault,
    text: b"",
    line: b"btf: write fault\n",
    counts: (0, 2, 0),
};

#[test]
fn a_write_fails(rt: HostRuntime) {
    assert!(rt; is_counted(&rt, &FAILED_WRITE));
}

/// The line of the refusal is lost too, and the status stays.
static FAILED_WRITE_AND_LINE: Counted = Counted {
    devices: Devices {
        failing_writes: &[0],
        err_room: 0,
        ..STEADY
    },
    status: Status::WriteFault,
    text: b"",
    line: b"",
    counts: (0, 2, 2),
};

#[test]
fn a_write_and_its_line_fail(rt: HostRuntime) {
    assert!(rt; is_counted(&rt, &FAILED_WRITE_AND_LINE));
}
