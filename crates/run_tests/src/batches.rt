//! Whole runs over batches, with texts worked out by hand, also by several workers at once.

use crate::runs::{ANSWERED, Devices, InMemory, Run, STEADY, joined, words_of};
use batch_core::run_batch;
use sp_ids::{OutOfMemory, Status};
use sp_ports::{Gate, MeetGate, NoGate};
use std::thread::Threads;
use test_gates::BarrierGate;

/// A good file of 59 bytes, and one whose first line is no banner.
const GOOD_AND_BAD: &[u8] =
    b"file 59\n%%MatrixMarket matrix coordinate pattern general\n1 1 1\n1 1\nfile 8\n%%NotIt\n";

/// What is written of them.
const GOOD_AND_BAD_TEXT: &[u8] =
    b"file 1 0\nbtf 2\nmatrix 1 1 1\nrank 1\nhorizontal 0 0\nhorizontal_components 0\nsquare 1 1\nblock 1 1\nrows 1\ncolumns 1\nvertical 0 0\nvertical_components 0\nend\nfile 2 3\nbtf: malformed line 1: NoBanner\nend 2\n";

/// Devices that give pieces of 7 bytes and take pieces of 100.
const SEVENS: Devices<'static> = Devices {
    piece: 7,
    sink_piece: 100,
    ..STEADY
};

/// A run with no words over files that are all good.
const GOOD: Run = Run {
    commands: &[""],
    devices: SEVENS,
    ..ANSWERED
};

/// A run over the good and the bad file.
const BOTH: Run = Run {
    file: &[GOOD_AND_BAD],
    status: Status::Negative,
    out: GOOD_AND_BAD_TEXT,
    ..GOOD
};

/// The status of a run on the words of a line.
fn status_of<R: Threads + AllocGlobal + Sync, G: Gate>(
    rt: &R,
    words: &str,
    devices: &mut InMemory,
    gate: &G,
) -> Result<Status, OutOfMemory> {
    let words = words_of(rt.alloc(), &[words])?;
    Ok(run_batch(
        rt,
        rt.alloc(),
        words.as_slice(),
        &mut devices.input,
        &mut devices.out,
        &mut devices.err,
        gate,
    ))
}

/// Whether the run on these words over a batch comes to what it is to come to.
fn comes_over<R: Threads + AllocGlobal + Sync, G: Gate>(
    rt: &R,
    words: &str,
    batch: &[u8],
    run: &Run,
    gate: &G,
) -> bool {
    match InMemory::new(rt.alloc(), batch, &run.devices) {
        Err(_) => false,
        Ok(mut devices) => {
            status_of(rt, words, &mut devices, gate) == Ok(run.status)
                && devices.have(run.out, run.err)
        }
    }
}

/// Whether it does over the batch of a row.
fn comes<R: Threads + AllocGlobal + Sync, G: Gate>(
    rt: &R,
    words: &str,
    run: &Run,
    gate: &G,
) -> bool {
    match joined(rt.alloc(), run.file) {
        Err(_) => false,
        Ok(batch) => comes_over(rt, words, batch.as_slice(), run, gate),
    }
}

/// Whether a row has words, and goes as it is to go on each of them.
fn goes<R: Threads + AllocGlobal + Sync>(rt: &R, run: &Run) -> bool {
    for words in run.commands {
        if !comes(rt, words, run, &NoGate) {
            return false;
        }
    }
    !run.commands.is_empty()
}

/// The good and the bad file by workers of any number; good files alone, of which the second
/// batch's has no rows; a matrix with more rows than a file may have; bad frames; and words that
/// are not taken.
#[rattlefmt::skip]
static RUNS: [Run; 8] = [
    Run { commands: &["", "--workers 1", "--workers 2", "--workers 64"], ..BOTH },
    Run { file: &[b""], out: b"end 0\n", ..GOOD },
    Run {
        commands: &["--workers=3"],
        file: &[b"file 55\n%%MatrixMarket matrix coordinate pattern general\n0 0 0\n"],
        out: b"file 1 0\nbtf 2\nmatrix 0 0 0\nrank 0\nhorizontal 0 0\nhorizontal_components 0\nsquare 0 0\nvertical 0 0\nvertical_components 0\nend\nend 1\n",
        ..GOOD
    },
    Run {
        file: &[b"file 63\n%%MatrixMarket matrix coordinate pattern general\n134217729 1 0\n"],
        status: Status::Negative,
        out: b"file 1 4\nbtf: limit line 2: Rows\nend 1\n",
        ..GOOD
    },
    Run {
        file: &[b"file 60\n%%MatrixMarket matrix coordinate pattern general\n1 1 1\n1 1\n"],
        status: Status::Malformed,
        err: b"btf_batch: malformed file 1: ShortFile\n",
        ..GOOD
    },
    Run {
        file: &[b"file 1\nxfiles 1\nx"],
        status: Status::Malformed,
        err: b"btf_batch: malformed file 2: BatchHeader\n",
        ..GOOD
    },
    Run {
        file: &[b"file 1073741825\nx"],
        status: Status::Limit,
        err: b"btf_batch: limit file 1: FileBytes\n",
        ..GOOD
    },
    Run {
        commands: &["--workers 65"],
        file: &[GOOD_AND_BAD],
        status: Status::Usage,
        err: b"btf_batch: usage: btf_batch [--workers W]\n",
        ..GOOD
    },
];

/// Whether each of these rows goes as it is to go.
fn all_go<R: Threads + AllocGlobal + Sync>(rt: &R, runs: &[Run]) -> bool {
    for run in runs {
        if !goes(rt, run) {
            return false;
        }
    }
    true
}

#[test]
fn runs_on_steady_devices(rt: HostRuntime) {
    assert!(rt; all_go(&rt, &RUNS));
}

/// A read that fails; writes that fail, where the text is taken in two pieces for the first file,
/// one for the second and one for the end, and the last call is the flush, so that nothing is lost
/// where the one behind it fails; and a line of a refusal that is not taken, which changes nothing.
#[rattlefmt::skip]
static FAULTS: [Run; 5] = [
    Run {
        devices: Devices { failing_reads: &[3], ..SEVENS },
        status: Status::ReadFault,
        out: b"",
        err: b"btf_batch: read fault\n",
        ..BOTH
    },
    Run {
        devices: Devices { failing_writes: &[1], ..SEVENS },
        status: Status::WriteFault,
        out: b"file 1 0\nbtf 2\nmatrix 1 1 1\nrank 1\nhorizontal 0 0\nhorizontal_components 0\nsquare 1 1\nblock 1 1\nrows ",
        err: b"btf_batch: write fault\n",
        ..BOTH
    },
    Run {
        devices: Devices { failing_writes: &[4], ..SEVENS },
        status: Status::WriteFault,
        err: b"btf_batch: write fault\n",
        ..BOTH
    },
    Run { devices: Devices { failing_writes: &[5], ..SEVENS }, ..BOTH },
    Run {
        file: &[b"x"],
        devices: Devices { failing_lines: &[0], ..SEVENS },
        status: Status::Malformed,
        ..GOOD
    },
];

#[test]
fn runs_on_failing_devices(rt: HostRuntime) {
    assert!(rt; all_go(&rt, &FAULTS));
}

/// The good and the bad file, over sinks that take pieces of 10.
static TENS: Run = Run {
    devices: Devices { piece: 7, ..STEADY },
    ..BOTH
};

/// Whether two workers have come once each, and worker 0 has not gone on alone.
fn have_met(gate: &MeetGate) -> bool {
    (gate.arrivals(0), gate.arrivals(1)) == (1, 1) && !gate.ran_out()
}

/// Whether that holds of two workers who answer the two files.
fn two_meet<R: Threads + AllocGlobal + Sync>(rt: &R) -> bool {
    match MeetGate::new(rt.alloc()) {
        Err(_) => false,
        Ok(gate) => comes(rt, "--workers 2", &TENS, &gate) && have_met(&gate),
    }
}

#[test]
fn two_workers_meet(rt: HostRuntime) {
    assert!(rt; two_meet(&rt));
}

/// Whether so many workers answer the two files, and no worker looks at a file before all have come.
fn wait_for_each_other<R: Threads + AllocGlobal + Sync>(rt: &R, words: &str, workers: u32) -> bool {
    match BarrierGate::new(rt.alloc(), workers) {
        Err(_) => false,
        Ok(gate) => {
            comes(rt, words, &TENS, &gate) && gate.have_arrived(workers, 1) && !gate.ran_out()
        }
    }
}

#[test]
fn workers_wait_for_each_other(rt: HostRuntime) {
    assert!(rt; wait_for_each_other(&rt, "--workers 1", 1));
    assert!(rt; wait_for_each_other(&rt, "--workers 2", 2));
    assert!(rt; wait_for_each_other(&rt, "--workers 5", 5));
}
