//! Runs of `btf` over devices in memory, for the tests of every job. Most are rows of tables: what
//! is run, and what it is to come to.

use btf_tool::run;
use sp_ids::{OutOfMemory, Status};
use sp_ports::{Gate, MemSink, MemSource, NoGate, Sink, Source};
use std::alloc::Global;
use std::thread::Threads;

/// The first line of a file of places alone.
pub(crate) const BANNER: &[u8] = b"%%MatrixMarket matrix coordinate pattern general\n";

/// The first line of a file of integers.
pub(crate) const INTEGERS: &[u8] = b"%%MatrixMarket matrix coordinate integer general\n";

/// One entry, in 59 bytes.
pub(crate) const SMALLEST: &[u8] =
    b"%%MatrixMarket matrix coordinate pattern general\n1 1 1\n1 1\n";

/// The text of its rank, in 39 bytes.
pub(crate) const SMALLEST_RANK: &[u8] = b"matrix 1 1 1\nrank 1\nhorizontal 0 0\nend\n";

/// Its report of the first version, in 96 bytes.
pub(crate) const SMALLEST_REPORT: &[u8] =
    b"btf 1\nmatrix 1 1 1\nrank 1\nhorizontal 0 0\nsquare 1 1\nblock 1 1\nrows 1\ncolumns 1\nvertical 0 0\nend\n";

/// Four rows and columns with all three parts: size line and entry lines.
pub(crate) const THREE_PARTS: &[u8] = b"4 4 7\n1 1\n1 2\n1 3\n2 3\n2 4\n3 4\n4 4\n";

/// The same matrix with a comment before its sizes, as the example file has it.
pub(crate) const THREE_PARTS_EXAMPLE: &[u8] =
    b"% one row sees three columns, and two rows see one column only\n4 4 7\n1 1\n1 2\n1 3\n2 3\n2 4\n3 4\n4 4\n";

/// How the devices of a run behave: the input's piece, one at least, and its failing calls; the
/// piece of both sinks, one at least; the output's room and failing calls; and those of the device
/// for the line of a refusal.
#[derive(Clone, Copy)]
pub(crate) struct Devices<'a> {
    pub(crate) piece: usize,
    pub(crate) failing_reads: &'a [u64],
    pub(crate) sink_piece: usize,
    pub(crate) room: usize,
    pub(crate) failing_writes: &'a [u64],
    pub(crate) err_room: usize,
    pub(crate) failing_lines: &'a [u64],
}

/// Devices that do what is asked.
pub(crate) const STEADY: Devices<'static> = Devices {
    piece: 10,
    failing_reads: &[],
    sink_piece: 10,
    room: 4096,
    failing_writes: &[],
    err_room: 4096,
    failing_lines: &[],
};

/// Commands, a line of words each, the pieces that make their file together, the devices, and what
/// each of the commands is to come to: the status, what is written of an answer, and what is written
/// of a refusal.
#[derive(Clone, Copy)]
pub(crate) struct Run {
    pub(crate) commands: &'static [&'static str],
    pub(crate) file: &'static [&'static [u8]],
    pub(crate) devices: Devices<'static>,
    pub(crate) status: Status,
    pub(crate) out: &'static [u8],
    pub(crate) err: &'static [u8],
}

/// A run that has an answer.
pub(crate) const ANSWERED: Run = Run {
    commands: &[],
    file: &[],
    devices: STEADY,
    status: Status::Ok,
    out: b"",
    err: b"",
};

/// Devices in memory.
#[derive(Drop)]
pub(crate) struct InMemory {
    pub(crate) input: MemSource,
    pub(crate) out: MemSink,
    pub(crate) err: MemSink,
}

/// A source of these bytes that behaves so.
fn source_of(alloc: Global, bytes: &[u8], devices: &Devices<'_>) -> Result<MemSource, OutOfMemory> {
    let failing = devices.failing_reads.to_vec(alloc)?;
    let bytes = bytes.to_vec(alloc)?;
    Ok(MemSource::new(bytes, devices.piece.max(1), failing))
}

/// A sink of this piece and room some of whose calls fail.
fn sink_of(
    alloc: Global,
    piece: usize,
    room: usize,
    failing: &[u64],
) -> Result<MemSink, OutOfMemory> {
    let failing = failing.to_vec(alloc)?;
    MemSink::new(alloc, room, piece.max(1), failing)
}

impl InMemory {
    /// The devices that behave so, over a file.
    pub(crate) fn new(
        alloc: Global,
        file: &[u8],
        devices: &Devices<'_>,
    ) -> Result<InMemory, OutOfMemory> {
        let (piece, room, line) = (devices.sink_piece, devices.room, devices.err_room);
        let input = source_of(alloc, file, devices)?;
        let out = sink_of(alloc, piece, room, devices.failing_writes)?;
        let err = sink_of(alloc, piece, line, devices.failing_lines)?;
        Ok(InMemory { input, out, err })
    }

    /// Whether these bytes were written of an answer, and these of a refusal.
    pub(crate) fn have(&self, out: &[u8], err: &[u8]) -> bool {
        self.out.bytes() == out && self.err.bytes() == err
    }
}

/// What came of a run, and the devices behind it.
#[derive(Drop)]
pub(crate) struct Outcome {
    pub(crate) status: Status,
    pub(crate) devices: InMemory,
}

impl Outcome {
    /// Whether the run came to this.
    pub(crate) fn is(&self, status: Status, out: &[u8], err: &[u8]) -> bool {
        self.status == status && self.devices.have(out, err)
    }

    /// What was written of an answer.
    pub(crate) fn text(&self) -> &[u8] {
        self.devices.out.bytes()
    }

    /// Whether there is an answer, and nothing was written of a refusal.
    pub(crate) fn is_answer(&self, status: Status) -> bool {
        self.status == status && self.devices.err.bytes().is_empty()
    }
}

/// The text that these pieces make together.
pub(crate) fn joined(alloc: Global, pieces: &[&[u8]]) -> Result<Vec<u8>, OutOfMemory> {
    let mut text = Vec::new(alloc);
    for piece in pieces {
        text.extend_from_slice(piece)?;
    }
    Ok(text)
}

/// Adds the words of a line, which one space parts. An empty line has none.
fn push_words(alloc: Global, words: &mut Vec<String>, line: &str) -> Result<(), OutOfMemory> {
    if line.is_empty() {
        return Ok(());
    }
    for word in line.split(' ') {
        words.push(String::from_str(alloc, word)?)?;
    }
    Ok(())
}

/// The words of these lines, as a program is given them.
pub(crate) fn words_of(alloc: Global, lines: &[&str]) -> Result<Vec<String>, OutOfMemory> {
    let mut words = Vec::new(alloc);
    for line in lines {
        push_words(alloc, &mut words, line)?;
    }
    Ok(words)
}

/// Runs the program on the words of these lines over any devices and any gate.
pub(crate) fn run_over<R: Threads + AllocGlobal + Sync, S: Source, O: Sink, E: Sink, G: Gate>(
    rt: &R,
    words: &[&str],
    input: &mut S,
    out: &mut O,
    err: &mut E,
    gate: &G,
) -> Result<Status, OutOfMemory> {
    let words = words_of(rt.alloc(), words)?;
    Ok(run(rt, rt.alloc(), words.as_slice(), input, out, err, gate))
}

/// The same over devices in memory.
pub(crate) fn run_in<R: Threads + AllocGlobal + Sync, G: Gate>(
    rt: &R,
    words: &[&str],
    devices: &mut InMemory,
    gate: &G,
) -> Result<Status, OutOfMemory> {
    run_over(
        rt,
        words,
        &mut devices.input,
        &mut devices.out,
        &mut devices.err,
        gate,
    )
}

/// Runs the program on the words of these lines and a file.
pub(crate) fn outcome_of<R: Threads + AllocGlobal + Sync>(
    rt: &R,
    words: &[&str],
    file: &[u8],
    devices: &Devices<'_>,
) -> Result<Outcome, OutOfMemory> {
    let mut devices = InMemory::new(rt.alloc(), file, devices)?;
    match run_in(rt, words, &mut devices, &NoGate) {
        Err(error) => Err(error),
        Ok(status) => Ok(Outcome { status, devices }),
    }
}

/// The same on the file that these pieces make together.
pub(crate) fn outcome_on<R: Threads + AllocGlobal + Sync>(
    rt: &R,
    words: &[&str],
    pieces: &[&[u8]],
    devices: &Devices<'_>,
) -> Result<Outcome, OutOfMemory> {
    let file = joined(rt.alloc(), pieces)?;
    outcome_of(rt, words, file.as_slice(), devices)
}

/// Whether one of a row's commands comes to what it is to come to.
fn comes<R: Threads + AllocGlobal + Sync>(rt: &R, command: &str, run: &Run) -> bool {
    match outcome_on(rt, &[command], run.file, &run.devices) {
        Err(_) => false,
        Ok(found) => found.is(run.status, run.out, run.err),
    }
}

/// Whether a row has commands, and each comes to what it is to come to.
pub(crate) fn goes<R: Threads + AllocGlobal + Sync>(rt: &R, run: &Run) -> bool {
    for command in run.commands {
        if !comes(rt, command, run) {
            return false;
        }
    }
    !run.commands.is_empty()
}

/// Whether each of these rows goes as it is to go.
pub(crate) fn all_go<R: Threads + AllocGlobal + Sync>(rt: &R, runs: &[Run]) -> bool {
    for run in runs {
        if !goes(rt, run) {
            return false;
        }
    }
    true
}
