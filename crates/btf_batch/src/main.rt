//! `btf_batch`: the structural analysis of many sparse matrices, by many workers at once.
#![tactic(auto)]

ghost use Rattle.std.specs.Prelude.{map, string_bytes, IfErr, IfOk};
ghost use Rattle.std.specs.IoError.{error_kind};
ghost use Rattle.std.specs.Process.{exit_status};
ghost use Rattle.btf_batch.specs.Ends.{EndsWith, EndsWithoutWords};
ghost use Rattle.btf_tool.specs.Runs.{run_of};
ghost use Rattle.sp_ports.specs.Device.{seen};

use batch_core::{BatchRefusal, refuse, run_batch};
use btf_tool::want_of_words;
use process_ports::{StderrSink, StdinSource, StdoutSink, words};
use sp_ports::{NoGate, Sink, Source};
use std::io;
use std::process::ExitCode;
use std::thread::Threads;

fn main(rt: HostRuntime) -> ExitCode {
    let mut input = StdinSource::new(rt.stdin());
    let mut out = StdoutSink::new(rt.stdout());
    let mut err = StderrSink::new(rt.stderr());
    exit_code_of(&rt, words(&rt), &mut input, &mut out, &mut err)
}

/// Runs `btf_batch` on these words, or reports why there are none, and returns the process's exit
/// code.
fn exit_code_of<R: Threads + AllocGlobal + Sync, S: Source, O: Sink, E: Sink>(
    rt: &R,
    words: io::Result<Vec<String>>,
    input: &mut S,
    out: &mut O,
    err: &mut E,
) -> ExitCode
    ensures ends { IfOk words (λ words. EndsWith (run_of (map string_bytes words.items)
        (seen S.left S.faults input.old input.new) (seen O.taken O.faults out.old out.new)
        (seen E.taken E.faults err.old err.new)) (exit_status result)) }
    ensures without_words { IfErr words (λ error. EndsWithoutWords (error_kind error)
        (seen S.left S.faults input.old input.new)
        (seen O.taken O.faults out.old out.new)
        (seen E.taken E.faults err.old err.new)
        (exit_status result)) }
{
    match words {
        Ok(words) => {
            let status = run_batch(rt, rt.alloc(), words.as_slice(), input, out, err, &NoGate);
            ExitCode::from(status.code())
        }
        Err(error) => {
            let refusal = BatchRefusal::from(want_of_words(&error));
            ExitCode::from(refuse(err, &refusal).code())
        }
    }
}
