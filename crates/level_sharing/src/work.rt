//! Workers that do their work at once.

ghost use Rattle.std.specs.Prelude.{◌≡◌, ℕ, ◌+◌, ◌<◌, ◌≤◌, ◌^◌, ◌++◌, length, IsTrue, Ok, OnOk};
ghost use Rattle.std.specs.Thread.{IsSync};
ghost use Rattle.level_sharing.specs.Each.{AreReady, EachFrom, EachPairFrom, HaveWorked};

use sp_ports::Gate;
use std::thread::{Threads, available_parallelism, join_mut};

/// What each of several workers does, beside the others. A worker keeps a `T` for itself. It may
/// have to end early, by an `E`: this is `Infallible` where no worker has to.
pub trait Work<T, E>: Sync {
    /// A worker with this number may begin.
    ghost can_begin: { Self → ℕ → T → Type 0 };

    /// What the worker with this number leaves, always.
    ghost leaves: { Self → ℕ → T → T → Type 0 };

    /// What it leaves besides where it did not end early.
    ghost completes: { Self → ℕ → T → T → Type 0 };

    /// The worker with this number does its part.
    fn run(&self, number: u32, worker: &mut T) -> Result<(), E>
        requires { can_begin self.now number worker.old }
        ensures always { leaves self.now number worker.old worker.new }
        ensures ok { OnOk result (completes self.now number worker.old worker.new) };
}

/// The number of items from which on more threads than one are worth their start, by default: one
/// thread does fewer in some milliseconds, and the start of others costs as much on a busy machine.
pub const WORTH_THREADS: u32 = 500_000;

/// How workers share their work: the gate at which each of them arrives, and how many items are
/// worth threads. Neither changes what the work leaves.
#[derive(Clone, Copy)]
pub struct Sharing<'g, G> {
    pub gate: &'g G,
    pub worth_threads: u32,
}

impl<'g, G> Sharing<'g, G> {
    /// At this gate, where 500,000 items are worth threads.
    pub fn usual(gate: &'g G) -> Sharing<'g, G> {
        Sharing {
            gate,
            worth_threads: WORTH_THREADS,
        }
    }
}

/// Whether work on so many items is worth more threads than one: if there are at least
/// `worth_threads` of them, and the program may use two processors.
pub fn are_worth_threads<R: Threads>(rt: &R, items: usize, worth_threads: u32) -> bool
    ensures many { IsTrue result → worth_threads ≤ items }
{
    items >= worth_threads as usize && processors(rt) > 1
}

/// Each worker does its part of work on so many items: at once with the others if these are worth
/// threads, or if the gate needs threads, and else one after the other, the highest number first.
///
/// What holds afterwards is the same either way. Each worker calls `gate.arrive` with its number
/// once, before its part. Returns the fault of the first worker that ended early; all the others
/// did their parts nonetheless. Work: as `work_at_once`, or no thread is started.
pub fn share_work<R: Threads + Sync, G: Gate, T: Send, E: Send + Drop, W: Work<T, E>>(
    rt: &R,
    sharing: &Sharing<'_, G>,
    work: &W,
    items: usize,
    workers: &mut [T],
) -> Result<(), E>
    requires few { length workers.old < 2 ^ 32 }
    requires begin { EachFrom (W.can_begin work.now) 0 workers.old }
    ensures always { EachPairFrom (W.leaves work.now) 0 workers.old workers.new }
    ensures ok { OnOk result (EachPairFrom (W.completes work.now) 0 workers.old workers.new) }
{
    let gate = sharing.gate;
    if gate.needs_threads() || are_worth_threads(rt, items, sharing.worth_threads) {
        work_at_once(rt, gate, work, workers)
    } else {
        work_in_turn(gate, work, 0, workers)
    }
}

/// Each worker does its part, at once with the others if threads can be started.
///
/// The workers are numbered from 0 in the order of the slice. Each calls `gate.arrive` with its
/// number once, before its part. No more threads work at once than there are processors that the
/// program may use, unless the gate needs threads; each does the parts of workers that follow each
/// other then, the highest number first. If a thread cannot be started, the result is the same.
/// Returns the fault of the first worker that ended early; all the others did their parts
/// nonetheless. Work: one thread at most is started for each worker but the first.
pub fn work_at_once<R: Threads + Sync, G: Gate, T: Send, E: Send + Drop, W: Work<T, E>>(
    rt: &R,
    gate: &G,
    work: &W,
    workers: &mut [T],
) -> Result<(), E>
    requires few { length workers.old < 2 ^ 32 }
    requires begin { EachFrom (W.can_begin work.now) 0 workers.old }
    ensures always { EachPairFrom (W.leaves work.now) 0 workers.old workers.new }
    ensures ok { OnOk result (EachPairFrom (W.completes work.now) 0 workers.old workers.new) }
{
    let threads = if gate.needs_threads() {
        workers.len()
    } else {
        processors(rt)
    };
    work_from(rt, gate, work, 0, threads, workers)
}

/// How many processors the program may use, or 1 if the system does not say. Each call asks the
/// system again, at the cost of some calls to it.
pub fn processors<R: Threads>(rt: &R) -> usize
    ensures { 1 ≤ result }
{
    match available_parallelism(rt) {
        Ok(count) => count.get(),
        Err(_) => 1,
    }
}

// The same of workers of which the first has this number, by so many threads at most.
fn work_from<R: Threads + Sync, G: Gate, T: Send, E: Send + Drop, W: Work<T, E>>(
    rt: &R,
    gate: &G,
    work: &W,
    first: u32,
    threads: usize,
    workers: &mut [T],
) -> Result<(), E>
    requires { AreReady (W.can_begin work.now) first workers.old }
    ensures always { EachPairFrom (W.leaves work.now) first workers.old workers.new }
    ensures ok { OnOk result (EachPairFrom (W.completes work.now) first workers.old workers.new) }
{
    if threads < 2 || workers.len() < 2 {
        return work_in_turn(gate, work, first, workers);
    }
    // Where there are as many threads as workers, so there are in both halves.
    let low_threads = threads / 2;
    let high_threads = threads - low_threads;
    let half = workers.len() / 2;
    let (prefix, suffix) = workers.split_at_mut(half);
    let next = first + half as u32;
    let (low, high) = join_mut(
        rt,
        &mut || -> Result<(), E>
            requires { IsSync R.row × IsSync G.row × IsSync W.row
                × (0 < length prefix.now) × AreReady (W.can_begin work.now) first prefix.now }
            ensures { HaveWorked (W.leaves work.entry.now) (W.completes work.entry.now) first
                prefix.entry.now prefix.exit.now result }
        { work_from(rt, gate, work, first, low_threads, prefix) },
        &mut || -> Result<(), E>
            requires { IsSync R.row × IsSync G.row × IsSync W.row
                × (0 < length suffix.now) × AreReady (W.can_begin work.now) next suffix.now }
            ensures { HaveWorked (W.leaves work.entry.now) (W.completes work.entry.now) next
                suffix.entry.now suffix.exit.now result }
        { work_from(rt, gate, work, next, high_threads, suffix) },
    );
    first_fault(low, high)
}

// The fault of the first of two answers that has one.
fn first_fault<E: Drop>(low: Result<(), E>, high: Result<(), E>) -> Result<(), E>
    ensures { OnOk result ((low ≡ Ok tt) × (high ≡ Ok tt)) }
{
    low?;
    high
}

// Each worker does its part, the highest number first. The first of them has this number.
fn work_in_turn<G: Gate, T, E: Drop, W: Work<T, E>>(
    gate: &G,
    work: &W,
    first: u32,
    workers: &mut [T],
) -> Result<(), E>
    requires { AreReady (W.can_begin work.now) first workers.old }
    ensures always { EachPairFrom (W.leaves work.now) first workers.old workers.new }
    ensures ok { OnOk result (EachPairFrom (W.completes work.now) first workers.old workers.new) }
{
    let Some((worker, others)) = workers.split_first_mut() else {
        return Ok(());
    };
    let high = work_in_turn(gate, work, first + 1, others);
    do_part(gate, work, first, worker)?;
    high
}

// The worker with this number arrives and does its part.
fn do_part<G: Gate, T, E, W: Work<T, E>>(
    gate: &G,
    work: &W,
    number: u32,
    worker: &mut T,
) -> Result<(), E>
    requires { W.can_begin work.now number worker.old }
    ensures always { W.leaves work.now number worker.old worker.new }
    ensures ok { OnOk result (W.completes work.now number worker.old worker.new) }
{
    gate.arrive(number);
    work.run(number, worker)
}
