//! Gates that workers pass.

use sp_ids::{MAX_WORKERS, OutOfMemory};
use std::alloc::Global;
use std::sync::atomic::{AtomicBool, AtomicU64, Ordering};
use std::thread;

/// A place that workers pass, and where they may wait for each other. It changes no answer.
///
/// To write a gate, write `arrive`. The other method is there for `NoGate`, at which nobody waits.
pub trait Gate: Sync {
    /// A worker is about to start its share of the work. Each worker calls it once in each level of
    /// a search, in each exchange of paths and in each batch that the workers share.
    fn arrive(&self, worker: u32);

    /// Whether each worker needs a thread of its own, however little work there is. It changes no
    /// answer. It is true unless a gate says otherwise: a worker that waits for another one must
    /// not keep it from starting. Where it is false, a piece of work that costs less than the start
    /// of a thread is done by one worker after the other.
    fn needs_threads(&self) -> bool {
        true
    }
}

/// The gate at which nobody waits: `arrive` returns at once, and no worker needs a thread.
#[derive(Clone, Copy, Debug)]
pub struct NoGate;

impl Gate for NoGate {
    fn arrive(&self, _worker: u32) {}

    fn needs_threads(&self) -> bool {
        false
    }
}

// How often worker 0 looks in one arrival whether worker 1 has come, unless told otherwise.
const MAX_TURNS: u32 = 50_000_000;

/// Makes two workers meet: when worker 0 arrives for the k-th time, it waits until worker 1 has
/// arrived k times.
///
/// It is for tests. While worker 0 waits it lets other threads run. It looks a bounded number of
/// times and then goes on, so `arrive` returns whatever the other workers do. The gate counts the
/// arrivals of workers 0 to 63, at 8 bytes each.
#[derive(Drop)]
pub struct MeetGate {
    arrivals: Vec<AtomicU64>,
    turns: u32,
    ran_out: AtomicBool,
}

impl MeetGate {
    /// A gate at which nobody has arrived yet. Worker 0 looks at most 50,000,000 times in one
    /// arrival. Answers `OutOfMemory` when allocation fails.
    pub fn new(alloc: Global) -> Result<MeetGate, OutOfMemory> {
        MeetGate::with_turns(alloc, MAX_TURNS)
    }

    /// The same, where worker 0 looks at most `turns` times in one arrival.
    pub fn with_turns(alloc: Global, turns: u32) -> Result<MeetGate, OutOfMemory> {
        let mut arrivals = Vec::with_capacity(alloc, MAX_WORKERS as usize)?;
        for _worker in 0..MAX_WORKERS {
            arrivals.push(AtomicU64::new(0))?;
        }
        Ok(MeetGate {
            arrivals,
            turns,
            ran_out: AtomicBool::new(false),
        })
    }

    /// How often a worker has arrived: 0 for workers past 63.
    pub fn arrivals(&self, worker: u32) -> u64 {
        match self.arrivals.as_slice().get(worker as usize) {
            Some(count) => count.load(Ordering::SeqCst),
            None => 0,
        }
    }

    /// Whether worker 0 ever went on before worker 1 had come.
    pub fn ran_out(&self) -> bool {
        self.ran_out.load(Ordering::SeqCst)
    }

    // Waits until worker 1 has arrived so many times, or all turns are used.
    fn meet(&self, times: u64) {
        for _turn in 0..self.turns {
            if self.arrivals(1) >= times {
                return;
            }
            thread::yield_now();
        }
        self.ran_out.store(true, Ordering::SeqCst);
    }
}

impl Gate for MeetGate {
    fn arrive(&self, worker: u32) {
        let Some(count) = self.arrivals.as_slice().get(worker as usize) else {
            return;
        };
        let before = count.fetch_add(1, Ordering::SeqCst);
        if worker == 0 {
            self.meet(before.saturating_add(1));
        }
    }
}
