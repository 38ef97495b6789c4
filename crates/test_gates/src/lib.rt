//! A gate for tests of workers that are to run at once. There is nothing here for programs.
#![tactic(auto)]

use sp_ids::{MAX_WORKERS, OutOfMemory};
use sp_ports::Gate;
use std::alloc::Global;
use std::sync::atomic::{AtomicBool, AtomicU64, Ordering};
use std::thread;

// How often a worker looks in one arrival whether the others have come, unless told otherwise.
const MAX_TURNS: u32 = 10_000_000;

/// Makes workers wait for each other, as at a barrier: the k-th time that one of the parties
/// arrives it waits until each of them has arrived k times. The parties are the workers of the
/// first so many numbers.
///
/// Where the parts of two parties are done one after the other, whichever is the first, one waits
/// for an arrival that is still to come, and all turns are used. Between two looks a worker lets
/// other threads run, and once the turns of an arrival are used nobody waits any more, so `arrive`
/// returns whatever the others do. It counts the arrivals of the workers 0 to 63, and keeps 8 bytes
/// for each.
#[derive(Drop)]
pub struct BarrierGate {
    arrivals: Vec<AtomicU64>,
    parties: u32,
    turns: u32,
    needs_threads: bool,
    ran_out: AtomicBool,
}

impl BarrierGate {
    /// A gate at which nobody has arrived, for at most 64 parties, who look 10,000,000 times at
    /// most. Returns `OutOfMemory` if it cannot allocate the counts.
    pub fn new(alloc: Global, parties: u32) -> Result<BarrierGate, OutOfMemory> {
        BarrierGate::with_turns(alloc, parties, MAX_TURNS)
    }

    /// The same, where a worker looks at most so many times in one arrival.
    pub fn with_turns(alloc: Global, parties: u32, turns: u32) -> Result<BarrierGate, OutOfMemory> {
        BarrierGate::make(alloc, parties, turns, true)
    }

    /// The same, which does not ask for threads: where parts are done one after the other all the
    /// same, the first of the parties to arrive uses all its turns.
    pub fn without_threads(
        alloc: Global,
        parties: u32,
        turns: u32,
    ) -> Result<BarrierGate, OutOfMemory> {
        BarrierGate::make(alloc, parties, turns, false)
    }

    fn make(
        alloc: Global,
        parties: u32,
        turns: u32,
        needs_threads: bool,
    ) -> Result<BarrierGate, OutOfMemory> {
        let mut arrivals = Vec::with_capacity(alloc, MAX_WORKERS as usize)?;
        for _worker in 0..MAX_WORKERS {
            arrivals.push(AtomicU64::new(0))?;
        }
        Ok(BarrierGate {
            arrivals,
            parties,
            turns,
            needs_threads,
            ran_out: AtomicBool::new(false),
        })
    }

    /// How often a worker has arrived: 0 for workers past 63.
    pub fn arrivals(&self, worker: u32) -> u64 {
        match self.arrivals.as_slice().get(worker as usize) {
            Some(count) => count.load(Ordering::SeqCst),
            None => 0,
        }
    }

    /// Whether these workers, from 0 on, have arrived so many times, and no other worker at all.
    pub fn have_arrived(&self, workers: u32, times: u64) -> bool {
        for worker in 0..MAX_WORKERS {
            let wanted = if worker < workers { times } else { 0 };
            if self.arrivals(worker) != wanted {
                return false;
            }
        }
        true
    }

    /// Whether a worker ever went on before all parties had come.
    pub fn ran_out(&self) -> bool {
        self.ran_out.load(Ordering::SeqCst)
    }

    // Whether each of the parties has arrived so many times.
    fn is_met(&self, times: u64) -> bool {
        for party in 0..self.parties {
            if self.arrivals(party) < times {
                return false;
            }
        }
        true
    }

    // Waits until each of the parties has arrived so many times, or all turns are used.
    fn meet(&self, times: u64) {
        for _turn in 0..self.turns {
            if self.is_met(times) || self.ran_out() {
                return;
            }
            thread::yield_now();
        }
        self.ran_out.store(true, Ordering::SeqCst);
    }
}

impl Gate for BarrierGate {
    fn arrive(&self, worker: u32) {
        let Some(count) = self.arrivals.as_slice().get(worker as usize) else {
            return;
        };
        let before = count.fetch_add(1, Ordering::SeqCst);
        if worker < self.parties {
            self.meet(before.saturating_add(1));
        }
    }

    fn needs_threads(&self) -> bool {
        self.needs_threads
    }
}
