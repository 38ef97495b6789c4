//! Gates at which two workers meet: who goes on only once the other has come.

use sp_ids::OutOfMemory;
use sp_ports::{Gate, MeetGate};
use std::sync::atomic::{AtomicU64, Ordering};
use std::thread;
use std::thread::{Threads, join};
use test_gates::BarrierGate;

const ROUNDS: u64 = 20;

// How often two workers have come to a gate, told before each arrives.
#[derive(Drop)]
struct Comers {
    prompt: AtomicU64,
    late: AtomicU64,
}

// Looks a bounded number of times, and between two looks lets other threads run.
fn wait_for(count: &AtomicU64, times: u64) {
    for _turn in 0..1_000_000 {
        if count.load(Ordering::SeqCst) >= times {
            return;
        }
        thread::yield_now();
    }
}

// Comes round after round, and tells how often it was let on before the late worker had come.
fn come_promptly<G: Gate>(gate: &G, worker: u32, comers: &Comers) -> u32 {
    let mut early = 0u32;
    for round in 0..ROUNDS {
        comers.prompt.store(round + 1, Ordering::SeqCst);
        gate.arrive(worker);
        if comers.late.load(Ordering::SeqCst) < round + 1 {
            early = early.saturating_add(1);
        }
    }
    early
}

// Comes to each round some time after the prompt worker has.
fn come_late<G: Gate>(gate: &G, worker: u32, comers: &Comers) -> u32 {
    for round in 0..ROUNDS {
        wait_for(&comers.prompt, round + 1);
        for _ in 0..10 {
            thread::yield_now();
        }
        comers.late.store(round + 1, Ordering::SeqCst);
        gate.arrive(worker);
    }
    0
}

// How often the prompt worker went on first, where the late one is worker 1 or worker 0.
fn early<R: Threads + Sync, G: Gate>(rt: &R, gate: &G, prompt: u32, late: u32) -> u32 {
    let comers = Comers {
        prompt: AtomicU64::new(0),
        late: AtomicU64::new(0),
    };
    let (early, _none) = join(
        rt,
        || -> u32 { come_promptly(gate, prompt, &comers) },
        || -> u32 { come_late(gate, late, &comers) },
    );
    early
}

#[test]
fn worker_0_goes_on_once_worker_1_has_come(rt: HostRuntime) -> Result<(), OutOfMemory> {
    let gate = MeetGate::new(rt.alloc())?;
    assert_eq!(rt; early(&rt, &gate, 0, 1), 0);
    assert_eq!(rt; (gate.arrivals(0), gate.arrivals(1)), (ROUNDS, ROUNDS));
    assert_eq!(rt; (gate.arrivals(2), gate.arrivals(64)), (0, 0));
    assert!(rt; !gate.ran_out());
    Ok(())
}

#[test]
fn each_party_goes_on_once_the_other_has_come(rt: HostRuntime) -> Result<(), OutOfMemory> {
    for (prompt, late) in [(0, 1), (1, 0)] {
        let gate = BarrierGate::new(rt.alloc(), 2)?;
        assert_eq!(rt; early(&rt, &gate, prompt, late), 0);
        assert!(rt; gate.have_arrived(2, ROUNDS) && !gate.ran_out());
    }
    Ok(())
}

// Whoever of two parties comes alone uses up the turns; a third worker does not wait.
#[test]
fn a_party_that_comes_alone_goes_on_in_the_end(rt: HostRuntime) -> Result<(), OutOfMemory> {
    for (worker, waits) in [(0, true), (1, true), (2, false)] {
        let gate = BarrierGate::with_turns(rt.alloc(), 2, 10)?;
        gate.arrive(worker);
        assert_eq!(rt; (gate.arrivals(worker), gate.ran_out()), (1, waits));
    }
    Ok(())
}

// Worker 0, who comes alone, uses up the turns; nobody else waits.
#[test]
fn worker_0_goes_on_in_the_end(rt: HostRuntime) -> Result<(), OutOfMemory> {
    for (worker, waits) in [(0, true), (1, false), (2, false)] {
        let gate = MeetGate::with_turns(rt.alloc(), 10)?;
        gate.arrive(worker);
        assert_eq!(rt; (gate.arrivals(worker), gate.ran_out()), (1, waits));
    }
    Ok(())
}
