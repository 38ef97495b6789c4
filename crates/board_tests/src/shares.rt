//! Workers that do their work at once, and their shares of a list.

use crate::outcomes::have_come_once;
use level_sharing::{Sharing, Work, processors, share, share_work, work_at_once};
use sp_ports::{Gate, MeetGate};
use std::convert::Infallible;
use std::process::Abort;
use std::test::Fail;
use std::thread::Threads;
use test_gates::BarrierGate;

// So many looks are enough for a thread to start, where it is to be seen that none does.
const FEW_TURNS: u32 = 1_000;

// Each worker adds its number to what it keeps.
struct AddNumber;

impl Work<u64, Infallible> for AddNumber {
    ghost use Rattle.std.specs.Prelude.{◌≡◌, ◌<◌, ◌+◌, ◌^◌};

    ghost can_begin = { λ work number v. number + v < 2 ^ 64 };

    ghost leaves = { λ work number v w. w ≡ v + number };

    ghost completes = { λ work number v w. Unit {0} };

    fn run(&self, number: u32, worker: &mut u64) -> Result<(), Infallible> {
        *worker += number as u64;
        Ok(())
    }
}

// Nine workers work at once at this gate. Each works once.
fn add_by_nine<R: Threads + Abort + Sync, G: Gate>(rt: &R, gate: &G) {
    let mut sums = [10, 10, 10, 10, 10, 10, 10, 10, 10];
    let Ok(()) = work_at_once(rt, gate, &AddNumber, &mut sums);
    assert_eq!(rt; sums, [10, 11, 12, 13, 14, 15, 16, 17, 18]);
}

// Two workers share work on so many items at this gate. Each arrives and works once. Whether one of
// them waited in vain.
fn add_by_two<R: Threads + Abort + Sync>(rt: &R, gate: &BarrierGate, items: usize) -> bool {
    let mut sums = [10, 20];
    let Ok(()) = share_work(rt, &Sharing::usual(gate), &AddNumber, items, &mut sums);
    assert_eq!(rt; sums, [10, 21]);
    assert!(rt; gate.have_arrived(2, 1));
    gate.ran_out()
}

#[test]
fn each_worker_arrives_once_and_works_once(rt: HostRuntime) -> Result<(), Fail> {
    let gate = MeetGate::new(rt.alloc())?;
    add_by_nine(&rt, &gate);
    for worker in 0..9 {
        assert_eq!(rt; gate.arrivals(worker), 1);
    }
    assert!(rt; gate.arrivals(9) == 0 && !gate.ran_out());
    Ok(())
}

#[test]
fn three_workers_work_at_once(rt: HostRuntime) -> Result<(), Fail> {
    let gate = BarrierGate::new(rt.alloc(), 3)?;
    add_by_nine(&rt, &gate);
    have_come_once(&rt, &gate, 9);
    Ok(())
}

// Worker 1 comes first, and waits in vain for worker 0, whose part is done after its own.
#[test]
fn little_work_starts_no_thread(rt: HostRuntime) -> Result<(), Fail> {
    let gate = BarrierGate::without_threads(rt.alloc(), 2, FEW_TURNS)?;
    assert!(rt; add_by_two(&rt, &gate, 499_999));
    Ok(())
}

// Where there is one processor alone, so is the thread, and worker 1 waits in vain.
#[test]
fn much_work_is_done_at_once(rt: HostRuntime) -> Result<(), Fail> {
    let alone = processors(&rt) == 1;
    let turns = if alone { FEW_TURNS } else { 10_000_000 };
    let gate = BarrierGate::without_threads(rt.alloc(), 2, turns)?;
    assert_eq!(rt; add_by_two(&rt, &gate, 500_000), alone);
    Ok(())
}

// Of one worker more than there are processors two share a thread, so the one of them that comes
// first waits in vain for the other. Nine workers show that of eight processors at most.
#[test]
fn no_more_threads_than_processors(rt: HostRuntime) -> Result<(), Fail> {
    let fewer = processors(&rt) < 9;
    let parties = processors(&rt).min(8) as u32 + 1;
    let turns = if fewer { FEW_TURNS } else { 10_000_000 };
    let gate = BarrierGate::without_threads(rt.alloc(), parties, turns)?;
    add_by_nine(&rt, &gate);
    assert!(rt; gate.have_arrived(9, 1));
    assert_eq!(rt; gate.ran_out(), fewer);
    Ok(())
}

#[test]
fn a_gate_can_ask_for_threads(rt: HostRuntime) -> Result<(), Fail> {
    let gate = BarrierGate::new(rt.alloc(), 2)?;
    assert!(rt; !add_by_two(&rt, &gate, 0));
    Ok(())
}

#[test]
fn five_places_go_to_two_workers(rt: HostRuntime) {
    let list = [7, 8, 9, 10, 11];
    assert_eq!(rt; share(&list, 2, 0), [7, 8].as_slice());
    assert_eq!(rt; share(&list, 2, 1), [9, 10, 11].as_slice());
}

#[test]
fn a_share_may_be_empty(rt: HostRuntime) {
    let list = [7];
    assert!(rt; share(&list, 2, 0).is_empty());
    assert_eq!(rt; share(&list, 2, 1), [7].as_slice());
}
