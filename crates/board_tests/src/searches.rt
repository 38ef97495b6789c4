//! The search for a maximum matching on both sides of the size up to which serial phases search to
//! the end: beyond it workers go through the boards, in turn or on threads.
//!
//! The matrix is always the same, but for empty rows behind the others. Its columns 1 to 4 are
//! unmatched at first. Beyond the size the search goes so:
//!
//! - A serial phase: column 1 takes row 1, column 5 row 2 and column 6 row 8. From the columns 2, 3
//!   and 4 the search finds the rows 1 and 2 passed, so one of four is matched, and workers follow.
//! - Their first phase. Level 1: column 2 claims the rows 1 and 2, column 3 row 6 and column 4 row 7.
//!   Level 2: column 1 claims row 3 and column 5 row 4. Level 3: column 7 claims row 9, which is
//!   unmatched, and column 8 may claim row 5. The path from row 9 is exchanged. This frees row 1, and
//!   the tree of column 3 stays, with column 10 in it.
//! - The second. Level 1, up: column 10 claims row 1. Level 2: column 2 claims row 2. Level 3: column
//!   5 row 4. Level 4: column 8 row 5. Level 5: column 9 claims row 10, which is unmatched. The path
//!   from there to column 3 is exchanged, and the tree of column 4 stays.
//! - The third. Level 1, up: no row is claimed, and column 4 stays unmatched.

ghost use Rattle.std.specs.Prelude.{◌≡◌, ◌≤◌};
ghost use Rattle.sp_ids.specs.Limits.{max_workers};

use bip_graph::Matching;
use level_sharing::processors;
use sp_ids::{Col, OutOfMemory};
use sp_ports::Gate;
use std::alloc::Global;
use std::process::Abort;
use std::test::Fail;
use std::thread::Threads;
use test_gates::BarrierGate;
use test_matrices::{matching_of, pattern_of};
use tree_graft::{Plan, SearchSizes, complete, complete_under};

#[rattlefmt::skip]
const PLACES: [(u32, u32); 21] = [
    (1, 1), (3, 1), (1, 2), (2, 2), (6, 3), (7, 4),
    (1, 5), (2, 5), (4, 5), (2, 6), (8, 6), (11, 6), (3, 7), (9, 7),
    (4, 8), (5, 8), (5, 9), (10, 9), (1, 10), (6, 10), (7, 11),
];

const PAIRS: [(u32, u32); 7] = [(1, 5), (2, 6), (3, 7), (4, 8), (5, 9), (6, 10), (7, 11)];

const COLS: u32 = 11;

// The mates of the columns 1 to 11 at the end. Column 4 has none, which is written as 0.
const MATES: [u32; 11] = [3, 2, 6, 0, 4, 8, 9, 5, 10, 1, 7];

// Nine levels and two exchanges, in each of which each worker arrives once.
const ARRIVALS: u64 = 11;

// No work is worth threads, and all work is that has an item.
const IN_TURN: u32 = u32::MAX;

const ON_THREADS: u32 = 1;

// So many looks are enough where nobody is to come. On a busy machine each takes long.
const FEW_TURNS: u32 = 100;

// Of so many rows the first levels go up from the unclaimed rows, and of so many down from the
// frontier.
const ROWS: [u32; 2] = [11, 25];

// How many rows and columns there are.
fn lines(rows: u32) -> u64 {
    u64::from(rows) + u64::from(COLS)
}

// A plan for so many workers, by which serial phases search so many rows and columns to the end.
fn plan(workers: u32, serial_to_the_end: u64, worth_threads: u32) -> Plan
    ensures { result.workers ≡ workers }
{
    let sizes = SearchSizes {
        serial_to_the_end,
        worth_threads,
    };
    Plan { workers, sizes }
}

fn are_found<R: Abort>(rt: &R, found: &Matching) {
    assert!(rt; found.cols() == COLS);
    for col in 0..COLS {
        let row = match found.row_of(Col(col)) {
            Some(row) => row.0.saturating_add(1),
            None => 0,
        };
        assert_eq!(rt; row, MATES[col as usize], "{col}");
    }
}

// A search in the matrix of so many rows at this gate finds what it is to find. It tells marks where
// serial phases have searched to the end.
fn search<R: Abort + AllocGlobal + Threads + Sync, G: Gate>(
    rt: &R,
    rows: u32,
    plan: Plan,
    gate: &G,
) -> Result<bool, Fail>
    requires { (1 ≤ plan.workers) × (plan.workers ≤ max_workers) }
{
    let pattern = pattern_of(rt, rows, COLS, &PLACES)?;
    let pairs = matching_of(rt.alloc(), &pattern, &PAIRS)?;
    let (found, marks) = complete_under(rt, rt.alloc(), &pattern, pairs, plan, gate)?;
    are_found(rt, &found);
    Ok(marks.is_some())
}

// The same at a gate that needs no threads, where each worker arrives so often and waits so long for
// the others. Whether one of them waited in vain.
fn goes_without_asking<R: Abort + AllocGlobal + Threads + Sync>(
    rt: &R,
    rows: u32,
    plan: Plan,
    arrivals: u64,
    turns: u32,
) -> Result<bool, Fail>
    requires { (1 ≤ plan.workers) × (plan.workers ≤ max_workers) }
{
    let gate = BarrierGate::without_threads(rt.alloc(), plan.workers, turns)?;
    let is_serial = search(rt, rows, plan, &gate)?;
    assert_eq!(rt; is_serial, arrivals == 0, "{rows}");
    assert!(rt; gate.have_arrived(plan.workers, arrivals), "{rows}");
    Ok(gate.ran_out())
}

// With a row or a column more than serial phases search to the end. Whoever comes first of two or
// three workers waits in vain.
#[test]
fn workers_search_in_turn(rt: HostRuntime) -> Result<(), Fail> {
    for rows in ROWS {
        for workers in [1, 2, 3] {
            let plan = plan(workers, lines(rows).saturating_sub(1), IN_TURN);
            let waited = goes_without_asking(&rt, rows, plan, ARRIVALS, FEW_TURNS)?;
            assert_eq!(rt; waited, workers > 1, "{rows} {workers}");
        }
    }
    Ok(())
}

// Where there is one processor alone, so is the thread, and worker 1 waits in vain.
#[test]
fn workers_search_on_threads(rt: HostRuntime) -> Result<(), Fail> {
    let alone = processors(&rt) == 1;
    let turns = if alone { FEW_TURNS } else { 10_000_000 };
    for rows in ROWS {
        let plan = plan(2, lines(rows).saturating_sub(1), ON_THREADS);
        let waited = goes_without_asking(&rt, rows, plan, ARRIVALS, turns)?;
        assert_eq!(rt; waited, alone, "{rows}");
    }
    Ok(())
}

// No worker comes where serial phases search to the end and the gate needs no threads.
#[test]
fn serial_phases_search_to_the_end(rt: HostRuntime) -> Result<(), Fail> {
    for rows in ROWS {
        let plan = plan(2, lines(rows), ON_THREADS);
        goes_without_asking(&rt, rows, plan, 0, FEW_TURNS)?;
    }
    Ok(())
}

// Two workers wait for each other at it, and it says no more than that.
#[derive(Drop)]
struct OwnGate {
    barrier: BarrierGate,
}

impl Gate for OwnGate {
    fn arrive(&self, worker: u32) {
        self.barrier.arrive(worker);
    }
}

fn own_gate(alloc: Global) -> Result<OwnGate, OutOfMemory> {
    let barrier = BarrierGate::without_threads(alloc, 2, 10_000_000)?;
    Ok(OwnGate { barrier })
}

// Both workers have come to the gate so often, and never waited in vain.
fn have_met<R: Abort>(rt: &R, gate: &OwnGate, arrivals: u64) {
    assert!(rt; gate.barrier.have_arrived(2, arrivals) && !gate.barrier.ran_out());
}

#[test]
fn workers_meet_though_no_work_is_worth_threads(rt: HostRuntime) -> Result<(), Fail> {
    let gate = own_gate(rt.alloc())?;
    search(&rt, ROWS[0], plan(2, 0, IN_TURN), &gate)?;
    have_met(&rt, &gate, ARRIVALS);
    Ok(())
}

// What a user's search finds at this gate, by two workers.
fn users_search<R: Abort + AllocGlobal + Threads + Sync, G: Gate>(
    rt: &R,
    gate: &G,
) -> Result<(), Fail> {
    let pattern = pattern_of(rt, ROWS[0], COLS, &PLACES)?;
    let pairs = matching_of(rt.alloc(), &pattern, &PAIRS)?;
    let found = complete(rt, rt.alloc(), &pattern, pairs, 2, gate)?;
    are_found(rt, &found);
    Ok(())
}

// Serial phases find all. Then a phase by workers, where the gate asks for one, goes down from column
// 4, the only one that is left: to row 7, and in a second level nowhere.
#[test]
fn workers_meet_behind_serial_phases(rt: HostRuntime) -> Result<(), Fail> {
    let gate = own_gate(rt.alloc())?;
    users_search(&rt, &gate)?;
    have_met(&rt, &gate, 2);
    let free = BarrierGate::without_threads(rt.alloc(), 2, FEW_TURNS)?;
    users_search(&rt, &free)?;
    assert!(rt; free.have_arrived(2, 0));
    Ok(())
}

// The sizes of a user's search: serial phases search 6,000,000 rows and columns to the end, and
// 500,000 items are worth threads.
#[test]
fn sizes_of_users(rt: HostRuntime) {
    let plan = Plan::usual(3);
    assert_eq!(rt; plan.workers, 3);
    assert_eq!(rt; plan.sizes.serial_to_the_end, 6_000_000);
    assert_eq!(rt; plan.sizes.worth_threads, 500_000);
}
