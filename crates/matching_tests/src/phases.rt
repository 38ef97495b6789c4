//! Phases of the search from all unmatched columns at once, by one worker and by several who wait
//! for each other, worked out by hand.

ghost use Rattle.std.specs.Prelude.{◌≤◌, IfOk, OnOk};
ghost use Rattle.bip_defs.specs.Forest.{IsRested};
ghost use Rattle.sp_ids.specs.Limits.{max_workers};

use crate::pairs::{are_pairs, has_pairs};
use forest_core::Forest;
use sp_ids::OutOfMemory;
use sp_pattern::Pattern;
use sp_ports::{Gate, MeetGate};
use std::alloc::Global;
use std::test::Fail;
use std::thread::Threads;
use test_gates::BarrierGate;
use test_matrices::{matching_of, pattern_of};
use tree_graft::{goes_top_down, keeps_trees, phase};

/// Pairs of a row and a column, which count from 1.
type Pairs = &'static [(u32, u32)];

/// Of a phase: how many pairs it adds, how often each worker has arrived since the first phase
/// began, and the rows that stay claimed, each with its column, in order.
#[derive(Clone, Copy)]
struct Phase {
    growth: u32,
    arrivals: u64,
    claims: Pairs,
}

/// A matrix, a matching and two phases from it.
#[derive(Clone, Copy)]
struct Phases {
    name: &'static str,
    rows: u32,
    cols: u32,
    places: Pairs,
    pairs: Pairs,
    first: Phase,
    second: Phase,
}

#[rattlefmt::skip]
static PHASES: [Phases; 4] = [
    // Ten free rows to two columns: a level goes up, so row 1 is claimed first. The second level,
    // from the columns 3 and 4, finds nothing.
    Phases {
        name: "up",
        rows: 10, cols: 4, places: &[(2, 1), (1, 2), (1, 3), (2, 4)], pairs: &[(1, 3), (2, 4)],
        first: Phase { growth: 0, arrivals: 2, claims: &[(1, 2), (2, 1)] },
        // With claims a phase begins by a level up.
        second: Phase { growth: 0, arrivals: 3, claims: &[(1, 2), (2, 1)] },
    },
    // With a row more the first level goes down, so column 1 claims first.
    Phases {
        name: "down",
        rows: 11, cols: 4, places: &[(2, 1), (1, 2), (1, 3), (2, 4)], pairs: &[(1, 3), (2, 4)],
        first: Phase { growth: 0, arrivals: 2, claims: &[(2, 1), (1, 2)] },
        second: Phase { growth: 0, arrivals: 3, claims: &[(2, 1), (1, 2)] },
    },
    // Columns 1 to 7 each have a row of their own, column 8 leads by row 8 and column 9 to row 9,
    // and column 10 by row 10 to column 11 and no further. After two levels and the exchange of
    // eight paths 9 rows are freed beside 2 columns, which is less than five for each: their tree
    // stays. The second phase goes up once.
    Phases {
        name: "a tree that stays",
        rows: 10, cols: 11,
        places: &[
            (1, 1), (2, 2), (3, 3), (4, 4), (5, 5), (6, 6), (7, 7),
            (8, 8), (8, 9), (9, 9), (10, 10), (10, 11),
        ],
        pairs: &[(8, 9), (10, 11)],
        first: Phase { growth: 8, arrivals: 3, claims: &[(10, 10)] },
        second: Phase { growth: 0, arrivals: 4, claims: &[(10, 10)] },
    },
    // With one such column more 10 rows are freed, and no tree stays. The second phase goes down
    // twice.
    Phases {
        name: "no tree that stays",
        rows: 11, cols: 12,
        places: &[
            (1, 1), (2, 2), (3, 3), (4, 4), (5, 5), (6, 6), (7, 7), (8, 8),
            (9, 9), (9, 10), (10, 10), (11, 11), (11, 12),
        ],
        pairs: &[(9, 10), (11, 12)],
        first: Phase { growth: 9, arrivals: 3, claims: &[] },
        second: Phase { growth: 0, arrivals: 5, claims: &[(11, 11)] },
    },
];

const NUMBERS: [u32; 4] = [1, 2, 3, 64];

/// A gate at which the first two of so many workers meet, or the only one comes.
fn gate_for(alloc: Global, workers: u32) -> Result<BarrierGate, OutOfMemory> {
    BarrierGate::new(alloc, workers.min(2))
}

/// One phase, and how many pairs it adds.
fn step<R: AllocGlobal + Threads + Sync, G: Gate>(
    rt: &R,
    forest: &mut Forest<'_>,
    workers: u32,
    gate: &G,
) -> Result<u32, OutOfMemory>
    requires workers { (1 ≤ workers) × (workers ≤ max_workers) }
    requires rested { IsRested forest.old }
    ensures { OnOk result (IsRested forest.new) }
{
    phase(rt, rt.alloc(), forest, workers, gate)
}

/// Whether a phase by so many workers leaves what it is to leave, and the workers have met.
fn goes<R: AllocGlobal + Threads + Sync>(
    rt: &R,
    forest: &mut Forest<'_>,
    workers: u32,
    gate: &BarrierGate,
    wanted: &Phase,
) -> Result<bool, OutOfMemory>
    requires workers { (1 ≤ workers) × (workers ≤ max_workers) }
    requires rested { IsRested forest.old }
    ensures { OnOk result (IsRested forest.new) }
{
    let growth = step(rt, forest, workers, gate)?;
    Ok(
        growth == wanted.growth
            && gate.have_arrived(workers, wanted.arrivals)
            && !gate.ran_out()
            && are_pairs(forest.claims(), wanted.claims),
    )
}

/// Whether both phases leave what they are to leave, and then the forest is done.
fn goes_twice<R: AllocGlobal + Threads + Sync>(
    rt: &R,
    phases: &Phases,
    workers: u32,
    forest: &mut Forest<'_>,
) -> Result<bool, OutOfMemory>
    requires workers { (1 ≤ workers) × (workers ≤ max_workers) }
    requires rested { IsRested forest.old }
{
    let gate = gate_for(rt.alloc(), workers)?;
    let first = goes(rt, forest, workers, &gate, &phases.first)?;
    let second = goes(rt, forest, workers, &gate, &phases.second)?;
    Ok(first && second && forest.done())
}

/// The forest of a matrix and a matching of these pairs.
fn forest_of<'p>(
    alloc: Global,
    pattern: &'p Pattern,
    pairs: &[(u32, u32)],
) -> Result<Forest<'p>, Fail>
    ensures { IfOk result IsRested }
{
    let matching = matching_of(alloc, pattern, pairs)?;
    Ok(Forest::new(alloc, pattern, matching)?)
}

fn go<R: AllocGlobal + Threads + Sync>(
    rt: &R,
    pattern: &Pattern,
    phases: &Phases,
    workers: u32,
) -> Result<bool, Fail>
    requires { (1 ≤ workers) × (workers ≤ max_workers) }
{
    let mut forest = forest_of(rt.alloc(), pattern, phases.pairs)?;
    Ok(goes_twice(rt, phases, workers, &mut forest)?)
}

/// Whether both phases go as wanted by each number of workers.
fn go_by_all<R: AllocGlobal + Threads + Sync>(rt: &R, phases: &Phases) -> Result<bool, Fail> {
    let pattern = pattern_of(rt, phases.rows, phases.cols, phases.places)?;
    for workers in NUMBERS {
        if !go(rt, &pattern, phases, workers)? {
            return Ok(false);
        }
    }
    Ok(true)
}

#[test]
fn phases_go_down_or_up_and_keep_trees(rt: HostRuntime) -> Result<(), Fail> {
    for phases in &PHASES {
        assert!(rt; go_by_all(&rt, phases)?, "{}", phases.name);
    }
    Ok(())
}

/// How many pairs three phases add.
fn three_phases<R: AllocGlobal + Threads + Sync>(
    rt: &R,
    forest: &mut Forest<'_>,
    workers: u32,
    gate: &BarrierGate,
) -> Result<(u32, u32, u32), OutOfMemory>
    requires workers { (1 ≤ workers) × (workers ≤ max_workers) }
    requires rested { IsRested forest.old }
{
    let first = step(rt, forest, workers, gate)?;
    let second = step(rt, forest, workers, gate)?;
    let third = step(rt, forest, workers, gate)?;
    Ok((first, second, third))
}

/// Whether three phases add so many pairs, the last of them none, and the workers have met. Then the
/// forest is done, with so many claims.
fn phases_add<R: AllocGlobal + Threads + Sync>(
    rt: &R,
    forest: &mut Forest<'_>,
    workers: u32,
    growth: u32,
    claims: usize,
) -> Result<bool, OutOfMemory>
    requires workers { (1 ≤ workers) × (workers ≤ max_workers) }
    requires rested { IsRested forest.old }
{
    let gate = gate_for(rt.alloc(), workers)?;
    let (first, second, third) = three_phases(rt, forest, workers, &gate)?;
    let arrivals = gate.arrivals(0);
    Ok(
        0 < first
            && first.saturating_add(second) == growth
            && third == 0
            && forest.done()
            && forest.claims().len() == claims
            && 0 < arrivals
            && gate.have_arrived(workers, arrivals)
            && !gate.ran_out(),
    )
}

/// Whether phases by so many workers from no pairs add one.
fn phases_add_one<R: AllocGlobal + Threads + Sync>(
    rt: &R,
    pattern: &Pattern,
    workers: u32,
) -> Result<bool, Fail>
    requires { (1 ≤ workers) × (workers ≤ max_workers) }
{
    let mut forest = forest_of(rt.alloc(), pattern, &[])?;
    Ok(phases_add(rt, &mut forest, workers, 1, 1)?)
}

/// One path, and then the row leads from the one column to the other.
#[test]
fn phases_on_one_row(rt: HostRuntime) -> Result<(), Fail> {
    let pattern = pattern_of(&rt, 1, 2, &[(1, 1), (1, 2)])?;
    for workers in NUMBERS {
        assert!(rt; phases_add_one(&rt, &pattern, workers)?, "{workers}");
    }
    Ok(())
}

/// Whether phases add two pairs, and the matching is the one that there is.
fn phases_add_two<R: AllocGlobal + Threads + Sync>(
    rt: &R,
    pattern: &Pattern,
    workers: u32,
) -> Result<bool, Fail>
    requires { (1 ≤ workers) × (workers ≤ max_workers) }
{
    let mut forest = forest_of(rt.alloc(), pattern, &[(1, 3)])?;
    let have_added = phases_add(rt, &mut forest, workers, 2, 0)?;
    let matching = forest.into_matching();
    Ok(have_added && has_pairs(&matching, &[(1, 1), (3, 2), (2, 3)]))
}

/// Two paths, in one phase or in two, and then all rows and columns are matched in the one way that
/// there is.
#[test]
fn phases_beside_a_single_entry(rt: HostRuntime) -> Result<(), Fail> {
    let pattern = pattern_of(&rt, 3, 3, &[(1, 1), (1, 2), (3, 2), (1, 3), (2, 3)])?;
    for workers in NUMBERS {
        assert!(rt; phases_add_two(&rt, &pattern, workers)?, "{workers}");
    }
    Ok(())
}

/// Whether two phases by two workers at this gate add a pair and then none. The first goes up once
/// and exchanges a path. The second goes up twice, at last with no row to claim.
fn two_phases<R: AllocGlobal + Threads + Sync, G: Gate>(
    rt: &R,
    gate: &G,
    forest: &mut Forest<'_>,
) -> Result<bool, OutOfMemory>
    requires { IsRested forest.old }
{
    let first = step(rt, forest, 2, gate)?;
    let second = step(rt, forest, 2, gate)?;
    Ok(first == 1 && second == 0)
}

/// Two phases on one row with an entry in each of two columns.
fn two_phases_on_one_row<R: AllocGlobal + Threads + Sync, G: Gate>(
    rt: &R,
    gate: &G,
) -> Result<bool, Fail> {
    let pattern = pattern_of(rt, 1, 2, &[(1, 1), (1, 2)])?;
    let mut forest = forest_of(rt.alloc(), &pattern, &[])?;
    Ok(two_phases(rt, gate, &mut forest)?)
}

#[test]
fn workers_arrive_in_each_phase(rt: HostRuntime) -> Result<(), Fail> {
    let meeting = MeetGate::new(rt.alloc())?;
    assert!(rt; two_phases_on_one_row(&rt, &meeting)?);
    assert!(rt; meeting.arrivals(0) == 4 && meeting.arrivals(1) == 4 && !meeting.ran_out());
    Ok(())
}

/// Five rows to a column are the bounds of both choices.
#[test]
fn choices_at_five_rows_a_column(rt: HostRuntime) {
    assert!(rt; !goes_top_down(1, 5) && goes_top_down(1, 6) && !goes_top_down(0, 0));
    assert!(rt; !keeps_trees(1, 5) && keeps_trees(2, 9));
}
