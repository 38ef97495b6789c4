//! A level up from the free rows that was worked out by hand.

ghost use Rattle.std.specs.Prelude.{IfOk};
ghost use Rattle.bip_defs.specs.Forest.{IsSettled};

use crate::outcomes::{both_have_met, has_fresh_lists, have_come_once};
use crate::small::{ONE_PAIR, pattern_of_three};
use bottom_up::attach;
use forest_core::{Forest, every_run};
use frontier_levels::open;
use level_sharing::WORTH_THREADS;
use sp_ids::{Col, Event, Row};
use sp_pattern::Pattern;
use sp_ports::{Gate, MeetGate};
use std::process::Abort;
use std::test::Fail;
use std::thread::Threads;
use test_gates::BarrierGate;
use test_matrices::matching_of;

// Row 0 was matched with column 2. Column 1 claimed row 0 and column 2 row 1, and the path from
// there to column 1 was exchanged.
fn forest_after_a_graft<'p, R: Abort + AllocGlobal>(
    rt: &R,
    pattern: &'p Pattern,
) -> Result<Forest<'p>, Fail>
    ensures { IfOk result (λ f. IsSettled f) }
{
    let matching = matching_of(rt.alloc(), pattern, &ONE_PAIR)?;
    let (root, leaf) = (Col(1), Row(1));
    let events = [
        Event::Claim {
            row: Row(0),
            col: root,
        },
        Event::Claim {
            row: leaf,
            col: Col(2),
        },
        Event::Win { root, leaf },
        Event::Flip { root },
        Event::Graft,
    ];
    let (forest, made) = every_run(rt.alloc(), pattern, matching, &events)?;
    assert_eq!(rt; made, 5);
    assert!(rt; forest.claims().is_empty());
    Ok(forest)
}

// A level of two workers from the first three rows: the worker 0 claims row 0 for column 0, and
// nothing else is claimed or won.
fn level<R: Abort + AllocGlobal + Threads + Sync, G: Gate>(
    rt: &R,
    forest: &Forest,
    gate: &G,
) -> Result<(), Fail>
    requires { IsSettled forest.now }
{
    assert!(rt; forest.pattern().rows() == 3);
    let (board, mut workers) = open(rt, rt.alloc(), forest, 2, WORTH_THREADS)?;
    let free = [Row(0), Row(1), Row(2)];
    attach(rt, forest, &board, &free, workers.as_mut_slice(), gate)?;
    has_fresh_lists(rt, &workers[0], &[(Row(0), Col(0))], &[]);
    has_fresh_lists(rt, &workers[1], &[], &[]);
    Ok(())
}

// A level of two workers at this gate. The columns 1 and 2 are matched with the rows 0 and 1 now, no
// row is claimed, and of the columns only 0 is in the forest.
fn row_is_claimed_at<R: Abort + AllocGlobal + Threads + Sync, G: Gate>(
    rt: &R,
    gate: &G,
) -> Result<(), Fail> {
    let pattern = pattern_of_three(rt)?;
    let forest = forest_after_a_graft(rt, &pattern)?;
    level(rt, &forest, gate)
}

#[test]
fn a_column_claims_the_row_that_is_free_again(rt: HostRuntime) -> Result<(), Fail> {
    let meeting = MeetGate::new(rt.alloc())?;
    row_is_claimed_at(&rt, &meeting)?;
    both_have_met(&rt, &meeting);
    let gate = BarrierGate::new(rt.alloc(), 2)?;
    row_is_claimed_at(&rt, &gate)?;
    have_come_once(&rt, &gate, 2);
    Ok(())
}
