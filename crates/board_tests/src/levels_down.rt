//! A level down from the frontier that was worked out by hand.

ghost use Rattle.std.specs.Prelude.{IfOk};
ghost use Rattle.bip_defs.specs.Forest.{InForest, IsSettled};

use crate::outcomes::{both_have_met, have_come_once};
use forest_core::{Forest, forests_are_rested};
use frontier_levels::{absorb, open, top_down};
use level_sharing::WORTH_THREADS;
use sp_ids::{Col, Row};
use sp_pattern::Pattern;
use sp_ports::{Gate, MeetGate};
use std::process::Abort;
use std::test::Fail;
use std::thread::Threads;
use test_gates::BarrierGate;
use test_matrices::{matching_of, pattern_of};

// A forest in which nothing is claimed, and both columns are.
fn forest_of_two_columns<'p, R: Abort + AllocGlobal>(
    rt: &R,
    pattern: &'p Pattern,
) -> Result<Forest<'p>, Fail>
    ensures settled { IfOk result (λ f. IsSettled f) }
    ensures inside { IfOk result (λ f. InForest f 0 × InForest f 1) }
{
    let none = matching_of(rt.alloc(), pattern, &[])?;
    let forest = Forest::new(rt.alloc(), pattern, none)?;
    forests_are_rested();
    assert!(rt; forest.is_inside(Col(0)) && forest.is_inside(Col(1)));
    Ok(forest)
}

// A column has claimed the row, which is the leaf of its tree.
fn row_is_claimed_and_won<R: Abort>(rt: &R, forest: &Forest) {
    let claims = forest.claims();
    assert!(rt; claims.len() == 1);
    let (row, col) = claims[0];
    assert_eq!(rt; row, Row(0));
    assert_eq!(rt; forest.leaves(), [(col, Row(0))].as_slice());
}

// Opens a board, goes through one level from both columns with two workers, and makes it on the
// forest, in which a column has claimed the row then.
fn level<R: Abort + AllocGlobal + Threads + Sync, G: Gate>(
    rt: &R,
    forest: &mut Forest,
    gate: &G,
) -> Result<(), Fail>
    requires settled { IsSettled forest.old }
    requires inside { InForest forest.old 0 × InForest forest.old 1 }
{
    let (board, mut workers) = open(rt, rt.alloc(), forest, 2, WORTH_THREADS)?;
    let frontier = [Col(0), Col(1)];
    top_down(rt, forest, &board, &frontier, workers.as_mut_slice(), gate)?;
    absorb(forest, workers.as_mut_slice());
    row_is_claimed_and_won(rt, forest);
    Ok(())
}

// A level over one row with an entry in each of two columns, which two workers claim at this gate.
fn row_is_claimed_at<R: Abort + AllocGlobal + Threads + Sync, G: Gate>(
    rt: &R,
    gate: &G,
) -> Result<(), Fail> {
    let pattern = pattern_of(rt, 1, 2, &[(1, 1), (1, 2)])?;
    let mut forest = forest_of_two_columns(rt, &pattern)?;
    level(rt, &mut forest, gate)
}

#[test]
fn one_row_is_claimed_and_won_by_one_of_two_workers(rt: HostRuntime) -> Result<(), Fail> {
    let meeting = MeetGate::new(rt.alloc())?;
    row_is_claimed_at(&rt, &meeting)?;
    both_have_met(&rt, &meeting);
    let gate = BarrierGate::new(rt.alloc(), 2)?;
    row_is_claimed_at(&rt, &gate)?;
    have_come_once(&rt, &gate, 2);
    Ok(())
}
