//! A forest that was worked out by hand, augmented by one worker and by two.

ghost use Rattle.std.specs.Prelude.{◌≡◌, ◌≤◌, [], IfOk};
ghost use Rattle.bip_defs.specs.Matrix.{cols};
ghost use Rattle.forest_core.specs.Exchanged.{AreExchanged};
ghost use Rattle.sp_ids.specs.Limits.{max_workers};

use crate::outcomes::{both_have_met, have_come_once};
use crate::small::{ONE_PAIR, has_the_path, pattern_of_three};
use bip_graph::Mates;
use flip_words::Taken;
use forest_core::Forest;
use level_sharing::WORTH_THREADS;
use sp_ids::{Col, Event, OutOfMemory, Row};
use sp_pattern::Pattern;
use sp_ports::{Gate, MeetGate, NoGate};
use std::process::Abort;
use std::test::Fail;
use std::thread::Threads;
use test_gates::BarrierGate;
use test_matrices::matching_of;
use tree_augment::{augment, closed_mates_are_exchanged, open};

fn claim<R: Abort>(rt: &R, forest: &mut Forest, row: Row, col: Col)
    ensures matrix { forest.new.matrix ≡ forest.old.matrix }
    ensures flipped { forest.new.flipped ≡ forest.old.flipped }
{
    assert!(rt; forest.may(Event::Claim { row, col }));
    forest.claim(row, col);
}

// Column 1 claims row 0 and column 2 row 1, the leaf of root 1.
fn grow_one_path<R: Abort>(rt: &R, forest: &mut Forest)
    ensures matrix { forest.new.matrix ≡ forest.old.matrix }
    ensures flipped { forest.new.flipped ≡ forest.old.flipped }
{
    claim(rt, forest, Row(0), Col(1));
    claim(rt, forest, Row(1), Col(2));
    let (root, leaf) = (Col(1), Row(1));
    assert!(rt; forest.may(Event::Win { root, leaf }));
    forest.win(root, leaf);
}

// The forest over the matching of one pair in which this path has grown.
fn forest_of_one_path<'p, R: Abort + AllocGlobal>(
    rt: &R,
    pattern: &'p Pattern,
) -> Result<Forest<'p>, Fail>
    ensures matrix { IfOk result (λ f. f.matrix ≡ pattern.now) }
    ensures none_flipped { IfOk result (λ f. f.flipped ≡ []) }
{
    let base = matching_of(rt.alloc(), pattern, &ONE_PAIR)?;
    let mut forest = Forest::new(rt.alloc(), pattern, base)?;
    grow_one_path(rt, &mut forest);
    Ok(forest)
}

// What a board closes with, once so many workers have augmented the forest.
fn augmented<R: AllocGlobal + Threads + Sync, G: Gate>(
    rt: &R,
    forest: &Forest,
    workers: u32,
    gate: &G,
) -> Result<Mates, OutOfMemory>
    requires workers { (1 ≤ workers) × (workers ≤ max_workers) }
    requires none_flipped { forest.now.flipped ≡ [] }
    ensures { IfOk result (λ m. AreExchanged forest.now m) }
{
    forest.is_sound();
    closed_mates_are_exchanged();
    let (board, mut seats) = open(rt, rt.alloc(), forest, workers, WORTH_THREADS)?;
    augment(rt, forest, &board, seats.as_mut_slice(), gate);
    match board.close(rt.alloc(), seats) {
        Ok(mates) => Ok(mates),
        Err(_) => Err(OutOfMemory),
    }
}

// So many workers exchange the one path of the forest at this gate, and the forest adopts it.
fn adopts_the_path<R: Abort + AllocGlobal + Threads + Sync, G: Gate>(
    rt: &R,
    forest: &mut Forest,
    workers: u32,
    gate: &G,
) -> Result<(), Fail>
    requires workers { (1 ≤ workers) × (workers ≤ max_workers) }
    requires none_flipped { forest.old.flipped ≡ [] }
    requires sizes { (forest.old.matrix.rows ≡ 3) × (cols forest.old.matrix ≡ 3) }
{
    let mates = augmented(rt, forest, workers, gate)?;
    has_the_path(rt, &mates);
    forest.adopt(mates);
    assert!(rt; forest.flipped(Col(1)));
    Ok(())
}

// So many workers exchange the one path at this gate.
fn exchanges_the_path<R: Abort + AllocGlobal + Threads + Sync, G: Gate>(
    rt: &R,
    workers: u32,
    gate: &G,
) -> Result<(), Fail>
    requires { (1 ≤ workers) × (workers ≤ max_workers) }
{
    let pattern = pattern_of_three(rt)?;
    let mut forest = forest_of_one_path(rt, &pattern)?;
    adopts_the_path(rt, &mut forest, workers, gate)
}

// Each worker arrives once, and with several of them all work at once.
#[test]
fn workers_augment_together(rt: HostRuntime) -> Result<(), Fail> {
    for workers in [1, 2, 3] {
        let gate = BarrierGate::new(rt.alloc(), workers)?;
        exchanges_the_path(&rt, workers, &gate)?;
        have_come_once(&rt, &gate, workers);
    }
    Ok(())
}

#[test]
fn two_workers_meet(rt: HostRuntime) -> Result<(), Fail> {
    let gate = MeetGate::new(rt.alloc())?;
    exchanges_the_path(&rt, 2, &gate)?;
    both_have_met(&rt, &gate);
    Ok(())
}

// Of one worker on a board of the forest, the seat that took the tree finds that it has it.
fn asks_again<R: Abort + AllocGlobal + Threads + Sync>(rt: &R, forest: &Forest) -> Result<(), Fail>
    requires none_flipped { forest.now.flipped ≡ [] }
    requires cols { cols forest.now.matrix ≡ 3 }
{
    let (board, mut seats) = open(rt, rt.alloc(), forest, 1, WORTH_THREADS)?;
    augment(rt, forest, &board, seats.as_mut_slice(), &NoGate);
    assert_eq!(rt; board.take(&mut seats[0], Col(1)), Taken::Held(0));
    Ok(())
}

#[test]
fn the_taker_asks_again(rt: HostRuntime) -> Result<(), Fail> {
    let pattern = pattern_of_three(&rt)?;
    let forest = forest_of_one_path(&rt, &pattern)?;
    asks_again(&rt, &forest)
}
