//! Boards of claims that were worked out by hand, with two seats or two workers. Each has two rows
//! and one root.

ghost use Rattle.std.specs.Prelude.{◌≡◌, ◌<◌, [], ◌∷◌, length, IfOk};
ghost use Rattle.claim_words.specs.Answers.{col_before};
ghost use Rattle.claim_words.specs.Listed.{nothing};
ghost use Rattle.claim_words.specs.Seat.{AreAllSeats, IsSameSeat, after_claim, first_seat, new_seat};
ghost use Rattle.claim_words.specs.Settles.{SettlesAll};
ghost use Rattle.claim_words.specs.WorkerState.{AreAllWorkers, fresh_lists, seated};

use crate::outcomes::{has_fresh_lists, have_come_once};
use claim_words::{ClaimBoard, ClaimSeat, Claimed, Closed, Won, Worker, seats_in_order_are_all};
use sp_ids::{Col, Id, OutOfMemory, Row};
use sp_ports::Gate;
use std::alloc::Global;
use std::process::Abort;
use std::thread::{Threads, join_mut};
use test_gates::BarrierGate;

// A step of a seat or a worker, with what it learns at last: who held the row, or which leaf the
// root had. By none a claim or a win is its own.
#[derive(Clone, Copy)]
enum Step {
    Claim(u32, u32, Option<u32>),
    Win(u32, Option<u32>),
    SeeHolder(u32, Option<u32>),
    SeeLeaf(Option<u32>),
}

// Steps, each of the seat or the worker with this number.
type Steps = &'static [(u32, Step)];

// A board, with this holder of row 0 and nothing else, and its two seats.
fn board_for_two(
    alloc: Global,
    holder: Option<Col>,
) -> Result<(ClaimBoard, ClaimSeat, ClaimSeat), OutOfMemory>
    ensures board { IfOk result (λ b. (length b.0.rows ≡ 2) × (length b.0.roots ≡ 1)) }
    ensures seats { IfOk result (λ b. (b.1 ≡ first_seat b.0 2 nothing) × (b.2 ≡ new_seat b.0 1)) }
{
    let (board, mut seats) = ClaimBoard::new(alloc, &[holder, None], &[None], 2)?;
    let Some(one) = seats.pop() else {
        unreachable!()
    };
    let Some(zero) = seats.pop() else {
        unreachable!()
    };
    Ok((board, zero, one))
}

// Closes the board with its seats in another order than that of their numbers.
fn close_for_two(
    alloc: Global,
    board: ClaimBoard,
    zero: ClaimSeat,
    one: ClaimSeat,
) -> Result<Closed, OutOfMemory>
    requires { AreAllSeats board (zero ∷ one ∷ []) }
    ensures { IfOk result (λ words. SettlesAll board words (one ∷ zero ∷ [])) }
{
    seats_in_order_are_all();
    let seats = vec![in alloc; one, zero]?;
    match board.close(seats) {
        Ok(closed) => Ok(closed),
        Err(_) => Err(OutOfMemory),
    }
}

// The number of a row or a column, if there is one.
fn number_of<I: Id>(id: Option<I>) -> Option<u32> {
    match id {
        Some(id) => Some(id.number()),
        None => None,
    }
}

// The number of the column that a claim was told of.
fn holder_of(answer: Claimed) -> Option<u32> {
    match answer {
        Claimed::Mine => None,
        Claimed::Held(col) => Some(col.number()),
    }
}

// The number of the row that a win was told of.
fn leaf_of(answer: Won) -> Option<u32> {
    match answer {
        Won::Mine => None,
        Won::Held(row) => Some(row.number()),
    }
}

// A seat makes a step, and learns what it is to learn.
fn make<R: Abort>(rt: &R, board: &ClaimBoard, seat: &mut ClaimSeat, step: Step)
    requires seat { seat.old.board ≡ board.now }
    requires words { (length board.now.rows ≡ 2) × (length board.now.roots ≡ 1) }
    ensures { IsSameSeat seat.old seat.new }
{
    match step {
        Step::Claim(row, col, holder) => {
            assert!(rt; row < 2);
            assert!(rt; holder_of(board.claim(seat, Row(row), Col(col))) == holder);
        }
        Step::Win(row, leaf) => {
            assert!(rt; leaf_of(board.win(seat, Col(0), Row(row))) == leaf);
        }
        Step::SeeHolder(row, holder) => {
            assert!(rt; row < 2);
            assert!(rt; number_of(board.look_row(seat, Row(row))) == holder);
        }
        Step::SeeLeaf(leaf) => {
            assert!(rt; number_of(board.look_root(seat, Col(0))) == leaf);
        }
    }
}

// The seat with this number makes a step.
fn make_one<R: Abort>(
    rt: &R,
    board: &ClaimBoard,
    zero: &mut ClaimSeat,
    one: &mut ClaimSeat,
    step: (u32, Step),
)
    requires seats { (zero.old.board ≡ board.now) × (one.old.board ≡ board.now) }
    requires words { (length board.now.rows ≡ 2) × (length board.now.roots ≡ 1) }
    ensures { IsSameSeat zero.old zero.new × IsSameSeat one.old one.new }
{
    if step.0 == 0 {
        make(rt, board, zero, step.1);
    } else {
        make(rt, board, one, step.1);
    }
}

// Both make these steps, in their order.
fn make_all<R: Abort>(
    rt: &R,
    board: &ClaimBoard,
    zero: &mut ClaimSeat,
    one: &mut ClaimSeat,
    steps: &[(u32, Step)],
)
    requires seats { (zero.old.board ≡ board.now) × (one.old.board ≡ board.now) }
    requires words { (length board.now.rows ≡ 2) × (length board.now.roots ≡ 1) }
    ensures { IsSameSeat zero.old zero.new × IsSameSeat one.old one.new }
{
    for step in steps {
        make_one(rt, board, zero, one, *step);
    }
}

// The closed board gives these holders of both rows.
fn are_held<R: Abort>(rt: &R, closed: &Closed, holders: (Option<u32>, Option<u32>))
    requires { length closed.now.rows ≡ 2 }
{
    let (zero, one) = (closed.holder(Row(0)), closed.holder(Row(1)));
    assert!(rt; (number_of(zero), number_of(one)) == holders);
}

// The steps learn what they are to learn, and then the closed board gives these holders of both
// rows, and this leaf.
fn goes<R: Abort + AllocGlobal>(
    rt: &R,
    holder: Option<Col>,
    steps: Steps,
    holders: (Option<u32>, Option<u32>),
    leaf: Option<u32>,
) -> Result<(), OutOfMemory> {
    let (board, mut zero, mut one) = board_for_two(rt.alloc(), holder)?;
    make_all(rt, &board, &mut zero, &mut one, steps);
    let closed = close_for_two(rt.alloc(), board, zero, one)?;
    are_held(rt, &closed, holders);
    assert!(rt; number_of(closed.leaf(Col(0))) == leaf);
    Ok(())
}

const HELD: Steps = &[(0, Step::Claim(0, 0, Some(0)))];

#[test]
fn a_row_that_was_held_before(rt: HostRuntime) -> Result<(), OutOfMemory> {
    goes(&rt, Some(Col(0)), HELD, (Some(0), None), None)
}

const ONE_LEAF: Steps = &[
    (0, Step::Claim(0, 0, None)),
    (1, Step::Claim(1, 0, None)),
    (0, Step::Win(0, None)),
    (1, Step::Win(1, Some(0))),
    (1, Step::SeeLeaf(Some(0))),
];

#[test]
fn one_leaf_for_a_root(rt: HostRuntime) -> Result<(), OutOfMemory> {
    goes(&rt, None, ONE_LEAF, (Some(0), Some(0)), Some(0))
}

// Both seats claim the row 0 at once, for the columns 0 and 1, once both threads have come.
fn claim_at_once<R: Threads>(
    rt: &R,
    board: &ClaimBoard,
    gate: &BarrierGate,
    zero: &mut ClaimSeat,
    one: &mut ClaimSeat,
) -> (Claimed, Claimed)
    requires seats { (zero.old.board ≡ board.now) × (one.old.board ≡ board.now) }
    requires row { 0 < length board.now.rows }
    ensures zero { zero.new ≡ after_claim zero.old 0 0 (col_before result.0) }
    ensures one { one.new ≡ after_claim one.old 0 1 (col_before result.1) }
{
    join_mut(
        rt,
        &mut || -> Claimed
            requires { (zero.now.board ≡ board.now) × (0 < length board.now.rows) }
            ensures { zero.exit.now ≡ after_claim zero.entry.now 0 0 (col_before result) }
        {
            gate.arrive(0);
            board.claim(zero, Row(0), Col(0))
        },
        &mut || -> Claimed
            requires { (one.now.board ≡ board.now) × (0 < length board.now.rows) }
            ensures { one.exit.now ≡ after_claim one.entry.now 0 1 (col_before result) }
        {
            gate.arrive(1);
            board.claim(one, Row(0), Col(1))
        },
    )
}

// The column that got the row, where one of the two did and the other was told so.
fn winner(zero: Claimed, one: Claimed) -> Option<u32> {
    match (holder_of(zero), holder_of(one)) {
        (None, Some(0)) => Some(0),
        (Some(1), None) => Some(1),
        _ => None,
    }
}

// The column that got row 0, which both seats claim at once. Both see it then.
fn contend<R: Abort + Threads>(
    rt: &R,
    board: &ClaimBoard,
    gate: &BarrierGate,
    zero: &mut ClaimSeat,
    one: &mut ClaimSeat,
) -> Option<u32>
    requires seats { (zero.old.board ≡ board.now) × (one.old.board ≡ board.now) }
    requires words { (length board.now.rows ≡ 2) × (length board.now.roots ≡ 1) }
    ensures { IsSameSeat zero.old zero.new × IsSameSeat one.old one.new }
{
    let (first, second) = claim_at_once(rt, board, gate, zero, one);
    let won = winner(first, second);
    make(rt, board, zero, Step::SeeHolder(0, won));
    make(rt, board, one, Step::SeeHolder(0, won));
    won
}

#[test]
fn two_threads_on_one_row(rt: HostRuntime) -> Result<(), OutOfMemory> {
    let gate = BarrierGate::new(rt.alloc(), 2)?;
    let (board, mut zero, mut one) = board_for_two(rt.alloc(), None)?;
    let won = contend(&rt, &board, &gate, &mut zero, &mut one);
    have_come_once(&rt, &gate, 2);
    assert!(rt; won.is_some());
    let closed = close_for_two(rt.alloc(), board, zero, one)?;
    are_held(&rt, &closed, (won, None));
    Ok(())
}

// A board and its two workers.
fn board_with_workers(alloc: Global) -> Result<(ClaimBoard, Worker, Worker), OutOfMemory>
    ensures board { IfOk result (λ b. (length b.0.rows ≡ 2) × (length b.0.roots ≡ 1)) }
    ensures workers { IfOk result (λ b. (b.1 ≡ seated (first_seat b.0 2 nothing))
        × (b.2 ≡ seated (new_seat b.0 1))) }
{
    let (board, zero, one) = board_for_two(alloc, None)?;
    Ok((board, Worker::new(alloc, zero), Worker::new(alloc, one)))
}

fn gather_for_two(
    alloc: Global,
    board: &ClaimBoard,
    zero: Worker,
    one: Worker,
) -> Result<(Worker, Worker), OutOfMemory>
    requires { AreAllWorkers board.now (zero ∷ one ∷ []) }
    ensures all { IfOk result (λ r. AreAllWorkers board.now (r.0 ∷ r.1 ∷ [])) }
    ensures fresh { IfOk result (λ r. fresh_lists (r.0 ∷ r.1 ∷ [])
        ≡ fresh_lists (zero ∷ one ∷ [])) }
{
    let mut workers = vec![in alloc; zero, one]?;
    board.gather(workers.as_mut_slice());
    let Some(one) = workers.pop() else {
        unreachable!()
    };
    let Some(zero) = workers.pop() else {
        unreachable!()
    };
    Ok((zero, one))
}

// A worker makes a step, and learns what it is to learn.
fn work<R: Abort>(
    rt: &R,
    board: &ClaimBoard,
    worker: &mut Worker,
    step: Step,
) -> Result<(), OutOfMemory>
    requires seat { worker.old.seat.board ≡ board.now }
    requires words { (length board.now.rows ≡ 2) × (length board.now.roots ≡ 1) }
    ensures { IsSameSeat worker.old.seat worker.new.seat }
{
    match step {
        Step::Claim(row, col, holder) => {
            assert!(rt; row < 2);
            assert!(rt; holder_of(worker.claim(board, Row(row), Col(col))?) == holder);
        }
        Step::Win(row, leaf) => {
            assert!(rt; leaf_of(worker.win(board, Col(0), Row(row))?) == leaf);
        }
        Step::SeeHolder(row, holder) => {
            assert!(rt; row < 2);
            assert!(rt; number_of(worker.look_row(board, Row(row))) == holder);
        }
        Step::SeeLeaf(leaf) => {
            assert!(rt; number_of(worker.look_root(board, Col(0))) == leaf);
        }
    }
    Ok(())
}

// The worker with this number makes a step.
fn work_one<R: Abort>(
    rt: &R,
    board: &ClaimBoard,
    zero: &mut Worker,
    one: &mut Worker,
    step: (u32, Step),
) -> Result<(), OutOfMemory>
    requires seats { (zero.old.seat.board ≡ board.now) × (one.old.seat.board ≡ board.now) }
    requires words { (length board.now.rows ≡ 2) × (length board.now.roots ≡ 1) }
    ensures { IsSameSeat zero.old.seat zero.new.seat × IsSameSeat one.old.seat one.new.seat }
{
    if step.0 == 0 {
        work(rt, board, zero, step.1)
    } else {
        work(rt, board, one, step.1)
    }
}

// Worker 0 claims row 0, and worker 1 claims row 1 and wins the root. Each sees what the other did.
const WORK: Steps = &[
    (0, Step::Claim(0, 0, None)),
    (1, Step::Claim(0, 1, Some(0))),
    (1, Step::Claim(1, 0, None)),
    (1, Step::Win(1, None)),
    (0, Step::SeeLeaf(Some(1))),
    (0, Step::SeeHolder(1, Some(0))),
];

fn work_by_two<R: Abort>(
    rt: &R,
    board: &ClaimBoard,
    zero: &mut Worker,
    one: &mut Worker,
) -> Result<(), OutOfMemory>
    requires seats { (zero.old.seat.board ≡ board.now) × (one.old.seat.board ≡ board.now) }
    requires words { (length board.now.rows ≡ 2) × (length board.now.roots ≡ 1) }
    ensures { IsSameSeat zero.old.seat zero.new.seat × IsSameSeat one.old.seat one.new.seat }
{
    for step in WORK {
        work_one(rt, board, zero, one, *step)?;
    }
    Ok(())
}

// What each has claimed and won is still fresh.
fn have_fresh_lists<R: Abort>(rt: &R, zero: &Worker, one: &Worker) {
    has_fresh_lists(rt, zero, &[(Row(0), Col(0))], &[]);
    has_fresh_lists(rt, one, &[(Row(1), Col(0))], &[(Col(0), Row(1))]);
}

#[test]
fn workers_gather_what_they_list(rt: HostRuntime) -> Result<(), OutOfMemory> {
    let (board, mut zero, mut one) = board_with_workers(rt.alloc())?;
    work_by_two(&rt, &board, &mut zero, &mut one)?;
    let (mut zero, mut one) = gather_for_two(rt.alloc(), &board, zero, one)?;
    have_fresh_lists(&rt, &zero, &one);
    zero.settle();
    one.settle();
    has_fresh_lists(&rt, &one, &[], &[]);
    let closed = close_for_two(rt.alloc(), board, zero.into_seat(), one.into_seat())?;
    are_held(&rt, &closed, (Some(0), Some(0)));
    Ok(())
}
