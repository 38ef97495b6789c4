//! A board of 1,000 rows and 4 roots that four seats contest at once: each claims every row and
//! wins each root, once all four have come.

ghost use Rattle.std.specs.Prelude.{◌≡◌, [], ◌∷◌, length, IfOk};
ghost use Rattle.std.specs.Thread.{IsSync};
ghost use Rattle.claim_words.specs.Seat.{AreAllSeats, IsSameSeat, new_seats};
ghost use Rattle.board_tests.specs.ClaimContest.{Contests, IsContested};

use crate::outcomes::have_come_once;
use claim_words::{ClaimBoard, ClaimSeat, Claimed, Closed, Won, seats_in_order_are_all};
use crossbeam_queue::ArrayQueue;
use sp_ids::{Col, OutOfMemory, Row};
use sp_ports::Gate;
use std::alloc::Global;
use std::process::Abort;
use std::sync::Wait;
use std::thread::{Threads, join_mut};
use test_gates::BarrierGate;

const ROWS: u32 = 1000;

const ROOTS: u32 = 4;

// A seat's number, and how many of its claims and of its wins were `Mine`.
type Count = (u32, u32, u32);

// A seat, the gate at which it waits for the others, and what it was told of each row and of each
// root.
#[derive(Drop)]
struct Contender<'a> {
    seat: ClaimSeat,
    number: u32,
    gate: &'a BarrierGate,
    holders: Vec<Col>,
    leaves: Vec<Row>,
}

impl<'a> Contender<'a> {
    fn new(alloc: Global, seat: ClaimSeat, number: u32, gate: &'a BarrierGate) -> Contender<'a>
        ensures { result.seat ≡ seat }
    {
        Contender {
            seat,
            number,
            gate,
            holders: Vec::new(alloc),
            leaves: Vec::new(alloc),
        }
    }
}

// The column that holds the row after the claim.
fn holder(answer: Claimed, own: Col) -> Col {
    match answer {
        Claimed::Mine => own,
        Claimed::Held(col) => col,
    }
}

// The leaf that the root has after the win.
fn leaf(answer: Won, own: Row) -> Row {
    match answer {
        Won::Mine => own,
        Won::Held(row) => row,
    }
}

// Claims every row for this column, and gives how many claims were `Mine`.
fn claim_all(
    board: &ClaimBoard,
    seat: &mut ClaimSeat,
    col: Col,
    holders: &mut Vec<Col>,
) -> Result<u32, OutOfMemory>
    requires { Contests board.now seat.old }
    ensures { IsSameSeat seat.old seat.new }
{
    let mut mine = 0u32;
    for row in 0..ROWS {
        let answer = board.claim(seat, Row(row), col);
        mine = mine.saturating_add(u32::from(answer == Claimed::Mine));
        holders.push(holder(answer, col))?;
    }
    Ok(mine)
}

// Wins every root for this leaf, and gives how many wins were `Mine`.
fn win_all(
    board: &ClaimBoard,
    seat: &mut ClaimSeat,
    row: Row,
    leaves: &mut Vec<Row>,
) -> Result<u32, OutOfMemory>
    requires { Contests board.now seat.old }
    ensures { IsSameSeat seat.old seat.new }
{
    let mut mine = 0u32;
    for root in 0..ROOTS {
        let answer = board.win(seat, Col(root), row);
        mine = mine.saturating_add(u32::from(answer == Won::Mine));
        leaves.push(leaf(answer, row))?;
    }
    Ok(mine)
}

// One seat's part. It hands its count over.
fn contend<R: Wait>(
    rt: &R,
    board: &ClaimBoard,
    me: &mut Contender<'_>,
    counts: &ArrayQueue<Count>,
) -> Result<(), OutOfMemory>
    requires { Contests board.now me.old.seat }
    ensures { IsSameSeat me.old.seat me.new.seat }
{
    let number = me.number;
    me.gate.arrive(number);
    let rows = claim_all(board, &mut me.seat, Col(number), &mut me.holders)?;
    let roots = win_all(board, &mut me.seat, Row(number), &mut me.leaves)?;
    let _kept = counts.push(rt, (number, rows, roots)).is_ok();
    Ok(())
}

// Two of them at once.
fn contend_by_two<R: Threads + Wait + Sync>(
    rt: &R,
    board: &ClaimBoard,
    left: &mut Contender<'_>,
    right: &mut Contender<'_>,
    counts: &ArrayQueue<Count>,
) -> Result<(), OutOfMemory>
    requires { Contests board.now left.old.seat × Contests board.now right.old.seat }
    ensures { IsSameSeat left.old.seat left.new.seat × IsSameSeat right.old.seat right.new.seat }
{
    let (first, second) = join_mut(
        rt,
        &mut || -> Result<(), OutOfMemory>
            requires { IsSync R.row × Contests board.now left.now.seat }
            ensures { IsSameSeat left.entry.now.seat left.exit.now.seat }
        { contend(rt, board, left, counts) },
        &mut || -> Result<(), OutOfMemory>
            requires { IsSync R.row × Contests board.now right.now.seat }
            ensures { IsSameSeat right.entry.now.seat right.exit.now.seat }
        { contend(rt, board, right, counts) },
    );
    first.and(second)
}

// All four at once.
fn contend_by_four<R: Threads + Wait + Sync>(
    rt: &R,
    board: &ClaimBoard,
    zero: &mut Contender<'_>,
    one: &mut Contender<'_>,
    two: &mut Contender<'_>,
    three: &mut Contender<'_>,
    counts: &ArrayQueue<Count>,
) -> Result<(), OutOfMemory>
    requires lower { Contests board.now zero.old.seat × Contests board.now one.old.seat }
    requires upper { Contests board.now two.old.seat × Contests board.now three.old.seat }
    ensures lower { IsSameSeat zero.old.seat zero.new.seat × IsSameSeat one.old.seat one.new.seat }
    ensures upper { IsSameSeat two.old.seat two.new.seat
        × IsSameSeat three.old.seat three.new.seat }
{
    let (first, second) = join_mut(
        rt,
        &mut || -> Result<(), OutOfMemory>
            requires { IsSync R.row × Contests board.now zero.now.seat
                × Contests board.now one.now.seat }
            ensures { IsSameSeat zero.entry.now.seat zero.exit.now.seat
                × IsSameSeat one.entry.now.seat one.exit.now.seat }
        { contend_by_two(rt, board, zero, one, counts) },
        &mut || -> Result<(), OutOfMemory>
            requires { IsSync R.row × Contests board.now two.now.seat
                × Contests board.now three.now.seat }
            ensures { IsSameSeat two.entry.now.seat two.exit.now.seat
                × IsSameSeat three.entry.now.seat three.exit.now.seat }
        { contend_by_two(rt, board, two, three, counts) },
    );
    first.and(second)
}

// Whether each look at a row gives what the seat was told of it.
fn rows_agree(board: &ClaimBoard, seat: &mut ClaimSeat, holders: &[Col]) -> bool
    requires { Contests board.now seat.old }
    ensures { IsSameSeat seat.old seat.new }
{
    let mut agree = holders.len() == ROWS as usize;
    for row in 0..ROWS {
        let seen = board.look_row(seat, Row(row));
        agree &= seen == holders.get(row as usize).copied();
    }
    agree
}

// Whether each look at a root gives what the seat was told of it.
fn roots_agree(board: &ClaimBoard, seat: &mut ClaimSeat, leaves: &[Row]) -> bool
    requires { Contests board.now seat.old }
    ensures { IsSameSeat seat.old seat.new }
{
    let mut agree = leaves.len() == ROOTS as usize;
    for root in 0..ROOTS {
        let seen = board.look_root(seat, Col(root));
        agree &= seen == leaves.get(root as usize).copied();
    }
    agree
}

// Whether the seat's looks give what it was told.
fn looks_agree(board: &ClaimBoard, me: &mut Contender<'_>) -> bool
    requires { Contests board.now me.old.seat }
    ensures { IsSameSeat me.old.seat me.new.seat }
{
    let rows = rows_agree(board, &mut me.seat, me.holders.as_slice());
    let roots = roots_agree(board, &mut me.seat, me.leaves.as_slice());
    rows && roots
}

// Whether the closed board shows what a seat was told.
fn shows(closed: &Closed, holders: &[Col], leaves: &[Row]) -> bool
    requires rows { length closed.now.rows ≡ 1000 }
    requires roots { length closed.now.roots ≡ 4 }
{
    let mut same = true;
    for row in 0..ROWS {
        same &= closed.holder(Row(row)) == holders.get(row as usize).copied();
    }
    for root in 0..ROOTS {
        same &= closed.leaf(Col(root)) == leaves.get(root as usize).copied();
    }
    same
}

// Which seats handed a count over, and the sums of the counts.
fn sums<R: Wait>(rt: &R, counts: &ArrayQueue<Count>) -> ([bool; 4], u32, u32) {
    let mut seats = [false; 4];
    let mut rows = 0u32;
    let mut roots = 0u32;
    for _ in 0..4 {
        if let Some((number, more_rows, more_roots)) = counts.pop(rt) {
            if number < 4 {
                seats[number as usize] = true;
            }
            rows = rows.saturating_add(more_rows);
            roots = roots.saturating_add(more_roots);
        }
    }
    (seats, rows, roots)
}

// The board and its four seats.
fn board_for_four<'a>(
    alloc: Global,
    gate: &'a BarrierGate,
) -> Result<
    (
        ClaimBoard,
        Contender<'a>,
        Contender<'a>,
        Contender<'a>,
        Contender<'a>,
    ),
    OutOfMemory,
>
    ensures board { IfOk result (λ b. IsContested b.0) }
    ensures seats { IfOk result (λ b. b.1.seat ∷ b.2.seat ∷ b.3.seat ∷ b.4.seat ∷ []
        ≡ new_seats b.0 4) }
{
    let (board, mut seats) = ClaimBoard::new(alloc, &[None; 1000], &[None; 4], 4)?;
    let Some(three) = seats.pop() else {
        unreachable!()
    };
    let Some(two) = seats.pop() else {
        unreachable!()
    };
    let Some(one) = seats.pop() else {
        unreachable!()
    };
    let Some(zero) = seats.pop() else {
        unreachable!()
    };
    Ok((
        board,
        Contender::new(alloc, zero, 0, gate),
        Contender::new(alloc, one, 1, gate),
        Contender::new(alloc, two, 2, gate),
        Contender::new(alloc, three, 3, gate),
    ))
}

// Closes the board, of which these are all seats.
fn close_for_four(
    alloc: Global,
    board: ClaimBoard,
    zero: ClaimSeat,
    one: ClaimSeat,
    two: ClaimSeat,
    three: ClaimSeat,
) -> Result<Closed, OutOfMemory>
    requires board { IsContested board }
    requires seats { AreAllSeats board (zero ∷ one ∷ two ∷ three ∷ []) }
    ensures { IfOk result (λ c. (length c.rows ≡ 1000) × (length c.roots ≡ 4)) }
{
    seats_in_order_are_all();
    let seats = vec![in alloc; zero, one, two, three]?;
    match board.close(seats) {
        Ok(closed) => Ok(closed),
        Err(_) => Err(OutOfMemory),
    }
}

// Closes the board, which shows what each seat was told.
fn closed_shows<R: Abort + AllocGlobal>(
    rt: &R,
    board: ClaimBoard,
    zero: Contender<'_>,
    one: Contender<'_>,
    two: Contender<'_>,
    three: Contender<'_>,
) -> Result<(), OutOfMemory>
    requires board { IsContested board }
    requires seats { AreAllSeats board (zero.seat ∷ one.seat ∷ two.seat ∷ three.seat ∷ []) }
{
    let closed = close_for_four(rt.alloc(), board, zero.seat, one.seat, two.seat, three.seat)?;
    for (holders, leaves) in [
        (&zero.holders, &zero.leaves),
        (&one.holders, &one.leaves),
        (&two.holders, &two.leaves),
        (&three.holders, &three.leaves),
    ] {
        assert!(rt; shows(&closed, holders.as_slice(), leaves.as_slice()));
    }
    Ok(())
}

// The looks of both seats give what they were told.
fn look_again<R: Abort>(
    rt: &R,
    board: &ClaimBoard,
    left: &mut Contender<'_>,
    right: &mut Contender<'_>,
)
    requires { Contests board.now left.old.seat × Contests board.now right.old.seat }
    ensures { IsSameSeat left.old.seat left.new.seat × IsSameSeat right.old.seat right.new.seat }
{
    assert!(rt; looks_agree(board, left));
    assert!(rt; looks_agree(board, right));
}

// Each seat has handed its count over, and each row and each root went to one of them.
fn have_all<R: Abort + Wait>(rt: &R, counts: &ArrayQueue<Count>) {
    assert_eq!(rt; sums(rt, counts), ([true; 4], 1000, 4));
}

#[test]
fn four_seats_on_every_word(rt: HostRuntime) -> Result<(), OutOfMemory> {
    let counts = ArrayQueue::new(rt.alloc(), 4)?;
    let gate = BarrierGate::new(rt.alloc(), 4)?;
    let (board, mut zero, mut one, mut two, mut three) = board_for_four(rt.alloc(), &gate)?;
    contend_by_four(
        &rt, &board, &mut zero, &mut one, &mut two, &mut three, &counts,
    )?;
    have_come_once(&rt, &gate, 4);
    have_all(&rt, &counts);
    look_again(&rt, &board, &mut zero, &mut one);
    look_again(&rt, &board, &mut two, &mut three);
    closed_shows(&rt, board, zero, one, two, three)
}
