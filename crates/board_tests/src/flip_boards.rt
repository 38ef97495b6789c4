//! A flip board that was worked out by hand, with two seats.

ghost use Rattle.std.specs.Prelude.{◌≡◌, None, Some, [], ◌∷◌, length, IfOk};
ghost use Rattle.flip_words.specs.Listed.{nothing};
ghost use Rattle.flip_words.specs.Seat.{AreAllSeats, IsSameSeat, Took, after_take, first_seat, new_seat};
ghost use Rattle.flip_words.specs.Taken.{taker_before};

use crate::outcomes::have_come_once;
use crate::small::has_the_path;
use bip_graph::{Matching, Mates};
use flip_words::{FlipBoard, FlipSeat, Taken, seats_in_order_are_all};
use sp_ids::{Col, OutOfMemory, Row};
use sp_ports::Gate;
use std::alloc::Global;
use std::process::Abort;
use std::thread::{Threads, join_mut};
use test_gates::BarrierGate;

// Three rows and three columns, of which row 0 and column 2 are matched. Rows 0 and 1 and columns 1
// and 2 are in the tree of column 1, column 0 is a tree of its own, and row 2 is in no tree. Two
// seats.
fn board_for_two(alloc: Global) -> Result<(FlipBoard, FlipSeat, FlipSeat), OutOfMemory>
    ensures sizes { IfOk result (λ b. (b.0.rows ≡ 3) × (b.0.cols ≡ 3)) }
    ensures trees { IfOk result
        (λ b. b.0.trees ≡ Some 1 ∷ Some 1 ∷ None ∷ Some 0 ∷ Some 1 ∷ Some 1 ∷ []) }
    ensures seats { IfOk result (λ b. (b.1 ≡ first_seat b.0 2 nothing) × (b.2 ≡ new_seat b.0 1)) }
{
    let mut matching = Matching::empty(alloc, 3, 3)?;
    matching.pair(Row(0), Col(2));
    let row_tree = [Some(Col(1)), Some(Col(1)), None];
    let col_tree = [Some(Col(0)), Some(Col(1)), Some(Col(1))];
    let (board, mut seats) = FlipBoard::new(alloc, &matching, &row_tree, &col_tree, 2)?;
    let Some(one) = seats.pop() else {
        unreachable!()
    };
    let Some(zero) = seats.pop() else {
        unreachable!()
    };
    Ok((board, zero, one))
}

// Exchanges the path of the tree of column 1: column 1, row 0, column 2, row 1.
fn exchange(board: &FlipBoard, seat: &mut FlipSeat)
    requires sizes { (board.now.rows ≡ 3) × (board.now.cols ≡ 3) }
    requires trees { board.now.trees ≡ Some 1 ∷ Some 1 ∷ None ∷ Some 0 ∷ Some 1 ∷ Some 1 ∷ [] }
    requires seat { seat.old.board ≡ board.now }
    requires took { Took seat.old 1 }
    requires fresh { seat.old.listed.sets ≡ [] }
    ensures same { IsSameSeat seat.old seat.new }
{
    board.set_row(seat, Col(1), Row(0), Col(1));
    board.set_row(seat, Col(1), Row(1), Col(2));
    board.set_col(seat, Col(1), Col(1), Row(0));
    board.set_col(seat, Col(1), Col(2), Row(1));
}

// Closes the board with its seats in another order than that of their numbers.
fn close_for_two(
    alloc: Global,
    board: FlipBoard,
    zero: FlipSeat,
    one: FlipSeat,
) -> Result<Mates, OutOfMemory>
    requires { AreAllSeats board (zero ∷ one ∷ []) }
    ensures rows { IfOk result (λ m. length m.rows ≡ board.rows) }
    ensures cols { IfOk result (λ m. length m.cols ≡ board.cols) }
{
    seats_in_order_are_all();
    let seats = vec![in alloc; one, zero]?;
    match board.close(alloc, seats) {
        Ok(mates) => Ok(mates),
        Err(_) => Err(OutOfMemory),
    }
}

#[test]
fn the_taker_exchanges_the_path(rt: HostRuntime) -> Result<(), OutOfMemory> {
    let (board, mut zero, mut one) = board_for_two(rt.alloc())?;
    let Taken::Mine = board.take(&mut zero, Col(1)) else {
        panic!(rt; "no seat had taken the tree");
    };
    assert_eq!(rt; board.take(&mut one, Col(1)), Taken::Held(0));
    exchange(&board, &mut zero);
    assert_eq!(rt; board.look_row(&mut zero, Row(1)), Some(Col(2)));
    assert_eq!(rt; board.look_col(&mut one, Col(0)), None);
    let mates = close_for_two(rt.alloc(), board, zero, one)?;
    has_the_path(&rt, &mates);
    Ok(())
}

#[test]
fn a_seat_asks_for_its_own_tree(rt: HostRuntime) -> Result<(), OutOfMemory> {
    let (board, _zero, mut one) = board_for_two(rt.alloc())?;
    assert_eq!(rt; board.take(&mut one, Col(1)), Taken::Mine);
    assert_eq!(rt; board.take(&mut one, Col(1)), Taken::Held(1));
    Ok(())
}

// Both seats ask for the tree of column 1 at once, once both threads have come.
fn take_at_once<R: Threads>(
    rt: &R,
    board: &FlipBoard,
    gate: &BarrierGate,
    zero: &mut FlipSeat,
    one: &mut FlipSeat,
) -> (Taken, Taken)
    requires seats { (zero.old.board ≡ board.now) × (one.old.board ≡ board.now) }
    requires cols { board.now.cols ≡ 3 }
    ensures zero { zero.new ≡ after_take zero.old 1 (taker_before result.0) }
    ensures one { one.new ≡ after_take one.old 1 (taker_before result.1) }
{
    join_mut(
        rt,
        &mut || -> Taken
            requires { (zero.now.board ≡ board.now) × (board.now.cols ≡ 3) }
            ensures { zero.exit.now ≡ after_take zero.entry.now 1 (taker_before result) }
        {
            gate.arrive(0);
            board.take(zero, Col(1))
        },
        &mut || -> Taken
            requires { (one.now.board ≡ board.now) × (board.now.cols ≡ 3) }
            ensures { one.exit.now ≡ after_take one.entry.now 1 (taker_before result) }
        {
            gate.arrive(1);
            board.take(one, Col(1))
        },
    )
}

// One of the two seats took the tree, and the other was told so.
fn one_took_it<R: Abort>(rt: &R, taken: (Taken, Taken)) {
    let first = taken == (Taken::Mine, Taken::Held(0));
    let second = taken == (Taken::Held(1), Taken::Mine);
    assert!(rt; first || second);
}

#[test]
fn two_threads_take_one_tree(rt: HostRuntime) -> Result<(), OutOfMemory> {
    let gate = BarrierGate::new(rt.alloc(), 2)?;
    let (board, mut zero, mut one) = board_for_two(rt.alloc())?;
    let taken = take_at_once(&rt, &board, &gate, &mut zero, &mut one);
    have_come_once(&rt, &gate, 2);
    one_took_it(&rt, taken);
    Ok(())
}
