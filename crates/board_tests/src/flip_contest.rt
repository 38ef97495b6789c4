//! A board of a hundred trees that four seats contest at once: once all four have come, each seat
//! goes round all trees, and the taker of a tree matches its row with its column.

ghost use Rattle.std.specs.Prelude.{◌≡◌, ℕ, ◌+◌, ◌<◌, Some, [], ◌∷◌, length, IfOk};
ghost use Rattle.std.specs.Thread.{IsSync};
ghost use Rattle.bip_defs.specs.WordValues.{held};
ghost use Rattle.flip_words.specs.Seat.{AreAllSeats, new_seats};
ghost use Rattle.board_tests.specs.FlipContest.{HasVisited, IsContested, Visits};

use crate::outcomes::have_come_once;
use bip_graph::{Matching, Mates};
use flip_words::{FlipBoard, FlipSeat, Taken, seats_in_order_are_all};
use sp_ids::{Col, OutOfMemory, Row};
use sp_ports::Gate;
use std::alloc::Global;
use std::thread::{Threads, join_mut};
use test_gates::BarrierGate;

const TREES: u32 = 100;

// Takes the tree, if no seat has taken it, and matches its row with its column. Tells how many
// trees were taken.
fn visit(board: &FlipBoard, seat: &mut FlipSeat, tree: u32) -> u32
    requires tree { tree < 100 }
    requires seat { HasVisited board.now tree seat.old }
    ensures { Visits board.now (tree + 1) seat.old seat.new }
{
    match board.take(seat, Col(tree)) {
        Taken::Mine => {
            board.set_row(seat, Col(tree), Row(tree), Col(tree));
            board.set_col(seat, Col(tree), Col(tree), Row(tree));
            1
        }
        Taken::Held(_) => 0,
    }
}

// The part of the seat with this number. Tells how many trees it took.
fn contend(board: &FlipBoard, gate: &BarrierGate, number: u32, seat: &mut FlipSeat) -> u32
    requires { HasVisited board.now 0 seat.old }
    ensures { Visits board.now 100 seat.old seat.new }
{
    gate.arrive(number);
    let mut mine = 0u32;
    for tree in 0..TREES {
        let taken = visit(board, seat, tree);
        mine = mine.saturating_add(taken);
    }
    mine
}

// Two of them at once, with these numbers.
fn contend_by_two<R: Threads>(
    rt: &R,
    board: &FlipBoard,
    gate: &BarrierGate,
    numbers: (u32, u32),
    left: &mut FlipSeat,
    right: &mut FlipSeat,
) -> u32
    requires { HasVisited board.now 0 left.old × HasVisited board.now 0 right.old }
    ensures { Visits board.now 100 left.old left.new × Visits board.now 100 right.old right.new }
{
    let (first, second) = join_mut(
        rt,
        &mut || -> u32
            requires { HasVisited board.now 0 left.now }
            ensures { Visits board.entry.now 100 left.entry.now left.exit.now }
        { contend(board, gate, numbers.0, left) },
        &mut || -> u32
            requires { HasVisited board.now 0 right.now }
            ensures { Visits board.entry.now 100 right.entry.now right.exit.now }
        { contend(board, gate, numbers.1, right) },
    );
    first.saturating_add(second)
}

// All four at once.
fn contend_by_four<R: Threads + Sync>(
    rt: &R,
    board: &FlipBoard,
    gate: &BarrierGate,
    zero: &mut FlipSeat,
    one: &mut FlipSeat,
    two: &mut FlipSeat,
    three: &mut FlipSeat,
) -> u32
    requires lower { HasVisited board.now 0 zero.old × HasVisited board.now 0 one.old }
    requires upper { HasVisited board.now 0 two.old × HasVisited board.now 0 three.old }
    ensures lower { Visits board.now 100 zero.old zero.new × Visits board.now 100 one.old one.new }
    ensures upper { Visits board.now 100 two.old two.new
        × Visits board.now 100 three.old three.new }
{
    let (first, second) = join_mut(
        rt,
        &mut || -> u32
            requires { IsSync R.row × HasVisited board.now 0 zero.now
                × HasVisited board.now 0 one.now }
            ensures { Visits board.entry.now 100 zero.entry.now zero.exit.now
                × Visits board.entry.now 100 one.entry.now one.exit.now }
        { contend_by_two(rt, board, gate, (0, 1), zero, one) },
        &mut || -> u32
            requires { IsSync R.row × HasVisited board.now 0 two.now
                × HasVisited board.now 0 three.now }
            ensures { Visits board.entry.now 100 two.entry.now two.exit.now
                × Visits board.entry.now 100 three.entry.now three.exit.now }
        { contend_by_two(rt, board, gate, (2, 3), two, three) },
    );
    first.saturating_add(second)
}

// The roots of a hundred vertices, each in the tree of its number.
fn own_trees(alloc: Global) -> Result<Vec<Option<Col>>, OutOfMemory>
    ensures long { IfOk result (λ trees. length trees.items ≡ 100) }
    ensures own { IfOk result (λ trees. (t : ℕ) → t < 100 → held trees.items t ≡ Some t) }
{
    let mut trees = Vec::with_capacity(alloc, 100)?;
    for tree in 0..TREES {
        trees.push(Some(Col(tree)))?;
    }
    Ok(trees)
}

// The board and its four seats.
fn board_for_four(
    alloc: Global,
) -> Result<(FlipBoard, FlipSeat, FlipSeat, FlipSeat, FlipSeat), OutOfMemory>
    ensures board { IfOk result (λ b. IsContested b.0) }
    ensures seats { IfOk result (λ b. b.1 ∷ b.2 ∷ b.3 ∷ b.4 ∷ [] ≡ new_seats b.0 4) }
{
    let matching = Matching::empty(alloc, TREES, TREES)?;
    let trees = own_trees(alloc)?;
    let (board, mut seats) = FlipBoard::new(
        alloc,
        &matching,
        trees.as_slice(),
        trees.as_slice(),
        4,
    )?;
    let Some(three) = seats.pop() else {
        unreachable!()
    };
    let Some(two) = seats.pop() else {
        unreachable!()
    };
    let Some(one) = seats.pop() else {
        unreachable!()
    };
    let Some(zero) = seats.pop() else {
        unreachable!()
    };
    Ok((board, zero, one, two, three))
}

// Closes the board, of which these are all seats.
fn close_for_four(
    alloc: Global,
    board: FlipBoard,
    zero: FlipSeat,
    one: FlipSeat,
    two: FlipSeat,
    three: FlipSeat,
) -> Result<Mates, OutOfMemory>
    requires board { IsContested board }
    requires seats { AreAllSeats board (zero ∷ one ∷ two ∷ three ∷ []) }
    ensures { IfOk result (λ m. (length m.rows ≡ 100) × (length m.cols ≡ 100)) }
{
    seats_in_order_are_all();
    let seats = vec![in alloc; zero, one, two, three]?;
    match board.close(alloc, seats) {
        Ok(mates) => Ok(mates),
        Err(_) => Err(OutOfMemory),
    }
}

// Whether each row is matched with the column of its number.
fn are_exchanged(mates: &Mates) -> bool
    requires { (length mates.now.rows ≡ 100) × (length mates.now.cols ≡ 100) }
{
    let mut exchanged = true;
    for tree in 0..TREES {
        exchanged &= mates.col_of(Row(tree)) == Some(Col(tree));
        exchanged &= mates.row_of(Col(tree)) == Some(Row(tree));
    }
    exchanged
}

#[test]
fn four_seats_on_every_tree(rt: HostRuntime) -> Result<(), OutOfMemory> {
    let gate = BarrierGate::new(rt.alloc(), 4)?;
    let (board, mut zero, mut one, mut two, mut three) = board_for_four(rt.alloc())?;
    let taken = contend_by_four(
        &rt, &board, &gate, &mut zero, &mut one, &mut two, &mut three,
    );
    have_come_once(&rt, &gate, 4);
    assert_eq!(rt; taken, TREES);
    let mates = close_for_four(rt.alloc(), board, zero, one, two, three)?;
    assert!(rt; are_exchanged(&mates));
    Ok(())
}
