//! What is told of the seats of a board, for callers that step on it.

ghost use Rattle.std.specs.Prelude.{◌≡◌, ℕ, ◌≤◌, List, length};
ghost use Rattle.std.specs.List.{AllZip};
ghost use Rattle.bip_graph.specs.Mates.{Mated};
ghost use Rattle.flip_words.specs.Board.{Board};
ghost use Rattle.flip_words.specs.ClosedBoards.{AreMatesAfter, HaveOneTakerEach, SettlesAll};
ghost use Rattle.flip_words.specs.Seat.{AreAllSeats, HoldsAllSeats, IsSameSeat, Seat, new_seats};

/// The seats with which a board is opened are as many as were asked for, and at least one of them is
/// all seats of the board, in the order of their numbers.
pub fn new_seats_are_all()
    ensures all { (b : Board) (count : ℕ) → 1 ≤ count → AreAllSeats b (new_seats b count) }
    ensures in_any_order { (b : Board) (count : ℕ) → 1 ≤ count
        → HoldsAllSeats b (new_seats b count) }
    ensures many { (b : Board) (count : ℕ) → length (new_seats b count) ≡ count }
{}

/// Seats that are all seats of a board in the order of their numbers are all its seats in any
/// order.
pub fn seats_in_order_are_all()
    ensures { (b : Board) (ss : List Seat) → AreAllSeats b ss → HoldsAllSeats b ss }
{}

/// All seats of a board stay all its seats, whatever they list.
pub fn seats_stay_all()
    ensures { (b : Board) (ss ts : List Seat) → AllZip IsSameSeat ss ts → HoldsAllSeats b ss
        → HoldsAllSeats b ts }
{}

/// At the close of a board each tree has one taker at most.
pub fn each_tree_has_one_taker()
    ensures { (b : Board) (m : Mated) (ss : List Seat) → HoldsAllSeats b ss → SettlesAll b m ss
        → HaveOneTakerEach ss }
{}

/// At the close of a board the mates are the opened ones but where a seat set them.
pub fn mates_are_those_set()
    ensures { (b : Board) (m : Mated) (ss : List Seat) → SettlesAll b m ss → AreMatesAfter b ss m }
{}
