//! Workers.

ghost use Rattle.std.specs.Prelude.{◌≡◌, ℕ, ◌<◌, ◌≤◌, Some, length, IfOk, OnErr};
ghost use Rattle.claim_words.specs.Answers.{col_before, leaf_before};
ghost use Rattle.claim_words.specs.Board.{Board};
ghost use Rattle.claim_words.specs.Listed.{root_word, row_word};
ghost use Rattle.claim_words.specs.Seat.{KnowsRoot, KnowsRow};
ghost use Rattle.claim_words.specs.WorkerState.{AreAllWorkers, seated, seats_of, settled, work_after_claim, work_after_look, work_after_win};
ghost use Rattle.sp_ids.specs.Limits.{max_workers};

use crate::answers::{Claimed, Won};
use crate::board::ClaimBoard;
use crate::seat::ClaimSeat;
use sp_ids::{Col, OutOfMemory, Row};
use std::alloc::Global;
use std::marker::Model;

/// A seat, and what it claimed and won since it was settled last. It keeps 8 bytes for each of
/// these.
#[derive(Drop)]
pub struct Worker {
    // It is taken out while the seats are gathered, and at no other time.
    pub(crate) seat: Option<ClaimSeat>,
    fresh_claims: Vec<(Row, Col)>,
    fresh_wins: Vec<(Col, Row)>,
}

impl Model for Worker {
    ghost use Rattle.claim_words.specs.WorkerState.{WorkerState};

    ghost Value = { WorkerState };

    ghost use Rattle.std.specs.Prelude.{◌≡◌, Some};
    ghost use Rattle.claim_words.specs.Stored.{seat_in};

    ghost view = { λ w. record {
      seat = seat_in w.seat;
      fresh_claims = w.fresh_claims.items;
      fresh_wins = w.fresh_wins.items;
    } };

    ghost invariant = { λ w. w.seat ≡ Some (seat_in w.seat) };
}

impl Worker {
    /// A worker on this seat, with empty fresh lists. It takes no memory yet.
    pub fn new(alloc: Global, seat: ClaimSeat) -> Worker
        ensures { result ≡ seated seat }
    {
        Worker {
            seat: Some(seat),
            fresh_claims: Vec::new(alloc),
            fresh_wins: Vec::new(alloc),
        }
    }

    /// Claims a row for a column, as the board does, and notes what is got in the fresh list.
    /// Returns `OutOfMemory` if that list cannot grow; then no step was made.
    pub fn claim(&mut self, board: &ClaimBoard, row: Row, col: Col) -> Result<Claimed, OutOfMemory>
        requires seat { self.old.seat.board ≡ board.now }
        requires row { row < length board.now.rows }
        ensures ok { IfOk result (λ a. self.new
            ≡ work_after_claim self.old row col (col_before a)) }
        ensures known { IfOk result (λ a. (x : ℕ) → KnowsRow self.old.seat row x
            → col_before a ≡ Some x) }
        ensures err { OnErr result (self.new ≡ self.old) }
    {
        self.fresh_claims.reserve(1)?;
        let Some(seat) = &mut self.seat else {
            unreachable!()
        };
        let answer = board.claim(seat, row, col);
        if let Claimed::Mine = answer {
            self.fresh_claims.push_reserved((row, col));
        }
        Ok(answer)
    }

    /// Wins a root for a leaf, as the board does, and notes what is got in the fresh list. Answers
    /// `OutOfMemory` where that list cannot grow; then no step was made.
    pub fn win(&mut self, board: &ClaimBoard, root: Col, leaf: Row) -> Result<Won, OutOfMemory>
        requires seat { self.old.seat.board ≡ board.now }
        requires root { root < length board.now.roots }
        ensures ok { IfOk result (λ a. self.new
            ≡ work_after_win self.old root leaf (leaf_before a)) }
        ensures known { IfOk result (λ a. (x : ℕ) → KnowsRoot self.old.seat root x
            → leaf_before a ≡ Some x) }
        ensures err { OnErr result (self.new ≡ self.old) }
    {
        self.fresh_wins.reserve(1)?;
        let Some(seat) = &mut self.seat else {
            unreachable!()
        };
        let answer = board.win(seat, root, leaf);
        if let Won::Mine = answer {
            self.fresh_wins.push_reserved((root, leaf));
        }
        Ok(answer)
    }

    /// The column that holds a row, if any, as the board's look tells it.
    pub fn look_row(&mut self, board: &ClaimBoard, row: Row) -> Option<Col>
        requires seat { self.old.seat.board ≡ board.now }
        requires row { row < length board.now.rows }
        ensures worker { self.new ≡ work_after_look self.old (row_word row result) }
        ensures known { (x : ℕ) → KnowsRow self.old.seat row x → result ≡ Some x }
    {
        let Some(seat) = &mut self.seat else {
            unreachable!()
        };
        board.look_row(seat, row)
    }

    /// The leaf that a root has, if any, as the board's look tells it.
    pub fn look_root(&mut self, board: &ClaimBoard, root: Col) -> Option<Row>
        requires seat { self.old.seat.board ≡ board.now }
        requires root { root < length board.now.roots }
        ensures worker { self.new ≡ work_after_look self.old (root_word root result) }
        ensures known { (x : ℕ) → KnowsRoot self.old.seat root x → result ≡ Some x }
    {
        let Some(seat) = &mut self.seat else {
            unreachable!()
        };
        board.look_root(seat, root)
    }

    /// The claims that it made since it was settled, in order.
    pub fn fresh_claims(&self) -> &[(Row, Col)]
        ensures { result.now ≡ self.now.fresh_claims }
    {
        self.fresh_claims.as_slice()
    }

    /// The wins that it made since it was settled, in order: each root with its leaf.
    pub fn fresh_wins(&self) -> &[(Col, Row)]
        ensures { result.now ≡ self.now.fresh_wins }
    {
        self.fresh_wins.as_slice()
    }

    /// Empties both fresh lists.
    pub fn settle(&mut self)
        ensures { self.new ≡ settled self.old }
    {
        self.fresh_claims.clear();
        self.fresh_wins.clear();
    }

    // Its seat counts 64 seats at most.
    fn counts_few(&self)
        ensures { self.now.seat.seats ≤ max_workers }
    {
        let Some(seat) = &self.seat else {
            unreachable!()
        };
        seat.number();
    }

    /// Gives the seat back.
    pub fn into_seat(self) -> ClaimSeat
        ensures { result ≡ self.seat }
    {
        let Worker {
            seat,
            fresh_claims: _,
            fresh_wins: _,
        } = self;
        let Some(seat) = seat else { unreachable!() };
        seat
    }
}

/// The seats of these workers, in their order.
pub(crate) fn seats_of_all(
    alloc: Global,
    workers: Vec<Worker>,
) -> Result<Vec<ClaimSeat>, OutOfMemory>
    ensures { IfOk result (λ seats. seats.items ≡ seats_of workers.items) }
{
    let mut seats = Vec::with_capacity(alloc, workers.len())?;
    for worker in workers {
        seats.push(worker.into_seat())?;
    }
    Ok(seats)
}

/// Workers that have all seats of a board are few: 64 at most.
pub fn workers_are_few(workers: &[Worker])
    ensures { (b : Board) → AreAllWorkers b workers.now → length workers.now ≤ max_workers }
{
    if let Some(first) = workers.first() {
        first.counts_few();
    }
}
