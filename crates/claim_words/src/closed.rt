//! A board that is closed.

ghost use Rattle.std.specs.Prelude.{◌≡◌, ◌<◌, length, IfErr, IfOk};
ghost use Rattle.bip_defs.specs.WordValues.{held};
ghost use Rattle.claim_words.specs.Seat.{AreAllSeats, HoldsAllSeats, first_seat, gathered};
ghost use Rattle.claim_words.specs.Settles.{SettlesAll};
ghost use Rattle.claim_words.specs.WorkerState.{AreAllWorkers, seats_of};

use crate::board::{ClaimBoard, identified, value};
use crate::seat::ClaimSeat;
use crate::worker::{Worker, seats_of_all};
use sp_ids::{Col, Id, OutOfMemory, Row};
use std::alloc::Global;
use std::marker::Model;

/// The words of a board that no thread shares any more.
pub struct Closed {
    words: atomic_table::Closed<(), Global>,
    rows: usize,
}

impl Model for Closed {
    ghost use Rattle.claim_words.specs.Board.{Words};

    ghost Value = { Words };

    ghost use Rattle.std.specs.Prelude.{◌≡◌};
    ghost use Rattle.std.specs.Mem.Slots.{IsFull, slots_items, slots_len};
    ghost use Rattle.claim_words.specs.WordCodes.{decoded};
    ghost use Rattle.claim_words.specs.Stored.{IsLeft};

    ghost view = { λ c. decoded c.rows (slots_items c.words.words) };

    ghost invariant = { λ c. IsFull c.words.words × (slots_len c.words.slots ≡ 0)
        × IsLeft c.rows (slots_items c.words.words) };
}

impl Closed {
    /// The column that holds a row, if any.
    pub fn holder(&self, row: Row) -> Option<Col>
        requires { row < length self.now.rows }
        ensures { result ≡ held self.now.rows row }
    {
        let word = self.words.word(1 + row.number() as usize);
        identified(value(word))
    }

    /// The leaf that a root has, if any.
    pub fn leaf(&self, root: Col) -> Option<Row>
        requires { root < length self.now.roots }
        ensures { result ≡ held self.now.roots root }
    {
        let word = self.words.word(1 + self.rows + root.number() as usize);
        identified(value(word))
    }
}

impl Drop for Closed {
    fn drop(self) {
        let Self { words, rows: _ } = self;
        words.free();
    }
}

impl ClaimBoard {
    /// Closes the board, once all its seats are there, in any order: each word
    /// that was opened with a value holds it and no seat lists it, each other word is empty and
    /// listed by no seat, or holds what one seat lists for it, once, and each value that was seen
    /// stands. It takes no memory, and an `Err` would hand all back.
    pub fn close(self, mut seats: Vec<ClaimSeat>) -> Result<Closed, (ClaimBoard, Vec<ClaimSeat>)>
        requires { HoldsAllSeats self seats.items }
        ensures ok { IfOk result (λ words. SettlesAll self words seats.items) }
        ensures err { IfErr result (λ back. (back.0 ≡ self) × (back.1.items ≡ seats.items)) }
    {
        seats.sort_unstable_by_key(|seat| seat.number());
        let first = self.join_all(seats);
        let ClaimBoard { table, rows } = self;
        Ok(Closed {
            words: table.close_with(first.seat),
            rows,
        })
    }

    /// Closes the board with the seats of all its workers, and says what `close` says. Returns
    /// `OutOfMemory` if it cannot allocate the list of these seats; board and workers are dropped
    /// then.
    pub fn close_with(self, alloc: Global, workers: Vec<Worker>) -> Result<Closed, OutOfMemory>
        requires { AreAllWorkers self workers.items }
        ensures { IfOk result (λ words. SettlesAll self words (seats_of workers.items)) }
    {
        let seats = seats_of_all(alloc, workers)?;
        match self.close(seats) {
            Ok(closed) => Ok(closed),
            Err(_back) => Err(OutOfMemory),
        }
    }

    // The seat 0, once it has taken in all others.
    fn join_all(&self, mut seats: Vec<ClaimSeat>) -> ClaimSeat
        requires { AreAllSeats self.now seats.items }
        ensures { result ≡ first_seat self.now 1 (gathered seats.items) }
    {
        let mut first = seats.remove(0);
        while let Some(last) = seats.pop() {
            self.join(&mut first, last);
        }
        first
    }
}
