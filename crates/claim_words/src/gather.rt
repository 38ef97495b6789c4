//! The gathering of the workers' seats.

ghost use Rattle.std.specs.Prelude.{◌≡◌, ◌+◌, length};
ghost use Rattle.claim_words.specs.Board.{Words};
ghost use Rattle.claim_words.specs.Listed.{followed_by};
ghost use Rattle.claim_words.specs.Seat.{AreNumbered, first_seat};
ghost use Rattle.claim_words.specs.Settles.{Settles, SettlesAll};
ghost use Rattle.claim_words.specs.WorkerState.{AreAllWorkers, after_gather, fresh_lists, listed_by_workers, re_seated, seats_of};

use crate::board::ClaimBoard;
use crate::seat::ClaimSeat;
use crate::worker::Worker;

impl ClaimBoard {
    /// Gathers what the seats of all workers list in the seat 0, and gives the other workers new
    /// seats, which list nothing. So it is told, as `close` is, what the words hold: each word that
    /// was opened with a value holds it and no seat lists it, each other word is empty and listed
    /// by no seat, or holds what one seat lists for it, once, and each value that was seen stands.
    /// The fresh lists stay. It takes no memory.
    pub fn gather(&self, workers: &mut [Worker])
        requires { AreAllWorkers self.now workers.old }
        ensures workers { workers.new ≡ after_gather self.now workers.old }
        ensures all { AreAllWorkers self.now workers.new }
        ensures fresh { fresh_lists workers.new ≡ fresh_lists workers.old }
        ensures words { (words : Words) × SettlesAll self.now words (seats_of workers.old)
            × SettlesAll self.now words (seats_of workers.new) }
    {
        let Some((first, others)) = workers.split_first_mut() else {
            unreachable!()
        };
        let Some(seat) = &mut first.seat else {
            unreachable!()
        };
        self.renew(seat, others);
    }

    // The seat 0 takes in the seats of the other workers, the highest number first, and splits off
    // new ones.
    fn renew(&self, first: &mut ClaimSeat, others: &mut [Worker])
        requires first { first.old ≡ first_seat self.now (1 + length others.old) first.old.listed }
        requires others { AreNumbered self.now 1 (seats_of others.old) }
        ensures first { first.new ≡ first_seat self.now (1 + length others.old)
            (followed_by (listed_by_workers others.old) first.old.listed) }
        ensures others { others.new ≡ re_seated self.now 1 others.old }
        ensures words { (words : Words)
            × Settles self.now.rows self.now.roots words first.new.listed }
    {
        let Some((last, rest)) = others.split_last_mut() else {
            self.account(first);
            return;
        };
        let Some(seat) = last.seat.take() else {
            unreachable!()
        };
        let number = seat.number();
        self.join(first, seat);
        self.renew(first, rest);
        last.seat = Some(self.split(first, number));
    }
}
