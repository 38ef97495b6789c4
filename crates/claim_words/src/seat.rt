//! Seats.

ghost use Rattle.std.specs.Prelude.{◌≡◌, ◌<◌, ◌≤◌};
ghost use Rattle.sp_ids.specs.Limits.{max_workers};

use crate::views::View;
use atomic_table::Seat;
use std::marker::Model;

/// A seat at a board, with which one thread claims, wins and looks. Its lists are in proofs alone:
/// a seat keeps its number, 4 bytes.
#[derive(Drop)]
pub struct ClaimSeat {
    pub(crate) seat: Seat<(), View>,
    pub(crate) number: u32,
}

impl Model for ClaimSeat {
    ghost use Rattle.claim_words.specs.Seat as model;

    ghost Value = { model.Seat };

    ghost use Rattle.claim_words.specs.Rule.{nobody};
    ghost use Rattle.claim_words.specs.Stored.{IsStored, shown};
    ghost use Rattle.board_seats.specs.View.{known_or};

    ghost view = { λ s. shown s.seat.table_id (known_or nobody s.seat.me.0) };

    ghost invariant = { λ s. IsStored s.number s.seat.me };
}

impl ClaimSeat {
    // Its number, which is below 64, and that it counts 64 seats at most.
    pub(crate) fn number(&self) -> u32
        ensures number { result ≡ self.now.number }
        ensures below { result < max_workers }
        ensures few { self.now.seats ≤ max_workers }
    {
        self.number
    }
}
