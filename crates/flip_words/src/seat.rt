//! Seats.

ghost use Rattle.std.specs.Prelude.{◌≡◌, ◌≤◌};
ghost use Rattle.flip_words.specs.Seat.{IsRightful};
ghost use Rattle.sp_ids.specs.Limits.{max_workers};

use crate::views::View;
use atomic_table::Seat;
use std::marker::Model;

// A seat at the board's table, whatever it lists. It takes no memory.
#[derive(Drop)]
pub struct TableSeat {
    pub(crate) seat: Seat<(), View>,
}

impl Model for TableSeat {
    ghost use Rattle.flip_words.specs.Seat as model;

    ghost Value = { model.Seat };

    ghost use Rattle.board_seats.specs.View.{IsOpen, known_or};
    ghost use Rattle.flip_words.specs.Rule.{nobody};
    ghost use Rattle.flip_words.specs.Stored.{shown};

    ghost view = { λ s. shown s.seat.table_id (known_or nobody s.seat.me.0) };

    ghost invariant = { λ s. IsOpen nobody s.seat.me };
}

/// A seat at a board, with which one thread takes trees, sets vertices and looks at them. Its lists
/// are in proofs alone: a seat keeps its number, 4 bytes.
#[derive(Drop)]
pub struct FlipSeat {
    pub(crate) place: TableSeat,
    pub(crate) number: u32,
}

impl Model for FlipSeat {
    ghost use Rattle.std.specs.Prelude.{◌≡◌};
    ghost use Rattle.std.specs.Prelude.{◌≤◌};
    ghost use Rattle.flip_words.specs.Seat as model;
    ghost use Rattle.flip_words.specs.Seat.{IsRightful};
    ghost use Rattle.sp_ids.specs.Limits.{max_workers};

    ghost Value = { model.Seat };

    ghost view = { λ s. s.place };

    ghost invariant = { λ s. (s.number ≡ s.place.number) × IsRightful s.place
        × (s.place.seats ≤ max_workers) };
}

impl FlipSeat {
    /// Each tree that the seat lists as taken it took itself, and each vertex that it set is of
    /// such a tree.
    pub fn is_rightful(&self)
        ensures { IsRightful self.now }
    {
        prove!(self.number == self.number());
    }

    // Its number, and that it counts 64 seats at most.
    pub(crate) fn number(&self) -> u32
        ensures number { result ≡ self.now.number }
        ensures few { self.now.seats ≤ max_workers }
    {
        self.number
    }
}
