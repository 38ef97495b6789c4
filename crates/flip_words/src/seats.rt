//! What many seats have in common.

ghost use Rattle.std.specs.Prelude.{◌≤◌, length};
ghost use Rattle.bip_defs.specs.Lists.{Among};
ghost use Rattle.flip_words.specs.Board.{Board};
ghost use Rattle.flip_words.specs.Seat.{HoldsAllSeats, IsRightful, Seat};
ghost use Rattle.sp_ids.specs.Limits.{max_workers};

use crate::seat::FlipSeat;

// Each of these seats has taken itself what it lists as taken, and set vertices of such trees
// alone.
pub(crate) fn are_rightful(seats: &[FlipSeat])
    ensures { (s : Seat) → Among s seats.now → IsRightful s }
{
    for seat in seats {
        seat.is_rightful();
    }
}

// Each of these seats counts 64 seats at most.
fn count_few(seats: &[FlipSeat])
    ensures { (s : Seat) → Among s seats.now → s.seats ≤ max_workers }
{
    for seat in seats {
        seat.number();
    }
}

/// All seats of a board are few: 64 at most. Work: one step for each seat.
pub fn seats_are_few(seats: &[FlipSeat])
    ensures { (b : Board) → HoldsAllSeats b seats.now → length seats.now ≤ max_workers }
{
    count_few(seats);
}
