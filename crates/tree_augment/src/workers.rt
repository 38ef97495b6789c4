//! All workers at once.

ghost use Rattle.std.specs.Prelude.{◌≡◌, []};
ghost use Rattle.flip_words.specs.Seat.{HoldsAllSeats};
ghost use Rattle.tree_augment.specs.Augmented.{HaveAugmented, HaveTakenNone};
ghost use Rattle.tree_augment.specs.ForestBoards.{IsBoardOf};

use crate::laws::rounds_augment;
use crate::rounds::go_round;
use flip_words::{FlipBoard, FlipSeat, seats_are_few};
use forest_core::Forest;
use level_sharing::{Sharing, Work, share_start, share_work};
use sp_ports::Gate;
use std::convert::Infallible;
use std::thread::Threads;

// What each of so many workers does: its round over the roots with a leaf, from the start of its
// share of them on.
#[derive(Drop)]
struct Rounds<'a, 'p> {
    forest: &'a Forest<'p>,
    board: &'a FlipBoard,
    workers: usize,
}

impl<'a, 'p> Work<FlipSeat, Infallible> for Rounds<'a, 'p> {
    ghost use Rattle.tree_augment.specs.Rounds.{CanGoRound, HasGoneRound};

    ghost can_begin = { λ w number t. CanGoRound w.forest.now w.board.now w.workers number t };

    ghost leaves = { λ w number t u. HasGoneRound w.forest.now w.board.now w.workers number t u };

    ghost completes = { λ w number t u.
        HasGoneRound w.forest.now w.board.now w.workers number t u };

    fn run(&self, number: u32, seat: &mut FlipSeat) -> Result<(), Infallible> {
        seat.is_rightful();
        let from = share_start(self.forest.leaves().len(), self.workers, number as usize);
        go_round(self.forest, self.board, seat, from);
        Ok(())
    }
}

/// Exchanges the path of each root with a leaf on a board that was opened from the forest, on which
/// nothing is taken yet, by as many workers as there are seats. These are all the board's, in any
/// order.
///
/// Of w workers, the worker i goes once round the roots with a leaf in their order, from the place
/// `i * l / w` of a list of l of them on, and exchanges the path of each whose tree no seat took
/// before. It calls `gate.arrive(i)` once, before its round. Workers run at once where there are
/// many roots with a leaf (`share_work`) and threads start. Takes no memory and waits for nothing
/// but the gate. Work: each worker looks once at each root with a leaf; two looks and two sets for
/// each row of a path.
pub fn augment<R: Threads + Sync, G: Gate>(
    rt: &R,
    forest: &Forest,
    board: &FlipBoard,
    seats: &mut [FlipSeat],
    gate: &G,
)
    requires board { IsBoardOf forest.now board.now }
    requires none_flipped { forest.now.flipped ≡ [] }
    requires all { HoldsAllSeats board.now seats.old }
    requires none_taken { HaveTakenNone seats.old }
    ensures { HaveAugmented forest.entry.now board.entry.now seats.new }
{
    augment_under(rt, forest, board, seats, &Sharing::usual(gate));
}

/// [`augment`] with a sharing, which says how many roots with a leaf are worth threads.
pub fn augment_under<R: Threads + Sync, G: Gate>(
    rt: &R,
    forest: &Forest,
    board: &FlipBoard,
    seats: &mut [FlipSeat],
    sharing: &Sharing<'_, G>,
)
    requires board { IsBoardOf forest.now board.now }
    requires none_flipped { forest.now.flipped ≡ [] }
    requires all { HoldsAllSeats board.now seats.old }
    requires none_taken { HaveTakenNone seats.old }
    ensures { HaveAugmented forest.entry.now board.entry.now seats.new }
{
    rounds_augment();
    seats_are_few(seats);
    let rounds = Rounds {
        forest,
        board,
        workers: seats.len(),
    };
    let Ok(()) = share_work(rt, sharing, &rounds, forest.leaves().len(), seats);
}
