//! Laws on boards whose seats went round.

ghost use Rattle.std.specs.Prelude.{List};
ghost use Rattle.bip_defs.specs.Forest.{State};
ghost use Rattle.bip_graph.specs.Mates.{Mated};
ghost use Rattle.flip_words.specs.Board.{Board};
ghost use Rattle.flip_words.specs.ClosedBoards.{SettlesAll};
ghost use Rattle.flip_words.specs.Seat.{HoldsAllSeats, Seat};
ghost use Rattle.forest_core.specs.Exchanged.{AreExchanged};
ghost use Rattle.forest_core.specs.Sound.{IsSound};
ghost use Rattle.tree_augment.specs.Augmented.{HaveAugmented, HaveTakenNone};
ghost use Rattle.tree_augment.specs.ForestBoards.{IsBoardOf, IsSoundBoardOf};
ghost use Rattle.tree_augment.specs.Rounds.{HaveGoneRound};

use flip_words::{each_tree_has_one_taker, mates_are_those_set, seats_stay_all};

/// Once its seats have augmented a forest, a board closes with the mates of the forest's base
/// matching in which the path of every leaf is exchanged.
pub fn closed_mates_are_exchanged()
    ensures { (s : State) (b : Board) (ts : List Seat) (m : Mated) → IsSound s → IsBoardOf s b
        → HaveAugmented s b ts → SettlesAll b m ts → AreExchanged s m }
{}

/// All seats of a board that was opened from a forest have augmented it, once each went round.
pub fn rounds_augment()
    ensures { (s : State) (b : Board) (ts us : List Seat) → IsSoundBoardOf s b
        → HoldsAllSeats b ts → HaveTakenNone ts → HaveGoneRound s b ts us → HaveAugmented s b us }
{
    seats_stay_all();
    each_tree_has_one_taker();
    mates_are_those_set();
}
