//! The walk over the path of one root.

ghost use Rattle.std.specs.Prelude.{◌≡◌, ℕ, Some};
ghost use Rattle.bip_defs.specs.Lists.{Among};
ghost use Rattle.bip_defs.specs.WordValues.{held};
ghost use Rattle.flip_words.specs.Seat.{HasSet, Took};
ghost use Rattle.tree_augment.specs.ForestBoards.{IsSoundBoardOf};
ghost use Rattle.tree_augment.specs.Rounds.{HasExchanged};

use flip_words::{FlipBoard, FlipSeat};
use forest_core::Forest;
use sp_ids::{Col, Row};

/// Exchanges the path of a root on the board, from its leaf up, for a seat that took the root's
/// tree and has set none of its vertices. Work: two looks and two sets for each row of the path.
pub fn exchange(forest: &Forest, board: &FlipBoard, seat: &mut FlipSeat, root: Col, leaf: Row)
    requires board { IsSoundBoardOf forest.now board.now }
    requires seat { seat.old.board ≡ board.now }
    requires leaf { Among (root, leaf) forest.now.leaves }
    requires took { Took seat.old root }
    requires unset { (v : ℕ) → held board.now.trees v ≡ Some root → ¬ HasSet seat.old v }
    ensures { HasExchanged forest.now board.now root seat.old seat.new }
{
    let mut row = leaf;
    loop {
        let Some(col) = forest.holder(row) else {
            unreachable!()
        };
        board.set_row(seat, root, row, col);
        board.set_col(seat, root, col, row);
        match forest.base_row(col) {
            Some(next) => row = next,
            None => return,
        }
    }
}
