//! What a worker finds in the words of a board.

ghost use Rattle.std.specs.Prelude.{◌≡◌, ◌<◌, length, IsTrue};
ghost use Rattle.bip_defs.specs.Forest.{State};
ghost use Rattle.level_sharing.specs.Candidates.{HasAdvanced};
ghost use Rattle.level_sharing.specs.Progress.{HasSettled, KnowsHolder, KnowsLeaf};
ghost use Rattle.level_sharing.specs.Shares.{Share};

use claim_words::{ClaimBoard, Worker};
use sp_ids::{Col, Row};

/// Whether a worker finds that a row is held. It knows a holder of the row then. Work: one look.
pub fn finds_holder(board: &ClaimBoard, worker: &mut Worker, row: Row) -> bool
    requires seat { worker.old.seat.board ≡ board.now }
    requires row { row < length board.now.rows }
    ensures progress { (s : State) (own : Share) → HasAdvanced s own worker.old worker.new }
    ensures settled { (s : State) → HasSettled s worker.old → HasSettled s worker.new }
    ensures seat { worker.new.seat.board ≡ worker.old.seat.board }
    ensures holder { IsTrue result → KnowsHolder worker.new row }
{
    worker.look_row(board, row).is_some()
}

/// Whether a worker finds that a root has a leaf. It knows a leaf of the root then. Work: one look.
pub fn finds_leaf(board: &ClaimBoard, worker: &mut Worker, root: Col) -> bool
    requires seat { worker.old.seat.board ≡ board.now }
    requires root { root < length board.now.roots }
    ensures progress { (s : State) (own : Share) → HasAdvanced s own worker.old worker.new }
    ensures settled { (s : State) → HasSettled s worker.old → HasSettled s worker.new }
    ensures seat { worker.new.seat.board ≡ worker.old.seat.board }
    ensures leaf { IsTrue result → KnowsLeaf worker.new root }
{
    worker.look_root(board, root).is_some()
}
