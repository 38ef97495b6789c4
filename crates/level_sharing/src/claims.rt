//! A worker claims a row.

ghost use Rattle.std.specs.Prelude.{◌≡◌, IsTrue, IfOk, OnOk};
ghost use Rattle.bip_defs.specs.Forest.{State};
ghost use Rattle.level_sharing.specs.Candidates.{CanTake, HasAdvanced, IsOnBoard};
ghost use Rattle.level_sharing.specs.Progress.{HasSettled, KnowsHolder, KnowsLeaf};
ghost use Rattle.level_sharing.specs.Shares.{Share};

use crate::candidate::Candidate;
use claim_words::{ClaimBoard, Claimed, Worker};
use sp_ids::OutOfMemory;

/// A worker claims a candidate's row for its column. If it gets the row, and the row is free, that
/// is without a base mate, it wins the column's root for it. The result is whether it won.
///
/// Afterwards it knows a holder of the row, and if it won, a leaf of the root. Returns
/// `OutOfMemory` if one of its fresh lists cannot grow; what is listed then stands. Work: two
/// exchanges at most.
pub fn claim_row(
    board: &ClaimBoard,
    worker: &mut Worker,
    candidate: Candidate,
) -> Result<bool, OutOfMemory>
    requires seat { worker.old.seat.board ≡ board.now }
    requires range { IsOnBoard board.now candidate }
    ensures progress { (s : State) (own : Share) → CanTake s own candidate
        → HasAdvanced s own worker.old worker.new }
    ensures settled { OnOk result ((s : State) (own : Share) → CanTake s own candidate
        → HasSettled s worker.old → HasSettled s worker.new) }
    ensures seat { worker.new.seat.board ≡ worker.old.seat.board }
    ensures holder { OnOk result (KnowsHolder worker.new candidate.row) }
    ensures leaf { IfOk result (λ won. IsTrue won → KnowsLeaf worker.new candidate.root) }
{
    let Candidate {
        row,
        col,
        root,
        free,
    } = candidate;
    match worker.claim(board, row, col)? {
        Claimed::Held(_) => Ok(false),
        Claimed::Mine => {
            if !free {
                return Ok(false);
            }
            worker.win(board, root, row)?;
            Ok(true)
        }
    }
}
