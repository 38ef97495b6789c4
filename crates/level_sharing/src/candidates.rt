//! Rows that a worker may claim, gathered before any of them is claimed.

ghost use Rattle.std.specs.Prelude.{◌≡◌, ℕ, OnOk};
ghost use Rattle.bip_defs.specs.Forest.{State};
ghost use Rattle.level_sharing.specs.Candidates.{AreCandidates, AreOnBoard, CanTake, HasAdvanced, IsCovered, IsDecided, IsOnBoard};
ghost use Rattle.level_sharing.specs.Progress.{HasSettled};
ghost use Rattle.level_sharing.specs.Shares.{Share};

use crate::candidate::Candidate;
use crate::claims::claim_row;
use crate::looks::finds_leaf;
use claim_words::{ClaimBoard, Worker};
use sp_ids::OutOfMemory;

/// A worker claims these candidates, in their order, and passes over those whose root has a leaf by
/// then. An exchange makes the processor wait for what it has begun to load: so many looks first
/// and then many claims are faster than each claim after its look.
///
/// Afterwards it knows a holder of each row, or a leaf of its root. Returns `OutOfMemory` if one
/// of its fresh lists cannot grow; what is listed then stands. Work: one look and two exchanges at
/// most for each.
pub fn claim_all(
    board: &ClaimBoard,
    worker: &mut Worker,
    candidates: &[Candidate],
) -> Result<(), OutOfMemory>
    requires seat { worker.old.seat.board ≡ board.now }
    requires on_board { AreOnBoard board.now candidates.now }
    ensures progress { (s : State) (own : Share) → AreCandidates s own candidates.now
        → HasAdvanced s own worker.old worker.new }
    ensures settled { OnOk result ((s : State) (own : Share) → AreCandidates s own candidates.now
        → HasSettled s worker.old → HasSettled s worker.new) }
    ensures seat { worker.new.seat.board ≡ worker.old.seat.board }
    ensures decided { OnOk result ((s : State) (own : Share) → AreCandidates s own candidates.now
        → (row root : ℕ) → IsCovered worker.old candidates.now row root
        → IsDecided worker.new row root) }
{
    for candidate in candidates {
        claim_one(board, worker, *candidate)?;
    }
    Ok(())
}

// A worker claims one candidate, unless its root has a leaf.
fn claim_one(
    board: &ClaimBoard,
    worker: &mut Worker,
    candidate: Candidate,
) -> Result<(), OutOfMemory>
    requires seat { worker.old.seat.board ≡ board.now }
    requires range { IsOnBoard board.now candidate }
    ensures progress { (s : State) (own : Share) → CanTake s own candidate
        → HasAdvanced s own worker.old worker.new }
    ensures settled { OnOk result ((s : State) (own : Share) → CanTake s own candidate
        → HasSettled s worker.old → HasSettled s worker.new) }
    ensures seat { worker.new.seat.board ≡ worker.old.seat.board }
    ensures decided { OnOk result (IsDecided worker.new candidate.row candidate.root) }
{
    if !finds_leaf(board, worker, candidate.root) {
        claim_row(board, worker, candidate)?;
    }
    Ok(())
}
