//! Whole levels.

ghost use Rattle.std.specs.Prelude.{ℕ, List, OnOk, length};
ghost use Rattle.bip_defs.specs.Forest.{State};
ghost use Rattle.claim_words.specs.Board.{Board};
ghost use Rattle.claim_words.specs.WorkerState.{AreAllWorkers, WorkerState};
ghost use Rattle.level_sharing.specs.Level.{HaveProgressed, Level, WordsTell};
ghost use Rattle.level_sharing.specs.LevelWork.{GoesThrough, IsLevel, LeavesLevel};
ghost use Rattle.level_sharing.specs.Shares.{Share};

use crate::laws::fresh_lists_are_new;
use crate::work::{Sharing, Work, share_work};
use claim_words::{
    ClaimBoard, Worker, fresh_lists_join, known_values_stand, workers_are_few, workers_grow,
};
use sp_ids::OutOfMemory;
use sp_ports::Gate;
use std::thread::Threads;

/// Each worker does its part of a level on so many items, as [`share_work`] says, and then the
/// seats of all workers are gathered.
///
/// What holds afterwards is said of each forest with which board and workers agree, and of each
/// way to share it out in which every worker makes progress with its own share. Returns
/// `OutOfMemory` if a worker ends early: what is listed then stands. Work: as `share_work`, and
/// constant for each entry that the seats list.
pub fn share_level<R: Threads + Sync, G: Gate, W: Work<Worker, OutOfMemory>>(
    rt: &R,
    sharing: &Sharing<'_, G>,
    board: &ClaimBoard,
    work: &W,
    items: usize,
    workers: &mut [Worker],
) -> Result<(), OutOfMemory>
    requires level { (s : State) × (own : ℕ → Share)
        × IsLevel s own board.now (W.can_begin work.now) (W.leaves work.now) workers.old }
    ensures always { (s : State) (own : ℕ → Share)
        → IsLevel s own board.now (W.can_begin work.now) (W.leaves work.now) workers.old
        → LeavesLevel s own board.now workers.old workers.new }
    ensures ok { OnOk result ((s : State) (own : ℕ → Share)
        → IsLevel s own board.now (W.can_begin work.now) (W.leaves work.now) workers.old
        → GoesThrough s (W.completes work.now) (length workers.old) workers.new) }
{
    workers_are_few(workers);
    words_tell_of_levels();
    let result = share_work(rt, sharing, work, items, workers);
    board.gather(workers);
    result
}

// What the words tell of a level. Workers that have made progress have all seats of the board
// still, in the order of their numbers.
fn words_tell_of_levels()
    ensures words { (l : Level) → WordsTell l }
    ensures seats { (s : State) (own : ℕ → Share) (b : Board) (before after : List WorkerState)
        → HaveProgressed s own before after → AreAllWorkers b before → AreAllWorkers b after }
{
    fresh_lists_join();
    workers_grow();
    fresh_lists_are_new();
    known_values_stand();
}
