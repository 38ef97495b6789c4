//! What one worker has of a batch.

ghost use Rattle.std.specs.Prelude.{◌≡◌, ◌<◌, length, OnOk};
ghost use Rattle.mm_frames.specs.Batches.{files_of};
ghost use Rattle.batch_core.specs.Shares.{AnswersItsClaims, AreAnswers, Continues, GoesRound, IsKnown, IsWithinLimits, new_share};

use btf_tool::{FileAnswer, answer_bytes};
use claim_words::{ClaimBoard, ClaimSeat, Claimed};
use sp_ids::{Col, OutOfMemory, Row};
use sp_ports::Gate;
use std::alloc::Global;
use std::marker::Model;
use std::thread::Threads;

/// One worker's share of a batch: the files, its seat at the board of all workers, and the answers
/// that it has found. Each of them is the answer to the file of its number, which counts from 0.
#[derive(Drop)]
pub struct Share<'a> {
    alloc: Global,
    files: &'a [Vec<u8>],
    seat: ClaimSeat,
    answers: Vec<(u32, FileAnswer)>,
}

impl<'a> Model for Share<'a> {
    ghost use Rattle.mm_frames.specs.Batches.{files_of};
    ghost use Rattle.batch_core.specs.Shares as shares;

    ghost Value = { shares.Share };

    ghost view = { λ s. record {
      files = files_of s.files.now;
      seat = s.seat;
      answers = s.answers.items;
    } };

    ghost invariant = { λ s. shares.IsWithinLimits (files_of s.files.now)
        × shares.AreAnswers (files_of s.files.now) s.answers.items };
}

impl<'a> Share<'a> {
    /// A share with no answers. There are at most 65,536 files, and each has at most 1,073,741,824
    /// bytes. It takes no memory.
    pub fn new(alloc: Global, files: &'a [Vec<u8>], seat: ClaimSeat) -> Share<'a>
        requires { IsWithinLimits (files_of files.now) }
        ensures { result ≡ new_share (files_of files.now) seat }
    {
        Share {
            alloc,
            files,
            seat,
            answers: Vec::new(alloc),
        }
    }

    /// Goes once over the files, and answers each that it claims for its worker. It calls
    /// `gate.arrive` once, before that.
    ///
    /// The seat must be one of the board, which has a row for each file and more columns than the
    /// worker's number. Returns `OutOfMemory` if a file that it has claimed cannot be answered:
    /// the answers that it has found stay, and that file has none.
    pub fn work<R: Threads + Sync, G: Gate>(
        &mut self,
        rt: &R,
        board: &ClaimBoard,
        gate: &G,
        worker: u32,
    ) -> Result<(), OutOfMemory>
        requires seat { self.old.seat.board ≡ board.now }
        requires rows { length board.now.rows ≡ length self.old.files }
        requires worker { worker < length board.now.roots }
        ensures always { Continues self.old self.new }
        ensures round { OnOk result (GoesRound worker self.old self.new) }
    {
        gate.arrive(worker);
        for file in 0..self.files.len() {
            self.answer_one(rt, board, worker, file)?;
        }
        Ok(())
    }

    /// Claims a file and, where it is this worker's, answers it.
    fn answer_one<R: Threads + Sync>(
        &mut self,
        rt: &R,
        board: &ClaimBoard,
        worker: u32,
        file: usize,
    ) -> Result<(), OutOfMemory>
        requires seat { self.old.seat.board ≡ board.now }
        requires rows { length board.now.rows ≡ length self.old.files }
        requires file { file < length self.old.files }
        ensures always { Continues self.old self.new }
        ensures known { IsKnown self.new.seat file }
        ensures own { OnOk result (AnswersItsClaims worker self.old self.new) }
    {
        let files = self.files;
        let number = file as u32;
        match board.claim(&mut self.seat, Row(number), Col(worker)) {
            Claimed::Held(_) => Ok(()),
            Claimed::Mine => {
                let answer = answer_bytes(rt, self.alloc, files[file].as_slice())?;
                Ok(self.answers.push((number, answer))?)
            }
        }
    }

    /// The seat, and the answers in the order in which they were found. It takes no memory.
    pub fn into_parts(self) -> (ClaimSeat, Vec<(u32, FileAnswer)>)
        ensures seat { result.0 ≡ self.entry.seat }
        ensures answers { result.1.items ≡ self.entry.answers }
        ensures right { AreAnswers self.entry.files result.1.items }
    {
        (self.seat, self.answers)
    }
}
