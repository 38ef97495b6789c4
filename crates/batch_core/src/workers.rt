//! All files of a batch, answered by many workers.

ghost use Rattle.std.specs.Prelude.{◌≡◌, ◌≤◌, ◌<◌, length, map, IfOk};
ghost use Rattle.std.specs.List.{All};
ghost use Rattle.std.specs.Thread.{IsSync};
ghost use Rattle.sp_ids.specs.Limits.{max_workers};
ghost use Rattle.mm_frames.specs.Batches.{files_of};
ghost use Rattle.batch_core.specs.Shares.{AreAnswers, AreFull, IsAtBoard, IsWithinLimits, files_in, new_share};

use crate::{Answers, Share};
use btf_tool::FileAnswer;
use btf_words::Workers;
use claim_words::{ClaimBoard, ClaimSeat, new_seats_are_all};
use sp_ids::OutOfMemory;
use sp_ports::Gate;
use std::alloc::Global;
use std::thread;
use std::thread::Threads;

/// The answers to all files, by this many workers side by side if threads start. Each calls
/// `gate.arrive` once.
///
/// A file whose answer a worker could not allocate is answered at the end by the caller. Returns
/// `OutOfMemory` if that fails too, or if it cannot allocate 8 bytes a file and worker, or the list
/// of answers. Work: that of each file's analysis, and at most one claim of each file by each
/// worker.
pub fn answer_all<'a, R: Threads + Sync, G: Gate>(
    rt: &R,
    alloc: Global,
    files: &'a [Vec<u8>],
    workers: Workers,
    gate: &G,
) -> Result<Answers<'a>, OutOfMemory>
    requires { IsWithinLimits (files_of files.now) }
    ensures files { IfOk result (λ a. a.files ≡ files_of files.now) }
    ensures full { IfOk result AreFull }
{
    let mut answers = Answers::new(alloc, files)?;
    let mut shares = answered(rt, alloc, files, workers, gate)?;
    while let Some(share) = shares.pop() {
        let (_seat, found) = share.into_parts();
        put_all(&mut answers, found);
    }
    answers.fill_rest(rt)?;
    Ok(answers)
}

/// Puts each of the answers into its slot.
fn put_all(answers: &mut Answers<'_>, mut found: Vec<(u32, FileAnswer)>)
    requires { AreAnswers answers.old.files found.items }
    ensures { answers.new.files ≡ answers.old.files }
{
    while let Some((file, answer)) = found.pop() {
        answers.put(file, answer);
    }
}

/// The shares of so many workers after their work.
fn answered<'a, R: Threads + Sync, G: Gate>(
    rt: &R,
    alloc: Global,
    files: &'a [Vec<u8>],
    workers: Workers,
    gate: &G,
) -> Result<Vec<Share<'a>>, OutOfMemory>
    requires { IsWithinLimits (files_of files.now) }
    ensures { IfOk result (λ shares. All (λ share. share.files ≡ files_of files.now) shares.items) }
{
    new_seats_are_all();
    let workers = workers.number();
    let rows = vec![in alloc; None; files.len()]?;
    let columns = vec![in alloc; None; workers as usize]?;
    let (board, seats) = ClaimBoard::new(alloc, rows.as_slice(), columns.as_slice(), workers)?;
    let mut shares = new_shares(alloc, files, seats)?;
    work_all(rt, &board, gate, shares.as_mut_slice());
    Ok(shares)
}

/// A share with no answers for each of these seats.
fn new_shares<'a>(
    alloc: Global,
    files: &'a [Vec<u8>],
    seats: Vec<ClaimSeat>,
) -> Result<Vec<Share<'a>>, OutOfMemory>
    requires { IsWithinLimits (files_of files.now) }
    ensures { IfOk result
        (λ shares. shares.items ≡ map (new_share (files_of files.now)) seats.items) }
{
    let mut shares = Vec::with_capacity(alloc, seats.len())?;
    for seat in seats {
        shares.push(Share::new(alloc, files, seat))?;
    }
    Ok(shares)
}

/// The worker of each share does its work, side by side with the others if threads start. They are
/// numbered in the order of the shares.
fn work_all<R: Threads + Sync, G: Gate>(
    rt: &R,
    board: &ClaimBoard,
    gate: &G,
    shares: &mut [Share<'_>],
)
    requires at_board { All (IsAtBoard board.now) shares.old }
    requires some { 0 < length shares.old }
    requires columns { length shares.old ≤ length board.now.roots }
    requires few { length shares.old ≤ max_workers }
    ensures { files_in shares.new ≡ files_in shares.old }
{
    let threads = shares.len();
    let work = |number: usize, share: &mut Share<'_>|
        requires { IsSync R.row × IsSync G.row × IsAtBoard board.now share.now
            × (number < length board.now.roots) × (number < max_workers) }
        ensures { share.exit.now.files ≡ share.entry.now.files }
    {
        // A file whose answer it could not allocate is answered later.
        let _result = share.work(rt, board, gate, number as u32);
    };
    thread::for_each_mut(rt, shares, threads, &work);
}
