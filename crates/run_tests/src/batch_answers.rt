//! The answers to a batch of a good file, a file without a banner, a file of too many rows and a file
//! without bytes.

ghost use Rattle.std.specs.Prelude.{◌≡◌, ◌≤◌, ◌<◌, length, IfOk};
ghost use Rattle.claim_words.specs.Listed.{nothing};
ghost use Rattle.claim_words.specs.Seat.{first_seat, new_seat};
ghost use Rattle.sp_ids.specs.Limits.{max_workers};
ghost use Rattle.mm_frames.specs.Batches.{files_of};
ghost use Rattle.batch_core.specs.Shares.{IsAnswerAt, IsWithinLimits};

use batch_core::{Answers, Put, Share, answer_all};
use btf_tool::{FileAnswer, answer_bytes};
use btf_words::Workers;
use claim_words::{ClaimBoard, ClaimSeat};
use mm_defs::Kind;
use sp_ids::OutOfMemory;
use sp_ports::NoGate;
use std::alloc::Global;
use std::thread::Threads;

// What the tests look at in an answer.
#[derive(Clone, Copy, Debug, PartialEq, Eq)]
enum Found {
    Report {
        rows: u32,
        cols: u32,
        entries: u32,
        rank: u32,
        blocks: usize,
    },
    Bad {
        limit: bool,
        line: u64,
        kind: Kind,
    },
}

fn told_by(answer: &FileAnswer) -> Found {
    match answer {
        FileAnswer::Report(decomposition, _components) => Found::Report {
            rows: decomposition.m,
            cols: decomposition.n,
            entries: decomposition.e,
            rank: decomposition.rank,
            blocks: decomposition.blocks.len(),
        },
        FileAnswer::Bad { limit, line, kind } => Found::Bad {
            limit: *limit,
            line: *line,
            kind: *kind,
        },
    }
}

const GOOD: Found = Found::Report {
    rows: 1,
    cols: 1,
    entries: 1,
    rank: 1,
    blocks: 1,
};

const NO_BANNER: Found = Found::Bad {
    limit: false,
    line: 1,
    kind: Kind::NoBanner,
};

const TOO_MANY_ROWS: Found = Found::Bad {
    limit: true,
    line: 2,
    kind: Kind::Rows,
};

// What is to be found in each of the files.
const FOUND: [Found; 4] = [GOOD, NO_BANNER, TOO_MANY_ROWS, NO_BANNER];

fn four_files(
    alloc: Global,
    good: &[u8],
    unlike: &[u8],
    large: &[u8],
) -> Result<Vec<Vec<u8>>, OutOfMemory>
    requires good { length good.now ≤ 100 }
    requires unlike { length unlike.now ≤ 100 }
    requires large { length large.now ≤ 100 }
    ensures within { IfOk result (λ files. IsWithinLimits (files_of files.items)) }
    ensures count { IfOk result (λ files. length files.items ≡ 4) }
{
    let mut files = Vec::new(alloc);
    files.push(good.to_vec(alloc)?)?;
    files.push(unlike.to_vec(alloc)?)?;
    files.push(large.to_vec(alloc)?)?;
    files.push(Vec::new(alloc))?;
    Ok(files)
}

fn batch(alloc: Global) -> Result<Vec<Vec<u8>>, OutOfMemory>
    ensures within { IfOk result (λ files. IsWithinLimits (files_of files.items)) }
    ensures count { IfOk result (λ files. length files.items ≡ 4) }
{
    four_files(
        alloc,
        b"%%MatrixMarket matrix coordinate pattern general\n1 1 1\n1 1\n",
        b"%%NotIt\n",
        b"%%MatrixMarket matrix coordinate pattern general\n134217729 1 0\n",
    )
}

// A board of four rows and two columns, and its seats.
fn board_for_two(alloc: Global) -> Result<(ClaimBoard, ClaimSeat, ClaimSeat), OutOfMemory>
    ensures board { IfOk result (λ b. (length b.0.rows ≡ 4) × (length b.0.roots ≡ 2)) }
    ensures seats { IfOk result (λ b. (b.1 ≡ first_seat b.0 2 nothing) × (b.2 ≡ new_seat b.0 1)) }
{
    let (board, mut seats) = ClaimBoard::new(alloc, &[None; 4], &[None; 2], 2)?;
    let Some(one) = seats.pop() else {
        unreachable!()
    };
    let Some(zero) = seats.pop() else {
        unreachable!()
    };
    Ok((board, zero, one))
}

// Whether each file has its answer, in the order of the files.
fn are_for_all_files(answers: &[(u32, FileAnswer)]) -> bool {
    for (place, listed) in answers.iter().enumerate() {
        if listed.0 as usize != place || Some(told_by(&listed.1)) != FOUND.get(place).copied() {
            return false;
        }
    }
    answers.len() == 4
}

// Whether the second worker, which comes first, answers all files, and the first none.
fn second_has_all<R: Threads + Sync>(
    rt: &R,
    alloc: Global,
    files: &[Vec<u8>],
    board: &ClaimBoard,
    zero: ClaimSeat,
    one: ClaimSeat,
) -> bool
    requires files { IsWithinLimits (files_of files.now) }
    requires count { length files.now ≡ 4 }
    requires rows { length board.now.rows ≡ 4 }
    requires roots { length board.now.roots ≡ 2 }
    requires zero { zero.board ≡ board.now }
    requires one { one.board ≡ board.now }
{
    let mut first = Share::new(alloc, files, zero);
    let mut second = Share::new(alloc, files, one);
    let worked = (
        second.work(rt, board, &NoGate, 1),
        first.work(rt, board, &NoGate, 0),
    );
    let (_seat, none) = first.into_parts();
    let (_seat, all) = second.into_parts();
    worked == (Ok(()), Ok(())) && none.is_empty() && are_for_all_files(all.as_slice())
}

// Whether it does at a board for the four files.
fn one_worker_claims<R: Threads + Sync>(rt: &R, alloc: Global) -> bool {
    let Ok(files) = batch(alloc) else {
        return false;
    };
    match board_for_two(alloc) {
        Err(_) => false,
        Ok((board, zero, one)) => { second_has_all(rt, alloc, files.as_slice(), &board, zero, one) }
    }
}

#[test]
fn a_file_is_claimed_by_one_worker(rt: HostRuntime) {
    assert!(rt; one_worker_claims(&rt, rt.alloc()));
}

// The answer to one of the files.
fn answer_of<R: Threads + Sync>(
    rt: &R,
    alloc: Global,
    files: &[Vec<u8>],
    file: u32,
) -> Result<FileAnswer, OutOfMemory>
    requires files { IsWithinLimits (files_of files.now) }
    requires file { file < length files.now }
    ensures { IfOk result (IsAnswerAt (files_of files.now) file) }
{
    answer_bytes(rt, alloc, files[file as usize].as_slice())
}

// Whether what stands in a slot is this.
fn has(answers: &Answers<'_>, file: u32, found: Option<Found>) -> bool
    requires { file < length answers.now.files }
{
    answers.get(file).map(told_by) == found
}

// Whether the first of two answers to a file goes into its empty slot, and stays there.
fn keeps_the_first(answers: &mut Answers<'_>, bad: FileAnswer, again: FileAnswer) -> bool
    requires count { length answers.old.files ≡ 4 }
    requires bad { IsAnswerAt answers.old.files 1 bad }
    requires again { IsAnswerAt answers.old.files 1 again }
{
    let was_empty = has(answers, 1, None);
    let first = answers.put(1, bad);
    let is_full = has(answers, 1, Some(NO_BANNER));
    let second = answers.put(1, again);
    was_empty
        && is_full
        && (first, second) == (Put::Stored, Put::Held)
        && has(answers, 1, Some(NO_BANNER))
        && has(answers, 0, None)
}

// Whether that holds of answers to the four files.
fn first_is_kept<R: Threads + Sync>(rt: &R, alloc: Global) -> bool {
    let Ok(files) = batch(alloc) else {
        return false;
    };
    let Ok(bad) = answer_of(rt, alloc, files.as_slice(), 1) else {
        return false;
    };
    let Ok(again) = answer_of(rt, alloc, files.as_slice(), 1) else {
        return false;
    };
    match Answers::new(alloc, files.as_slice()) {
        Err(_) => false,
        Ok(mut answers) => keeps_the_first(&mut answers, bad, again),
    }
}

#[test]
fn a_full_slot_keeps_what_it_has(rt: HostRuntime) {
    assert!(rt; first_is_kept(&rt, rt.alloc()));
}

// Whether the answers are those that are to be found.
fn are_all_found(answers: &Answers<'_>) -> bool
    requires { length answers.now.files ≡ 4 }
{
    for file in 0..4 {
        if !has(answers, file, FOUND.get(file as usize).copied()) {
            return false;
        }
    }
    true
}

// Whether an answer goes into its slot, and the rest is filled then.
fn fills_the_rest<R: Threads + Sync>(rt: &R, answers: &mut Answers<'_>, large: FileAnswer) -> bool
    requires count { length answers.old.files ≡ 4 }
    requires large { IsAnswerAt answers.old.files 2 large }
{
    let put = answers.put(2, large);
    let filled = answers.fill_rest(rt);
    put == Put::Stored && filled == Ok(()) && are_all_found(answers)
}

// Whether that holds of the answer to the third of the four files.
fn rest_is_filled<R: Threads + Sync>(rt: &R, alloc: Global) -> bool {
    let Ok(files) = batch(alloc) else {
        return false;
    };
    let Ok(large) = answer_of(rt, alloc, files.as_slice(), 2) else {
        return false;
    };
    match Answers::new(alloc, files.as_slice()) {
        Err(_) => false,
        Ok(mut answers) => fills_the_rest(rt, &mut answers, large),
    }
}

#[test]
fn the_rest_is_filled(rt: HostRuntime) {
    assert!(rt; rest_is_filled(&rt, rt.alloc()));
}

// Whether so many workers find what is to be found.
fn workers_find_all<R: Threads + Sync>(rt: &R, alloc: Global, workers: u32) -> bool
    requires some { 1 ≤ workers }
    requires few { workers ≤ max_workers }
{
    let Ok(files) = batch(alloc) else {
        return false;
    };
    match answer_all(rt, alloc, files.as_slice(), Workers::new(workers), &NoGate) {
        Err(_) => false,
        Ok(answers) => are_all_found(&answers),
    }
}

#[test]
fn any_number_of_workers_finds_the_same(rt: HostRuntime) {
    assert!(rt; workers_find_all(&rt, rt.alloc(), 1));
    assert!(rt; workers_find_all(&rt, rt.alloc(), 2));
    assert!(rt; workers_find_all(&rt, rt.alloc(), 64));
}
