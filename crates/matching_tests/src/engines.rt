//! The start and every engine, on each matrix and on its transpose.

ghost use Rattle.std.specs.Prelude.{IfOk};
ghost use Rattle.bip_graph.specs.Matching.{IsMatchingOf};

use crate::pairs::has_pairs;
use bip_graph::Matching;
use hall_witness::{Reach, plain, reach};
use pothen_fan::{lengthen, phase};
use sp_ids::OutOfMemory;
use sp_pattern::Pattern;
use sp_ports::NoGate;
use std::alloc::Global;
use std::test::Fail;
use std::thread::Threads;
use test_matrices::{Worked, are, matching_of, pairs_in, pattern_from, seen, worked_matrices};

/// What makes a matching maximum. The number is one of workers.
#[derive(Clone, Copy)]
enum Engine {
    Mc21,
    PothenFan,
    TreeGraft(u32),
}

const ENGINES: [Engine; 6] = [
    Engine::Mc21,
    Engine::PothenFan,
    Engine::TreeGraft(1),
    Engine::TreeGraft(2),
    Engine::TreeGraft(3),
    Engine::TreeGraft(64),
];

/// What is found in a matrix: its rank, the columns that some maximum matching misses, and pairs
/// that the matching has.
#[derive(Clone, Copy)]
struct Found<'a> {
    rank: u32,
    missed: &'a [u32],
    sure: &'a [(u32, u32)],
}

fn completed<R: AllocGlobal + Threads + Sync>(
    rt: &R,
    engine: Engine,
    pattern: &Pattern,
    matching: Matching,
) -> Result<Matching, OutOfMemory>
    requires { IsMatchingOf pattern.now matching }
    ensures { IfOk result (λ m. IsMatchingOf pattern.now m) }
{
    match engine {
        Engine::Mc21 => mc21_match::complete(rt.alloc(), pattern, matching),
        Engine::PothenFan => pothen_fan::complete(rt.alloc(), pattern, matching),
        Engine::TreeGraft(workers) => by_workers(rt, workers, pattern, matching),
    }
}

/// The matching as it is where the number of workers is 0 or past 64.
fn by_workers<R: AllocGlobal + Threads + Sync>(
    rt: &R,
    workers: u32,
    pattern: &Pattern,
    matching: Matching,
) -> Result<Matching, OutOfMemory>
    requires { IsMatchingOf pattern.now matching }
    ensures { IfOk result (λ m. IsMatchingOf pattern.now m) }
{
    if workers < 1 || workers > 64 {
        return Ok(matching);
    }
    tree_graft::complete(rt, rt.alloc(), pattern, matching, workers, &NoGate)
}

/// Whether the search gives the missed columns, and no path.
fn gives_missed(
    alloc: Global,
    pattern: &Pattern,
    matching: &Matching,
    missed: &[u32],
) -> Result<bool, OutOfMemory>
    requires { IsMatchingOf pattern.now matching.now }
{
    match reach(alloc, pattern, matching)? {
        Reach::Witness(columns) => Ok(are(columns.as_slice(), missed)),
        Reach::Path(_) => Ok(false),
    }
}

/// Whether a matching is maximum and has the pairs that are sure. The search gives the missed
/// columns, and a phase finds no path.
fn is_maximum(
    alloc: Global,
    pattern: &Pattern,
    matching: &mut Matching,
    found: &Found<'_>,
) -> Result<bool, OutOfMemory>
    requires { IsMatchingOf pattern.now matching.old }
{
    Ok(
        matching.size() == found.rank
            && has_pairs(matching, found.sure)
            && gives_missed(alloc, pattern, matching, found.missed)?
            && phase(alloc, pattern, matching)? == 0,
    )
}

/// Whether the search gives a path.
fn has_path(alloc: Global, pattern: &Pattern, matching: &Matching) -> Result<bool, OutOfMemory>
    requires { IsMatchingOf pattern.now matching.now }
{
    match reach(alloc, pattern, matching)? {
        Reach::Witness(_) => Ok(false),
        Reach::Path(_) => Ok(true),
    }
}

/// Whether depth-first phases make the matching longer.
fn lengthens(alloc: Global, pattern: &Pattern, matching: &Matching) -> Result<bool, OutOfMemory>
    requires { IsMatchingOf pattern.now matching.now }
{
    let longer = lengthen(alloc, pattern, matching.copy(alloc)?)?;
    Ok(longer.size() > matching.size())
}

/// Whether an engine makes the matching maximum.
fn completes<R: AllocGlobal + Threads + Sync>(
    rt: &R,
    engine: Engine,
    pattern: &Pattern,
    matching: &Matching,
    found: &Found<'_>,
) -> Result<bool, OutOfMemory>
    requires { IsMatchingOf pattern.now matching.now }
{
    let mut grown = completed(rt, engine, pattern, matching.copy(rt.alloc())?)?;
    is_maximum(rt.alloc(), pattern, &mut grown, found)
}

/// Whether every engine makes the matching maximum. Where it is smaller than the rank, the search
/// gives a path before, and depth-first phases make it longer.
fn all_complete<R: AllocGlobal + Threads + Sync>(
    rt: &R,
    pattern: &Pattern,
    matching: &Matching,
    found: &Found<'_>,
) -> Result<bool, OutOfMemory>
    requires { IsMatchingOf pattern.now matching.now }
{
    for engine in ENGINES {
        if !completes(rt, engine, pattern, matching, found)? {
            return Ok(false);
        }
    }
    Ok(
        matching.size() >= found.rank
            || has_path(rt.alloc(), pattern, matching)?
                && lengthens(rt.alloc(), pattern, matching)?,
    )
}

/// The pairs of a text, as they are or with rows for columns.
fn pairs_seen(alloc: Global, text: &str, transposed: bool) -> Result<Vec<(u32, u32)>, Fail> {
    let pairs = pairs_in(alloc, text)?;
    seen(alloc, pairs.as_slice(), transposed)
}

/// Whether every engine completes the matching of these pairs.
fn complete_from<R: AllocGlobal + Threads + Sync>(
    rt: &R,
    pattern: &Pattern,
    pairs: &[(u32, u32)],
    found: &Found<'_>,
) -> Result<bool, Fail> {
    let matching = matching_of(rt.alloc(), pattern, pairs)?;
    Ok(all_complete(rt, pattern, &matching, found)?)
}

/// Whether every engine completes the matching of a line, and then has the pairs that are sure and
/// those that the line tells.
fn complete_line<R: AllocGlobal + Threads + Sync>(
    rt: &R,
    text: &str,
    pattern: &Pattern,
    found: &Found<'_>,
    transposed: bool,
) -> Result<bool, Fail> {
    let (pairs, sure) = text.split_once('|').ok_or("no bar")?;
    let pairs = pairs_seen(rt.alloc(), pairs, transposed)?;
    let sure = pairs_seen(rt.alloc(), sure, transposed)?;
    let with_more = Found {
        sure: sure.as_slice(),
        ..*found
    };
    Ok(
        complete_from(rt, pattern, pairs.as_slice(), found)?
            && complete_from(rt, pattern, pairs.as_slice(), &with_more)?,
    )
}

/// Whether every engine completes the matchings of an example, seen from its columns or from its
/// rows.
fn complete_lines<R: AllocGlobal + Threads + Sync>(
    rt: &R,
    worked: &Worked<'_>,
    pattern: &Pattern,
    found: &Found<'_>,
    transposed: bool,
) -> Result<bool, Fail> {
    for line in worked.lines.split('\n') {
        if let Some(text) = line.strip_prefix("from:") {
            if !complete_line(rt, text, pattern, found, transposed)? {
                return Ok(false);
            }
        }
    }
    Ok(true)
}

/// Whether every engine completes the start.
fn complete_start<R: AllocGlobal + Threads + Sync>(
    rt: &R,
    pattern: &Pattern,
    found: &Found<'_>,
) -> Result<bool, OutOfMemory> {
    let start = karp_sipser::start(rt.alloc(), pattern)?;
    all_complete(rt, pattern, &start, found)
}

/// The columns that some maximum matching misses, of the matrix or of its transpose.
fn missed(alloc: Global, worked: &Worked<'_>, transposed: bool) -> Result<Vec<u32>, Fail> {
    if transposed {
        Ok(worked.lists(alloc, "vertical")?.rows)
    } else {
        Ok(worked.lists(alloc, "horizontal")?.cols)
    }
}

/// The pairs that every maximum matching has, of the matrix or of its transpose.
fn sure(alloc: Global, worked: &Worked<'_>, transposed: bool) -> Result<Vec<(u32, u32)>, Fail> {
    pairs_seen(alloc, worked.line("sure")?, transposed)
}

/// Whether every engine completes no pairs, the start and the matchings of an example, seen from its
/// columns or from its rows.
fn complete_all<R: AllocGlobal + Threads + Sync>(
    rt: &R,
    worked: &Worked<'_>,
    pattern: &Pattern,
    transposed: bool,
) -> Result<bool, Fail> {
    let rank = worked.rank(rt.alloc())?;
    let missed = missed(rt.alloc(), worked, transposed)?;
    let sure = sure(rt.alloc(), worked, transposed)?;
    let found = Found {
        rank,
        missed: missed.as_slice(),
        sure: sure.as_slice(),
    };
    Ok(
        complete_from(rt, pattern, &[], &found)?
            && complete_start(rt, pattern, &found)?
            && complete_lines(rt, worked, pattern, &found, transposed)?,
    )
}

/// The same, of the matrix or of its transpose.
fn are_complete<R: AllocGlobal + Threads + Sync>(
    rt: &R,
    worked: &Worked<'_>,
    transposed: bool,
) -> Result<bool, Fail> {
    let pattern = pattern_from(rt, worked, transposed)?;
    complete_all(rt, worked, &pattern, transposed)
}

#[test]
fn engines_on_matrices_and_transposes(rt: HostRuntime) -> Result<(), Fail> {
    for worked in &worked_matrices(rt.alloc())? {
        assert!(rt; are_complete(&rt, worked, false)?, "{}", worked.name());
        assert!(rt;
            are_complete(&rt, worked, true)?,
            "{}, transposed",
            worked.name()
        );
    }
    Ok(())
}

/// Whether the plain engine's matching is maximum. It needs none to begin with, and gives the missed
/// columns itself.
fn plain_is_maximum(alloc: Global, worked: &Worked<'_>, pattern: &Pattern) -> Result<bool, Fail> {
    let rank = worked.rank(alloc)?;
    let missed = missed(alloc, worked, false)?;
    let sure = sure(alloc, worked, false)?;
    let (matching, columns) = plain(alloc, pattern)?;
    Ok(
        matching.size() == rank
            && has_pairs(&matching, sure.as_slice())
            && are(columns.as_slice(), missed.as_slice()),
    )
}

/// Whether the start takes exactly the pairs of the repeated choice.
fn starts(alloc: Global, worked: &Worked<'_>, pattern: &Pattern) -> Result<bool, Fail> {
    let start = worked.pairs(alloc, "start")?;
    let matching = karp_sipser::start(alloc, pattern)?;
    Ok(matching.size() as usize == start.len() && has_pairs(&matching, start.as_slice()))
}

/// Whether a phase from a matching of these pairs makes it larger by one.
fn grows_by_one(alloc: Global, pattern: &Pattern, pairs: &str) -> Result<bool, Fail> {
    let pairs = pairs_in(alloc, pairs)?;
    let mut matching = matching_of(alloc, pattern, pairs.as_slice())?;
    Ok(phase(alloc, pattern, &mut matching)? == 1)
}

/// Whether the plain engine, the start and, where the table has a matching for it, a single phase do
/// what they are to do.
fn are_right<R: AllocGlobal + Threads + Sync>(rt: &R, worked: &Worked<'_>) -> Result<bool, Fail> {
    let pattern = pattern_from(rt, worked, false)?;
    let grows = match worked.find("one path") {
        Some(pairs) => grows_by_one(rt.alloc(), &pattern, pairs)?,
        None => true,
    };
    Ok(
        grows
            && plain_is_maximum(rt.alloc(), worked, &pattern)?
            && starts(rt.alloc(), worked, &pattern)?,
    )
}

#[test]
fn the_plain_engine_the_start_and_single_phases(rt: HostRuntime) -> Result<(), Fail> {
    for worked in &worked_matrices(rt.alloc())? {
        assert!(rt; are_right(&rt, worked)?, "{}", worked.name());
    }
    Ok(())
}
