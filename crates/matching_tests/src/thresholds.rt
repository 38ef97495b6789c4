//! The search by workers who wait for each other, of one row of entries, with fewer rows than columns
//! or the other way round. Searches in which the workers find paths are in `board_tests`.

ghost use Rattle.std.specs.Prelude.{◌≤◌};
ghost use Rattle.bip_graph.specs.Matching.{IsMatchingOf};
ghost use Rattle.sp_ids.specs.Limits.{max_workers};

use bip_graph::Matching;
use hall_witness::{Reach, reach};
use sp_ids::{Col, Field, OutOfMemory, Row, Triples};
use sp_pattern::Pattern;
use sp_ports::{Gate, MeetGate};
use std::alloc::Global;
use std::test::Fail;
use std::thread::Threads;
use test_gates::BarrierGate;
use test_matrices::are;
use tree_graft::complete;

/// An entry in each column of the first row, and no other. Fails where there is no row, and where
/// there are 20,000 columns and more.
fn entries_of_one_row(alloc: Global, rows: u32, cols: u32) -> Result<Triples, Fail> {
    let mut triples = Triples::new(alloc, rows, cols, Field::Pattern)?;
    for col in 0..cols {
        if triples.rows() == 0 || col >= triples.cols() || triples.len() >= 20_000 {
            return Err(Fail::new("no row, or too many columns"));
        }
        triples.push(Row(0), Col(col), 0)?;
    }
    Ok(triples)
}

fn one_row_of<R: AllocGlobal + Threads + Sync>(
    rt: &R,
    rows: u32,
    cols: u32,
) -> Result<Pattern, Fail> {
    let triples = entries_of_one_row(rt.alloc(), rows, cols)?;
    Ok(Pattern::build(rt, rt.alloc(), &triples)?)
}

/// Whether one pair is found.
fn has_one_pair<R: AllocGlobal + Threads + Sync, G: Gate>(
    rt: &R,
    pattern: &Pattern,
    workers: u32,
    gate: &G,
) -> Result<bool, OutOfMemory>
    requires { (1 ≤ workers) × (workers ≤ max_workers) }
{
    let none = Matching::empty(rt.alloc(), pattern.rows(), pattern.cols())?;
    let found = complete(rt, rt.alloc(), pattern, none, workers, gate)?;
    Ok(found.size() == 1 && may_miss_each_column(rt.alloc(), pattern, &found)?)
}

/// Whether these are all columns, and their one neighbour is the first row.
fn are_all_columns(pattern: &Pattern, columns: &[Col]) -> bool {
    for col in columns {
        if col.0 >= pattern.cols() || !are(pattern.rows_of(*col), &[1]) {
            return false;
        }
    }
    columns.len() == pattern.cols() as usize
}

/// Whether all columns may be missed, and their one neighbour is the first row.
fn may_miss_each_column(
    alloc: Global,
    pattern: &Pattern,
    found: &Matching,
) -> Result<bool, OutOfMemory>
    requires { IsMatchingOf pattern.now found.now }
{
    match reach(alloc, pattern, found)? {
        Reach::Witness(columns) => Ok(are_all_columns(pattern, columns.as_slice())),
        Reach::Path(_) => Ok(false),
    }
}

/// Whether the pair is found by so many workers, who each arrive so often.
fn is_found_by<R: AllocGlobal + Threads + Sync>(
    rt: &R,
    pattern: &Pattern,
    workers: u32,
    arrivals: u64,
) -> Result<bool, OutOfMemory>
    requires { (1 ≤ workers) × (workers ≤ max_workers) }
{
    let gate = BarrierGate::new(rt.alloc(), workers)?;
    let is_found = has_one_pair(rt, pattern, workers, &gate)?;
    Ok(is_found && gate.have_arrived(workers, arrivals) && !gate.ran_out())
}

/// The numbers of rows and of columns, and how often each worker arrives. Serial phases find the
/// pair. Since the gate needs threads, a phase by workers follows, which finds nothing in two
/// levels: in the first an unmatched column claims the row, whose mate joins the tree, and in the
/// second no row is left to claim.
const SIZES: [(u32, u32, u64); 5] = [
    (1, 2, 2),
    (1, 10_000, 2),
    (1, 10_001, 2),
    (10_000, 2, 2),
    (10_001, 2, 2),
];

#[test]
fn workers_find_no_more_than_serial_phases(rt: HostRuntime) -> Result<(), Fail> {
    for (rows, cols, arrivals) in SIZES {
        let pattern = one_row_of(&rt, rows, cols)?;
        for workers in [1, 2, 3] {
            assert!(rt;
                is_found_by(&rt, &pattern, workers, arrivals)?,
                "{rows} {cols} {workers}"
            );
        }
    }
    Ok(())
}

#[test]
fn two_workers_meet(rt: HostRuntime) -> Result<(), Fail> {
    let gate = MeetGate::new(rt.alloc())?;
    let pattern = one_row_of(&rt, 1, 2)?;
    assert!(rt; has_one_pair(&rt, &pattern, 2, &gate)?);
    assert!(rt; gate.arrivals(0) == 2 && gate.arrivals(1) == 2 && !gate.ran_out());
    Ok(())
}

/// Whether there is a path of one pair from no pairs, an entry in the first row.
fn has_a_path(alloc: Global, pattern: &Pattern) -> Result<bool, OutOfMemory> {
    let none = Matching::empty(alloc, pattern.rows(), pattern.cols())?;
    match reach(alloc, pattern, &none)? {
        Reach::Path(path) => Ok(is_one_entry(pattern, path.as_slice())),
        Reach::Witness(_) => Ok(false),
    }
}

fn is_one_entry(pattern: &Pattern, path: &[(Row, Col)]) -> bool {
    if path.len() != 1 {
        return false;
    }
    let (row, col) = path[0];
    row.0 == 0 && pattern.has(row, col)
}

#[test]
fn a_path_from_no_pairs(rt: HostRuntime) -> Result<(), Fail> {
    let pattern = one_row_of(&rt, 1, 2)?;
    assert!(rt; has_a_path(rt.alloc(), &pattern)?);
    Ok(())
}
