//! Small matrices and matchings, made of places that count rows and columns from 1, as files do.

ghost use Rattle.std.specs.Prelude.{◌≡◌, ◌≢◌, pos, IfOk};
ghost use Rattle.bip_graph.specs.Matching.{IsMatchingOf};
ghost use Rattle.sp_ids.specs.declared.triples.Field.TheVariants.{Integer};

use bip_graph::Matching;
use sp_ids::{Col, Field, Id, Row, Triples};
use sp_pattern::Pattern;
use std::alloc::Global;
use std::test::Fail;
use std::thread::Threads;

// Adds an entry. Fails where it is out of range, or one of more than 100.
fn push(triples: &mut Triples, row: u32, col: u32, value: i64) -> Result<(), Fail>
    requires { triples.old.field ≢ Integer → value ≡ pos 0 }
    ensures { triples.new.field ≡ triples.old.field }
{
    // 0 becomes the greatest number, which is below no count.
    let (row, col) = (row.wrapping_sub(1), col.wrapping_sub(1));
    if row >= triples.rows() || col >= triples.cols() || triples.len() >= 100 {
        return Err(Fail::new("an entry is out of range, or there are too many"));
    }
    triples.push(Row(row), Col(col), value)?;
    Ok(())
}

/// The matrix with entries at these places, which count from 1. Fails where a place is out of range,
/// where there are more than 100, and where memory is refused. Work and memory: as for
/// [`Pattern::build`].
pub fn pattern_of<R: AllocGlobal + Threads + Sync>(
    rt: &R,
    rows: u32,
    cols: u32,
    places: &[(u32, u32)],
) -> Result<Pattern, Fail> {
    let mut triples = Triples::new(rt.alloc(), rows, cols, Field::Pattern)?;
    for (row, col) in places {
        push(&mut triples, *row, *col, 0)?;
    }
    Ok(Pattern::build(rt, rt.alloc(), &triples)?)
}

/// The entries of an integer file, whose places count from 1. Fails where one is out of range, where
/// there are more than 100, and where memory is refused. Work: linear in the entries.
pub fn integers_of(
    alloc: Global,
    rows: u32,
    cols: u32,
    entries: &[(u32, u32, i64)],
) -> Result<Triples, Fail>
    ensures { IfOk result (λ t. t.field ≡ Integer) }
{
    let mut triples = Triples::new(alloc, rows, cols, Field::Integer)?;
    for (row, col, value) in entries {
        push(&mut triples, *row, *col, *value)?;
    }
    Ok(triples)
}

/// The matching of these pairs, which count from 1. Fails where one is no entry, where its row or
/// column is matched already, and where memory is refused. Work: linear in the rows and the columns,
/// and a search in a column for each pair.
pub fn matching_of(alloc: Global, pattern: &Pattern, pairs: &[(u32, u32)]) -> Result<Matching, Fail>
    ensures { IfOk result (IsMatchingOf pattern.now) }
{
    let mut matching = Matching::empty(alloc, pattern.rows(), pattern.cols())?;
    for (row, col) in pairs {
        // 0 becomes the greatest number, which is no row and no column.
        let (row, col) = (Row(row.wrapping_sub(1)), Col(col.wrapping_sub(1)));
        if !pair_up(pattern, &mut matching, row, col) {
            return Err(Fail::new("a pair is no entry, or a row or column of it is matched"));
        }
    }
    Ok(matching)
}

// Makes a pair of an entry whose row and column are unmatched. Whether it is such an entry.
fn pair_up(pattern: &Pattern, matching: &mut Matching, row: Row, col: Col) -> bool
    requires { IsMatchingOf pattern.now matching.old }
    ensures { IsMatchingOf pattern.now matching.new }
{
    if !pattern.has(row, col) || matching.row_of(col).is_some() || matching.col_of(row).is_some() {
        return false;
    }
    matching.pair(row, col);
    matching.is_matching();
    true
}

/// Whether rows or columns are those of these numbers, which count from 1, in their order. No row or
/// column has number 0. Work: one look at each.
pub fn are<I: Id>(ids: &[I], numbers: &[u32]) -> bool {
    if ids.len() != numbers.len() {
        return false;
    }
    for at in 0..ids.len() {
        if ids[at].number().checked_add(1) != Some(numbers[at]) {
            return false;
        }
    }
    true
}
