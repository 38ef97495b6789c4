//! The start on a matrix with a list so long that its sum may look like one neighbour's.

use sp_ids::{Col, Field, OutOfMemory, Row, Triples};
use sp_pattern::Pattern;
use std::alloc::Global;
use std::test::Fail;
use std::thread::Threads;

const COUNT: u32 = 60_000;

// Adds an entry. Fails where it is out of range, or one of more than 200,000.
fn push(triples: &mut Triples, row: u32, col: u32) -> Result<(), Fail> {
    if row >= triples.rows() || col >= triples.cols() || triples.len() >= 200_000 {
        return Err(Fail::new("an entry is out of range, or there are too many"));
    }
    triples.push(Row(row), Col(col), 0)?;
    Ok(())
}

/// The entries of 60,000 columns, row 0 full, and under it a diagonal: row `c + 1` has its one entry
/// in column `c`.
fn entries_of_full_row(alloc: Global) -> Result<Triples, Fail> {
    let mut triples = Triples::new(alloc, COUNT + 1, COUNT, Field::Pattern)?;
    for at in 0..COUNT {
        push(&mut triples, 0, at)?;
        push(&mut triples, at + 1, at)?;
    }
    Ok(triples)
}

/// Those of the transpose of that.
fn entries_of_full_column(alloc: Global) -> Result<Triples, Fail> {
    let mut triples = Triples::new(alloc, COUNT, COUNT + 1, Field::Pattern)?;
    for at in 0..COUNT {
        push(&mut triples, at, 0)?;
        push(&mut triples, at, at + 1)?;
    }
    Ok(triples)
}

/// Whether pairs are these, rows and columns counted from 0.
fn are_at(pairs: &[(Row, Col)], expected: &[(u32, u32)]) -> bool {
    if pairs.len() != expected.len() {
        return false;
    }
    for at in 0..pairs.len() {
        let ((row, col), wanted) = (pairs[at], expected[at]);
        if row.0 != wanted.0 || col.0 != wanted.1 {
            return false;
        }
    }
    true
}

/// Whether the start takes these pairs, which rise by column.
fn takes<R: AllocGlobal + Threads + Sync>(
    rt: &R,
    entries: &Triples,
    expected: &[(u32, u32)],
) -> Result<bool, OutOfMemory> {
    let pattern = Pattern::build(rt, rt.alloc(), entries)?;
    let matching = karp_sipser::start(rt.alloc(), &pattern)?;
    let pairs = matching.pairs(rt.alloc())?;
    Ok(are_at(pairs.as_slice(), expected))
}

/// Rows 1 to 59,999 with the columns before them, and row 0 with the last.
fn pairs_of_full_row(alloc: Global) -> Result<Vec<(u32, u32)>, OutOfMemory> {
    let mut expected = Vec::new(alloc);
    for col in 0..COUNT - 1 {
        expected.push((col + 1, col))?;
    }
    expected.push((0, COUNT - 1))?;
    Ok(expected)
}

/// Column 0 with the last row, and the others with the rows before them.
fn pairs_of_full_column(alloc: Global) -> Result<Vec<(u32, u32)>, OutOfMemory> {
    let mut expected = Vec::new(alloc);
    expected.push((COUNT - 1, 0))?;
    for row in 0..COUNT - 1 {
        expected.push((row, row + 1))?;
    }
    Ok(expected)
}

// Each column has two rows, and each row but row 0 one column. So the start takes row 1 with column
// 0, row 2 with column 1, and so on, each the least row with one unmatched neighbour. Once column
// 59,999 alone is left, row 0 has one unmatched neighbour too, and is the lesser row.
//
// Before that, when 16,223 pairs are taken, the sum of row 0, which counts 60,001 and its number for
// each of the 43,777 columns from 16,223 on, is 43,777 * 60,001 + 1,668,385,247 = 4,295,049,024, and
// so by 2^32 more than 60,001 + 21,727: modulo 2^32 it is that of column 21,727 alone.
#[test]
fn a_full_row_looks_like_a_row_of_one(rt: HostRuntime) -> Result<(), Fail> {
    let entries = entries_of_full_row(rt.alloc())?;
    let expected = pairs_of_full_row(rt.alloc())?;
    assert!(rt; takes(&rt, &entries, expected.as_slice())?);
    Ok(())
}

// The same with rows for columns: column 0 has all rows.
#[test]
fn a_full_column_looks_like_a_column_of_one(rt: HostRuntime) -> Result<(), Fail> {
    let entries = entries_of_full_column(rt.alloc())?;
    let expected = pairs_of_full_column(rt.alloc())?;
    assert!(rt; takes(&rt, &entries, expected.as_slice())?);
    Ok(())
}
