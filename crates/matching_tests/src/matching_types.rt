//! Matchings, mates that are set one by one, and lists of blocks, worked out by hand.

use bip_graph::{Blocks, Matching, Mates};
use sp_ids::{Col, OutOfMemory, Row};
use std::alloc::Global;
use test_matrices::are;

fn has_mates(matching: &Matching, mates: &[(Row, Col)]) -> bool {
    for (row, col) in mates {
        if col.0 >= matching.cols() || matching.row_of(*col) != Some(*row) {
            return false;
        }
        if row.0 >= matching.rows() || matching.col_of(*row) != Some(*col) {
            return false;
        }
    }
    true
}

// Whether the base matching, which has row 0 at column 2, has its mates after two paths are
// exchanged one after the other: column 1 takes row 0 and column 2 takes row 1; then column 0 takes
// row 0 and column 1 takes row 2.
fn two_paths_exchange(alloc: Global) -> Result<bool, OutOfMemory> {
    let mut matching = Matching::empty(alloc, 3, 3)?;
    matching.pair(Row(0), Col(2));
    matching.flip(&[(Row(0), Col(1)), (Row(1), Col(2))]);
    let is_free = matching.row_of(Col(0)).is_none();
    matching.flip(&[(Row(0), Col(0)), (Row(2), Col(1))]);
    Ok(
        is_free
            && matching.size() == 3
            && has_mates(
                &matching,
                &[(Row(0), Col(0)), (Row(2), Col(1)), (Row(1), Col(2))],
            ),
    )
}

#[test]
fn exchanges_paths(rt: HostRuntime) -> Result<(), OutOfMemory> {
    assert!(rt; two_paths_exchange(rt.alloc())?);
    Ok(())
}

#[test]
fn counts_rows_and_columns(rt: HostRuntime) -> Result<(), OutOfMemory> {
    let matching = Matching::empty(rt.alloc(), 2, 3)?;
    assert!(rt; matching.rows() == 2 && matching.cols() == 3 && matching.size() == 0);
    Ok(())
}

fn copy_stands_alone(alloc: Global) -> Result<bool, OutOfMemory> {
    let mut matching = Matching::empty(alloc, 1, 2)?;
    let copy = matching.copy(alloc)?;
    matching.pair(Row(0), Col(1));
    Ok(
        copy.size() == 0
            && matching.size() == 1
            && copy.col_of(Row(0)).is_none()
            && has_mates(&matching, &[(Row(0), Col(1))]),
    )
}

#[test]
fn a_copy_stands_alone(rt: HostRuntime) -> Result<(), OutOfMemory> {
    assert!(rt; copy_stands_alone(rt.alloc())?);
    Ok(())
}

// Whether row 0 and column 1 lead to one another once both are set.
fn mates_are_set(alloc: Global) -> Result<bool, OutOfMemory> {
    let mut mates = Mates::empty(alloc, 2, 3)?;
    mates.set_row(Row(0), Some(Col(1)));
    let is_free = mates.row_of(Col(1)).is_none();
    mates.set_col(Col(1), Some(Row(0)));
    let are_set = mates.col_of(Row(0)) == Some(Col(1)) && mates.col_of(Row(1)).is_none();
    let matching = Matching::of(mates);
    Ok(
        is_free
            && are_set
            && matching.rows() == 2
            && matching.cols() == 3
            && matching.row_of(Col(1)) == Some(Row(0))
            && matching.col_of(Row(1)).is_none(),
    )
}

#[test]
fn makes_a_matching(rt: HostRuntime) -> Result<(), OutOfMemory> {
    assert!(rt; mates_are_set(rt.alloc())?);
    Ok(())
}

// Whether there are a block of row 2 and column 2, and then one of the rows and columns 0 and 1.
fn has_both(blocks: &Blocks) -> bool {
    blocks.len() == 2
        && are(blocks.rows(0), &[3])
        && are(blocks.cols(1), &[1, 2])
        && are(blocks.all_rows(), &[3, 1, 2])
        && are(blocks.all_cols(), &[3, 1, 2])
}

fn push_both(blocks: &mut Blocks) -> Result<(), OutOfMemory> {
    blocks.push(&[Row(2)], &[Col(2)])?;
    blocks.push(&[Row(0), Row(1)], &[Col(0), Col(1)])
}

#[test]
fn blocks_in_order(rt: HostRuntime) -> Result<(), OutOfMemory> {
    let mut blocks = Blocks::with_room(rt.alloc(), 2, 3, 3)?;
    assert!(rt; blocks.is_empty());
    push_both(&mut blocks)?;
    assert!(rt; has_both(&blocks));
    Ok(())
}

fn has_one(blocks: &Blocks) -> bool {
    blocks.len() == 1 && are(blocks.rows(0), &[1])
}

#[test]
fn room_is_had_as_it_is_needed(rt: HostRuntime) -> Result<(), OutOfMemory> {
    let mut blocks = Blocks::new(rt.alloc());
    blocks.push(&[Row(0)], &[Col(1)])?;
    assert!(rt; has_one(&blocks));
    Ok(())
}
