//! Places that stand with their mirror images, as those of a symmetric file.

ghost use Rattle.std.specs.Prelude.{◌≡◌, ◌+◌, ◌-◌, ◌<◌, ◌≤◌, ◌^◌, ◌++◌, filter, length, map, nat_lt, IfOk, IfSome, IsTrue, OnOk};
ghost use Rattle.sp_pattern.specs.Mirror.{AreSymmetric, HasPieces, IsBehindMirror, both_sides};
ghost use Rattle.bip_defs.specs.Pieces.{AreStarts};

use crate::pieces::part;
use sp_ids::{Col, Id, OutOfMemory, Row};
use std::alloc::Global;

/// Where the places go on behind the one at `k` and its mirror image, which is the next one; none
/// where it is not. A place on the diagonal is its own mirror image.
pub fn behind_mirror(places: &[(Row, Col)], k: usize) -> Option<usize>
    requires { k < length places.now }
    ensures { IfSome result (IsBehindMirror places.now k) }
{
    let (row, col) = places[k];
    if row.0 == col.0 {
        return Some(k + 1);
    }
    if k + 1 == places.len() {
        return None;
    }
    let (next_row, next_col) = places[k + 1];
    if next_row.0 != col.0 || next_col.0 != row.0 {
        return None;
    }
    Some(k + 2)
}

/// Whether each place off the diagonal stands beside its mirror image. Work: at most one look at
/// each place.
pub fn are_mirrored(places: &[(Row, Col)]) -> bool
    ensures { IsTrue result → AreSymmetric places.now }
{
    let len = places.len();
    let mut k = 0;
    while k < len {
        let Some(next) = behind_mirror(places, k) else {
            return false;
        };
        k = next;
    }
    true
}

/// The columns of a symmetric matrix, which are its rows too, from the columns and the rows of its
/// entries on and below the diagonal. `room` is for how many entries memory is taken at once.
pub fn both_halves<I: Id>(
    alloc: Global,
    col_starts: &[u32],
    col_rows: &[Row],
    row_starts: &[u32],
    row_cols: &[Col],
    room: usize,
) -> Result<(Vec<u32>, Vec<I>), OutOfMemory>
    requires cols { AreStarts col_starts.now col_rows.now }
    requires rows { AreStarts row_starts.now row_cols.now }
    requires square { length row_starts.now ≡ length col_starts.now }
    requires few_starts { length col_starts.now ≤ 2 ^ 32 }
    requires few { length row_cols.now + length col_rows.now < 2 ^ 32 }
    ensures pieces { IfOk result (λ o. HasPieces (length col_starts.now - 1)
        (both_sides col_starts.now col_rows.now row_starts.now row_cols.now)
        o.0.items (map I.number o.1.items)) }
    ensures few { IfOk result (λ o. length o.1.items < 2 ^ 32) }
{
    let count = col_starts.len() - 1;
    let mut starts = Vec::with_capacity(alloc, count + 1)?;
    let mut flat = Vec::with_capacity(alloc, room)?;
    starts.push(0)?;
    for at in 0..count {
        append_before(&mut flat, part(row_starts, row_cols, at), at as u32)?;
        append(&mut flat, part(col_starts, col_rows, at))?;
        starts.push(flat.len() as u32)?;
    }
    Ok((starts, flat))
}

/// The numbers of rows as those of columns.
pub fn as_cols(alloc: Global, rows: &[Row]) -> Result<Vec<Col>, OutOfMemory>
    ensures { IfOk result (λ v. v.items ≡ rows.now) }
{
    let mut cols = Vec::with_capacity(alloc, rows.len())?;
    for k in 0..rows.len() {
        let row = rows[k];
        cols.push_reserved(Col(row.0));
    }
    Ok(cols)
}

// The numbers of the columns before this one, behind the others.
fn append_before<I: Id>(flat: &mut Vec<I>, cols: &[Col], end: u32) -> Result<(), OutOfMemory>
    ensures { OnOk result (map I.number flat.new.items
        ≡ map I.number flat.old.items ++ filter (λ j. nat_lt j end) cols.now) }
{
    for k in 0..cols.len() {
        let col = cols[k];
        if col.0 < end {
            flat.push(I::of(col.0))?;
        }
    }
    Ok(())
}

// The numbers of the rows, behind the others.
fn append<I: Id>(flat: &mut Vec<I>, rows: &[Row]) -> Result<(), OutOfMemory>
    ensures { OnOk result (map I.number flat.new.items ≡ map I.number flat.old.items ++ rows.now) }
{
    for k in 0..rows.len() {
        let row = rows[k];
        flat.push(I::of(row.0))?;
    }
    Ok(())
}
