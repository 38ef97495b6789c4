//! The columns of the horizontal part, where its rows are known.

ghost use Rattle.std.specs.Prelude.{◌<◌, ◌↔◌, IfOk, IsTrue};
ghost use Rattle.bip_defs.specs.Lists.{Lists};
ghost use Rattle.bip_defs.specs.Matrix.{cols};
ghost use Rattle.bip_defs.specs.Parts.{IsHorizontalCol, MarkHorizontalCols, MarkHorizontalRows};
ghost use Rattle.bip_graph.specs.Matching.{IsMaximumOf};

use bip_graph::{Matching, Opposite};
use sp_ids::{Col, OutOfMemory, Row};
use sp_pattern::{Pattern, Side};
use std::alloc::Global;

/// The horizontal columns, rising, by a maximum matching and marks of the horizontal rows: the
/// unmatched columns, and the mates of these rows (Dulmage and Mendelsohn 1958).
///
/// No entry is looked at. Returns `OutOfMemory` if it cannot allocate the list, 4 bytes a
/// horizontal column. Work: one look at each column and its mate.
pub fn horizontal_cols(
    alloc: Global,
    pattern: &Pattern,
    matching: &Matching,
    rows: &[bool],
) -> Result<Vec<Col>, OutOfMemory>
    requires maximum { IsMaximumOf pattern.now matching.now }
    requires rows { MarkHorizontalRows pattern.now rows.now }
    ensures { IfOk result (λ w. Lists (IsHorizontalCol pattern.now) w.items) }
{
    let mut columns = Vec::new(alloc);
    for number in 0..pattern.cols() {
        if is_horizontal::<Row, Pattern>(pattern, matching, rows, Col(number)) {
            columns.push(Col(number))?;
        }
    }
    Ok(columns)
}

/// Marks the horizontal columns of the matrix that a side sees, by marks of its horizontal rows.
///
/// Takes a byte a column. Work: one look at each column and its mate.
pub fn mark_horizontal_cols<F: Opposite, S: Side<F>>(
    alloc: Global,
    side: &S,
    matching: &Matching,
    rows: &[bool],
) -> Result<Vec<bool>, OutOfMemory>
    requires maximum { IsMaximumOf (S.matrix side.now) (F.seen matching.now) }
    requires rows { MarkHorizontalRows (S.matrix side.now) rows.now }
    ensures { IfOk result (λ v. MarkHorizontalCols (S.matrix side.now) v.items) }
{
    let mut marks = Vec::with_capacity(alloc, side.cols() as usize)?;
    for number in 0..side.cols() {
        marks.push(is_horizontal(side, matching, rows, Col(number)))?;
    }
    Ok(marks)
}

// Whether a column is horizontal.
fn is_horizontal<F: Opposite, S: Side<F>>(
    side: &S,
    matching: &Matching,
    rows: &[bool],
    col: Col,
) -> bool
    requires maximum { IsMaximumOf (S.matrix side.now) (F.seen matching.now) }
    requires rows { MarkHorizontalRows (S.matrix side.now) rows.now }
    requires col { col < cols (S.matrix side.now) }
    ensures { IsTrue result ↔ IsHorizontalCol (S.matrix side.now) col }
{
    match F::row_of(matching, col) {
        Some(row) => rows[row.0 as usize],
        None => true,
    }
}
