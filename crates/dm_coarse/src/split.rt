//! The rows of a matrix, split into its three parts.

ghost use Rattle.std.specs.Prelude.{◌<◌, IfOk};
ghost use Rattle.bip_defs.specs.Matrix.{Matrix};
ghost use Rattle.dm_coarse.specs.Split.{AreKnown, AreRowsByPart, IsInPart};

use bip_graph::{Matching, Opposite};
use sp_ids::{OutOfMemory, Row};
use sp_pattern::Side;
use std::alloc::Global;

/// The rows of each part, or its columns.
#[derive(Drop)]
pub struct ByPart<F> {
    pub horizontal: Vec<F>,
    pub square: Vec<F>,
    pub vertical: Vec<F>,
}

/// One of the three parts.
pub enum Part {
    Horizontal,
    Square,
    Vertical,
}

/// The rows of each part of the matrix that a side sees, rising, where it is known which columns
/// are horizontal and which rows are vertical.
///
/// Takes 4 bytes a row. Work: one look at each row and its mate.
pub fn split<F: Opposite, S: Side<F>>(
    alloc: Global,
    side: &S,
    matching: &Matching,
    horizontal: &[bool],
    vertical: &[bool],
) -> Result<ByPart<F>, OutOfMemory>
    requires { AreKnown (S.matrix side.now) (F.seen matching.now) horizontal.now vertical.now }
    ensures { IfOk result (AreRowsByPart F.number (S.matrix side.now)) }
{
    let mut horizontal_rows = Vec::new(alloc);
    let mut square_rows = Vec::new(alloc);
    let mut vertical_rows = Vec::new(alloc);
    for at in 0..side.rows() {
        let row = F::of(at);
        match part_of(side, matching, row, horizontal, vertical) {
            Part::Horizontal => horizontal_rows.push(row)?,
            Part::Square => square_rows.push(row)?,
            Part::Vertical => vertical_rows.push(row)?,
        }
    }
    Ok(ByPart {
        horizontal: horizontal_rows,
        square: square_rows,
        vertical: vertical_rows,
    })
}

// The part of a row: a row with an entry in a horizontal column is the mate of one.
fn part_of<F: Opposite, S: Side<F>>(
    side: &S,
    matching: &Matching,
    row: F,
    horizontal: &[bool],
    vertical: &[bool],
) -> Part
    requires row { F.number row < Matrix.rows (S.matrix side.now) }
    requires known { AreKnown (S.matrix side.now) (F.seen matching.now) horizontal.now
        vertical.now }
    ensures { IsInPart (S.matrix side.now) (F.number row) result }
{
    let row = row.number();
    if vertical[row as usize] {
        return Part::Vertical;
    }
    match F::col_of(matching, Row(row)) {
        Some(col) => {
            if horizontal[col.0 as usize] {
                Part::Horizontal
            } else {
                Part::Square
            }
        }
        None => Part::Square,
    }
}
