//! The parts of a matrix in which its columns lie.

ghost use Rattle.std.specs.Prelude.{ℕ, ◌<◌, length, IfOk};
ghost use Rattle.bip_defs.specs.Lists.{Among};
ghost use Rattle.bip_defs.specs.Marks.{Marks};
ghost use Rattle.bip_defs.specs.Matrix.{cols};
ghost use Rattle.bip_defs.specs.Parts.{IsHorizontalCol, IsVerticalRow};
ghost use Rattle.bip_graph.specs.Decompositions.{HasParts};
ghost use Rattle.bip_graph.specs.Matching.{IsMaximumOf};
ghost use Rattle.least_match.specs.Outcomes.{AreParted, IsGiven, IsIn};

use bip_graph::{Matching, Parts, matchings_of_the_transpose};
use hall_witness::reached;
use sp_ids::{Col, OutOfMemory};
use sp_pattern::{FromRows, Pattern};
use std::alloc::Global;

/// The part of the matrix in which a column lies.
#[derive(Clone, Copy)]
pub enum ColPart {
    Horizontal,
    Square,
    Vertical,
}

/// The part of each column, by a maximum matching (Dulmage and Mendelsohn 1958).
///
/// Returns `OutOfMemory` if it cannot allocate 9 bytes a row and 9 a column for two searches, or
/// the list. Work: each entry is looked at three times at most.
pub fn parts(
    alloc: Global,
    pattern: &Pattern,
    matching: &Matching,
) -> Result<Vec<ColPart>, OutOfMemory>
    requires maximum { IsMaximumOf pattern.now matching.now }
    ensures { IfOk result (λ v. AreParted pattern.now v.items) }
{
    let horizontal = reached(alloc, pattern, matching)?;
    let vertical = vertical_rows(alloc, pattern, matching)?;
    let mut parts = Vec::with_capacity(alloc, pattern.cols() as usize)?;
    for col in 0..pattern.cols() {
        let part = part_of(
            pattern,
            Col(col),
            horizontal.as_slice(),
            vertical.as_slice(),
        );
        parts.push(part)?;
    }
    Ok(parts)
}

/// The part of each column, from the lists of the parts.
///
/// Returns `OutOfMemory` if it cannot allocate the list. Work: one look at each column.
pub fn listed_parts(
    alloc: Global,
    pattern: &Pattern,
    parts: &Parts,
) -> Result<Vec<ColPart>, OutOfMemory>
    requires { HasParts pattern.now parts.now }
    ensures { IfOk result (λ v. AreParted pattern.now v.items) }
{
    let mut of_cols = vec![in alloc; ColPart::Square; pattern.cols() as usize]?;
    give(
        of_cols.as_mut_slice(),
        parts.hc.as_slice(),
        ColPart::Horizontal,
    );
    give(
        of_cols.as_mut_slice(),
        parts.vc.as_slice(),
        ColPart::Vertical,
    );
    Ok(of_cols)
}

// Gives a part to these columns.
fn give(parts: &mut [ColPart], cols: &[Col], part: ColPart)
    requires cols { (c : ℕ) → Among c cols.now → c < length parts.old }
    ensures { IsGiven parts.old part cols.now parts.new }
{
    for col in cols {
        parts[col.0 as usize] = part;
    }
}

// Marks the rows that some maximum matching misses.
fn vertical_rows(
    alloc: Global,
    pattern: &Pattern,
    matching: &Matching,
) -> Result<Vec<bool>, OutOfMemory>
    requires maximum { IsMaximumOf pattern.now matching.now }
    ensures { IfOk result
        (λ v. Marks pattern.now.rows (IsVerticalRow pattern.now) v.items) }
{
    matchings_of_the_transpose();
    let side = FromRows { pattern };
    reached(alloc, &side, matching)
}

// The part of one column.
fn part_of(pattern: &Pattern, col: Col, horizontal: &[bool], vertical: &[bool]) -> ColPart
    requires col { col < cols pattern.now }
    requires horizontal { Marks (cols pattern.now) (IsHorizontalCol pattern.now) horizontal.now }
    requires vertical { Marks pattern.now.rows (IsVerticalRow pattern.now) vertical.now }
    ensures { IsIn pattern.now col result }
{
    if horizontal[col.0 as usize] {
        return ColPart::Horizontal;
    }
    let rows = pattern.rows_of(col);
    for row in rows {
        if vertical[row.0 as usize] {
            return ColPart::Vertical;
        }
    }
    ColPart::Square
}
