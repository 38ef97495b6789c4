//! The connected components of the horizontal and of the vertical part.

ghost use Rattle.std.specs.Prelude.{◌≡◌, ◌<◌, ◌^◌, length, map, IfOk};
ghost use Rattle.bip_defs.specs.ConnectedComponents.{AreConnectedComponents, AreOrderedComponents, IsHorizontalVertex, IsVerticalVertex, least_row};
ghost use Rattle.bip_defs.specs.Blocks.{least_col};
ghost use Rattle.bip_defs.specs.Lists.{Lists};
ghost use Rattle.bip_defs.specs.Matrix.{Matrix, cols, upto};
ghost use Rattle.bip_defs.specs.Parts.{IsHorizontalCol};
ghost use Rattle.bip_graph.specs.Decompositions.{HasParts, components_of};
ghost use Rattle.dm_coarse.specs.Gathered.{AreGathered};
ghost use Rattle.id_groups.specs.Groups.{block_of};

use bip_graph::{Blocks, Components, Parts};
use column_lists::{ColumnLists, PatternColumns, PatternRows};
use id_groups::{Groups, gather};
use outer_components::number_components;
use sp_ids::{Col, Id, OutOfMemory, Row};
use sp_pattern::Pattern;
use std::alloc::Global;

/// The connected components of the horizontal and of the vertical part, from the parts: all of
/// them, the horizontal ones by their least columns and the vertical ones by their least rows.
///
/// By labels, class by class ([`number_components`]): of the horizontal part over the lists of its
/// columns, and of the vertical part over those of its rows. A part that is empty costs nothing.
///
/// Returns `OutOfMemory` if it cannot allocate 4 bytes a row and a column for a part, and beside
/// them 8 to 24 a label and a contact of labels; then 4 a row and a column and 8 a component to
/// gather them, and as much for their lists. Work: each entry of a column of the horizontal and of
/// a row of the vertical part is looked at twice, and each row and column a fixed number of times,
/// and once more for each so many contacts as are an eighth of the rows and columns.
pub fn components(
    alloc: Global,
    pattern: &Pattern,
    parts: &Parts,
) -> Result<Components, OutOfMemory>
    requires { HasParts pattern.now parts.now }
    ensures { IfOk result (λ c. AreConnectedComponents pattern.now (components_of c)) }
{
    let horizontal = horizontal_components(alloc, pattern, parts)?;
    let vertical = vertical_components(alloc, pattern, parts)?;
    Ok(Components {
        horizontal,
        vertical,
    })
}

// The components of the horizontal part.
fn horizontal_components(
    alloc: Global,
    pattern: &Pattern,
    parts: &Parts,
) -> Result<Blocks, OutOfMemory>
    requires { HasParts pattern.now parts.now }
    ensures { IfOk result
        (λ b. AreOrderedComponents pattern.now (IsHorizontalVertex pattern.now) least_col b) }
{
    let cols = parts.hc.as_slice();
    if cols.is_empty() {
        return Ok(Blocks::new(alloc));
    }
    pattern.is_pattern();
    let found = join_part::<Row, Col, PatternColumns>(alloc, PatternColumns { pattern }, cols)?;
    let (rows, cols) = found;
    listed(alloc, &rows, &cols, parts.hr.len(), parts.hc.len())
}

// The components of the vertical part: those of the horizontal part of the transpose.
fn vertical_components(
    alloc: Global,
    pattern: &Pattern,
    parts: &Parts,
) -> Result<Blocks, OutOfMemory>
    requires { HasParts pattern.now parts.now }
    ensures { IfOk result
        (λ b. AreOrderedComponents pattern.now (IsVerticalVertex pattern.now) least_row b) }
{
    let rows = parts.vr.as_slice();
    if rows.is_empty() {
        return Ok(Blocks::new(alloc));
    }
    pattern.is_pattern();
    let found = join_part::<Col, Row, PatternRows>(alloc, PatternRows { pattern }, rows)?;
    let (cols, rows) = found;
    listed(alloc, &rows, &cols, parts.vr.len(), parts.vc.len())
}

// The rows and the columns of each component of the horizontal part of the matrix of these lists,
// which has these columns.
fn join_part<F: Id, N: Id, L: ColumnLists>(
    alloc: Global,
    lists: L,
    columns: &[N],
) -> Result<(Groups<F>, Groups<N>), OutOfMemory>
    requires columns { Lists (IsHorizontalCol (L.matrix lists)) (map N.number columns.now) }
    requires few_rows { Matrix.rows (L.matrix lists) < 2 ^ 32 }
    requires few_cols { cols (L.matrix lists) < 2 ^ 32 }
    ensures { IfOk result (λ g. AreGathered (L.matrix lists) (length g.1) g.0 g.1) }
{
    let numbers = number_components(alloc, lists, columns)?;
    let rows = gather(alloc, numbers.rows.as_slice(), numbers.count)?;
    let cols = gather(alloc, numbers.cols.as_slice(), numbers.count)?;
    Ok((rows, cols))
}

// The components as blocks, with room for so many rows and columns in all. Work: one copy of each
// row and column.
fn listed(
    alloc: Global,
    rows: &Groups<Row>,
    cols: &Groups<Col>,
    all_rows: usize,
    all_cols: usize,
) -> Result<Blocks, OutOfMemory>
    requires { length rows.now ≡ length cols.now }
    ensures { IfOk result (λ b. b ≡ map (block_of rows.now cols.now) (upto (length cols.now))) }
{
    let count = cols.count();
    let mut blocks = Blocks::with_room(alloc, count as usize, all_rows, all_cols)?;
    for number in 0..count {
        blocks.push(rows.of(number), cols.of(number))?;
    }
    Ok(blocks)
}
