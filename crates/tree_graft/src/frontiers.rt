//! The columns and the rows from which a level starts.

ghost use Rattle.std.specs.Prelude.{ℕ, ◌↔◌, ◌<◌, IsTrue, OnOk};
ghost use Rattle.bip_defs.specs.Forest.{IsWon};
ghost use Rattle.bip_defs.specs.Lists.{Among, AreDistinct, Lists};
ghost use Rattle.bip_defs.specs.Matching.{rows_of};
ghost use Rattle.forest_core.specs.Trees.{HasTrees};
ghost use Rattle.tree_graft.specs.PhaseSearch.{AreMatesOf, IsUnclaimed, IsUnmatched};

use forest_core::Forest;
use sp_ids::{Col, OutOfMemory, Row};

/// Puts all columns without a base mate into the list.
pub fn unmatched_columns(forest: &Forest, columns: &mut Vec<Col>) -> Result<(), OutOfMemory>
    ensures { OnOk result (Lists (IsUnmatched forest.now) columns.new.items) }
{
    columns.clear();
    for number in 0..forest.pattern().cols() {
        if forest.base_row(Col(number)).is_none() {
            columns.push(Col(number))?;
        }
    }
    Ok(())
}

/// Puts all rows that are not claimed into the list.
pub fn unclaimed_rows(forest: &Forest, rows: &mut Vec<Row>) -> Result<(), OutOfMemory>
    ensures { OnOk result (Lists (IsUnclaimed forest.now) rows.new.items) }
{
    rows.clear();
    for number in 0..forest.pattern().rows() {
        if !forest.is_claimed(Row(number)) {
            rows.push(Row(number))?;
        }
    }
    Ok(())
}

/// Puts the base mates of these claimed rows into the list, but for those whose root has a leaf.
/// The rows differ.
pub fn mates_of(
    forest: &Forest,
    claims: &[(Row, Col)],
    columns: &mut Vec<Col>,
) -> Result<(), OutOfMemory>
    requires trees { HasTrees forest.now }
    requires claimed { (r : ℕ) → Among r (rows_of claims.now)
        → Among r (rows_of forest.now.claims) }
    requires differ { AreDistinct (rows_of claims.now) }
    ensures { OnOk result (AreMatesOf forest.now claims.now columns.new.items) }
{
    columns.clear();
    for (row, _) in claims {
        match forest.base_col(*row) {
            Some(mate) => {
                if !is_won(forest, *row) {
                    columns.push(mate)?;
                }
            }
            None => {}
        }
    }
    Ok(())
}

// Whether the root of a claimed row has a leaf.
fn is_won(forest: &Forest, row: Row) -> bool
    requires { row < forest.now.matrix.rows }
    ensures { IsTrue result ↔ IsWon forest.now row }
{
    match forest.root_of_row(row) {
        Some(root) => forest.has_leaf(root),
        None => false,
    }
}
