//! The weights of a pattern by columns and by rows.

ghost use Rattle.std.specs.Prelude.{◌≡◌, ◌<◌, ◌++◌, length, IfOk, OnOk};
ghost use Rattle.bip_defs.specs.Matrix.{IsEntry, cols};
ghost use Rattle.integer_diagonal.specs.RowWeights.{AreRowWeights, weights_in_row};
ghost use Rattle.sp_pattern.specs.Weights.{weight_at};

use sp_ids::{Col, OutOfMemory, Row};
use sp_pattern::{Neighbours, Weights};
use std::alloc::{AllocError, Global};

/// The weights of a pattern's entries, which are kept row by row too.
///
/// It keeps 8 bytes an entry and 8 a row beside what it borrows.
#[derive(Drop)]
pub struct WeightedPattern<'a, 'p> {
    pub weights: &'a Weights<'p>,
    row_starts: Vec<usize>,
    row_weights: Vec<u64>,
    ghost by_rows: { AreRowWeights weights.now weights.now.matrix.rows row_starts.items
        row_weights.items },
}

impl<'a, 'p> WeightedPattern<'a, 'p> {
    /// Puts down the weights of the rows.
    ///
    /// Returns `OutOfMemory` if it cannot allocate what it keeps, or 4 bytes a column. Work: one
    /// look at each entry.
    pub fn build(
        alloc: Global,
        weights: &'a Weights<'p>,
    ) -> Result<WeightedPattern<'a, 'p>, OutOfMemory>
        ensures { IfOk result (λ w. w.weights.now ≡ weights.now) }
    {
        let mut passed = vec![in alloc; 0u32; weights.cols() as usize]?;
        let mut row_starts = Vec::with_capacity(alloc, weights.rows() as usize + 1)?;
        let mut row_weights = Vec::with_capacity(alloc, weights.pattern().entries() as usize)?;
        row_starts.push(0)?;
        for row in 0..weights.rows() {
            push_row(weights, Row(row), &mut passed, &mut row_weights)?;
            row_starts.push(row_weights.len())?;
        }
        Ok(WeightedPattern {
            weights,
            row_starts,
            row_weights,
        })
    }

    /// The weights of a row's entries, in the order in which `Pattern::cols_of` lends its columns,
    /// lent without copying.
    pub fn weights_of_row(&self, row: Row) -> &[u64]
        requires { row < self.now.weights.now.matrix.rows }
        ensures { result.now ≡ weights_in_row self.now.weights.now row }
    {
        let row = row.0 as usize;
        &self.row_weights.as_slice()[self.row_starts[row]..self.row_starts[row + 1]]
    }
}

// Puts the weights of a row's entries behind these, where so many rows of each column have been
// passed.
fn push_row(
    weights: &Weights,
    row: Row,
    passed: &mut Vec<u32>,
    row_weights: &mut Vec<u64>,
) -> Result<(), AllocError>
    requires row { row < weights.now.matrix.rows }
    requires passed { length passed.old.items ≡ cols weights.now.matrix }
    ensures passed { length passed.new.items ≡ cols weights.now.matrix }
    ensures pushed { OnOk result (row_weights.new.items
        ≡ row_weights.old.items ++ weights_in_row weights.now row) }
{
    let cols = weights.pattern().cols_of(row);
    for k in 0..cols.len() {
        let weight = pass(weights, row, cols[k], passed);
        row_weights.push(weight)?;
    }
    Ok(())
}

// The weight of an entry, whose row is passed then: it is the next one of its column where the rows
// are passed in order, and else searched for.
fn pass(weights: &Weights, row: Row, col: Col, passed: &mut Vec<u32>) -> u64
    requires entry { IsEntry weights.now.matrix row col }
    requires passed { length passed.old.items ≡ cols weights.now.matrix }
    ensures passed { length passed.new.items ≡ cols weights.now.matrix }
    ensures weight { result ≡ weight_at weights.now row col }
{
    let next = passed[col.0 as usize];
    let rows = weights.rows_of(col);
    let at = next as usize;
    if at < rows.len() && rows[at] == row {
        passed[col.0 as usize] = next.saturating_add(1);
        return weights.weights_of(col)[at];
    }
    weights.weight(row, col)
}
