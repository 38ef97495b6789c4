//! Searches for the columns that have no mates, one after another.

ghost use Rattle.std.specs.Prelude.{◌≡◌, ℕ, ◌+◌, ◌<◌, ◌^◌, List, OnOk};
ghost use Rattle.bip_defs.specs.Bottleneck.{IsFull};
ghost use Rattle.bip_defs.specs.Lists.{Among};
ghost use Rattle.bip_defs.specs.Matching.{cols_of};
ghost use Rattle.bip_defs.specs.Matrix.{Place, cols};
ghost use Rattle.integer_diagonal.specs.Amounts.{HasRoom};
ghost use Rattle.integer_diagonal.specs.Duals.{IsAssignment};
ghost use Rattle.integer_diagonal.specs.Mated.{AreMated};

use crate::assignment::Assignment;
use crate::path::PathSearch;
use crate::width::Width;
use sp_ids::{Col, OutOfMemory};
use sp_pattern::{Neighbours, Weights};
use std::alloc::{AllocError, Global};

// Searches that come to no more columns than these each are less work than phases.
const SHORT: u64 = 20;

/// Gives each column a mate, one after another. There must be a full matching.
///
/// What the searches keep is given back at the end.
pub fn match_all<W: Width>(
    alloc: Global,
    weights: &Weights,
    assignment: &mut Assignment<W>,
) -> Result<(), OutOfMemory>
    requires assignment { IsAssignment weights.now assignment.old }
    requires square { weights.now.matrix.rows ≡ cols weights.now.matrix }
    requires few { cols weights.now.matrix < 2 ^ 32 }
    requires room { HasRoom (cols weights.now.matrix) assignment.old.top W.limit }
    requires full { (m : List Place) × IsFull weights.now.matrix m }
    ensures assignment { OnOk result (IsAssignment weights.now assignment.new) }
    ensures top { OnOk result (assignment.new.top ≡ assignment.old.top) }
    ensures all { OnOk result ((c : ℕ) → c < cols weights.now.matrix
        → Among c (cols_of assignment.new.matching.pairs)) }
{
    if assignment.matching.size() == weights.cols() {
        return Ok(());
    }
    let mut paths = PathSearch::new(alloc, weights)?;
    for col in 0..weights.cols() {
        match_one(weights, assignment, &mut paths, Col(col))?;
    }
    Ok(())
}

/// Gives columns mates, one after another, until the searches get long: until they have come to
/// more columns than the matrix has, and to more than a few each. There must be a full matching.
pub fn match_early<W: Width>(
    alloc: Global,
    weights: &Weights,
    assignment: &mut Assignment<W>,
) -> Result<(), OutOfMemory>
    requires assignment { IsAssignment weights.now assignment.old }
    requires square { weights.now.matrix.rows ≡ cols weights.now.matrix }
    requires few { cols weights.now.matrix < 2 ^ 32 }
    requires room { HasRoom (cols weights.now.matrix) assignment.old.top W.limit }
    requires full { (m : List Place) × IsFull weights.now.matrix m }
    ensures assignment { OnOk result (IsAssignment weights.now assignment.new) }
    ensures top { OnOk result (assignment.new.top ≡ assignment.old.top) }
{
    let mut paths = PathSearch::new(alloc, weights)?;
    for col in 0..weights.cols() {
        let few = SHORT.saturating_mul(paths.search.searches);
        if paths.search.visits > few.saturating_add(weights.cols() as u64) {
            return Ok(());
        }
        match_one(weights, assignment, &mut paths, Col(col))?;
    }
    Ok(())
}

// Gives a column a mate, if it has none, where those before it have theirs.
fn match_one<W: Width>(
    weights: &Weights,
    assignment: &mut Assignment<W>,
    paths: &mut PathSearch<W>,
    col: Col,
) -> Result<(), AllocError>
    requires square { weights.now.matrix.rows ≡ cols weights.now.matrix }
    requires few { cols weights.now.matrix < 2 ^ 32 }
    requires fits { HasRoom (cols weights.now.matrix) assignment.old.top W.limit }
    requires full { (m : List Place) × IsFull weights.now.matrix m }
    requires col { col < cols weights.now.matrix }
    requires mated { AreMated weights.now assignment.old paths.old col }
    ensures mated { OnOk result
        (AreMated weights.now assignment.new paths.new (col + 1)) }
    ensures top { OnOk result (assignment.new.top ≡ assignment.old.top) }
{
    if assignment.matching.row_of(col).is_none() {
        let found = paths.extend(weights, assignment, col)?;
        if !found {
            unreachable!()
        }
    }
    Ok(())
}
