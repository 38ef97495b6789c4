//! Phases, each of which searches from all unmatched columns at once.

ghost use Rattle.std.specs.Prelude.{◌≡◌, ℕ, ◌+◌, ◌<◌, ◌≤◌, length, slice_index, IfOk};
ghost use Rattle.bip_defs.specs.Matrix.{cols};
ghost use Rattle.integer_diagonal.specs.Amounts.{HasRoom};
ghost use Rattle.integer_diagonal.specs.Duals.{IsAssignment};

use crate::amount::Amount;
use crate::assignment::Assignment;
use crate::distances::Distances;
use crate::fairness::at_prices;
use crate::side::VertexSide;
use crate::tight::match_tight;
use crate::weighted_pattern::WeightedPattern;
use crate::width::Width;
use bip_graph::Matching;
use sp_ids::OutOfMemory;
use sp_pattern::{Neighbours, Weights};
use std::alloc::Global;

// Where no more columns than these are unmatched, a search for each of them is less work.
const FEW: u32 = 4;

/// Gives mates to most of the columns that have none, a part of them in each phase: distances from
/// all of them at once, or from all unmatched rows in every second phase, by which prices rise, and
/// then as many pairs as can be had of the entries that cost as much as these ask.
///
/// The last columns and the last rows are far from all others: taken in turn, each side draws the
/// other's end near. It ends where few columns are left, or a phase gave none a mate. Where there
/// is a phase it takes, beside what it answers, the weights row by row, what `match_tight` takes,
/// new prices, and a distance and a place in a heap for each row, or answers `OutOfMemory`. Work:
/// one look at each entry for the weights row by row; in a phase three looks at each entry, and the
/// phases of a maximum matching of those that cost as much as the prices ask.
pub fn match_by_phases<W: Width>(
    alloc: Global,
    weights: &Weights,
    assignment: Assignment<W>,
) -> Result<Assignment<W>, OutOfMemory>
    requires square { weights.now.matrix.rows ≡ cols weights.now.matrix }
    requires assignment { IsAssignment weights.now assignment }
    requires room { HasRoom (cols weights.now.matrix) assignment.top W.limit }
    ensures assignment { IfOk result (IsAssignment weights.now) }
    ensures room { IfOk result (λ a. HasRoom (cols weights.now.matrix) a.top W.limit) }
{
    let mut assignment = assignment;
    let mut unmatched = weights.cols().saturating_sub(assignment.matching.size());
    if unmatched <= FEW {
        return Ok(assignment);
    }
    let graph = WeightedPattern::build(alloc, weights)?;
    let mut side = VertexSide::Columns;
    for _turn in 0..weights.cols() {
        assignment = phase(alloc, &graph, assignment, side, unmatched)?;
        let left = weights.cols().saturating_sub(assignment.matching.size());
        if left <= FEW || left >= unmatched {
            return Ok(assignment);
        }
        unmatched = left;
        side = side.other();
    }
    Ok(assignment)
}

// Prices that are higher by the distances from all unmatched vertices of a side, and as many pairs
// as can be had of the entries that cost as much as these ask.
fn phase<W: Width>(
    alloc: Global,
    graph: &WeightedPattern,
    assignment: Assignment<W>,
    side: VertexSide,
    unmatched: u32,
) -> Result<Assignment<W>, OutOfMemory>
    requires square { graph.now.weights.now.matrix.rows ≡ cols graph.now.weights.now.matrix }
    requires assignment { IsAssignment graph.now.weights.now assignment }
    requires room { HasRoom (cols graph.now.weights.now.matrix) assignment.top W.limit }
    ensures assignment { IfOk result (IsAssignment graph.now.weights.now) }
    ensures room { IfOk result (λ a. HasRoom (cols graph.now.weights.now.matrix) a.top W.limit) }
{
    let distances = Distances::spread(alloc, graph, &assignment, side, unmatched)?;
    let matching = &assignment.matching;
    let prices = higher(
        alloc,
        assignment.prices.as_slice(),
        VertexSide::Rows,
        matching,
        &distances,
    )?;
    let duals = higher(
        alloc,
        assignment.duals.as_slice(),
        VertexSide::Columns,
        matching,
        &distances,
    )?;
    let assignment = at_prices(alloc, graph.weights, assignment, prices, duals)?;
    match_tight(alloc, graph.weights, assignment)
}

// Each price of a row, or dual variable of a column, and what it rises by.
fn higher<W: Width>(
    alloc: Global,
    amounts: &[Amount<W>],
    of: VertexSide,
    matching: &Matching,
    distances: &Distances<W>,
) -> Result<Vec<Amount<W>>, OutOfMemory>
    requires amounts { length amounts.now ≡ matching.now.rows }
    requires square { matching.now.rows ≡ matching.now.cols }
    requires far { length distances.now.of_far.items ≡ matching.now.rows }
    requires radius { distances.now.radius < W.limit }
    requires fits { (k : ℕ) → slice_index amounts.now k + distances.now.radius < W.limit }
    ensures { IfOk result (λ higher. length higher.items ≡ matching.now.rows) }
{
    let mut higher = Vec::with_capacity(alloc, amounts.len())?;
    for vertex in 0..matching.rows() {
        let rise = distances.rise(matching, of, vertex);
        higher.push(amounts[vertex as usize] + rise)?;
    }
    Ok(higher)
}
