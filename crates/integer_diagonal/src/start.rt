//! The prices to begin with.

ghost use Rattle.std.specs.Prelude.{◌≡◌, ◌⊎◌, ℕ, ◌+◌, ◌<◌, ◌≤◌, [], length, slice_index, IfOk};
ghost use Rattle.bip_defs.specs.Lists.{Among};
ghost use Rattle.bip_defs.specs.Matrix.{IsEntry, cols};
ghost use Rattle.integer_diagonal.specs.Duals.{AreAtMost, IsAssignment, cost};
ghost use Rattle.integer_diagonal.specs.Amounts.{HasRoom};
ghost use Rattle.integer_diagonal.specs.FirstPrices.{AreFirstDuals, AreFirstPrices};

use crate::amount::Amount;
use crate::assignment::Assignment;
use crate::width::Width;
use bip_graph::Matching;
use sp_ids::{Col, OutOfMemory, Row};
use sp_pattern::{Neighbours, Weights};
use std::alloc::Global;

/// Each column at its greatest weight, then each row at the greatest of what its entries weigh
/// beyond their columns, and no pairs yet.
///
/// No entry weighs more than `top`. Work: two looks at each entry.
pub fn start<W: Width>(
    alloc: Global,
    weights: &Weights,
    top: u64,
) -> Result<Assignment<W>, OutOfMemory>
    requires small { AreAtMost weights.now top }
    requires room { HasRoom (cols weights.now.matrix) top W.limit }
    ensures assignment { IfOk result (IsAssignment weights.now) }
    ensures top { IfOk result (λ a. a.top ≡ top) }
    ensures empty { IfOk result (λ a. a.matching.pairs ≡ []) }
{
    let duals = first_duals(alloc, weights, top)?;
    let prices = first_prices(alloc, weights, top, duals.as_slice())?;
    let matching = Matching::empty(alloc, weights.rows(), weights.cols())?;
    matching.is_matching();
    Ok(Assignment {
        top,
        prices,
        duals,
        matching,
    })
}

/// The greatest weight of an entry, or 0.
pub fn greatest_of_all(weights: &Weights) -> u64
    ensures { AreAtMost weights.now result }
{
    let mut most = 0;
    for col in 0..weights.cols() {
        let here = greatest(weights.weights_of(Col(col)));
        if here > most {
            most = here;
        }
    }
    most
}

// Each column's least cost, or the greatest of all costs where it has no entry, and that greatest
// once more: so the rows' prices are not below 0.
fn first_duals<W: Width>(
    alloc: Global,
    weights: &Weights,
    top: u64,
) -> Result<Vec<Amount<W>>, OutOfMemory>
    requires small { AreAtMost weights.now top }
    requires fits { top + top < W.limit }
    ensures { IfOk result
        (λ duals. AreFirstDuals weights.now top (cols weights.now.matrix) duals.items) }
{
    let mut duals = Vec::with_capacity(alloc, weights.cols() as usize)?;
    for col in 0..weights.cols() {
        let least = top - greatest(weights.weights_of(Col(col)));
        duals.push(Amount::of(top) + Amount::of(least))?;
    }
    Ok(duals)
}

// The greatest of these, or 0.
fn greatest(weights: &[u64]) -> u64
    ensures bound { (k : ℕ) → k < length weights.now → slice_index weights.now k ≤ result }
    ensures met { (result ≡ 0) ⊎ Among result weights.now }
{
    let mut most = 0;
    for weight in weights {
        if *weight > most {
            most = *weight;
        }
    }
    most
}

// Each row's least price at which none of its entries costs less than its column's dual variable.
fn first_prices<W: Width>(
    alloc: Global,
    weights: &Weights,
    top: u64,
    duals: &[Amount<W>],
) -> Result<Vec<Amount<W>>, OutOfMemory>
    requires small { AreAtMost weights.now top }
    requires fits { top + top < W.limit }
    requires duals { AreFirstDuals weights.now top (cols weights.now.matrix) duals.now }
    ensures { IfOk result
        (λ u. AreFirstPrices weights.now top (cols weights.now.matrix) duals.now u.items) }
{
    let mut prices = vec![in alloc; Amount::zero(); weights.rows() as usize]?;
    for col in 0..weights.cols() {
        raise_rows(weights, top, duals, prices.as_mut_slice(), Col(col));
    }
    Ok(prices)
}

// Raises the prices of the rows of a column's entries to what its dual variable asks of them.
fn raise_rows<W: Width>(
    weights: &Weights,
    top: u64,
    duals: &[Amount<W>],
    prices: &mut [Amount<W>],
    col: Col,
)
    requires small { AreAtMost weights.now top }
    requires fits { top + top < W.limit }
    requires duals { AreFirstDuals weights.now top (cols weights.now.matrix) duals.now }
    requires rows { length prices.old ≡ weights.now.matrix.rows }
    requires col { col < cols weights.now.matrix }
    requires low { (r : ℕ) → slice_index prices.old r ≤ top }
    ensures low { (r : ℕ) → slice_index prices.new r ≤ top }
    ensures rise { (r : ℕ) → slice_index prices.old r ≤ slice_index prices.new r }
    ensures covers { (r : ℕ) → IsEntry weights.now.matrix r col
        → slice_index duals.now col ≤ slice_index prices.new r + cost top weights.now r col }
{
    let rows = weights.rows_of(col);
    let weights = weights.weights_of(col);
    let dual = duals[col.0 as usize];
    for k in 0..rows.len() {
        raise_row(prices, rows[k], dual - Amount::of(top - weights[k]));
    }
}

// Raises the price of a row to this at least.
fn raise_row<W: Width>(prices: &mut [Amount<W>], row: Row, least: Amount<W>)
    requires { row < length prices.old }
    ensures met { least ≤ slice_index prices.new row }
    ensures low { (r : ℕ) → (slice_index prices.new r ≤ slice_index prices.old r)
        ⊎ (slice_index prices.new r ≡ least) }
    ensures rise { (r : ℕ) → slice_index prices.old r ≤ slice_index prices.new r }
{
    if prices[row.0 as usize] < least {
        prices[row.0 as usize] = least;
    }
}
