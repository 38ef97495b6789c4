//! Prices at which the blocks of a matrix stand apart.

ghost use Rattle.std.specs.Prelude.{◌≡◌, ℕ, ◌<◌, ◌≤◌, length, IfOk, IfSome};
ghost use Rattle.bip_defs.specs.Matrix.{cols};
ghost use Rattle.bip_graph.specs.Matching.{IsMaximumOf};
ghost use Rattle.integer_diagonal.specs.Amounts.{HasRoom};
ghost use Rattle.integer_diagonal.specs.PriceBlocks.{AreBlocksOf};
ghost use Rattle.integer_diagonal.specs.Duals.{IsAssignment};

use crate::amount::Amount;
use crate::assignment::Assignment;
use crate::fairness::at_prices;
use crate::width::Width;
use bip_graph::Matching;
use column_lists::PatternColumns;
use dm_coarse::coarse_in_turn;
use sp_ids::{Col, Id, OutOfMemory, Row};
use sp_pattern::{Neighbours, Pattern, Weights};
use square_components::strong_components;
use std::alloc::Global;

/// The blocks of a square matrix that has a full matching, which are the strong components of its
/// columns and of their mates: each row's and each column's, and how many there are. No full
/// matching has an entry whose row and column are in two of them.
#[derive(Drop)]
pub struct PriceBlocks {
    pub of_row: Vec<u32>,
    pub of_col: Vec<u32>,
    pub count: u32,
}

// The most that a price may be to begin with where blocks stand apart. So those that are told begin
// below 2^62 in magnitude; how far they go from there is left open.
const HIGHEST_PRICE: u64 = 1 << 62;

impl PriceBlocks {
    /// The blocks, by the pairs of a full matching, where prices are to set them apart. They are
    /// looked for where a row or a column has one entry alone, which is a block then (without one,
    /// few matrices have several), and where not all entries weigh `top`, the greatest weight; and
    /// they are left where prices that set them apart might pass 2^62.
    ///
    /// Returns `OutOfMemory` if it cannot allocate what `dm_coarse::coarse_in_turn` and
    /// `square_components::strong_components` take. Work: as these two, and one look at each row,
    /// column and weight.
    pub fn find(
        alloc: Global,
        weights: &Weights,
        matching: &Matching,
        top: u64,
    ) -> Result<Option<PriceBlocks>, OutOfMemory>
        requires matching { IsMaximumOf weights.now.matrix matching.now }
        ensures { IfOk result (λ o. IfSome o (AreBlocksOf weights.now.matrix)) }
    {
        let pattern = weights.pattern();
        if !has_single(pattern) || are_equal(weights, top) {
            return Ok(None);
        }
        let parts = coarse_in_turn(alloc, pattern, matching)?;
        let columns = PatternColumns { pattern };
        let components = strong_components(alloc, columns, matching, &parts)?;
        let blocks = PriceBlocks {
            of_row: components.of_rows,
            of_col: components.of_cols,
            count: components.count,
        };
        if blocks.highest_price(top) > HIGHEST_PRICE {
            return Ok(None);
        }
        Ok(Some(blocks))
    }

    // What no price is more than to begin with, where no entry weighs more than `top`.
    fn highest_price(&self, top: u64) -> u64
        ensures { top ≤ result }
    {
        let apart = top.saturating_mul(2).saturating_mul(self.count as u64);
        top.saturating_add(apart)
    }

    // By how much the prices of a column's block are raised: by twice the greatest weight more than
    // those of the block that is numbered next.
    fn rise(&self, col: Col, top: u64) -> u64
        requires { col < length self.now.of_col.items }
    {
        let last = self.count.saturating_sub(1);
        let after = last.saturating_sub(self.of_col[col.0 as usize]);
        top.saturating_mul(2).saturating_mul(after as u64)
    }

    // The greatest weight of an entry of a column that is in its block, or 0.
    fn greatest(&self, weights: &Weights, col: Col) -> u64
        requires blocks { AreBlocksOf weights.now.matrix self.now }
        requires col { col < cols weights.now.matrix }
    {
        let block = self.of_col[col.0 as usize];
        let rows = weights.rows_of(col);
        let weights = weights.weights_of(col);
        let mut most = 0;
        for k in 0..rows.len() {
            if self.of_row[rows[k].number() as usize] == block && weights[k] > most {
                most = weights[k];
            }
        }
        most
    }

    // Each column's dual variable, by the entries of its block alone.
    fn duals(&self, alloc: Global, weights: &Weights, top: u64) -> Result<Vec<u64>, OutOfMemory>
        requires blocks { AreBlocksOf weights.now.matrix self.now }
        ensures { IfOk result (λ duals. length duals.items ≡ cols weights.now.matrix) }
    {
        let mut duals = Vec::with_capacity(alloc, weights.cols() as usize)?;
        for col in 0..weights.cols() {
            let least = top.saturating_sub(self.greatest(weights, Col(col)));
            let dual = top.saturating_add(least);
            duals.push(dual.saturating_add(self.rise(Col(col), top)))?;
        }
        Ok(duals)
    }

    // Each row's least price at which none of its entries in its block costs less than its column's
    // dual variable.
    fn prices(
        &self,
        alloc: Global,
        weights: &Weights,
        top: u64,
        duals: &[u64],
    ) -> Result<Vec<u64>, OutOfMemory>
        requires blocks { AreBlocksOf weights.now.matrix self.now }
        requires duals { length duals.now ≡ cols weights.now.matrix }
        ensures { IfOk result (λ prices. length prices.items ≡ weights.now.matrix.rows) }
    {
        let mut prices = vec![in alloc; 0u64; weights.rows() as usize]?;
        for col in 0..weights.cols() {
            self.raise_rows(weights, top, duals, &mut prices, Col(col));
        }
        Ok(prices)
    }

    // Raises the prices of the rows of a column's entries in its block to what its dual variable
    // asks of them.
    fn raise_rows(
        &self,
        weights: &Weights,
        top: u64,
        duals: &[u64],
        prices: &mut Vec<u64>,
        col: Col,
    )
        requires blocks { AreBlocksOf weights.now.matrix self.now }
        requires duals { length duals.now ≡ cols weights.now.matrix }
        requires prices { length prices.old.items ≡ weights.now.matrix.rows }
        requires col { col < cols weights.now.matrix }
        ensures { length prices.new.items ≡ weights.now.matrix.rows }
    {
        let block = self.of_col[col.0 as usize];
        let dual = duals[col.0 as usize];
        let rows = weights.rows_of(col);
        let weights = weights.weights_of(col);
        for k in 0..rows.len() {
            let row = rows[k].number() as usize;
            let least = dual.saturating_sub(top.saturating_sub(weights[k]));
            if self.of_row[row] == block && prices[row] < least {
                prices[row] = least;
            }
        }
    }
}

/// What no price is more than to begin with, where the blocks stand apart and no entry weighs more
/// than `top`.
pub fn highest_price(blocks: &Option<PriceBlocks>, top: u64) -> u64
    ensures { top ≤ result }
{
    match blocks {
        Some(blocks) => blocks.highest_price(top),
        None => top,
    }
}

/// The assignment at prices and dual variables at which no entry outside of the blocks is as cheap
/// as one inside, where sums have room at these; else as it was. So each search stays in a block as
/// long as it can.
///
/// In each block these are what prices begin with, by its entries alone; then those of each block
/// are raised until they pass what the next one's ask. That they are feasible is looked at. Beside
/// what it is given it takes two lists of prices and dual variables twice, or answers
/// `OutOfMemory`. Work: three looks at each entry.
pub fn set_apart<W: Width>(
    alloc: Global,
    weights: &Weights,
    assignment: Assignment<W>,
    blocks: &Option<PriceBlocks>,
) -> Result<Assignment<W>, OutOfMemory>
    requires assignment { IsAssignment weights.now assignment }
    requires room { HasRoom (cols weights.now.matrix) assignment.top W.limit }
    requires blocks { IfSome blocks.now (AreBlocksOf weights.now.matrix) }
    ensures assignment { IfOk result (IsAssignment weights.now) }
    ensures matching { IfOk result (λ a. a.matching ≡ assignment.matching) }
    ensures room { IfOk result (λ a. HasRoom (cols weights.now.matrix) a.top W.limit) }
{
    let top = assignment.top;
    let most = highest_price(blocks, top);
    let Some(blocks) = blocks else {
        return Ok(assignment);
    };
    if !W::has_room(weights.cols(), most) {
        return Ok(assignment);
    }
    let duals = blocks.duals(alloc, weights, top)?;
    let prices = blocks.prices(alloc, weights, top, duals.as_slice())?;
    let duals = amounts(alloc, duals.as_slice(), most)?;
    let prices = amounts(alloc, prices.as_slice(), most)?;
    at_prices(alloc, weights, assignment, prices, duals)
}

// These numbers, or `most` where they are greater.
fn amounts<W: Width>(
    alloc: Global,
    numbers: &[u64],
    most: u64,
) -> Result<Vec<Amount<W>>, OutOfMemory>
    requires { most < W.limit }
    ensures { IfOk result (λ amounts. length amounts.items ≡ length numbers.now) }
{
    let mut amounts = Vec::with_capacity(alloc, numbers.len())?;
    for number in numbers {
        let amount = if *number < most { *number } else { most };
        amounts.push(Amount::of(amount))?;
    }
    Ok(amounts)
}

// Whether some row or some column has one entry alone.
fn has_single(pattern: &Pattern) -> bool {
    for col in 0..pattern.cols() {
        if pattern.rows_of(Col(col)).len() == 1 {
            return true;
        }
    }
    for row in 0..pattern.rows() {
        if pattern.cols_of(Row(row)).len() == 1 {
            return true;
        }
    }
    false
}

// Whether all entries weigh so much. Any full matching is a heaviest one then.
fn are_equal(weights: &Weights, weight: u64) -> bool {
    for col in 0..weights.cols() {
        for other in weights.weights_of(Col(col)) {
            if *other != weight {
                return false;
            }
        }
    }
    true
}
