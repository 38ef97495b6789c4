//! New prices, which are taken where they are fair.

ghost use Rattle.std.specs.Prelude.{◌≡◌, ℕ, ◌+◌, ◌<◌, ◌≤◌, true, length, map, slice_index, IfOk, IfSome};
ghost use Rattle.bip_defs.specs.Lists.{Among, AreDistinct};
ghost use Rattle.bip_defs.specs.Matching.{cols_of};
ghost use Rattle.bip_defs.specs.Matrix.{cols};
ghost use Rattle.integer_diagonal.specs.Amounts.{HasRoom};
ghost use Rattle.integer_diagonal.specs.Candidates.{IsCandidate, IsFairColumn};
ghost use Rattle.integer_diagonal.specs.Duals.{IsAssignment, priced};

use crate::amount::Amount;
use crate::assignment::Assignment;
use crate::width::Width;
use bip_graph::Matching;
use sp_ids::{Col, Id, OutOfMemory};
use sp_pattern::{Neighbours, Weights};
use std::alloc::Global;

/// The matching at new prices and dual variables, where these are fair: no entry costs less than
/// its column's dual variable, and each pair costs as much. Else the assignment stays as it was.
///
/// Costs are told from the greatest price then, where it is more than `top`, and each dual variable
/// is higher by as much: so no price is more than the new `top`. Where sums of the searches could
/// pass the limit of the numbers, the assignment stays too. Beside what it is given it takes one
/// list of dual variables. Work: one look at each entry.
pub fn at_prices<W: Width>(
    alloc: Global,
    weights: &Weights,
    assignment: Assignment<W>,
    prices: Vec<Amount<W>>,
    duals: Vec<Amount<W>>,
) -> Result<Assignment<W>, OutOfMemory>
    requires assignment { IsAssignment weights.now assignment }
    requires room { HasRoom (cols weights.now.matrix) assignment.top W.limit }
    requires rows { length prices.items ≡ weights.now.matrix.rows }
    requires cols { length duals.items ≡ cols weights.now.matrix }
    ensures assignment { IfOk result (IsAssignment weights.now) }
    ensures matching { IfOk result (λ a. a.matching ≡ assignment.matching) }
    ensures room { IfOk result (λ a. HasRoom (cols weights.now.matrix) a.top W.limit) }
{
    let (low, high) = (prices.as_slice(), duals.as_slice());
    let Some(top) = covering_top(weights.cols(), assignment.top, low, high) else {
        return Ok(assignment);
    };
    let duals = risen(alloc, high, Amount::of(top - assignment.top))?;
    let candidate = Assignment {
        top,
        prices,
        duals,
        matching: assignment.matching,
    };
    if is_fair(weights, &candidate) {
        return Ok(candidate);
    }
    Ok(Assignment {
        top: assignment.top,
        prices: assignment.prices,
        duals: assignment.duals,
        matching: candidate.matching,
    })
}

// A `top` that is not less than this one, than any price, and than what any dual variable is beyond
// this one, if the sums of searches have room at it.
fn covering_top<W: Width>(
    columns: u32,
    top: u64,
    prices: &[Amount<W>],
    duals: &[Amount<W>],
) -> Option<u64>
    ensures top { IfSome result (λ t. top ≤ t) }
    ensures prices { IfSome result (λ t. (r : ℕ) → slice_index prices.now r ≤ t) }
    ensures duals { IfSome result (λ t. (c : ℕ) → slice_index duals.now c ≤ top + t) }
    ensures room { IfSome result (λ t. HasRoom columns t W.limit) }
{
    let price = greatest(prices)?;
    let dual = greatest(duals)?;
    let most = larger(top, larger(price, dual.saturating_sub(top)));
    if W::has_room(columns, most) {
        Some(most)
    } else {
        None
    }
}

// The larger of the two.
fn larger(a: u64, b: u64) -> u64
    ensures { (a ≤ result) × (b ≤ result) }
{
    if a < b { b } else { a }
}

// The greatest of these, or 0, if it is not too great for a cost.
fn greatest<W: Width>(amounts: &[Amount<W>]) -> Option<u64>
    ensures { IfSome result (λ most. (k : ℕ) → slice_index amounts.now k ≤ most) }
{
    let mut most = Amount::zero();
    for amount in amounts {
        if most < *amount {
            most = *amount;
        }
    }
    most.as_cost()
}

// Each of these, and so much more.
fn risen<W: Width>(
    alloc: Global,
    amounts: &[Amount<W>],
    rise: Amount<W>,
) -> Result<Vec<Amount<W>>, OutOfMemory>
    requires { (k : ℕ) → slice_index amounts.now k + rise < W.limit }
    ensures { IfOk result (λ higher. higher.items ≡ map (λ a. a + rise) amounts.now) }
{
    let mut higher = Vec::with_capacity(alloc, amounts.len())?;
    for amount in amounts {
        higher.push(*amount + rise)?;
    }
    Ok(higher)
}

/// Whether no entry costs less than its column's dual variable, and each pair costs as much. Work:
/// at most one look at each entry; it ends at the first column where that is not so.
pub fn is_fair<W: Width>(weights: &Weights, candidate: &Assignment<W>) -> bool
    requires room { candidate.now.top + candidate.now.top < W.limit }
    requires candidate { IsCandidate (priced weights.now candidate.now) candidate.now.matching }
    ensures { result ≡ true → IsAssignment weights.now candidate.now }
{
    for col in 0..weights.cols() {
        if !is_fair_column(weights, candidate, Col(col)) {
            return false;
        }
    }
    true
}

// The same of the entries of one column.
fn is_fair_column<W: Width>(weights: &Weights, candidate: &Assignment<W>, col: Col) -> bool
    requires room { candidate.now.top + candidate.now.top < W.limit }
    requires candidate { IsCandidate (priced weights.now candidate.now) candidate.now.matching }
    requires col { col < cols weights.now.matrix }
    ensures { result ≡ true → IsFairColumn (priced weights.now candidate.now)
        candidate.now.matching.pairs col }
{
    let mate = mate_of(&candidate.matching, col);
    let dual = candidate.duals[col.0 as usize];
    let rows = weights.rows_of(col);
    let weights = weights.weights_of(col);
    for k in 0..rows.len() {
        let row = rows[k].number();
        let price = candidate.prices[row as usize];
        let cost = Amount::of(candidate.top - weights[k]);
        let paid = price + cost;
        if !is_fair_entry(paid, dual, row == mate) {
            return false;
        }
    }
    true
}

// Whether what is paid for an entry is no less than the dual variable, and as much for a pair.
fn is_fair_entry<W: Width>(paid: Amount<W>, dual: Amount<W>, is_pair: bool) -> bool
    ensures covers { result ≡ true → dual ≤ paid }
    ensures meets { result ≡ true → is_pair ≡ true → paid ≡ dual }
{
    if is_pair {
        return paid == dual;
    }
    dual <= paid
}

// The number of a column's mate, or one that no row has.
fn mate_of(matching: &Matching, col: Col) -> u32
    requires col { col < matching.now.cols }
    requires distinct { AreDistinct (cols_of matching.now.pairs) }
    ensures { (r : ℕ) → Among (r, col) matching.now.pairs → result ≡ r }
{
    match matching.row_of(col) {
        Some(row) => row.number(),
        None => u32::MAX,
    }
}
