//! The three cases.

ghost use Rattle.std.specs.Prelude.{◌≡◌, ◌≢◌, ℕ, pos, ◌+◌, ◌-◌, ◌-ℤ◌, ◌^◌, ◌<◌, [], length, map, slice_index, IfOk, IfSome};
ghost use Rattle.bip_defs.specs.Lists.{Among};
ghost use Rattle.bip_defs.specs.Matching.{cols_of};
ghost use Rattle.bip_defs.specs.Matrix.{AreEntries, cols};
ghost use Rattle.bip_graph.specs.Matching.{IsMatchingOf, IsMaximumOf};
ghost use Rattle.integer_diagonal.specs.PriceBlocks.{AreBlocksOf};
ghost use Rattle.integer_diagonal.specs.Heaviest.{IsHeaviest};
ghost use Rattle.integer_diagonal.specs.Amounts.{HasRoom};
ghost use Rattle.integer_diagonal.specs.Duals.{AreAtMost, IsAssignment};
ghost use Rattle.bip_defs.specs.Bottleneck.{IsFull};
ghost use Rattle.integer_diagonal.specs.Prices.{total};
ghost use Rattle.sp_pattern.specs.Weights.{Weighing};

use crate::amount::Amount;
use crate::assignment::Assignment;
use crate::blocks::{PriceBlocks, highest_price, set_apart};
use crate::fairness::is_fair;
use crate::phases::match_by_phases;
use crate::searches::{match_all, match_early};
use crate::start::{greatest_of_all, start};
use crate::tight::match_tight;
use crate::width::Width;
use bip_graph::{Heaviest, Matching};
use breadth_first_match::complete;
use hall_witness::hall_set;
use sp_ids::{Col, OutOfMemory, Row};
use sp_pattern::{Neighbours, Pattern, Weights};
use std::alloc::Global;

/// The heaviest diagonal: as many entries as the matrix has rows and columns, no two in one row or
/// column, with a greatest sum of weights, and prices that show it: each entry weighs at most the
/// prices of its row and its column together, and each pair of the diagonal as much.
///
/// The weights must be those of the pattern. `Rectangular` exactly where the matrix has not as many
/// rows as columns; `Singular` exactly where it has, and its rank is less, with the columns that
/// some maximum matching misses. Returns `OutOfMemory` if it cannot allocate what
/// `karp_sipser::start` and `breadth_first_match::complete` take, for the blocks, for a pattern of
/// the entries that cost as much as the prices ask, for the prices of a phase and the weights row
/// by row, which are 8 bytes an entry and 8 a row, or for the tables and the heap of a search. The
/// tables take 65 bytes a row or column where the greatest price to begin with, times 3 n + 4 for n
/// columns, is less than 2^64 - 1: then all sums of a search are kept in numbers of 64 bits. Else
/// they are kept in numbers of 128 bits, and the tables take 97 bytes a row or column. That price
/// is the greatest weight; or, where a row or a column has one entry alone and not all weights are
/// equal, that weight times one more than twice the blocks, if that is at most 2^62.
///
/// Work: a maximum matching of the whole pattern, after which a matrix with no diagonal is
/// answered; its blocks, where a row or a column has one entry alone; and, unless that matching
/// costs as much as the first prices ask, as it does where all weights are equal, the phases of a
/// maximum matching of the entries that do. Then one search for each column that is left, as long
/// as these are short; then phases, each of which goes from all unmatched columns at once, or from
/// all unmatched rows, raises prices by the distances and matches what costs as much as these ask,
/// as long as each matches a column more and sums have room; and one search for each column that is
/// left then. A search looks at each entry once at most, a phase three times, and both keep what
/// they reach in a heap; before the first phase one look at each entry puts down the weights row by
/// row (Kuhn 1955; Munkres 1957; Gabow and Tarjan 1989; Duff and Koster 2001).
pub fn heaviest(
    alloc: Global,
    pattern: &Pattern,
    weights: &Weights,
) -> Result<Heaviest, OutOfMemory>
    requires { weights.now.matrix ≡ pattern.now }
    ensures { IfOk result (IsHeaviest weights.now) }
{
    if pattern.rows() != pattern.cols() {
        return Ok(Heaviest::Rectangular);
    }
    let maximum = complete(alloc, pattern, karp_sipser::start(alloc, pattern)?)?;
    if maximum.size() != pattern.cols() {
        return singular(alloc, pattern, &maximum);
    }
    heaviest_of_full(alloc, weights, maximum)
}

// The answer where the matrix has no diagonal.
fn singular(alloc: Global, pattern: &Pattern, maximum: &Matching) -> Result<Heaviest, OutOfMemory>
    requires maximum { IsMaximumOf pattern.now maximum.now }
    requires square { pattern.now.rows ≡ cols pattern.now }
    requires short { length maximum.now.pairs ≢ cols pattern.now }
    ensures { IfOk result (λ h. (w : Weighing) → w.matrix ≡ pattern.now → IsHeaviest w h) }
{
    let hall = hall_set(alloc, pattern, maximum)?;
    Ok(Heaviest::Singular {
        rank: maximum.size(),
        hall,
    })
}

// The answer where there is a full matching, by numbers of the width that has room for the sums.
fn heaviest_of_full(
    alloc: Global,
    weights: &Weights,
    full: Matching,
) -> Result<Heaviest, OutOfMemory>
    requires square { weights.now.matrix.rows ≡ cols weights.now.matrix }
    requires maximum { IsMaximumOf weights.now.matrix full }
    requires full { IsFull weights.now.matrix full.pairs }
    ensures { IfOk result (IsHeaviest weights.now) }
{
    let top = greatest_of_all(weights);
    let blocks = PriceBlocks::find(alloc, weights, &full, top)?;
    let most = highest_price(&blocks, top);
    if u64::has_room(weights.cols(), most) {
        heaviest_by_width::<u64>(alloc, weights, top, full, &blocks)
    } else {
        heaviest_by_width::<u128>(alloc, weights, top, full, &blocks)
    }
}

// The same where no entry weighs more than `top`, by numbers of one width.
fn heaviest_by_width<W: Width>(
    alloc: Global,
    weights: &Weights,
    top: u64,
    full: Matching,
    blocks: &Option<PriceBlocks>,
) -> Result<Heaviest, OutOfMemory>
    requires square { weights.now.matrix.rows ≡ cols weights.now.matrix }
    requires few { cols weights.now.matrix < 2 ^ 32 }
    requires small { AreAtMost weights.now top }
    requires room { HasRoom (cols weights.now.matrix) top W.limit }
    requires matching { IsMatchingOf weights.now.matrix full }
    requires full { IsFull weights.now.matrix full.pairs }
    requires blocks { IfSome blocks.now (AreBlocksOf weights.now.matrix) }
    ensures { IfOk result (IsHeaviest weights.now) }
{
    let assignment = start::<W>(alloc, weights, top)?;
    let assignment = set_apart(alloc, weights, assignment, blocks)?;
    let assignment = first_pairs(alloc, weights, assignment, full)?;
    if assignment.matching.size() == weights.cols() {
        return diagonal(alloc, weights, assignment);
    }
    let mut assignment = assignment;
    match_early(alloc, weights, &mut assignment)?;
    let mut assignment = match_by_phases(alloc, weights, assignment)?;
    match_all(alloc, weights, &mut assignment)?;
    diagonal(alloc, weights, assignment)
}

// Pairs to begin with: those of a full matching, where they cost as much as the prices ask, or else
// as many as can be had of the entries that do.
fn first_pairs<W: Width>(
    alloc: Global,
    weights: &Weights,
    assignment: Assignment<W>,
    full: Matching,
) -> Result<Assignment<W>, OutOfMemory>
    requires assignment { IsAssignment weights.now assignment }
    requires empty { assignment.matching.pairs ≡ [] }
    requires room { HasRoom (cols weights.now.matrix) assignment.top W.limit }
    requires matching { IsMatchingOf weights.now.matrix full }
    ensures assignment { IfOk result (IsAssignment weights.now) }
    ensures room { IfOk result (λ a. HasRoom (cols weights.now.matrix) a.top W.limit) }
{
    let candidate = Assignment {
        top: assignment.top,
        prices: assignment.prices,
        duals: assignment.duals,
        matching: full,
    };
    if is_fair(weights, &candidate) {
        return Ok(candidate);
    }
    let assignment = Assignment {
        top: candidate.top,
        prices: candidate.prices,
        duals: candidate.duals,
        matching: assignment.matching,
    };
    match_tight(alloc, weights, assignment)
}

// The answer where all columns have mates.
//
// The prices and the dual variables are given back once they have been read.
fn diagonal<W: Width>(
    alloc: Global,
    weights: &Weights,
    assignment: Assignment<W>,
) -> Result<Heaviest, OutOfMemory>
    requires square { weights.now.matrix.rows ≡ cols weights.now.matrix }
    requires few { cols weights.now.matrix < 2 ^ 32 }
    requires assignment { IsAssignment weights.now assignment }
    requires room { HasRoom (cols weights.now.matrix) assignment.top W.limit }
    requires all_cols { (c : ℕ) → c < cols weights.now.matrix
        → Among c (cols_of assignment.matching.pairs) }
    ensures { IfOk result (IsHeaviest weights.now) }
{
    assignment.matching.is_matching();
    let pairs = assignment.matching.pairs(alloc)?;
    let sum = sum_of(weights, pairs.as_slice());
    let u = row_prices(alloc, assignment.prices, assignment.top)?;
    let v = col_prices(alloc, assignment.duals, assignment.top)?;
    Ok(Heaviest::Diagonal { pairs, u, v, sum })
}

// The sum of the weights of these entries.
fn sum_of(weights: &Weights, pairs: &[(Row, Col)]) -> i128
    requires entries { AreEntries weights.now.matrix pairs.now }
    requires few { length pairs.now < 2 ^ 32 }
    ensures { result ≡ pos (total weights.now pairs.now) }
{
    let mut sum = 0;
    for k in 0..pairs.len() {
        let pair = pairs[k];
        sum += weights.weight(pair.0, pair.1) as i128;
    }
    sum
}

// The prices of the rows: how much more than `top` they are.
fn row_prices<W: Width>(
    alloc: Global,
    prices: Vec<Amount<W>>,
    top: u64,
) -> Result<Vec<i128>, OutOfMemory>
    requires { (i : ℕ) → slice_index prices.items i < W.limit }
    ensures { IfOk result (λ u. u.items ≡ map (λ p. pos p -ℤ pos top) prices.items) }
{
    let mut u = Vec::with_capacity(alloc, prices.len())?;
    for i in 0..prices.len() {
        u.push(prices[i].signed() - top as i128)?;
    }
    Ok(u)
}

// The prices of the columns: how much less than twice `top` their dual variables are.
fn col_prices<W: Width>(
    alloc: Global,
    duals: Vec<Amount<W>>,
    top: u64,
) -> Result<Vec<i128>, OutOfMemory>
    requires { (i : ℕ) → slice_index duals.items i < W.limit }
    ensures { IfOk result (λ v. v.items ≡ map (λ o. pos (top + top) -ℤ pos o) duals.items) }
{
    let mut v = Vec::with_capacity(alloc, duals.len())?;
    for i in 0..duals.len() {
        v.push(2 * top as i128 - duals[i].signed())?;
    }
    Ok(v)
}
