//! The least prices of rows with which a diagonal's fair prices fit 64 bits.
//!
//! Fair prices are those that meet a bound for each entry: the price of its row is at least that of
//! its column's mate and by how much the entry weighs more than the mate's. Prices that begin at
//! the least at which the columns' prices fit and are raised as the entries ask come to the least
//! ones, as long paths in Bellman's and Ford's search (Bellman 1958).

ghost use Rattle.std.specs.Prelude.{◌≡◌, ◌⊎◌, ◌<◌, ◌≤◌, ◌≤ℤ◌, ◌<ℤ◌, ◌+◌, ◌+ℤ◌, ◌-ℤ◌, ◌^◌, ℕ, ℤ, pos, IfNone, IfSome, IsTrue, List, length, slice_index};
ghost use Rattle.std.specs.Int.RustNames.{unsigned_abs};
ghost use Rattle.bip_defs.specs.Bottleneck.{IsFull};
ghost use Rattle.bip_defs.specs.Matrix.{IsEntry};
ghost use Rattle.blocktri.specs.RowPrices.{AreAtMost, AreColumnPrices, AreEnough, AreLow, HasNoNarrow, HasRaised, IsDiagonal, asked, gap};
ghost use Rattle.integer_diagonal.specs.Prices.{price};
ghost use Rattle.sp_pattern.specs.Weights.{weight_at, weight_limit};

use sp_ids::{Col, Row};
use sp_pattern::{Neighbours, Weights};

/// The least prices of rows with which fair prices of the diagonal fit 64 bits, if there are any.
///
/// Work: looks at all entries, where there are fair prices at most as many times as there are rows.
pub fn least_row_prices(weights: &Weights, pairs: &[(Row, Col)], u: &mut Vec<i128>) -> bool
    requires diagonal { IsDiagonal weights.now pairs.now }
    requires long { length u.old.items ≡ weights.now.matrix.rows }
    ensures low { IsTrue result → AreLow weights.now pairs.now u.new.items }
    ensures enough { IsTrue result
        → AreEnough weights.now pairs.now (length pairs.now) u.new.items }
    ensures none { ¬ IsTrue result → HasNoNarrow weights.now pairs.now }
{
    first_prices(weights, pairs, u);
    loop {
        match raise_all(weights, pairs, u) {
            None => return false,
            Some(raised) => {
                if !raised {
                    return true;
                }
            }
        }
    }
}

// The least prices of rows with which the columns' prices fit.
fn first_prices(weights: &Weights, pairs: &[(Row, Col)], u: &mut Vec<i128>)
    requires diagonal { IsDiagonal weights.now pairs.now }
    requires long { length u.old.items ≡ weights.now.matrix.rows }
    ensures { AreLow weights.now pairs.now u.new.items }
{
    for k in 0..pairs.len() {
        let pair = pairs[k];
        let row = pair.0;
        let col = pair.1;
        u[row.0 as usize] = weights.weight(row, col) as i128 - i64::MAX as i128;
    }
}

// Raises the prices of the rows as the entries ask, looking at each once. Whether some price was
// raised; none, where one would have to pass the greatest of 64 bits.
fn raise_all(weights: &Weights, pairs: &[(Row, Col)], u: &mut Vec<i128>) -> Option<bool>
    requires diagonal { IsDiagonal weights.now pairs.now }
    requires low { AreLow weights.now pairs.now u.old.items }
    ensures low { IfSome result (λ raised. AreLow weights.now pairs.now u.new.items) }
    ensures nearer { IfSome result (λ raised. IsTrue raised → gap u.new.items < gap u.old.items) }
    ensures enough { IfSome result (λ raised. ¬ IsTrue raised
        → AreEnough weights.now pairs.now (length pairs.now) u.new.items) }
    ensures none { IfNone result (HasNoNarrow weights.now pairs.now) }
{
    let mut raised = false;
    for k in 0..pairs.len() {
        let pair = pairs[k];
        let mate = pair.0;
        let col = pair.1;
        let base = base_of(weights, mate, col, u);
        match raise_rows(weights.rows_of(col), weights.weights_of(col), base, u) {
            None => return None,
            Some(more) => raised = raised || more,
        }
    }
    Some(raised)
}

// What a pair asks of the prices of its column's rows, beside the weights of their entries.
fn base_of(weights: &Weights, mate: Row, col: Col, u: &Vec<i128>) -> i128
    requires entry { IsEntry weights.now.matrix mate col }
    requires long { length u.now.items ≡ weights.now.matrix.rows }
    requires high { price u.now.items mate ≤ℤ pos weight_limit }
    requires low { pos (weight_at weights.now mate col)
        ≤ℤ (price u.now.items mate +ℤ pos weight_limit) }
    ensures base { result ≡ (price u.now.items mate -ℤ pos (weight_at weights.now mate col)) }
    ensures small { unsigned_abs result ≤ 2 ^ 65 }
{
    u[mate.0 as usize] - weights.weight(mate, col) as i128
}

// Raises the prices of a column's rows as its entries ask. Whether some price was raised; none,
// where one would have to pass the greatest of 64 bits.
fn raise_rows(rows: &[Row], weights: &[u64], base: i128, u: &mut Vec<i128>) -> Option<bool>
    requires inside { (i : ℕ) → i < length rows.now → slice_index rows.now i < length u.old.items }
    requires long { length weights.now ≡ length rows.now }
    requires base { unsigned_abs base ≤ 2 ^ 65 }
    requires within { AreAtMost u.old.items }
    ensures raised { IfSome result
        (HasRaised rows.now weights.now base u.old.items u.new.items) }
    ensures past { IfNone result ((i : ℕ) × (i < length rows.now)
        × (pos weight_limit <ℤ asked weights.now base i)) }
{
    let mut raised = false;
    for i in 0..rows.len() {
        let least = base + weights[i] as i128;
        let row = rows[i];
        let at = row.0 as usize;
        if u[at] < least {
            if least > i64::MAX as i128 {
                return None;
            }
            u[at] = least;
            raised = true;
        }
    }
    Some(raised)
}

/// Writes the prices of columns that go with the prices of rows.
pub fn write_column_prices(weights: &Weights, pairs: &[(Row, Col)], u: &[i128], v: &mut Vec<i128>)
    requires full { IsFull weights.now.matrix pairs.now }
    requires low { AreLow weights.now pairs.now u.now }
    requires long { length v.old.items ≡ length weights.now.matrix.columns }
    ensures long { length v.new.items ≡ length v.old.items }
    ensures prices { AreColumnPrices weights.now pairs.now u.now v.new.items }
{
    for k in 0..pairs.len() {
        let pair = pairs[k];
        let row = pair.0;
        let col = pair.1;
        v[col.0 as usize] = weights.weight(row, col) as i128 - u[row.0 as usize];
    }
}
