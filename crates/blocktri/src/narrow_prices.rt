//! Prices that fit 64 bits.

ghost use Rattle.std.specs.Prelude.{◌≤◌, ◌↔◌, ℕ, ℤ, IsTrue, List, length};
ghost use Rattle.bip_defs.specs.Bottleneck.{IsFull};
ghost use Rattle.bip_defs.specs.Matrix.{IsEntry};
ghost use Rattle.blocktri.specs.Diagonals.{AreNarrow};
ghost use Rattle.blocktri.specs.RowPrices.{HasNoNarrow, IsDiagonal};
ghost use Rattle.integer_diagonal.specs.Prices.{AreFair};
ghost use Rattle.sp_pattern.specs.Weights.{weight_at, weight_limit};

use crate::row_prices::{least_row_prices, write_column_prices};
use sp_ids::{Col, Row};
use sp_pattern::Weights;

/// Gives a diagonal fair prices that fit 64 bits, where that is asked for and it has any: those that
/// are there, where they fit, and else those in which each row's price is least.
pub fn narrow(
    asks: bool,
    weights: &Weights,
    pairs: &[(Row, Col)],
    u: &mut Vec<i128>,
    v: &mut Vec<i128>,
) -> bool
    requires diagonal { IsDiagonal weights.now pairs.now }
    requires fair { AreFair weights.now pairs.now u.old.items v.old.items }
    ensures fair { IsTrue result → AreFair weights.now pairs.now u.new.items v.new.items }
    ensures narrow { IsTrue result → IsTrue asks
        → AreNarrow u.new.items × AreNarrow v.new.items }
    ensures asked { ¬ IsTrue result → IsTrue asks }
    ensures none { ¬ IsTrue result → HasNoNarrow weights.now pairs.now }
{
    if !asks {
        return true;
    }
    if are_narrow(u.as_slice()) && are_narrow(v.as_slice()) {
        return true;
    }
    if !least_row_prices(weights, pairs, u) {
        return false;
    }
    write_column_prices(weights, pairs, u.as_slice(), v);
    true
}

// Whether prices fit 64 bits.
fn are_narrow(prices: &[i128]) -> bool
    ensures { IsTrue result ↔ AreNarrow prices.now }
{
    for k in 0..prices.len() {
        if prices[k] < i64::MIN as i128 || prices[k] > i64::MAX as i128 {
            return false;
        }
    }
    true
}
