//! The heaviest diagonal of a matrix with values.

ghost use Rattle.std.specs.Prelude.{◌≡◌, ◌↔◌, ◌≤ℤ◌, pos, IfErr, IfOk, IsTrue, OnErr};
ghost use Rattle.blocktri.specs.DiagonalCauses.{IsDiagonalRefusal, RefusesDiagonalRightly};
ghost use Rattle.blocktri.specs.Diagonals.{HasNoNarrowPrices, HasNoWantedPrices, HaveHeaviestLengths, IsDiagonalFound, TellsHeaviest, WantsPrices, number_of};
ghost use Rattle.blocktri.specs.Weighted.{AreValued, HasWeights};

use crate::compressed::is_room;
use crate::diagonal_refusals::{DiagonalRefusal, NO_MEMORY};
use crate::narrow_prices::narrow;
use crate::refusals::Refusal;
use crate::weighted::Weighted;
use crate::write_diagonal::{write_prices, write_rows};
use bip_graph::Heaviest;
use sp_ids::{Col, Row};
use sp_pattern::NumberList;
use std::alloc::Global;

// 2^64
const TWO_TO_64: u128 = 18446744073709551616;

/// The sum of a diagonal's weights: `low` and 2^64 times `high`.
#[repr(C)]
#[derive(Clone, Copy, Debug, PartialEq, Eq)]
pub struct Sum {
    pub low: u64,
    pub high: u64,
}

// A heaviest diagonal with fair prices.
#[derive(Drop)]
struct Diagonal {
    pairs: Vec<(Row, Col)>,
    row_prices: Vec<i128>,
    column_prices: Vec<i128>,
    sum: i128,
}

/// The heaviest diagonal of a square matrix with values: for each column its row in a perfect
/// matching whose weights have a greatest sum, prices of the rows and the columns that show it, and
/// the sum. The weight of a place is the magnitude of the sum of its values; each entry weighs at
/// most the prices of its row and its column together, and each pair of the diagonal as much.
///
/// There must be a value for each id, and `row_of_column` and `column_prices` must have a place for
/// each column, `row_prices` one for each row, or each of them none where it is not wanted; these
/// lengths are looked at first. Then the matrix is checked as [`Compressed::check`] does.
/// `SumLimit` exactly where the sum of some place's values passes the limit; `NotSquare` exactly
/// where there are not as many rows as columns; `Singular` exactly where there are and the matrix
/// has no perfect matching; `PriceLimit` exactly where prices are wanted and none that show it all
/// fit 64 bits.
///
/// Returns `OutOfMemory` where `sp_pattern::Pattern::of_columns`,
/// `sp_pattern::Weights::of_columns` or `integer_diagonal::heaviest` does; by rows, where
/// `sp_pattern::Pattern::of_checked_rows` or `sp_pattern::Weights::build` does in place of the
/// first two, and if it cannot allocate 16 bytes an id for these. Work: as these; where prices are
/// wanted and those that were found do not fit, looks besides at all entries, as many times at
/// most as there are rows.
///
/// [`Compressed::check`]: crate::Compressed::check
pub fn heaviest<N: NumberList>(
    alloc: Global,
    matrix: &Weighted<'_, N>,
    row_of_column: &mut [u32],
    row_prices: &mut [i64],
    column_prices: &mut [i64],
) -> Result<Sum, DiagonalRefusal>
    ensures found { IfOk result (λ s. HasWeights matrix.now
        (λ w. TellsHeaviest w s row_of_column.old row_of_column.new row_prices.old row_prices.new
        column_prices.old column_prices.new)) }
    ensures refused { RefusesDiagonalRightly
        (HaveHeaviestLengths matrix.now row_of_column.old row_prices.old column_prices.old)
        (HasNoWantedPrices row_prices.old column_prices.old) matrix.now result }
    ensures kept { OnErr result ((row_of_column.new ≡ row_of_column.old)
        × (row_prices.new ≡ row_prices.old) × (column_prices.new ≡ column_prices.old)) }
{
    if !have_lengths(matrix, row_of_column, row_prices, column_prices) {
        return Err(DiagonalRefusal::Lists(Refusal::Lengths));
    }
    let found = found_diagonal(alloc, matrix, wants_prices(row_prices, column_prices))?;
    write_rows(found.pairs.as_slice(), row_of_column);
    write_prices(found.row_prices.as_slice(), row_prices);
    write_prices(found.column_prices.as_slice(), column_prices);
    Ok(words(found.sum))
}

// Whether all lengths are right.
fn have_lengths<N: NumberList>(
    matrix: &Weighted<'_, N>,
    row_of_column: &[u32],
    row_prices: &[i64],
    column_prices: &[i64],
) -> bool
    ensures { IsTrue result ↔ HaveHeaviestLengths matrix.now row_of_column.now row_prices.now
        column_prices.now }
{
    let (rows, columns) = (matrix.matrix.rows(), matrix.matrix.columns());
    matrix.is_valued()
        && is_room(row_of_column, columns)
        && is_room(row_prices, rows)
        && is_room(column_prices, columns)
}

// Whether one of the two lists of prices is wanted at least.
fn wants_prices(row_prices: &[i64], column_prices: &[i64]) -> bool
    ensures { IsTrue result ↔ WantsPrices row_prices.now column_prices.now }
{
    row_prices.len() != 0 || column_prices.len() != 0
}

// A heaviest diagonal with fair prices, which fit 64 bits where that is asked for.
fn found_diagonal<N: NumberList>(
    alloc: Global,
    matrix: &Weighted<'_, N>,
    asks: bool,
) -> Result<Diagonal, DiagonalRefusal>
    requires values { AreValued matrix.now }
    ensures found { IfOk result (λ d. HasWeights matrix.now (λ w. IsDiagonalFound asks w
        d.pairs.items d.row_prices.items d.column_prices.items d.sum)) }
    ensures refused { IfErr result (IsDiagonalRefusal (Unit {0})
        (λ w. IsTrue asks × HasNoNarrowPrices w) matrix.now) }
{
    let pattern = matrix.pattern(alloc)?;
    let weights = matrix.weights(alloc, &pattern)?;
    match integer_diagonal::heaviest(alloc, &pattern, &weights) {
        Ok(Heaviest::Diagonal { pairs, u, v, sum }) => {
            let (mut u, mut v) = (u, v);
            if !narrow(asks, &weights, pairs.as_slice(), &mut u, &mut v) {
                return Err(DiagonalRefusal::PriceLimit);
            }
            Ok(Diagonal {
                pairs,
                row_prices: u,
                column_prices: v,
                sum,
            })
        }
        Ok(Heaviest::Rectangular) => Err(DiagonalRefusal::NotSquare),
        Ok(Heaviest::Singular { .. }) => Err(DiagonalRefusal::Singular),
        Err(_) => Err(NO_MEMORY),
    }
}

// The words of a sum, which is not negative.
fn words(sum: i128) -> Sum
    requires { pos 0 ≤ℤ sum }
    ensures { pos (number_of result) ≡ sum }
{
    let sum = sum as u128;
    Sum {
        low: (sum % TWO_TO_64) as u64,
        high: (sum / TWO_TO_64) as u64,
    }
}
