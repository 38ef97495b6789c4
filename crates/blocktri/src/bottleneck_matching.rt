//! The bottleneck of a matrix with values.

ghost use Rattle.std.specs.Prelude.{◌≡◌, ◌↔◌, IfErr, IfOk, IsTrue, OnErr};
ghost use Rattle.bip_defs.specs.Bottleneck.{IsBest};
ghost use Rattle.blocktri.specs.DiagonalCauses.{IsDiagonalRefusal, RefusesDiagonalRightly};
ghost use Rattle.blocktri.specs.Diagonals.{HaveBottleneckLengths, TellsBottleneck};
ghost use Rattle.blocktri.specs.Weighted.{AreValued, HasWeights};
ghost use Rattle.sp_pattern.specs.Weights.{weight_at};

use crate::compressed::is_room;
use crate::diagonal_refusals::{DiagonalRefusal, NO_MEMORY};
use crate::refusals::Refusal;
use crate::weighted::Weighted;
use crate::write_diagonal::{write_columns, write_rows};
use bip_graph::Bottleneck;
use bottleneck::best;
use sp_ids::{Col, Row};
use sp_pattern::NumberList;
use std::alloc::Global;

/// The least weight of a perfect matching, and how many columns show that none has a greater one.
#[derive(Clone, Copy, Debug, PartialEq, Eq)]
pub struct LeastWeight {
    pub weight: u64,
    pub columns: u32,
}

// A perfect matching, the least of its weights, and the columns that show that none is greater.
#[derive(Drop)]
struct BestMatching {
    pairs: Vec<(Row, Col)>,
    least: u64,
    hall: Vec<Col>,
}

/// The bottleneck of a square matrix with values: for each column its row in a perfect matching
/// whose least weight is greatest, that weight, and the columns that show it: they are more than
/// the rows of their entries above it. The weight of a place is the magnitude of the sum of its
/// values; the least weight of no pairs is 0.
///
/// Those columns stand at the first places of `shown_by`, rising; what stands farther on stays.
/// There must be a value for each id, and `row_of_column` and `shown_by` must have a place for
/// each column, or each of them none where it is not wanted; these lengths are looked at first.
/// The number of these columns is returned whether or not they are wanted. Then the matrix is
/// checked as [`Compressed::check`] does. `SumLimit` exactly where the sum of some place's values
/// passes the limit, `NotSquare` exactly where there are not as many rows as columns, `Singular`
/// exactly where there are and the matrix has no perfect matching, `PriceLimit` never.
///
/// Returns `OutOfMemory` where `sp_pattern::Pattern::of_columns`,
/// `sp_pattern::Weights::of_columns` or `bottleneck::best` does; by rows, where
/// `sp_pattern::Pattern::of_checked_rows` or `sp_pattern::Weights::build` does in place of the
/// first two, and if it cannot allocate 16 bytes an id for these. Work: as these.
///
/// [`Compressed::check`]: crate::Compressed::check
pub fn bottleneck<N: NumberList>(
    alloc: Global,
    matrix: &Weighted<'_, N>,
    row_of_column: &mut [u32],
    shown_by: &mut [u32],
) -> Result<LeastWeight, DiagonalRefusal>
    ensures found { IfOk result (λ l. HasWeights matrix.now
        (λ w. TellsBottleneck w l row_of_column.old row_of_column.new shown_by.old shown_by.new)) }
    ensures refused { RefusesDiagonalRightly
        (HaveBottleneckLengths matrix.now row_of_column.old shown_by.old) (λ w. ⊥) matrix.now
        result }
    ensures kept { OnErr result ((row_of_column.new ≡ row_of_column.old)
        × (shown_by.new ≡ shown_by.old)) }
{
    if !have_lengths(matrix, row_of_column, shown_by) {
        return Err(DiagonalRefusal::Lists(Refusal::Lengths));
    }
    let found = best_matching(alloc, matrix)?;
    write_rows(found.pairs.as_slice(), row_of_column);
    write_columns(found.hall.as_slice(), shown_by);
    Ok(LeastWeight {
        weight: found.least,
        columns: found.hall.len() as u32,
    })
}

// Whether all lengths are right.
fn have_lengths<N: NumberList>(
    matrix: &Weighted<'_, N>,
    row_of_column: &[u32],
    shown_by: &[u32],
) -> bool
    ensures { IsTrue result ↔ HaveBottleneckLengths matrix.now row_of_column.now shown_by.now }
{
    let columns = matrix.matrix.columns();
    matrix.is_valued() && is_room(row_of_column, columns) && is_room(shown_by, columns)
}

// A perfect matching whose least weight is greatest, and the columns that show it.
fn best_matching<N: NumberList>(
    alloc: Global,
    matrix: &Weighted<'_, N>,
) -> Result<BestMatching, DiagonalRefusal>
    requires values { AreValued matrix.now }
    ensures found { IfOk result (λ d. HasWeights matrix.now
        (λ w. IsBest w.matrix (weight_at w) d.pairs.items d.least d.hall.items)) }
    ensures refused { IfErr result (IsDiagonalRefusal (Unit {0}) (λ w. ⊥) matrix.now) }
{
    let pattern = matrix.pattern(alloc)?;
    let weights = matrix.weights(alloc, &pattern)?;
    match best(alloc, &pattern, &weights) {
        Ok(Bottleneck::Best { pairs, least, hall }) => Ok(BestMatching { pairs, least, hall }),
        Ok(Bottleneck::Rectangular) => Err(DiagonalRefusal::NotSquare),
        Ok(Bottleneck::Singular { .. }) => Err(DiagonalRefusal::Singular),
        Err(_) => Err(NO_MEMORY),
    }
}
