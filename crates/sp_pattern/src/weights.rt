//! The weights of a pattern's entries.

ghost use Rattle.std.specs.Prelude.{◌≡◌, ◌<◌, ℕ, pos, IfOk, IfErr, IfNone, IfSome, length, map, slice_index, slice_index_or};
ghost use Rattle.std.specs.Int.RustNames.{unsigned_abs};
ghost use Rattle.bip_defs.specs.Matrix.{IsEntry, cols, column, entry_count};
ghost use Rattle.sp_ids.specs.declared.triples.Field.TheVariants.{Integer};
ghost use Rattle.sp_ids.specs.Entries.{Entries};
ghost use Rattle.sp_pattern.specs.Weights.{AreSums, AreWeightsOf, AreWithin, weight_at, weight_limit, weights_in};

use crate::Pattern;
use crate::sums::sums_of;
use sp_ids::{Col, MAX_VALUE, OutOfMemory, Row, Triples};
use std::alloc::Global;
use std::marker::Model;

/// Why there are no weights.
#[derive(Clone, Copy, Debug, PartialEq, Eq)]
pub enum WeightError {
    /// The sum of an entry's values passes 9,223,372,036,854,775,807 in magnitude. Of all such
    /// entries this is the one of least column, and in it of least row.
    SumLimit { row: Row, col: Col },
    /// There was not enough memory.
    OutOfMemory,
}

/// For each entry of a pattern the magnitude of the sum of the values that an integer file gives
/// for its place.
///
/// It keeps 8 bytes an entry, in the order of the pattern's columns.
#[derive(Drop)]
pub struct Weights<'p> {
    pattern: &'p Pattern,
    weights: Vec<u64>,
}

impl<'p> Model for Weights<'p> {
    ghost use Rattle.std.specs.Prelude.{◌≡◌, length};
    ghost use Rattle.bip_defs.specs.Matrix.{entry_count};
    ghost use Rattle.sp_pattern.specs.Weights.{Weighing};

    ghost Value = { Weighing };

    ghost view = { λ w. record { matrix = w.pattern.now; weights = w.weights.items } };

    ghost invariant = { λ w. length w.weights.items ≡ entry_count w.pattern.now };
}

impl<'p> Weights<'p> {
    /// The pattern whose entries have these weights.
    pub fn pattern(&self) -> &'p Pattern
        ensures { result.now ≡ self.now.matrix }
    {
        self.pattern
    }

    /// The weights of a column's entries, in the order in which `Pattern::rows_of` lends its rows,
    /// lent without copying.
    pub fn weights_of(&self, col: Col) -> &[u64]
        requires { col < cols self.now.matrix }
        ensures weights { result.now ≡ weights_in self.now col }
        ensures length { length result.now ≡ length (column self.now.matrix col) }
        ensures each { (k : ℕ) → k < length result.now
            → slice_index result.now k
            ≡ weight_at self.now (slice_index (column self.now.matrix col) k) col }
    {
        let (from, to) = self.pattern.span(col);
        &self.weights.as_slice()[from..to]
    }

    // The weights of all entries, column by column.
    pub(crate) fn weights(&self) -> &[u64]
        ensures weights { result.now ≡ self.now.weights }
        ensures length { length result.now ≡ entry_count self.now.matrix }
    {
        self.weights.as_slice()
    }

    /// The magnitude of the sum of an entry's values.
    pub fn weight(&self, row: Row, col: Col) -> u64
        requires { IsEntry self.now.matrix row col }
        ensures { result ≡ weight_at self.now row col }
    {
        self.weights.as_slice()[self.pattern.place_of(row, col)]
    }
}

impl<'p> Weights<'p> {
    ghost use Rattle.sp_pattern.specs.WeightErrors.{IsWeightError};

    /// The weights of a pattern's entries, by a file of the field integer. An entry that the file
    /// does not give weighs 0; a place that is no entry is passed over.
    ///
    /// Answers `SumLimit` exactly where the sum of some entry's values passes the limit in
    /// magnitude, and `OutOfMemory` where there is no memory for the weights, or for 16 bytes an
    /// entry beside them while the values are added up. Work: one look at each entry of the file and
    /// of the pattern, and a search in its column for each entry that the file does not give right
    /// behind the one before it in the order of columns.
    pub fn build(
        alloc: Global,
        pattern: &'p Pattern,
        triples: &Triples,
    ) -> Result<Weights<'p>, WeightError>
        requires { triples.now.field ≡ Integer }
        ensures weights { IfOk result (AreWeightsOf triples.now pattern.now) }
        ensures refused { IfErr result (IsWeightError triples.now pattern.now) }
    {
        let Ok(sums) = sums_of(alloc, pattern, triples) else {
            return Err(WeightError::OutOfMemory);
        };
        Weights::of_sums(alloc, pattern, sums.as_slice())
    }

    // The weights of a pattern's entries, by the sums of their values.
    pub(crate) fn of_sums(
        alloc: Global,
        pattern: &'p Pattern,
        sums: &[i128],
    ) -> Result<Weights<'p>, WeightError>
        requires { length sums.now ≡ entry_count pattern.now }
        ensures weights { IfOk result (λ w. (t : Entries) → AreSums t.items pattern.now sums.now
            → AreWeightsOf t pattern.now w) }
        ensures refused { IfErr result (λ e. (t : Entries) → AreSums t.items pattern.now sums.now
            → IsWeightError t pattern.now e) }
    {
        pattern.is_pattern();
        if let Some(at) = first_large(sums) {
            let (row, col) = pattern.place_at(at);
            return Err(WeightError::SumLimit { row, col });
        }
        let Ok(weights) = magnitudes(alloc, sums) else {
            return Err(WeightError::OutOfMemory);
        };
        Ok(Weights { pattern, weights })
    }
}

// Where the first sum stands that passes the limit.
fn first_large(sums: &[i128]) -> Option<usize>
    ensures found { IfSome result (λ k. (k < length sums.now)
        × (weight_limit < unsigned_abs (slice_index_or sums.now k (pos 0)))) }
    ensures first { IfSome result (λ k. AreWithin k sums.now) }
    ensures none { IfNone result (AreWithin (length sums.now) sums.now) }
{
    for k in 0..sums.len() {
        if sums[k].unsigned_abs() > MAX_VALUE as u128 {
            return Some(k);
        }
    }
    None
}

// The magnitudes of sums that are within the limit.
fn magnitudes(alloc: Global, sums: &[i128]) -> Result<Vec<u64>, OutOfMemory>
    requires { AreWithin (length sums.now) sums.now }
    ensures { IfOk result (λ w. w.items ≡ map unsigned_abs sums.now) }
{
    let mut weights = Vec::with_capacity(alloc, sums.len())?;
    for k in 0..sums.len() {
        weights.push(sums[k].unsigned_abs() as u64)?;
    }
    Ok(weights)
}
