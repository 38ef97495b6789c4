//! Matrices with values, that a caller has as compressed columns or as compressed rows.

ghost use Rattle.std.specs.Prelude.{◌≡◌, ◌+◌, ◌<◌, ◌↔◌, IfErr, IfOk, IsTrue, false, length, true};
ghost use Rattle.bip_defs.specs.Lists.{Among};
ghost use Rattle.bip_defs.specs.Pieces.{piece};
ghost use Rattle.blocktri.specs.Compressed.{AreCompressed, matrix_given};
ghost use Rattle.blocktri.specs.DiagonalCauses.{IsDiagonalRefusal};
ghost use Rattle.blocktri.specs.Weighted.{AreValued, AreWeightsGiven, entries_of};
ghost use Rattle.sp_pattern.specs.ValuedColumns.{IsFirstId};

use crate::compressed::Compressed;
use crate::diagonal_refusals::{DiagonalRefusal, NO_MEMORY};
use crate::refusals::Refusal;
use sp_ids::{Col, Field, OutOfMemory, Row, Triples};
use sp_pattern::{
    NumberList, Pattern, ValuesError, WeightError, Weights, columns_give_their_places,
};
use std::alloc::Global;
use std::marker::Model;

/// A matrix as compressed columns or rows, with a value for each id.
#[derive(Drop)]
pub struct Weighted<'a, N: NumberList> {
    /// The matrix.
    pub matrix: &'a Compressed<N>,
    /// The values, as many as the matrix has ids.
    pub values: &'a [i64],
}

impl<'a, N: NumberList> Model for Weighted<'a, N> {
    ghost use Rattle.blocktri.specs.Weighted.{WeightedLists};

    ghost Value = { WeightedLists };

    ghost view = { λ w. record { lists = w.matrix.now; values = w.values.now } };
}

impl<'a, N: NumberList> Weighted<'a, N> {
    // Whether there is a value for each id.
    pub(crate) fn is_valued(&self) -> bool
        ensures { IsTrue result ↔ AreValued self.now }
    {
        let matrix = self.matrix;
        self.values.len() == matrix.ids.len()
    }

    // The pattern of the matrix.
    pub(crate) fn pattern(&self, alloc: Global) -> Result<Pattern, DiagonalRefusal>
        ensures compressed { IfOk result (λ a. AreCompressed self.now.lists) }
        ensures matrix { IfOk result (λ a. a ≡ matrix_given self.now.lists) }
        ensures refused { IfErr result (IsDiagonalRefusal (Unit {0}) (λ w. ⊥) self.now) }
    {
        if let Err(error) = self.matrix.check() {
            return Err(DiagonalRefusal::Lists(Refusal::Columns(error)));
        }
        match self.matrix.pattern(alloc) {
            Ok(pattern) => Ok(pattern),
            Err(_) => Err(NO_MEMORY),
        }
    }

    // The weights of the pattern of the matrix.
    pub(crate) fn weights<'p>(
        &self,
        alloc: Global,
        pattern: &'p Pattern,
    ) -> Result<Weights<'p>, DiagonalRefusal>
        requires compressed { AreCompressed self.now.lists }
        requires matrix { pattern.now ≡ matrix_given self.now.lists }
        requires values { AreValued self.now }
        ensures weights { IfOk result (AreWeightsGiven self.now) }
        ensures of { IfOk result (λ w. w.matrix ≡ pattern.now) }
        ensures refused { IfErr result (IsDiagonalRefusal (Unit {0}) (λ w. ⊥) self.now) }
    {
        let matrix = self.matrix;
        if matrix.by_rows {
            self.weights_by_rows(alloc, pattern)
        } else {
            self.weights_by_columns(alloc, pattern)
        }
    }

    // The same where the lists are compressed columns.
    fn weights_by_columns<'p>(
        &self,
        alloc: Global,
        pattern: &'p Pattern,
    ) -> Result<Weights<'p>, DiagonalRefusal>
        requires by_rows { self.now.lists.by_rows ≡ false }
        requires compressed { AreCompressed self.now.lists }
        requires matrix { pattern.now ≡ matrix_given self.now.lists }
        requires values { AreValued self.now }
        ensures weights { IfOk result (AreWeightsGiven self.now) }
        ensures of { IfOk result (λ w. w.matrix ≡ pattern.now) }
        ensures refused { IfErr result (IsDiagonalRefusal (Unit {0}) (λ w. ⊥) self.now) }
    {
        let matrix = self.matrix;
        match Weights::of_columns(alloc, pattern, matrix.starts, matrix.ids, self.values) {
            Ok(weights) => Ok(weights),
            Err(ValuesError::SumLimit(at)) => Err(DiagonalRefusal::SumLimit(at)),
            Err(ValuesError::OutOfMemory) => Err(NO_MEMORY),
        }
    }

    // The same where the lists are compressed rows.
    fn weights_by_rows<'p>(
        &self,
        alloc: Global,
        pattern: &'p Pattern,
    ) -> Result<Weights<'p>, DiagonalRefusal>
        requires by_rows { self.now.lists.by_rows ≡ true }
        requires compressed { AreCompressed self.now.lists }
        requires matrix { pattern.now ≡ matrix_given self.now.lists }
        requires values { AreValued self.now }
        ensures weights { IfOk result (AreWeightsGiven self.now) }
        ensures of { IfOk result (λ w. w.matrix ≡ pattern.now) }
        ensures refused { IfErr result (IsDiagonalRefusal (Unit {0}) (λ w. ⊥) self.now) }
    {
        columns_give_their_places();
        let Ok(triples) = self.triples_of_rows(alloc) else {
            return Err(NO_MEMORY);
        };
        let refused = match Weights::build(alloc, pattern, &triples) {
            Ok(weights) => return Ok(weights),
            Err(refused) => refused,
        };
        match refused {
            WeightError::SumLimit { row, col } => {
                Err(DiagonalRefusal::SumLimit(self.first_id(row, col)))
            }
            WeightError::OutOfMemory => Err(NO_MEMORY),
        }
    }

    // The entries that compressed rows give.
    fn triples_of_rows(&self, alloc: Global) -> Result<Triples, OutOfMemory>
        requires by_rows { self.now.lists.by_rows ≡ true }
        requires compressed { AreCompressed self.now.lists }
        requires values { AreValued self.now }
        ensures { IfOk result (λ t. t ≡ entries_of self.now) }
    {
        let matrix = self.matrix;
        let rows = (matrix.starts.len() - 1) as u32;
        let mut triples = Triples::new(alloc, rows, matrix.others as u32, Field::Integer)?;
        for row in 0..rows {
            let from = matrix.starts.at(row as usize) as usize;
            let to = matrix.starts.at(row as usize + 1) as usize;
            for k in from..to {
                let col = Col(matrix.ids.at(k) as u32);
                triples.push(Row(row), col, self.values[k])?;
            }
        }
        Ok(triples)
    }

    // Where the first id stands that gives an entry's place in compressed rows.
    fn first_id(&self, row: Row, col: Col) -> usize
        requires compressed { AreCompressed self.now.lists }
        requires row { row + 1 < length self.now.lists.starts }
        requires given { Among col (piece self.now.lists.starts self.now.lists.ids row) }
        ensures { IsFirstId self.now.lists.starts self.now.lists.ids col row result }
    {
        let matrix = self.matrix;
        let mut k = matrix.starts.at(row.0 as usize) as usize;
        while matrix.ids.at(k) != col.0 as u64 {
            k += 1;
        }
        k
    }
}
