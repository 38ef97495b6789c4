//! The pattern of the entries that a filter keeps.

ghost use Rattle.std.specs.Prelude.{◌≡◌, ◌<◌, ◌++◌, ℕ, Bool, filter, IfOk, OnOk};
ghost use Rattle.bip_defs.specs.Bottleneck.{restricted};
ghost use Rattle.bip_defs.specs.Lists.{Lists};
ghost use Rattle.bip_defs.specs.Matrix.{IsEntry, Matrix, cols, column};
ghost use Rattle.sp_pattern.specs.Restricted.{AreKept};

use crate::Pattern;
use crate::compress::fill_starts;
use sp_ids::{Col, OutOfMemory, Row};
use std::alloc::Global;

/// Keeps some entries of a matrix, by their rows and columns.
pub trait Filter {
    /// The matrix whose entries are looked at.
    ghost matrix: { Self → Matrix };

    /// Whether the entry of a row and a column is kept.
    ghost keeps: { Self → ℕ → ℕ → Bool };

    /// Adds to the list those of a column's rows whose entries are kept, in their order.
    fn push_kept(&self, col: Col, rows: &[Row], kept: &mut Vec<Row>) -> Result<(), OutOfMemory>
        requires col { col < cols (matrix self.now) }
        requires rows { Lists (λ r. IsEntry (matrix self.now) r col) rows.now }
        requires column { rows.now ≡ column (matrix self.now) col }
        ensures { OnOk result
            (kept.new.items ≡ kept.old.items ++ filter (λ r. keeps self.now r col) rows.now) };
}

impl Pattern {
    /// The pattern of the entries that the filter keeps.
    ///
    /// The filter must be of this pattern's matrix. Returns `OutOfMemory` if it cannot allocate the
    /// pattern, in which the list by columns has room for all entries, or what
    /// [`Pattern::build`] takes while the second order is derived from the first. Work: one look at
    /// each row and column, what the filter does with each column's entries, and work linear in the
    /// entries that are kept.
    pub fn filtered<F: Filter>(&self, alloc: Global, keep: &F) -> Result<Pattern, OutOfMemory>
        requires { F.matrix keep.now ≡ self.now }
        ensures { IfOk result (λ b. b ≡ restricted self.now (F.keeps keep.now)) }
    {
        self.is_pattern();
        let (starts, rows) = self.kept_columns(alloc, keep)?;
        Pattern::from_column_order(alloc, self.rows(), self.cols(), starts, rows)
    }

    // The rows of the entries that are kept, column by column.
    fn kept_columns<F: Filter>(
        &self,
        alloc: Global,
        keep: &F,
    ) -> Result<(Vec<u32>, Vec<Row>), OutOfMemory>
        requires { F.matrix keep.now ≡ self.now }
        ensures { IfOk result (λ o. AreKept self.now
            (λ c. filter (λ r. F.keeps keep.now r c) (column self.now c)) o.0.items o.1.items) }
    {
        self.is_pattern();
        let cols = self.cols();
        let mut starts = Vec::with_capacity(alloc, cols as usize + 1)?;
        let mut rows = Vec::with_capacity(alloc, self.entries() as usize)?;
        for col in 0..cols {
            fill_starts(&mut starts, col, rows.len() as u32)?;
            keep.push_kept(Col(col), self.rows_of(Col(col)), &mut rows)?;
        }
        fill_starts(&mut starts, cols, rows.len() as u32)?;
        Ok((starts, rows))
    }
}
