//! What a forest holds as lists by row and by column, with which boards of words are opened.
//!
//! The forest's tables have 4 or 8 bytes a row or column, and an `Option` of a row or column has 8:
//! to lend such a list the forest would have to keep it beside its table. So each call fills a new
//! list, in one pass.

ghost use Rattle.std.specs.Prelude.{◌≡◌, length, IfOk};
ghost use Rattle.bip_defs.specs.Matrix.{cols};
ghost use Rattle.forest_core.specs.Stored.{AreColTrees, AreRowTrees};
ghost use Rattle.forest_core.specs.Tables.{IsTableOf};

use crate::forest::Forest;
use sp_ids::{Col, OutOfMemory, Row};
use std::alloc::Global;

impl<'p> Forest<'p> {
    /// By row the column that claimed it, where the row is claimed.
    ///
    /// Returns `OutOfMemory` if it cannot allocate 8 bytes a row. Work: one look at each row.
    pub fn row_holders(&self, alloc: Global) -> Result<Vec<Option<Col>>, OutOfMemory>
        ensures long { IfOk result (λ list. length list.items ≡ self.now.matrix.rows) }
        ensures holders { IfOk result (λ list. IsTableOf self.now.claims list.items) }
    {
        let rows = self.rows();
        let mut list = Vec::with_capacity(alloc, rows as usize)?;
        for row in 0..rows {
            list.push_reserved(self.holder(Row(row)));
        }
        Ok(list)
    }

    /// By column its leaf, where it is a root with a leaf.
    ///
    /// Returns `OutOfMemory` if it cannot allocate 8 bytes a column. Work: one look at each column.
    pub fn root_leaves(&self, alloc: Global) -> Result<Vec<Option<Row>>, OutOfMemory>
        ensures long { IfOk result (λ list. length list.items ≡ cols self.now.matrix) }
        ensures leaves { IfOk result (λ list. IsTableOf self.now.leaves list.items) }
    {
        let cols = self.cols();
        let mut list = Vec::with_capacity(alloc, cols as usize)?;
        for col in 0..cols {
            list.push_reserved(self.leaf(Col(col)));
        }
        Ok(list)
    }

    /// By row the root of its tree, where the row is claimed.
    ///
    /// Returns `OutOfMemory` if it cannot allocate 8 bytes a row. Work: one look at each row.
    pub fn row_trees(&self, alloc: Global) -> Result<Vec<Option<Col>>, OutOfMemory>
        ensures long { IfOk result (λ list. length list.items ≡ self.now.matrix.rows) }
        ensures roots { IfOk result (λ list. AreRowTrees self.now list.items) }
    {
        let rows = self.rows();
        let mut list = Vec::with_capacity(alloc, rows as usize)?;
        for row in 0..rows {
            list.push_reserved(self.root_of_row(Row(row)));
        }
        Ok(list)
    }

    /// By column the root of its tree, where the column is in the forest.
    ///
    /// Returns `OutOfMemory` if it cannot allocate 8 bytes a column. Work: one look at each column
    /// and at its mate.
    pub fn col_trees(&self, alloc: Global) -> Result<Vec<Option<Col>>, OutOfMemory>
        ensures long { IfOk result (λ list. length list.items ≡ cols self.now.matrix) }
        ensures roots { IfOk result (λ list. AreColTrees self.now list.items) }
    {
        let cols = self.cols();
        let mut list = Vec::with_capacity(alloc, cols as usize)?;
        for col in 0..cols {
            list.push_reserved(self.root_of(Col(col)));
        }
        Ok(list)
    }
}
