//! Matchings: pairs of a row and a column, in which no row and no column stands twice.

ghost use Rattle.std.specs.Prelude.{◌≡◌, ◌≢◌, ◌↔◌, ◌⊎◌, ℕ, suc, ◌<◌, ◌^◌, [], length, Some, IfOk, IfSome, IfNone};
ghost use Rattle.bip_defs.specs.Lists.{Among, AreDistinct, IsRising, option_at};
ghost use Rattle.bip_defs.specs.Matching.{Covers, IsMatching, rows_of, cols_of};
ghost use Rattle.bip_defs.specs.Matrix.{AreEntries, Matrix, Place};
ghost use Rattle.bip_defs.specs.Paths.{Exchanges, Reassigns, IsAugmenting};
ghost use Rattle.bip_graph.specs.Mates.{AreMutual};
ghost use Rattle.bip_graph.specs.Matching.{IsPairing, Pairing, pairs_of};

use crate::mates::Mates;
use sp_ids::{Col, OutOfMemory, Row};
use std::alloc::Global;
use std::marker::Model;

// Stands in both arrays for no mate: no row or column has this number, since there are less than
// 2^32 of them.
const NONE: u32 = u32::MAX;

/// A matching of the rows and columns of a matrix. It keeps 4 bytes a row and 4 a column.
#[derive(Drop)]
pub struct Matching {
    row_of_col: Vec<u32>,
    col_of_row: Vec<u32>,
    size: u32,
}

impl Model for Matching {
    ghost use Rattle.std.specs.Prelude.{length};
    ghost use Rattle.bip_graph.specs.Matching.{Pairing, AreMates, pairs_of};

    ghost Value = { Pairing };

    ghost view = { λ m. record {
      rows = length m.col_of_row.items;
      cols = length m.row_of_col.items;
      pairs = pairs_of m.row_of_col.items;
    } };

    ghost invariant = { λ m. AreMates m.row_of_col.items m.col_of_row.items m.size };
}

impl Matching {
    /// The matching without pairs, of so many rows and columns.
    ///
    /// Returns `OutOfMemory` if it cannot allocate the two arrays. Work: one write for each row and
    /// column.
    pub fn empty(alloc: Global, rows: u32, cols: u32) -> Result<Self, OutOfMemory>
        ensures { IfOk result (λ m. m ≡ record { rows = rows; cols = cols; pairs = [] }) }
    {
        let row_of_col = vec![in alloc; NONE; cols as usize]?;
        let col_of_row = vec![in alloc; NONE; rows as usize]?;
        Ok(Matching {
            row_of_col,
            col_of_row,
            size: 0,
        })
    }

    /// A matching with the same rows, columns and pairs.
    ///
    /// Returns `OutOfMemory` if it cannot allocate the two arrays. Work: one copy of both.
    pub fn copy(&self, alloc: Global) -> Result<Self, OutOfMemory>
        ensures { IfOk result (λ m. m ≡ self.now) }
    {
        let row_of_col = Vec::from_slice(alloc, self.row_of_col.as_slice())?;
        let col_of_row = Vec::from_slice(alloc, self.col_of_row.as_slice())?;
        Ok(Matching {
            row_of_col,
            col_of_row,
            size: self.size,
        })
    }

    /// The matching that the mates are, where they lead back to one another.
    ///
    /// Takes no memory: it keeps both arrays. Work: one read for each column.
    pub fn of(mates: Mates) -> Self
        requires mutual { AreMutual mates }
        ensures rows { result.rows ≡ length mates.rows }
        ensures cols { result.cols ≡ length mates.cols }
        ensures pairs { (r c : ℕ) → Among (r, c) result.pairs ↔ (option_at mates.cols c ≡ Some r) }
    {
        let (row_of_col, col_of_row) = mates.into_arrays();
        let size = count_mates(row_of_col.as_slice());
        Matching {
            row_of_col,
            col_of_row,
            size,
        }
    }

    /// What holds of every matching: its pairs have distinct rows, rise by column, and lie within
    /// its rows and columns. A fact for proofs, at no cost.
    pub fn is_matching(&self)
        ensures { IsPairing self.now }
    {
        let _size = self.size;
    }

    /// The number of rows, matched or not. Each row of a pair is below it.
    pub fn rows(&self) -> u32
        ensures count { result ≡ self.now.rows }
        ensures within { (r c : ℕ) → Among (r, c) self.now.pairs → r < self.now.rows }
    {
        self.col_of_row.len() as u32
    }

    /// The number of columns, matched or not. Each column of a pair is below it.
    pub fn cols(&self) -> u32
        ensures count { result ≡ self.now.cols }
        ensures within { (r c : ℕ) → Among (r, c) self.now.pairs → c < self.now.cols }
    {
        self.row_of_col.len() as u32
    }

    /// The number of pairs, which have distinct rows and rise by column.
    pub fn size(&self) -> u32
        ensures size { result ≡ length self.now.pairs }
        ensures rows_differ { AreDistinct (rows_of self.now.pairs) }
        ensures cols_rise { IsRising (cols_of self.now.pairs) }
    {
        self.size
    }

    /// The pairs, rising by column.
    ///
    /// Returns `OutOfMemory` if it cannot allocate the list, 8 bytes a pair. Work: one read for
    /// each column.
    pub fn pairs(&self, alloc: Global) -> Result<Vec<(Row, Col)>, OutOfMemory>
        ensures { IfOk result (λ pairs. pairs.items ≡ self.now.pairs) }
    {
        let mut pairs = Vec::with_capacity(alloc, self.size as usize)?;
        let mut col = 0;
        for row in self.row_of_col.as_slice() {
            if *row != NONE {
                pairs.push_reserved((Row(*row), Col(col)));
            }
            col += 1;
        }
        Ok(pairs)
    }

    /// The mate of a column, if it has one.
    pub fn row_of(&self, col: Col) -> Option<Row>
        requires { col < self.now.cols }
        ensures found { IfSome result (λ row. Among (row, col) self.now.pairs) }
        ensures none { IfNone result (¬ Among col (cols_of self.now.pairs)) }
    {
        let row = self.row_of_col[col.0 as usize];
        if row == NONE { None } else { Some(Row(row)) }
    }

    /// The mate of a row, if it has one.
    pub fn col_of(&self, row: Row) -> Option<Col>
        requires { row < self.now.rows }
        ensures found { IfSome result (λ col. Among (row, col) self.now.pairs) }
        ensures none { IfNone result (¬ Among row (rows_of self.now.pairs)) }
    {
        let col = self.col_of_row[row.0 as usize];
        if col == NONE { None } else { Some(Col(col)) }
    }

    /// The mate of a matched column.
    pub fn mate(&self, col: Col) -> Row
        requires { Among col (cols_of self.now.pairs) }
        ensures row { Among (result, col) self.now.pairs }
        ensures pairing { IsPairing self.now }
    {
        Row(self.row_of_col[col.0 as usize])
    }

    /// Makes a pair of an unmatched row and an unmatched column, and keeps all pairs.
    pub fn pair(&mut self, row: Row, col: Col)
        requires row_in_range { row < self.old.rows }
        requires col_in_range { col < self.old.cols }
        requires row_free { ¬ Among row (rows_of self.old.pairs) }
        requires col_free { ¬ Among col (cols_of self.old.pairs) }
        ensures pairs { Reassigns (row, col) self.old.pairs self.new.pairs }
        ensures added { (p : Place) → Among p self.new.pairs
            ↔ ((p ≡ (row, col)) ⊎ Among p self.old.pairs) }
        ensures size { length self.new.pairs ≡ suc (length self.old.pairs) }
        ensures sizes { (self.new.rows ≡ self.old.rows) × (self.new.cols ≡ self.old.cols) }
        ensures pairing { IsPairing self.new }
    {
        self.row_of_col[col.0 as usize] = row.0;
        self.col_of_row[row.0 as usize] = col.0;
        self.size += 1;
    }

    /// Parts a pair: its row and its column have no mate then, and all other pairs stay.
    pub fn unpair(&mut self, row: Row, col: Col)
        requires { Among (row, col) self.old.pairs }
        ensures pairs { (p : Place) → Among p self.new.pairs
            ↔ (Among p self.old.pairs × (p.0 ≢ row)) }
        ensures size { length self.old.pairs ≡ suc (length self.new.pairs) }
        ensures sizes { (self.new.rows ≡ self.old.rows) × (self.new.cols ≡ self.old.cols) }
        ensures pairing { IsPairing self.new }
    {
        let (at_row, at_col) = (row.0 as usize, col.0 as usize);
        self.row_of_col[at_col] = NONE;
        self.col_of_row[at_row] = NONE;
        self.size -= 1;
    }

    // Gives a matched row to an unmatched column. The column that had it has no mate then.
    fn give(&mut self, row: Row, col: Col)
        requires row_in_range { row < self.old.rows }
        requires col_in_range { col < self.old.cols }
        requires row_taken { Among row (rows_of self.old.pairs) }
        requires col_free { ¬ Among col (cols_of self.old.pairs) }
        ensures pairs { Reassigns (row, col) self.old.pairs self.new.pairs }
        ensures cols_differ { AreDistinct (cols_of self.old.pairs) }
        ensures size { length self.new.pairs ≡ length self.old.pairs }
        ensures sizes { (self.new.rows ≡ self.old.rows) × (self.new.cols ≡ self.old.cols) }
    {
        let (at_row, at_col) = (row.0 as usize, col.0 as usize);
        let before = self.col_of_row[at_row];
        self.row_of_col[before as usize] = NONE;
        self.row_of_col[at_col] = row.0;
        self.col_of_row[at_row] = col.0;
    }

    /// Exchanges an augmenting path, given in order from its unmatched column to its unmatched row:
    /// each listed pair is matched afterwards, the other rows keep their mates, and no vertex loses
    /// its mate without a new one.
    ///
    /// Takes no memory. Work: three writes at most for each pair of the path.
    pub fn flip(&mut self, path: &[(Row, Col)])
        requires in_range { (r c : ℕ) → Among (r, c) path.now
            → (r < self.old.rows) × (c < self.old.cols) }
        requires path { IsAugmenting self.old.pairs path.now }
        ensures pairs { Exchanges path.now self.old.pairs self.new.pairs }
        ensures size { length self.new.pairs ≡ suc (length self.old.pairs) }
        ensures sizes { (self.new.rows ≡ self.old.rows) × (self.new.cols ≡ self.old.cols) }

        // A matching of entries stays one, where the path is of entries.
        ensures entries { (a : Matrix) → IsMatching a self.old.pairs → AreEntries a path.now
            → IsMatching a self.new.pairs }

        // What was matched stays matched.
        ensures covered { Covers self.old.pairs self.new.pairs }
    {
        self.is_matching();
        let last = path.len() - 1;
        for i in 0..last {
            let step = path[i];
            self.give(step.0, step.1);
        }
        let step = path[last];
        self.pair(step.0, step.1);
    }
}

// How many columns have a mate.
fn count_mates(row_of_col: &[u32]) -> u32
    requires { length row_of_col.now < 2 ^ 32 }
    ensures { result ≡ length (pairs_of row_of_col.now) }
{
    let mut count = 0;
    for row in row_of_col {
        if *row != NONE {
            count += 1;
        }
    }
    count
}
