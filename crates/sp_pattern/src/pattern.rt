//! The pattern of a matrix.

ghost use Rattle.std.specs.Prelude.{◌≡◌, ◌<◌, ◌^◌, ◌↔◌, IsTrue, IfOk, IfNone, IfSome, List, length, ◌+◌, ◌≤◌};
ghost use Rattle.bip_defs.specs.Matching.{transposed_places};
ghost use Rattle.sp_pattern.specs.Mirror.{AreSymmetric, IsLower, lowered};
ghost use Rattle.sp_pattern.specs.Pairs.{AreInside, AreSorted, IsOrder, IsOrderOf, Pair};
ghost use Rattle.bip_defs.specs.Lists.{IsRising, Lists};
ghost use Rattle.bip_defs.specs.Matrix.{IsEntry, HasPlaces, Place, cols, column, row_list, entry_count};
ghost use Rattle.sp_ids.specs.Entries.{IsInside, places};
ghost use Rattle.std.specs.List.{AllByRecursion};
ghost use Rattle.sp_pattern.specs.Stored.{IsPattern};
ghost use Rattle.sp_pattern.specs.Weights.{position, start_of};

use crate::compress::compress;
use crate::halves::{HalfByCol, HalfByRow, compress_half};
use crate::mirror::{are_mirrored, as_cols, both_halves};
use crate::pairs::{ByCol, ByRow, LowerByCol, Pairs, are_sorted};
use crate::pieces::{part, search_near};
use crate::sort::sorted;
use crate::transpose::transpose;
use sp_ids::{Col, OutOfMemory, Row, Triples};
use std::alloc::Global;
use std::marker::Model;
use std::thread::Threads;

// The number from which on twice as many no longer fit 32 bits.
const HALF: usize = 2147483648;

/// Which places of a matrix have entries, each of them once, by columns and by rows.
///
/// Compressed sparse columns and compressed sparse rows side by side (Duff, Erisman and Reid 1986).
/// It keeps 8 bytes an entry and 4 bytes a row and a column, and at most 4 bytes more each time
/// that a place was given again: of the two lists, the one that is made first keeps its room for
/// all that was given.
#[derive(Drop)]
pub struct Pattern {
    col_starts: Vec<u32>,
    col_rows: Vec<Row>,
    row_starts: Vec<u32>,
    row_cols: Vec<Col>,
}

impl Model for Pattern {
    ghost use Rattle.bip_defs.specs.Matrix.{Matrix};

    ghost Value = { Matrix };

    ghost use Rattle.sp_pattern.specs.Stored.{stored, AreOrders};

    ghost view = { λ p. stored p.col_starts.items p.col_rows.items p.row_starts.items };

    ghost invariant = { λ p.
        AreOrders p.col_starts.items p.col_rows.items p.row_starts.items p.row_cols.items };
}

impl Pattern {
    /// The pattern of the places of these entries. A place that is given several times is one
    /// entry.
    ///
    /// Entries that stand with their mirror images, as those of a symmetric file, are made of those
    /// on and below the diagonal. These are compressed at the same look that tells whether they
    /// stand by columns, or else at one that tells whether they stand by rows. What stands neither
    /// by columns nor by rows is sorted by as many threads as `rt` has processors; where it starts
    /// none, the calling thread sorts, and the pattern is the same. Beside the pattern it takes at
    /// most 8 bytes an entry, those that are given several times and the mirror images of a
    /// symmetric file counted too: while they are sorted, or while the second order is derived from
    /// the first, and then 4 bytes more for each 4,096 rows or columns, and for a symmetric file 8
    /// for each row. Returns `OutOfMemory` if it cannot allocate that or the pattern. Work:
    /// linear in the entries, the rows and the columns, and the sort.
    pub fn build<R: Threads + Sync>(
        rt: &R,
        alloc: Global,
        triples: &Triples,
    ) -> Result<Pattern, OutOfMemory>
        ensures { IfOk result (HasPlaces triples.now.rows triples.now.cols (places triples.now)) }
    {
        let places = triples.places();
        let (rows, cols) = (triples.rows(), triples.cols());
        if are_sorted(&ByCol { places }) {
            return Pattern::from_columns(alloc, rows, cols, ByCol { places });
        }
        if are_sorted(&ByRow { places }) {
            return Pattern::from_rows(alloc, rows, cols, ByRow { places });
        }
        if rows == cols && places.len() < HALF {
            if let Some(lower) = Pattern::lower_part(rt, alloc, rows, places)? {
                return lower.with_mirror(alloc, places.len());
            }
        }
        let sorted = sorted(rt, alloc, &ByCol { places })?;
        Pattern::from_columns(alloc, rows, cols, sorted)
    }

    // Of a square matrix, the places on and below the diagonal that these places or their mirror
    // images are, if each off the diagonal stands beside its mirror image.
    fn lower_part<R: Threads + Sync>(
        rt: &R,
        alloc: Global,
        n: u32,
        places: &[(Row, Col)],
    ) -> Result<Option<Pattern>, OutOfMemory>
        requires inside { AllByRecursion (IsInside n n) places.now }
        requires few { length places.now < 2 ^ 32 }
        ensures mirrored { IfOk result (λ half. IfSome half (λ a. AreSymmetric places.now)) }
        ensures places { IfOk result (λ half. IfSome half (HasPlaces n n (lowered places.now))) }
        ensures few { IfOk result (λ half. IfSome half (λ a. entry_count a ≤ length places.now)) }
    {
        if let Some((starts, rows)) = compress_half::<HalfByCol, Row>(alloc, places, n)? {
            let lower = Pattern::from_column_order(alloc, n, n, starts, rows)?;
            return Ok(Some(lower));
        }
        if let Some((starts, cols)) = compress_half::<HalfByRow, Col>(alloc, places, n)? {
            let lower = Pattern::from_row_order(alloc, n, n, starts, cols)?;
            return Ok(Some(lower));
        }
        if !are_mirrored(places) {
            return Ok(None);
        }
        let sorted = sorted(rt, alloc, &LowerByCol { places })?;
        let lower = Pattern::from_columns(alloc, n, n, sorted)?;
        Ok(Some(lower))
    }

    // The pattern with the mirror images of its entries, none of which is above the diagonal.
    // `room` is for how many entries memory is taken at once.
    fn with_mirror(self, alloc: Global, room: usize) -> Result<Pattern, OutOfMemory>
        requires square { self.rows ≡ cols self }
        requires lower { IsLower self }
        requires few { entry_count self < 2 ^ 31 }
        ensures { IfOk result (λ a. (ps : List Place) → AreSymmetric ps
            → HasPlaces self.rows (cols self) (lowered ps) self
            → HasPlaces self.rows (cols self) ps a) }
    {
        let (col_starts, col_rows) = both_halves::<Row>(
            alloc,
            self.col_starts.as_slice(),
            self.col_rows.as_slice(),
            self.row_starts.as_slice(),
            self.row_cols.as_slice(),
            room,
        )?;
        let row_starts = col_starts.as_slice().to_vec(alloc)?;
        let row_cols = as_cols(alloc, col_rows.as_slice())?;
        Ok(Pattern {
            col_starts,
            col_rows,
            row_starts,
            row_cols,
        })
    }

    // The pattern of pairs of a column and a row, in order. The pairs are let go as soon as they
    // are compressed.
    fn from_columns<P: Pairs>(
        alloc: Global,
        rows: u32,
        cols: u32,
        pairs: P,
    ) -> Result<Pattern, OutOfMemory>
        requires sorted { AreSorted (P.pairs pairs) }
        requires inside { AreInside cols rows (P.pairs pairs) }
        requires few { length (P.pairs pairs) < 2 ^ 32 }
        ensures places { IfOk result (HasPlaces rows cols (transposed_places (P.pairs pairs))) }
        ensures few { IfOk result (λ a. entry_count a ≤ length (P.pairs pairs)) }
    {
        let (col_starts, col_rows) = compress::<P, Row>(alloc, &pairs, cols, rows)?;
        drop(pairs);
        Pattern::from_column_order(alloc, rows, cols, col_starts, col_rows)
    }

    // The pattern of an order by columns.
    pub(crate) fn from_column_order(
        alloc: Global,
        rows: u32,
        cols: u32,
        col_starts: Vec<u32>,
        col_rows: Vec<Row>,
    ) -> Result<Pattern, OutOfMemory>
        requires order { IsOrder cols rows col_starts.items col_rows.items }
        requires few { length col_rows.items < 2 ^ 32 }
        ensures places { IfOk result (λ a. (ps : List Pair)
            → IsOrderOf cols rows ps col_starts.items col_rows.items
            → HasPlaces rows cols (transposed_places ps) a) }
        ensures few { IfOk result (λ a. entry_count a ≡ length col_rows.items) }
    {
        let (row_starts, row_cols) = transpose::<Col, Row>(
            alloc,
            col_starts.as_slice(),
            col_rows.as_slice(),
            rows,
        )?;
        Ok(Pattern {
            col_starts,
            col_rows,
            row_starts,
            row_cols,
        })
    }

    // The pattern of pairs of a row and a column, in order.
    fn from_rows<P: Pairs>(
        alloc: Global,
        rows: u32,
        cols: u32,
        pairs: P,
    ) -> Result<Pattern, OutOfMemory>
        requires sorted { AreSorted (P.pairs pairs) }
        requires inside { AreInside rows cols (P.pairs pairs) }
        requires few { length (P.pairs pairs) < 2 ^ 32 }
        ensures places { IfOk result (HasPlaces rows cols (P.pairs pairs)) }
        ensures few { IfOk result (λ a. entry_count a ≤ length (P.pairs pairs)) }
    {
        let (row_starts, row_cols) = compress::<P, Col>(alloc, &pairs, rows, cols)?;
        drop(pairs);
        Pattern::from_row_order(alloc, rows, cols, row_starts, row_cols)
    }

    // The pattern of an order by rows.
    pub(crate) fn from_row_order(
        alloc: Global,
        rows: u32,
        cols: u32,
        row_starts: Vec<u32>,
        row_cols: Vec<Col>,
    ) -> Result<Pattern, OutOfMemory>
        requires order { IsOrder rows cols row_starts.items row_cols.items }
        requires few { length row_cols.items < 2 ^ 32 }
        ensures places { IfOk result (λ a. (ps : List Pair)
            → IsOrderOf rows cols ps row_starts.items row_cols.items → HasPlaces rows cols ps a) }
        ensures few { IfOk result (λ a. entry_count a ≡ length row_cols.items) }
    {
        let (col_starts, col_rows) = transpose::<Row, Col>(
            alloc,
            row_starts.as_slice(),
            row_cols.as_slice(),
            cols,
        )?;
        Ok(Pattern {
            col_starts,
            col_rows,
            row_starts,
            row_cols,
        })
    }

    /// The number of rows.
    pub fn rows(&self) -> u32
        ensures { result ≡ self.now.rows }
    {
        (self.row_starts.as_slice().len() - 1) as u32
    }

    /// The number of columns.
    pub fn cols(&self) -> u32
        ensures { result ≡ cols self.now }
    {
        (self.col_starts.as_slice().len() - 1) as u32
    }

    /// The number of entries.
    pub fn entries(&self) -> u32
        ensures { result ≡ entry_count self.now }
    {
        self.col_rows.as_slice().len() as u32
    }

    /// The rows of a column's entries, rising, lent without copying.
    pub fn rows_of(&self, col: Col) -> &[Row]
        requires { col < cols self.now }
        ensures rows { Lists (λ r. IsEntry self.now r col) result.now }
        ensures column { result.now ≡ column self.now col }
    {
        part(
            self.col_starts.as_slice(),
            self.col_rows.as_slice(),
            col.0 as usize,
        )
    }

    /// The columns of a row's entries, rising, lent without copying.
    pub fn cols_of(&self, row: Row) -> &[Col]
        requires { row < self.now.rows }
        ensures cols { Lists (λ c. IsEntry self.now row c) result.now }
        ensures row_list { result.now ≡ row_list self.now row }
    {
        part(
            self.row_starts.as_slice(),
            self.row_cols.as_slice(),
            row.0 as usize,
        )
    }

    /// Where a column's entries begin and end, in the order of all columns.
    pub(crate) fn span(&self, col: Col) -> (usize, usize)
        requires { col < cols self.now }
        ensures from { result.0 ≡ start_of self.now col }
        ensures to { result.1 ≡ start_of self.now (col + 1) }
        ensures within { (result.0 ≤ result.1) × (result.1 ≤ entry_count self.now) }
        ensures rising { IsRising (column self.now col) }
    {
        let starts = self.col_starts.as_slice();
        (
            starts[col.0 as usize] as usize,
            starts[col.0 as usize + 1] as usize,
        )
    }

    /// Where an entry stands, in the order of all columns.
    pub(crate) fn place_of(&self, row: Row, col: Col) -> usize
        requires { IsEntry self.now row col }
        ensures place { result ≡ position self.now row col }
        ensures within { result < entry_count self.now }
    {
        let (from, to) = self.span(col);
        let rows = &self.col_rows.as_slice()[from..to];
        from + rows.binary_search(&row).unwrap_or(0)
    }

    /// Where a place stands, in the order of all columns, if it is an entry. It is looked for where it
    /// is likely to stand, and then by halves.
    pub(crate) fn find_near(&self, likely: usize, row: Row, col: Col) -> Option<usize>
        ensures some { IfSome result
            (λ at. IsEntry self.now row col × (at ≡ position self.now row col)) }
        ensures none { IfNone result (¬ IsEntry self.now row col) }
    {
        if self.cols() <= col.0 {
            return None;
        }
        let (from, to) = self.span(col);
        match search_near(
            &self.col_rows.as_slice()[from..to],
            row,
            likely.wrapping_sub(from),
        ) {
            Ok(k) => Some(from + k),
            Err(_) => None,
        }
    }

    /// The entry that stands there, in the order of all columns. Work: one look at each column up
    /// to its own.
    pub(crate) fn place_at(&self, at: usize) -> (Row, Col)
        requires { at < entry_count self.now }
        ensures entry { IsEntry self.now result.0 result.1 }
        ensures place { at ≡ position self.now result.0 result.1 }
    {
        for col in 0..self.cols() {
            let (from, to) = self.span(Col(col));
            if at < to {
                return (self.rows_of(Col(col))[at - from], Col(col));
            }
        }
        unreachable!()
    }

    /// Whether a place is an entry. Any row and column may be asked for.
    pub fn has(&self, row: Row, col: Col) -> bool
        ensures { IsTrue result ↔ IsEntry self.now row col }
    {
        col.0 < self.cols() && self.rows_of(col).binary_search(&row).is_ok()
    }

    /// Its sizes fit 32 bits, and each column's list is the rising one of its entries: a fact for
    /// proofs, at no cost.
    pub fn is_pattern(&self)
        ensures { IsPattern self.now }
    {
        let _starts = &self.col_starts;
    }
}
