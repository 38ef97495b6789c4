//! Columns in layers, by how far they are from the unmatched ones.

ghost use Rattle.std.specs.Prelude.{◌≡◌, ◌⊎◌, ◌<◌, ◌^◌, ℕ, [], length, slice_index, IfOk, IfSome, IsTrue};
ghost use Rattle.bip_defs.specs.Lists.{Among, IsMarked};
ghost use Rattle.bip_defs.specs.Matrix.{IsEntry, cols};
ghost use Rattle.bip_graph.specs.Matching.{IsMatchingOf};
ghost use Rattle.path_search.specs.Layers.{AreLayers};

use crate::columns::row_at;
use bip_graph::{Matching, Opposite};
use sp_ids::{Col, Id, OutOfMemory, Row};
use sp_pattern::Side;
use std::alloc::Global;
use std::marker::Model;
use std::mem::swap;

// The number of a column that is in no layer.
const NONE: u32 = u32::MAX;

/// What searches for shortest augmenting paths keep from one to the next: the layer of each column,
/// and how far its list was read.
///
/// The unmatched columns are the first layer, and the next one has the mates of the rows in which
/// columns of the last have entries, as far as they are in no layer before. It keeps 8 bytes a
/// column and 4 for each column of two layers.
#[derive(Drop)]
pub struct Layers {
    numbers: Vec<u32>,
    places: Vec<u32>,
    layer: Vec<Col>,
    next: Vec<Col>,
}

impl Model for Layers {
    ghost use Rattle.path_search.specs.Layers.{LayersState};

    ghost Value = { LayersState };

    ghost view = { λ x. record {
      numbers = x.numbers.items;
      places = x.places.items;
      layer = x.layer.items;
      next = x.next.items;
    } };
}

impl Layers {
    /// For matrices of so many columns, as a side sees them.
    ///
    /// Returns `OutOfMemory` if it cannot allocate 8 bytes a column.
    pub fn new(alloc: Global, cols: u32) -> Result<Layers, OutOfMemory>
        ensures { IfOk result (AreLayers cols) }
    {
        let numbers = vec![in alloc; NONE; cols as usize]?;
        let places = vec![in alloc; 0u32; cols as usize]?;
        Ok(Layers {
            numbers,
            places,
            layer: Vec::new(alloc),
            next: Vec::new(alloc),
        })
    }

    // Leaves no column in a layer, and all lists to be read from their starts.
    fn clear(&mut self)
        ensures numbers { length self.new.numbers ≡ length self.old.numbers }
        ensures places { length self.new.places ≡ length self.old.places }
        ensures layer { self.new.layer ≡ self.old.layer }
        ensures next { self.new.next ≡ [] }
    {
        self.numbers.as_mut_slice().fill(NONE);
        self.places.as_mut_slice().fill(0);
        self.next.clear();
    }

    fn number(&self, col: Col) -> u32
        requires { col < length self.now.numbers }
        ensures { result ≡ slice_index self.now.numbers col }
    {
        self.numbers[col.0 as usize]
    }

    fn set_number(&mut self, col: Col, number: u32)
        requires { col < length self.old.numbers }
        ensures same { self.new ≡ record self.old { numbers = self.new.numbers } }
        ensures numbers { length self.new.numbers ≡ length self.old.numbers }
    {
        self.numbers[col.0 as usize] = number;
    }

    fn place(&self, col: Col) -> u32
        requires { col < length self.now.places }
        ensures { result ≡ slice_index self.now.places col }
    {
        self.places[col.0 as usize]
    }

    fn set_place(&mut self, col: Col, place: u32)
        requires { col < length self.old.places }
        ensures same { self.new ≡ record self.old { places = self.new.places } }
        ensures places { length self.new.places ≡ length self.old.places }
    {
        self.places[col.0 as usize] = place;
    }

    // Puts a column into a layer, and among those that are to be looked through.
    fn add_col(&mut self, col: Col, number: u32) -> Result<(), OutOfMemory>
        requires { col < length self.old.numbers }
        ensures numbers { length self.new.numbers ≡ length self.old.numbers }
        ensures places { self.new.places ≡ self.old.places }
        ensures layer { self.new.layer ≡ self.old.layer }
        ensures next { (c : ℕ) → Among c self.new.next → Among c self.old.next ⊎ (c ≡ col) }
    {
        self.numbers[col.0 as usize] = number;
        self.next.push(col)?;
        Ok(())
    }

    // Goes on to the layer that was made last.
    fn advance(&mut self)
        ensures { self.new ≡ record self.old { layer = self.old.next; next = [] } }
    {
        swap(&mut self.layer, &mut self.next);
        self.next.clear();
    }

    fn layer(&self) -> &[Col]
        ensures { result.now ≡ self.now.layer }
    {
        self.layer.as_slice()
    }

    fn next(&self) -> &[Col]
        ensures { result.now ≡ self.now.next }
    {
        self.next.as_slice()
    }

    // Puts a column into the first layer, if it is unmatched.
    fn put_unmatched<F: Opposite>(
        &mut self,
        matching: &Matching,
        col: Col,
    ) -> Result<(), OutOfMemory>
        requires layers { AreLayers (F.seen matching.now).cols self.old }
        requires col { col < (F.seen matching.now).cols }
        ensures { AreLayers (F.seen matching.now).cols self.new }
    {
        match F::row_of(matching, col) {
            Some(_) => Ok(()),
            None => self.add_col(col, 0),
        }
    }

    // Makes the unmatched columns the first layer.
    fn start<F: Opposite, S: Side<F>>(
        &mut self,
        side: &S,
        matching: &Matching,
    ) -> Result<(), OutOfMemory>
        requires layers { AreLayers (cols (S.matrix side.now)) self.old }
        requires matching_cols { (F.seen matching.now).cols ≡ cols (S.matrix side.now) }
        ensures { AreLayers (cols (S.matrix side.now)) self.new }
    {
        self.clear();
        for number in 0..side.cols() {
            self.put_unmatched::<F>(matching, Col(number))?;
        }
        Ok(())
    }

    // Puts a row's mate into a layer, unless it is in one. Whether the row has no mate.
    fn expand<F: Opposite>(
        &mut self,
        matching: &Matching,
        row: Row,
        number: u32,
    ) -> Result<bool, OutOfMemory>
        requires layers { AreLayers (F.seen matching.now).cols self.old }
        requires row { row < (F.seen matching.now).rows }
        requires cols { (d : ℕ) → Among (row, d) (F.seen matching.now).pairs
            → d < (F.seen matching.now).cols }
        ensures layers { AreLayers (F.seen matching.now).cols self.new }
        ensures layer { self.new.layer ≡ self.old.layer }
    {
        match F::col_of(matching, row) {
            None => Ok(true),
            Some(mate) => {
                if self.number(mate) == NONE {
                    self.add_col(mate, number)?;
                }
                Ok(false)
            }
        }
    }

    // Puts the mates of a column's rows into a layer, as far as they are in none. Whether one of
    // the rows has no mate.
    fn expand_all<F: Opposite, S: Side<F>>(
        &mut self,
        side: &S,
        matching: &Matching,
        col: Col,
        number: u32,
    ) -> Result<bool, OutOfMemory>
        requires layers { AreLayers (cols (S.matrix side.now)) self.old }
        requires col { col < cols (S.matrix side.now) }
        requires matching { IsMatchingOf (S.matrix side.now) (F.seen matching.now) }
        ensures layers { AreLayers (cols (S.matrix side.now)) self.new }
        ensures layer { self.new.layer ≡ self.old.layer }
    {
        let mut ends = false;
        for far in side.rows_of(col) {
            ends |= self.expand::<F>(matching, Row(far.number()), number)?;
        }
        Ok(ends)
    }

    // Makes the next layer. Whether a column of the last has an entry in an unmatched row.
    fn step<F: Opposite, S: Side<F>>(
        &mut self,
        side: &S,
        matching: &Matching,
        number: u32,
    ) -> Result<bool, OutOfMemory>
        requires layers { AreLayers (cols (S.matrix side.now)) self.old }
        requires matching { IsMatchingOf (S.matrix side.now) (F.seen matching.now) }
        ensures { AreLayers (cols (S.matrix side.now)) self.new }
    {
        self.advance();
        let mut ends = false;
        for at in 0..self.layer().len() {
            let col = self.layer()[at];
            ends |= self.expand_all(side, matching, col, number)?;
        }
        Ok(ends)
    }

    // Takes the columns of the layer that was made last out of it.
    fn leave_last(&mut self)
        requires { (n : ℕ) × AreLayers n self.old }
        ensures { (n : ℕ) → AreLayers n self.old → AreLayers n self.new }
    {
        for at in 0..self.next().len() {
            let col = self.next()[at];
            self.set_number(col, NONE);
        }
    }

    /// Makes the layers up to the first that has an entry in an unmatched row. Whether there is
    /// one.
    ///
    /// Work: one look at each column, and at each entry of those in the layers. Returns
    /// `OutOfMemory` if it cannot allocate 4 bytes a column of two layers.
    pub fn make<F: Opposite, S: Side<F>>(
        &mut self,
        side: &S,
        matching: &Matching,
    ) -> Result<bool, OutOfMemory>
        requires layers { AreLayers (cols (S.matrix side.now)) self.old }
        requires matching { IsMatchingOf (S.matrix side.now) (F.seen matching.now) }
        ensures { AreLayers (cols (S.matrix side.now)) self.new }
    {
        self.start(side, matching)?;
        for number in 0..side.cols() {
            if self.next().is_empty() {
                return Ok(false);
            }
            if self.step(side, matching, number + 1)? {
                self.leave_last();
                return Ok(true);
            }
        }
        Ok(false)
    }

    // Whether a path may go on over a row to a layer: it is not marked, and it is unmatched or has
    // its mate there.
    fn leads_on<F: Opposite>(
        &self,
        matching: &Matching,
        marks: &[bool],
        row: Row,
        number: u32,
    ) -> bool
        requires marks { row < length marks.now }
        requires row { row < (F.seen matching.now).rows }
        requires cols { (d : ℕ) → Among (row, d) (F.seen matching.now).pairs
            → d < length self.now.numbers }
        ensures { IsTrue result → ¬ IsMarked marks.now row }
    {
        if marks[row.0 as usize] {
            return false;
        }
        match F::col_of(matching, row) {
            None => true,
            Some(mate) => self.number(mate) == number,
        }
    }

    /// The next row of a column's list over which a path may go on, to an end or to the next layer.
    /// A row of the list that was passed once is not come to again.
    pub(crate) fn next_row<F: Opposite, S: Side<F>>(
        &mut self,
        side: &S,
        matching: &Matching,
        marks: &[bool],
        col: Col,
    ) -> Option<Row>
        requires layers { AreLayers (cols (S.matrix side.now)) self.old }
        requires matching { IsMatchingOf (S.matrix side.now) (F.seen matching.now) }
        requires few_rows { (S.matrix side.now).rows < 2 ^ 32 }
        requires marks { length marks.now ≡ (S.matrix side.now).rows }
        requires col { col < cols (S.matrix side.now) }
        ensures layers { AreLayers (cols (S.matrix side.now)) self.new }
        ensures row { IfSome result
            (λ r. IsEntry (S.matrix side.now) r col × (¬ IsMarked marks.now r)) }
    {
        let rows = side.rows_of(col);
        let number = self.number(col).wrapping_add(1);
        let mut at = self.place(col);
        while (at as usize) < rows.len() {
            let row = row_at(rows, at as usize, false);
            at += 1;
            if self.leads_on::<F>(matching, marks, row, number) {
                self.set_place(col, at);
                return Some(row);
            }
        }
        self.set_place(col, at);
        None
    }
}
