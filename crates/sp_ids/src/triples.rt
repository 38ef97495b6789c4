//! The entries of a matrix file.

ghost use Rattle.std.specs.Prelude.{◌≡◌, ◌≢◌, ◌<◌, ◌↔◌, IsTrue, pos, [], length, slice_index_or, IfOk, OnErr, OnOk};
ghost use Rattle.sp_ids.specs.Limits.{max_entries};
ghost use Rattle.std.specs.List.{AllByRecursion};
ghost use Rattle.sp_ids.specs.Entries.{IsInside, with_entry, places, values};
ghost use Rattle.sp_ids.specs.declared.triples.Field.TheVariants.{Integer};

use crate::{Col, OutOfMemory, Row};
use std::alloc::Global;
use std::marker::Model;

/// What the values of a file are.
#[derive(Clone, Copy, Debug, PartialEq, Eq)]
pub enum Field {
    Real,
    Complex,
    Integer,
    Pattern,
}

/// The entries that a file gives, in the file's order, with the file's numbers of rows and columns.
///
/// A place may stand there several times. Only files of the field integer have values. It keeps 8
/// bytes an entry, and 8 more where the field is integer.
#[derive(Drop)]
pub struct Triples {
    rows: u32,
    cols: u32,
    field: Field,
    places: Vec<(Row, Col)>,
    values: Vec<i64>,
}

impl Model for Triples {
    ghost use Rattle.sp_ids.specs.Entries.{Entries};

    ghost Value = { Entries };

    ghost use Rattle.sp_ids.specs.Stored.{entries_of, IsStored};

    ghost view = { entries_of };

    ghost invariant = { IsStored };
}

impl Triples {
    /// No entries, of a matrix with so many rows and columns and a file of this field. It takes no
    /// memory yet.
    pub fn new(alloc: Global, rows: u32, cols: u32, field: Field) -> Result<Triples, OutOfMemory>
        ensures { IfOk result
            (λ t. t ≡ record { rows = rows; cols = cols; field = field; items = [] }) }
    {
        Ok(Triples {
            rows,
            cols,
            field,
            places: Vec::new(alloc),
            values: Vec::new(alloc),
        })
    }

    /// Adds an entry, of value 0 where the field is not integer. Its row and column must be in the
    /// matrix, and there may be 4,294,967,294 entries before it. Want of memory leaves the entries
    /// as they were.
    pub fn push(&mut self, row: Row, col: Col, value: i64) -> Result<(), OutOfMemory>
        requires row { row < self.old.rows }
        requires col { col < self.old.cols }
        requires few { length self.old.items < max_entries }
        requires value { self.old.field ≢ Integer → value ≡ pos 0 }
        ensures ok { OnOk result
            (self.new ≡ with_entry self.old (record { row = row; col = col; value = value })) }
        ensures err { OnErr result (self.new ≡ self.old) }
    {
        self.places.push((row, col))?;
        if self.field != Field::Integer {
            return Ok(());
        }
        if self.values.push(value).is_err() {
            self.places.pop();
            return Err(OutOfMemory);
        }
        Ok(())
    }

    /// The number of rows.
    pub fn rows(&self) -> u32
        ensures { result ≡ self.now.rows }
    {
        self.rows
    }

    /// The number of columns.
    pub fn cols(&self) -> u32
        ensures { result ≡ self.now.cols }
    {
        self.cols
    }

    /// What the values of the file are.
    pub fn field(&self) -> Field
        ensures { result ≡ self.now.field }
    {
        self.field
    }

    /// The number of entries. A place that the file gives several times counts as often.
    pub fn len(&self) -> u32
        ensures { result ≡ length self.now.items }
    {
        self.places.len() as u32
    }

    /// Whether there are no entries.
    pub fn is_empty(&self) -> bool
        ensures { IsTrue result ↔ (self.now.items ≡ []) }
    {
        self.places.is_empty()
    }

    /// Where entry `i` stands, which counts from 0 and must be there.
    pub fn place(&self, i: u32) -> (Row, Col)
        requires { i < length self.now.items }
        ensures place { result ≡ slice_index_or (places self.now) i (0, 0) }
        ensures in_range { (result.0 < self.now.rows) × (result.1 < self.now.cols) }
    {
        self.places[i as usize]
    }

    /// The value of entry `i` of a file of the field integer.
    pub fn value(&self, i: u32) -> i64
        requires index { i < length self.now.items }
        requires field { self.now.field ≡ Integer }
        ensures { result ≡ slice_index_or (values self.now) i (pos 0) }
    {
        self.values[i as usize]
    }

    /// Where the entries stand, in the file's order, lent without copying.
    pub fn places(&self) -> &[(Row, Col)]
        ensures places { result.now ≡ places self.now }
        ensures few { length result.now < 4294967296 }
        ensures in_range { AllByRecursion (IsInside self.now.rows self.now.cols) result.now }
    {
        self.places.as_slice()
    }

    /// The values of the entries of a file of the field integer, in the file's order, lent without
    /// copying.
    pub fn values(&self) -> &[i64]
        requires { self.now.field ≡ Integer }
        ensures { result.now ≡ values self.now }
    {
        self.values.as_slice()
    }
}
