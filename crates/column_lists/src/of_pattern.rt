//! The columns of a pattern, and its rows as the columns of its transpose.

ghost use Rattle.std.specs.Prelude.{map};
ghost use Rattle.bip_defs.specs.Matrix.{column, row_list, transpose};

use crate::ColumnLists;
use sp_ids::{Col, Id, Row};
use sp_pattern::{NumberList, Pattern};

/// The columns of a pattern.
#[derive(Clone, Copy)]
pub struct PatternColumns<'p> {
    pub pattern: &'p Pattern,
}

/// The rows of a pattern, as the columns of its transpose, which is not made.
#[derive(Clone, Copy)]
pub struct PatternRows<'p> {
    pub pattern: &'p Pattern,
}

/// The numbers of rows or of columns.
#[derive(Clone, Copy)]
pub struct IdSlice<'p, I: Id> {
    pub ids: &'p [I],
}

impl<I: Id> NumberList for IdSlice<'_, I> {
    ghost numbers = { λ s. map I.number s.ids.now };

    fn len(self) -> usize {
        self.ids.len()
    }

    fn at(self, k: usize) -> u64 {
        self.ids[k].number() as u64
    }
}

impl<'p> ColumnLists for PatternColumns<'p> {
    type Rows = IdSlice<'p, Row>;

    ghost matrix = { λ s. s.pattern.now };

    ghost listed = { λ s c. column s.pattern.now c };

    fn rows(self) -> u32 {
        self.pattern.rows()
    }

    fn cols(self) -> u32 {
        self.pattern.cols()
    }

    fn rows_of(self, col: Col) -> IdSlice<'p, Row> {
        IdSlice {
            ids: self.pattern.rows_of(col),
        }
    }

    fn are_listed(self) {
        self.pattern.is_pattern();
    }
}

impl<'p> ColumnLists for PatternRows<'p> {
    type Rows = IdSlice<'p, Col>;

    ghost matrix = { λ s. transpose s.pattern.now };

    ghost listed = { λ s r. row_list s.pattern.now r };

    fn rows(self) -> u32 {
        self.pattern.cols()
    }

    fn cols(self) -> u32 {
        self.pattern.rows()
    }

    fn rows_of(self, col: Col) -> IdSlice<'p, Col> {
        IdSlice {
            ids: self.pattern.cols_of(Row(col.0)),
        }
    }

    fn are_listed(self) {
        self.pattern.is_pattern();
    }
}
