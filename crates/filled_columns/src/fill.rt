//! The columns of a matrix and of the pairs of a matching, as one matrix, which is not made.

ghost use Rattle.std.specs.Prelude.{◌≡◌, ◌≤◌, ◌+◌, ◌^◌, ◌<◌, ◌++◌, length, IfNone, IfSome};
ghost use Rattle.bip_defs.specs.Matrix.{Matrix, cols};
ghost use Rattle.bip_graph.specs.Matching.{Pairing};
ghost use Rattle.filled_columns.specs.Filled.{CanFill, LeavesRoom, filled, rows_with, with_first};

use bip_graph::Matching;
use column_lists::ColumnLists;
use sp_ids::Col;
use sp_pattern::NumberList;
use std::alloc::AllocError;

/// The columns of the matrix that has an entry at each pair of a matching too: each is the row of
/// its pair, if it has one, and then the column's own list, so that the row may stand there twice.
///
/// Rows and columns count from 0. The matching has as many rows and columns as the matrix, and each
/// column's list has at most 4,294,967,294 numbers: [`FilledColumns::of`] checks both. It takes no
/// memory of its own. Work: one comparison for each number that is read. Davis and Palamadai
/// Natarajan (2010) order the blocks of singular matrices so in KLU: pairs of unmatched rows and
/// columns count as entries.
pub struct FilledColumns<'m, C: ColumnLists> {
    pub columns: C,
    pub matching: &'m Matching,
    pub ghost same_rows: { matching.now.rows ≡ Matrix.rows (C.matrix columns) },
    pub ghost same_cols: { matching.now.cols ≡ cols (C.matrix columns) },
    pub ghost room: { LeavesRoom (C.matrix columns) (C.listed columns) },
}

/// A list, and before it one number or none.
pub struct OneMore<L: NumberList> {
    pub first: u32,
    pub more: usize,
    pub list: L,
    pub ghost one: { more ≤ 1 },
    pub ghost room: { length (L.numbers list) + 1 < 2 ^ 32 },
}

impl<'m, C: ColumnLists> FilledColumns<'m, C> {
    /// The columns filled with the pairs of a matching. `None` where the matching has not as many
    /// rows and columns as the matrix, or where a column's list has 4,294,967,295 numbers or more.
    ///
    /// It takes no memory. Work: one length is read for each column.
    pub fn of(columns: C, matching: &'m Matching) -> Option<Self>
        ensures fits { IfSome result
            (λ f. (f.columns ≡ columns) × (f.matching.now ≡ matching.now)) }
        ensures none { IfNone result
            (¬ CanFill (C.matrix columns) (C.listed columns) matching.now) }
    {
        if matching.rows() != columns.rows() || matching.cols() != columns.cols() {
            return None;
        }
        for number in 0..columns.cols() {
            if columns.rows_of(Col(number)).len() >= u32::MAX as usize {
                return None;
            }
        }
        Some(FilledColumns { columns, matching })
    }
}

impl<'m, C: ColumnLists> Clone for FilledColumns<'m, C> {
    fn clone(&self) -> Result<Self, AllocError> {
        Ok(FilledColumns {
            columns: self.columns,
            matching: self.matching,
        })
    }
}

impl<'m, C: ColumnLists> Copy for FilledColumns<'m, C> {}

impl<L: NumberList> Clone for OneMore<L> {
    fn clone(&self) -> Result<Self, AllocError> {
        Ok(*self)
    }
}

impl<L: NumberList> Copy for OneMore<L> {}

impl<L: NumberList> NumberList for OneMore<L> {
    ghost numbers = { λ s. with_first s.more s.first (L.numbers s.list) };

    fn len(self) -> usize {
        self.list.len() + self.more
    }

    fn at(self, k: usize) -> u64 {
        if k < self.more {
            self.first as u64
        } else {
            self.list.at(k - self.more)
        }
    }
}

impl<'m, C: ColumnLists> ColumnLists for FilledColumns<'m, C> {
    type Rows = OneMore<C::Rows>;

    ghost matrix = { λ s. filled (C.matrix s.columns) s.matching.now.pairs };

    ghost listed = { λ s c. rows_with s.matching.now.pairs c ++ C.listed s.columns c };

    fn rows(self) -> u32 {
        self.columns.rows()
    }

    fn cols(self) -> u32 {
        self.columns.cols()
    }

    fn rows_of(self, col: Col) -> OneMore<C::Rows> {
        self.matching.is_matching();
        let list = self.columns.rows_of(col);
        if let Some(row) = self.matching.row_of(col) {
            return OneMore {
                first: row.0,
                more: 1,
                list,
            };
        }
        OneMore {
            first: 0,
            more: 0,
            list,
        }
    }

    fn are_listed(self) {
        self.matching.is_matching();
        self.columns.are_listed();
    }
}
