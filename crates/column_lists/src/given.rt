//! Compressed columns as a caller has them.

ghost use Rattle.std.specs.Prelude.{◌≤◌, length};
ghost use Rattle.std.specs.List.{slice_range};
ghost use Rattle.bip_defs.specs.Pieces.{piece};
ghost use Rattle.sp_pattern.specs.Columns.{AreColumns, matrix_of};

use crate::ColumnLists;
use sp_ids::Col;
use sp_pattern::{NumberList, columns_give_their_places};
use std::alloc::AllocError;

/// Compressed columns that were checked: where the row numbers of each column begin in `ids`, and
/// where those of the last one end.
pub struct GivenColumns<N: NumberList> {
    pub rows: u32,
    pub starts: N,
    pub ids: N,
    pub ghost right: { AreColumns rows (N.numbers starts) (N.numbers ids) },
}

/// A stretch of a list, from one place to before another.
pub struct Stretch<N: NumberList> {
    pub list: N,
    pub from: usize,
    pub to: usize,
    pub ghost in_order: { from ≤ to },
    pub ghost within: { to ≤ length (N.numbers list) },
}

impl<N: NumberList> Clone for GivenColumns<N> {
    fn clone(&self) -> Result<Self, AllocError> {
        Ok(*self)
    }
}

impl<N: NumberList> Copy for GivenColumns<N> {}

impl<N: NumberList> Clone for Stretch<N> {
    fn clone(&self) -> Result<Self, AllocError> {
        Ok(*self)
    }
}

impl<N: NumberList> Copy for Stretch<N> {}

impl<N: NumberList> NumberList for Stretch<N> {
    ghost numbers = { λ s. slice_range (N.numbers s.list) s.from s.to };

    fn len(self) -> usize {
        self.to - self.from
    }

    fn at(self, k: usize) -> u64 {
        self.list.at(self.from + k)
    }
}

impl<N: NumberList> ColumnLists for GivenColumns<N> {
    type Rows = Stretch<N>;

    ghost matrix = { λ s. matrix_of s.rows (N.numbers s.starts) (N.numbers s.ids) };

    ghost listed = { λ s c. piece (N.numbers s.starts) (N.numbers s.ids) c };

    fn rows(self) -> u32 {
        self.rows
    }

    fn cols(self) -> u32 {
        (self.starts.len() - 1) as u32
    }

    fn rows_of(self, col: Col) -> Stretch<N> {
        Stretch {
            list: self.ids,
            from: self.starts.at(col.0 as usize) as usize,
            to: self.starts.at(col.0 as usize + 1) as usize,
        }
    }

    fn are_listed(self) {
        columns_give_their_places();
    }
}
