//! Matrices that a caller has as compressed columns or as compressed rows.

ghost use Rattle.std.specs.Prelude.{◌≡◌, ◌⊎◌, ◌↔◌, ◌+◌, ◌-◌, IfErr, IfOk, IsOk, IsTrue, OnOk, length};
ghost use Rattle.blocktri.specs.Compressed.{AreCompressed, IsRoom, column_count, listed, matrix_given, row_count};
ghost use Rattle.sp_pattern.specs.ColumnErrors.{IsColumnsError};
ghost use Rattle.sp_pattern.specs.Columns.{matrix_of};

use crate::flat_look::are_columns;
use column_lists::GivenColumns;
use sp_ids::OutOfMemory;
use sp_pattern::{ColumnsError, NumberList, Pattern, check_columns};
use std::alloc::Global;
use std::marker::Model;

/// A matrix as compressed columns, or as compressed rows. Nothing of it is trusted.
///
/// Row and column numbers are counted from 0. They may stand in any order within their column or
/// row, and there several times.
#[derive(Drop)]
pub struct Compressed<N: NumberList> {
    /// How many rows there are; by rows, how many columns.
    pub others: u64,
    /// Where the row numbers of each column begin in `ids`, and where those of the last one end; by
    /// rows, where the column numbers of each row begin.
    pub starts: N,
    /// The row numbers; by rows, the column numbers.
    pub ids: N,
    /// Whether the lists are compressed rows.
    pub by_rows: bool,
}

impl<N: NumberList> Model for Compressed<N> {
    ghost use Rattle.blocktri.specs.Compressed.{CompressedLists};

    ghost Value = { CompressedLists };

    ghost view = { λ c. record {
      others = c.others;
      starts = N.numbers c.starts;
      ids = N.numbers c.ids;
      by_rows = c.by_rows;
    } };
}

impl<N: NumberList> Compressed<N> {
    /// The number of rows.
    pub fn rows(&self) -> u64
        ensures { result ≡ row_count self.now }
    {
        if self.by_rows {
            self.lists()
        } else {
            self.others
        }
    }

    /// The number of columns.
    pub fn columns(&self) -> u64
        ensures { result ≡ column_count self.now }
    {
        if self.by_rows {
            self.others
        } else {
            self.lists()
        }
    }

    /// Whether the lists are right, and where not, the first fault.
    ///
    /// Takes no memory. Work: one look at each number; where there is a fault, a second one at the
    /// numbers up to it.
    pub fn check(&self) -> Result<(), ColumnsError>
        ensures right { OnOk result (AreCompressed self.now) }
        ensures refused { IfErr result
            (IsColumnsError self.now.others self.now.starts self.now.ids) }
        ensures accepted { AreCompressed self.now → IsOk result }
    {
        if are_columns(self.others, self.starts, self.ids) {
            return Ok(());
        }
        check_columns(self.others, self.starts, self.ids)
    }

    /// The matrix that is given as a pattern, which is kept by columns and by rows. The lists must be
    /// right.
    ///
    /// Returns `OutOfMemory` if it cannot allocate the pattern. Work: what
    /// `sp_pattern::Pattern::of_checked_columns` says of its.
    pub fn pattern(&self, alloc: Global) -> Result<Pattern, OutOfMemory>
        requires { AreCompressed self.now }
        ensures { IfOk result (λ a. a ≡ matrix_given self.now) }
    {
        let others = self.others as u32;
        if self.by_rows {
            Pattern::of_checked_rows(alloc, others, self.starts, self.ids)
        } else {
            Pattern::of_checked_columns(alloc, others, self.starts, self.ids)
        }
    }

    // The pattern of the matrix whose compressed columns the lists are.
    pub(crate) fn listed(&self, alloc: Global) -> Result<Pattern, OutOfMemory>
        requires { AreCompressed self.now }
        ensures { IfOk result (λ a. a ≡ listed self.now) }
    {
        Pattern::of_checked_columns(alloc, self.others as u32, self.starts, self.ids)
    }

    // The columns, where the lists are compressed columns; by rows, those of the transpose.
    pub(crate) fn given_columns(&self) -> GivenColumns<N>
        requires { AreCompressed self.now }
        ensures { matrix_of result.rows (N.numbers result.starts) (N.numbers result.ids)
            ≡ listed self.now }
    {
        GivenColumns {
            rows: self.others as u32,
            starts: self.starts,
            ids: self.ids,
        }
    }

    // How many columns, or by rows how many rows, the starts are of.
    fn lists(&self) -> u64
        ensures { result ≡ length self.now.starts - 1 }
    {
        self.starts.len().saturating_sub(1) as u64
    }
}

/// Whether a list to be written has room for so many numbers, or none since it is not wanted.
pub fn is_room<T>(list: &[T], count: u64) -> bool
    ensures { IsTrue result ↔ ((length list.now ≡ 0) ⊎ (length list.now ≡ count)) }
{
    list.len() == 0 || list.len() as u64 == count
}

/// Whether a list has room for so many numbers and one more, or none.
pub fn is_room_and_one(list: &[u32], count: u64) -> bool
    ensures { IsTrue result ↔ IsRoom (count + 1) list.now }
{
    list.len() == 0 || list.len() as u64 - 1 == count
}
