//! The strong components with their rows and columns.

ghost use Rattle.std.specs.Prelude.{◌≡◌, ◌<◌, [], length, map, IfOk, OnOk};
ghost use Rattle.bip_defs.specs.Matrix.{Matrix, upto};
ghost use Rattle.dm_fine.specs.Condensation.{IsCondensationBy, IsNumbering};
ghost use Rattle.dm_fine.specs.Layout.{IsLayout, layout};
ghost use Rattle.dm_fine.specs.Waits.{IsPassed, IsStop};
ghost use Rattle.id_groups.specs.Groups.{block_of};

use crate::waits::{Halt, NONE, stop_in};
use bip_graph::Blocks;
use column_lists::ColumnLists;
use id_groups::{Groups, gather};
use sp_ids::{Col, OutOfMemory, Row};
use std::alloc::Global;

/// The strong components of the square columns of a matrix, by number: the rows and the columns of
/// each.
#[derive(Drop)]
pub struct Condensation<C: ColumnLists> {
    pub columns: C,
    pub rows: Groups<Row>,
    pub cols: Groups<Col>,
}

impl<C: ColumnLists> Condensation<C> {
    /// The components by the numbers of rows and columns. Other numbers are not below the count.
    ///
    /// Takes 4 bytes a row, 4 a column and 8 a component, and gives the numbers of columns back.
    /// Returns `OutOfMemory` if it cannot allocate that.
    pub fn of(
        alloc: Global,
        columns: C,
        of_rows: &[u32],
        of_cols: Vec<u32>,
        count: u32,
    ) -> Result<Condensation<C>, OutOfMemory>
        requires { IsNumbering (C.matrix columns) of_rows.now of_cols.items count }
        ensures columns { IfOk result (λ made. made.columns ≡ columns) }
        ensures made { IfOk result (λ made. IsCondensationBy (layout (C.matrix columns)
            (C.listed columns) made.rows made.cols) of_rows.now of_cols.items) }
        ensures count { IfOk result (λ made. length made.cols ≡ count) }
    {
        columns.are_listed();
        let rows = gather(alloc, of_rows, count)?;
        let cols = gather(alloc, of_cols.as_slice(), count)?;
        Ok(Condensation {
            columns,
            rows,
            cols,
        })
    }

    /// Appends the components as blocks by their numbers.
    ///
    /// Returns `OutOfMemory` if there is no room for them.
    pub fn append_all(&self, blocks: &mut Blocks) -> Result<(), OutOfMemory>
        requires long { length self.now.rows ≡ length self.now.cols }
        requires none { blocks.old ≡ [] }
        ensures { OnOk result (blocks.new
            ≡ map (block_of self.now.rows self.now.cols) (upto (length self.now.cols))) }
    {
        for number in 0..self.cols.count() {
            blocks.push(self.rows.of(number), self.cols.of(number))?;
        }
        Ok(())
    }

    /// Goes over the entries of a component, column by column, from a place on to the first one in
    /// a row of another component that is not placed. A row has the number of its component, or
    /// `u32::MAX` where it is placed or has none.
    #[inline(always)]
    pub fn look(&self, of_rows: &[u32], own: u32, col: u32, at: u32) -> Halt
        requires layout { IsLayout (layout (C.matrix self.now.columns) (C.listed self.now.columns)
            self.now.rows self.now.cols) }
        requires rows { length of_rows.now ≡ Matrix.rows (C.matrix self.now.columns) }
        requires own { own < length self.now.cols }
        requires passed { IsPassed (layout (C.matrix self.now.columns) (C.listed self.now.columns)
            self.now.rows self.now.cols) of_rows.now own col at }
        ensures { IsStop (layout (C.matrix self.now.columns) (C.listed self.now.columns)
            self.now.rows self.now.cols) of_rows.now own result }
    {
        let cols = self.cols.of(own);
        let mut from = at as usize;
        for k in col as usize..cols.len() {
            let (at, on) = stop_in(self.columns.rows_of(cols[k]), from, of_rows, own);
            if on != NONE {
                return Halt {
                    col: k as u32,
                    at: at as u32,
                    on,
                };
            }
            from = 0;
        }
        Halt {
            col: cols.len() as u32,
            at: 0,
            on: NONE,
        }
    }
}
