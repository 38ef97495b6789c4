//! Mates that are set one by one: a row's mate and a column's mate need not lead back to one
//! another.

ghost use Rattle.std.specs.Prelude.{◌≡◌, ◌<◌, ◌+◌, ◌^◌, length, None, set, replicate, map, IfOk, IfSome};
ghost use Rattle.bip_defs.specs.Lists.{option_at};
ghost use Rattle.bip_graph.specs.Mates.{AreFew, Mated, mate_of};

use sp_ids::{Col, OutOfMemory, Row};
use std::alloc::Global;
use std::marker::Model;

// Stands in both arrays for no mate.
const NONE: u32 = u32::MAX;

/// For each row its column and for each column its row, if it has one. It keeps 4 bytes a row and 4
/// a column.
///
/// [`Matching::of`](crate::Matching::of) makes a matching of mates that lead back to one another.
#[derive(Drop)]
pub struct Mates {
    row_of_col: Vec<u32>,
    col_of_row: Vec<u32>,
}

impl Model for Mates {
    ghost use Rattle.std.specs.Prelude.{map};
    ghost use Rattle.bip_graph.specs.Mates.{AreFew, Mated, mate_of};

    ghost Value = { Mated };

    ghost view = { λ m. record {
      rows = map mate_of m.col_of_row.items;
      cols = map mate_of m.row_of_col.items;
    } };

    ghost invariant = { λ m. AreFew m.row_of_col.items m.col_of_row.items };
}

impl Mates {
    /// No mates, of so many rows and columns.
    ///
    /// Returns `OutOfMemory` if it cannot allocate the two arrays. Work: one write for each row and
    /// column.
    pub fn empty(alloc: Global, rows: u32, cols: u32) -> Result<Self, OutOfMemory>
        ensures { IfOk result
            (λ m. m ≡ record { rows = replicate rows None; cols = replicate cols None }) }
    {
        let row_of_col = vec![in alloc; NONE; cols as usize]?;
        let col_of_row = vec![in alloc; NONE; rows as usize]?;
        Ok(Mates {
            row_of_col,
            col_of_row,
        })
    }

    /// The mate of a column, if it has one.
    pub fn row_of(&self, col: Col) -> Option<Row>
        requires { col < length self.now.cols }
        ensures { result ≡ option_at self.now.cols col }
    {
        let row = self.row_of_col[col.0 as usize];
        if row == NONE { None } else { Some(Row(row)) }
    }

    /// The mate of a row, if it has one.
    pub fn col_of(&self, row: Row) -> Option<Col>
        requires { row < length self.now.rows }
        ensures { result ≡ option_at self.now.rows row }
    {
        let col = self.col_of_row[row.0 as usize];
        if col == NONE { None } else { Some(Col(col)) }
    }

    /// Sets the mate of a row, and leaves the columns. The mate's number is at most 4,294,967,294.
    pub fn set_row(&mut self, row: Row, mate: Option<Col>)
        requires row { row < length self.old.rows }
        requires mate { IfSome mate (λ col. col + 1 < 2 ^ 32) }
        ensures rows { self.new.rows ≡ set self.old.rows row mate }
        ensures cols { self.new.cols ≡ self.old.cols }
    {
        self.col_of_row[row.0 as usize] = number_of_col(mate);
    }

    /// Sets the mate of a column, and leaves the rows. The mate's number is at most 4,294,967,294.
    pub fn set_col(&mut self, col: Col, mate: Option<Row>)
        requires col { col < length self.old.cols }
        requires mate { IfSome mate (λ row. row + 1 < 2 ^ 32) }
        ensures cols { self.new.cols ≡ set self.old.cols col mate }
        ensures rows { self.new.rows ≡ self.old.rows }
    {
        self.row_of_col[col.0 as usize] = number_of_row(mate);
    }

    // The rows of the columns and the columns of the rows.
    pub(crate) fn into_arrays(self) -> (Vec<u32>, Vec<u32>)
        ensures few { AreFew result.0.items result.1.items }
        ensures mates { self ≡ record {
          rows = map mate_of result.1.items;
          cols = map mate_of result.0.items;
        } }
    {
        (self.row_of_col, self.col_of_row)
    }
}

// A row's mate as the array keeps it.
fn number_of_col(mate: Option<Col>) -> u32
    requires { IfSome mate (λ col. col + 1 < 2 ^ 32) }
    ensures { mate_of result ≡ mate }
{
    match mate {
        Some(col) => col.0,
        None => NONE,
    }
}

// A column's mate as the array keeps it.
fn number_of_row(mate: Option<Row>) -> u32
    requires { IfSome mate (λ row. row + 1 < 2 ^ 32) }
    ensures { mate_of result ≡ mate }
{
    match mate {
        Some(row) => row.0,
        None => NONE,
    }
}
