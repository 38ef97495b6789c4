//! The mates of a matching, written into the caller's lists.

ghost use Rattle.std.specs.Prelude.{◌≡◌, ◌≢◌, ◌↔◌, ℕ, ◌<◌, ◌^◌, length};
ghost use Rattle.bip_defs.specs.Lists.{Among};
ghost use Rattle.bip_graph.specs.Matching.{none};
ghost use Rattle.blocktri.specs.Answers.{AreColumnsOf, AreRowsOf, Fills};
ghost use Rattle.blocktri.specs.Compressed.{IsRoom};

use bip_graph::Matching;
use sp_ids::{Col, Row};

// Stands for no mate: no row or column has this number.
const NONE: u32 = u32::MAX;

/// Writes the row of each column, where the list is wanted.
pub fn write_wanted_rows(matching: &Matching, row_of_column: &mut [u32])
    requires room { IsRoom matching.now.cols row_of_column.old }
    requires few { matching.now.rows < 2 ^ 32 }
    ensures { Fills row_of_column.old row_of_column.new
        (AreRowsOf matching.now.pairs row_of_column.new) }
{
    if row_of_column.len() != 0 {
        write_rows(matching, row_of_column);
    }
}

/// Writes the column of each row, where the list is wanted.
pub fn write_wanted_columns(matching: &Matching, column_of_row: &mut [u32])
    requires room { IsRoom matching.now.rows column_of_row.old }
    requires few { matching.now.cols < 2 ^ 32 }
    ensures { Fills column_of_row.old column_of_row.new
        (AreColumnsOf matching.now.pairs column_of_row.new) }
{
    if column_of_row.len() != 0 {
        write_columns(matching, column_of_row);
    }
}

// Writes the row of each column.
fn write_rows(matching: &Matching, row_of_column: &mut [u32])
    requires long { length row_of_column.old ≡ matching.now.cols }
    requires few { matching.now.rows < 2 ^ 32 }
    ensures long { length row_of_column.new ≡ length row_of_column.old }
    ensures rows { AreRowsOf matching.now.pairs row_of_column.new }
{
    for col in 0..matching.cols() {
        row_of_column[col as usize] = row_or_none(matching, Col(col));
    }
}

// The row of a column, or what stands for none.
fn row_or_none(matching: &Matching, col: Col) -> u32
    requires col { col < matching.now.cols }
    requires few { matching.now.rows < 2 ^ 32 }
    ensures { (r : ℕ) → Among (r, col) matching.now.pairs ↔ ((result ≡ r) × (r ≢ none)) }
{
    matching.is_matching();
    match matching.row_of(col) {
        Some(row) => row.0,
        None => NONE,
    }
}

// Writes the column of each row.
fn write_columns(matching: &Matching, column_of_row: &mut [u32])
    requires long { length column_of_row.old ≡ matching.now.rows }
    requires few { matching.now.cols < 2 ^ 32 }
    ensures long { length column_of_row.new ≡ length column_of_row.old }
    ensures columns { AreColumnsOf matching.now.pairs column_of_row.new }
{
    for row in 0..matching.rows() {
        column_of_row[row as usize] = column_or_none(matching, Row(row));
    }
}

// The column of a row, or what stands for none.
fn column_or_none(matching: &Matching, row: Row) -> u32
    requires row { row < matching.now.rows }
    requires few { matching.now.cols < 2 ^ 32 }
    ensures { (c : ℕ) → Among (row, c) matching.now.pairs ↔ ((result ≡ c) × (c ≢ none)) }
{
    matching.is_matching();
    match matching.col_of(row) {
        Some(col) => col.0,
        None => NONE,
    }
}
