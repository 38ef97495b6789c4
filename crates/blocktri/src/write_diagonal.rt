//! Pairs, columns and prices that are written for the caller, where they are wanted.

ghost use Rattle.std.specs.Prelude.{◌≡◌, ◌≢◌, ◌<◌, ◌≤◌, ◌^◌, length};
ghost use Rattle.bip_defs.specs.Bottleneck.{IsFull};
ghost use Rattle.bip_defs.specs.Matrix.{Matrix, cols};
ghost use Rattle.blocktri.specs.Answers.{AreRowsOf, Fills};
ghost use Rattle.blocktri.specs.Compressed.{IsRoom};
ghost use Rattle.blocktri.specs.Diagonals.{AreNarrow};
ghost use Rattle.blocktri.specs.Written.{IsPut};

use crate::write::write_at;
use sp_ids::{Col, Row};

/// Writes the row of each column of a perfect matching, where that is wanted.
pub fn write_rows(pairs: &[(Row, Col)], row_of_column: &mut [u32])
    requires { (a : Matrix) × IsFull a pairs.now × IsRoom (cols a) row_of_column.old
        × (a.rows < 2 ^ 32) }
    ensures { Fills row_of_column.old row_of_column.new
        (AreRowsOf pairs.now row_of_column.new) }
{
    if row_of_column.len() != 0 {
        write_pairs(pairs, row_of_column);
    }
}

// Writes the row of each column of a perfect matching.
fn write_pairs(pairs: &[(Row, Col)], row_of_column: &mut [u32])
    requires { (a : Matrix) × IsFull a pairs.now × (length row_of_column.old ≡ cols a)
        × (a.rows < 2 ^ 32) }
    ensures long { length row_of_column.new ≡ length row_of_column.old }
    ensures rows { AreRowsOf pairs.now row_of_column.new }
{
    for k in 0..pairs.len() {
        let pair = pairs[k];
        let row = pair.0;
        let col = pair.1;
        row_of_column[col.0 as usize] = row.0;
    }
}

/// Writes the numbers of columns from the first place on, where they are wanted.
pub fn write_columns(columns: &[Col], out: &mut [u32])
    requires { length out.old ≢ 0 → length columns.now ≤ length out.old }
    ensures { Fills out.old out.new (IsPut 0 columns.now out.old out.new) }
{
    if out.len() != 0 {
        put_columns(columns, out);
    }
}

// Writes the numbers of columns from the first place on.
fn put_columns(columns: &[Col], out: &mut [u32])
    requires { length columns.now ≤ length out.old }
    ensures { IsPut 0 columns.now out.old out.new }
{
    write_at(out, 0, columns);
}

/// Writes prices that fit 64 bits, where they are wanted.
pub fn write_prices(prices: &[i128], out: &mut [i64])
    requires room { IsRoom (length prices.now) out.old }
    requires narrow { length out.old ≢ 0 → AreNarrow prices.now }
    ensures { Fills out.old out.new (out.new ≡ prices.now) }
{
    for k in 0..out.len() {
        out[k] = prices[k] as i64;
    }
}
