//! Columns whose row numbers rise, copied.

ghost use Rattle.std.specs.Prelude.{◌≡◌, ◌^◌, ◌≤◌, IfOk, IsTrue, length};
ghost use Rattle.std.specs.List.{slice_range};
ghost use Rattle.bip_defs.specs.Lists.{IsRising};
ghost use Rattle.bip_defs.specs.Pieces.{AreStarts};
ghost use Rattle.blocktri.specs.RisingColumns.{AreRisingColumns, HaveRisingRows};
ghost use Rattle.sp_pattern.specs.Columns.{matrix_of};
ghost use Rattle.sp_pattern.specs.Pairs.{AreBelow};

use sp_ids::{Col, OutOfMemory, Row};
use sp_pattern::{Neighbours, NumberList, columns_give_their_places, part};
use std::alloc::Global;
use std::marker::Model;

/// The columns of a matrix, without its rows.
///
/// It keeps 4 bytes an entry and 4 a column.
#[derive(Drop)]
pub struct RisingColumns {
    rows: u32,
    starts: Vec<u32>,
    ids: Vec<Row>,
}

impl Model for RisingColumns {
    ghost use Rattle.bip_defs.specs.Matrix.{Matrix};
    ghost use Rattle.bip_defs.specs.Pieces.{AreStarts};

    ghost Value = { Matrix };

    ghost use Rattle.sp_pattern.specs.Columns.{matrix_of};
    ghost use Rattle.blocktri.specs.RisingColumns.{AreRisingColumns};

    ghost view = { λ c. matrix_of c.rows c.starts.items c.ids.items };

    ghost invariant = { λ c. AreRisingColumns c.rows c.starts.items c.ids.items };
}

impl RisingColumns {
    /// A copy of compressed columns in which each row number is greater than the one before it.
    pub fn copy<N: NumberList>(
        alloc: Global,
        rows: u32,
        starts: N,
        ids: N,
    ) -> Result<RisingColumns, OutOfMemory>
        requires { AreRisingColumns rows (N.numbers starts) (N.numbers ids) }
        ensures { IfOk result (λ c. c ≡ matrix_of rows (N.numbers starts) (N.numbers ids)) }
    {
        let starts = copied_starts(alloc, starts)?;
        let ids = copied_ids(alloc, ids)?;
        Ok(RisingColumns { rows, starts, ids })
    }
}

impl Neighbours for RisingColumns {
    ghost matrix = { λ c. c };

    fn rows(&self) -> u32 {
        self.rows
    }

    fn cols(&self) -> u32 {
        (self.starts.as_slice().len() - 1) as u32
    }

    fn rows_of(&self, col: Col) -> &[Row] {
        columns_give_their_places();
        part(self.starts.as_slice(), self.ids.as_slice(), col.0 as usize)
    }
}

/// Whether each row number of each column is greater than the one before it.
///
/// Work: one look at each number.
pub fn are_rising<N: NumberList>(starts: N, ids: N) -> bool
    requires starts { AreStarts (N.numbers starts) (N.numbers ids) }
    requires small { AreBelow (2 ^ 32) (length (N.numbers ids)) (N.numbers ids) }
    ensures { IsTrue result → HaveRisingRows (N.numbers starts) (N.numbers ids) }
{
    for col in 0..starts.len() - 1 {
        let from = starts.at(col) as usize;
        let to = starts.at(col + 1) as usize;
        if !is_rising(ids, from, to) {
            return false;
        }
    }
    true
}

// Whether each number from one place to before another is greater than the one before it.
fn is_rising<N: NumberList>(ids: N, from: usize, to: usize) -> bool
    requires from { from ≤ to }
    requires to { to ≤ length (N.numbers ids) }
    requires small { AreBelow (2 ^ 32) (length (N.numbers ids)) (N.numbers ids) }
    ensures { IsTrue result → IsRising (slice_range (N.numbers ids) from to) }
{
    let mut next = 0;
    for at in from..to {
        let id = ids.at(at);
        if id < next {
            return false;
        }
        next = id + 1;
    }
    true
}

// A copy of numbers that fit 32 bits.
fn copied_starts<N: NumberList>(alloc: Global, numbers: N) -> Result<Vec<u32>, OutOfMemory>
    requires { AreBelow (2 ^ 32) (length (N.numbers numbers)) (N.numbers numbers) }
    ensures { IfOk result (λ copy. copy.items ≡ N.numbers numbers) }
{
    let mut copy = Vec::with_capacity(alloc, numbers.len())?;
    for at in 0..numbers.len() {
        copy.push(numbers.at(at) as u32)?;
    }
    Ok(copy)
}

// A copy of row numbers.
fn copied_ids<N: NumberList>(alloc: Global, numbers: N) -> Result<Vec<Row>, OutOfMemory>
    requires { AreBelow (2 ^ 32) (length (N.numbers numbers)) (N.numbers numbers) }
    ensures { IfOk result (λ copy. copy.items ≡ N.numbers numbers) }
{
    let mut copy = Vec::with_capacity(alloc, numbers.len())?;
    for at in 0..numbers.len() {
        copy.push(Row(numbers.at(at) as u32))?;
    }
    Ok(copy)
}
