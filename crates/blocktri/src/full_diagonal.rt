//! Matrices with entries all along the diagonal.

ghost use Rattle.std.specs.Prelude.{◌≡◌, ◌↔◌, ℕ, ◌-◌, ◌<◌, ◌≤◌, IfNone, IfOk, IfSome, IsTrue, length};
ghost use Rattle.std.specs.List.{slice_range};
ghost use Rattle.bip_defs.specs.Lists.{Among};
ghost use Rattle.bip_defs.specs.Matching.{IsRank};
ghost use Rattle.bip_defs.specs.Matrix.{IsEntry};
ghost use Rattle.bip_graph.specs.Matching.{IsMaximumOf, IsPairing};
ghost use Rattle.blocktri.specs.Compressed.{AreCompressed, listed, matrix_given};
ghost use Rattle.blocktri.specs.Diagonal.{HasDiagonal, IsDiagonalFull};

use crate::compressed::Compressed;
use bip_graph::Matching;
use sp_ids::{Col, OutOfMemory, Row};
use sp_pattern::{NumberList, columns_give_their_places};
use std::alloc::Global;

/// The matching of the diagonal, where each of its places is an entry. It is maximum.
///
/// Returns `OutOfMemory` if it cannot allocate 4 bytes a row and 4 a column. Work: one look at each
/// number at most, up to the first column without its entry of the diagonal.
pub fn full_diagonal<N: NumberList>(
    alloc: Global,
    matrix: &Compressed<N>,
) -> Result<Option<Matching>, OutOfMemory>
    requires { AreCompressed matrix.now }
    ensures maximum { IfOk result (λ o. IfSome o (IsMaximumOf (matrix_given matrix.now))) }
    ensures diagonal { IfOk result (λ o. IfSome o
        (λ m. HasDiagonal (matrix_given matrix.now) m.pairs)) }
    ensures none { IfOk result (λ o. IfNone o (¬ IsDiagonalFull (matrix_given matrix.now))) }
{
    if !is_diagonal_full(matrix) {
        return Ok(None);
    }
    let matching = diagonal(alloc, matrix.rows() as u32, matrix.columns() as u32)?;
    Ok(Some(matching))
}

/// The rank, where each place of the diagonal is an entry.
///
/// Takes no memory. Work: one look at each number at most, up to the first column without its entry
/// of the diagonal.
pub fn diagonal_rank<N: NumberList>(matrix: &Compressed<N>) -> Option<u32>
    requires { AreCompressed matrix.now }
    ensures { IfSome result (IsRank (matrix_given matrix.now)) }
{
    if is_diagonal_full(matrix) {
        let (rows, columns) = (matrix.rows(), matrix.columns());
        let sides = if rows < columns { rows } else { columns };
        return Some(sides as u32);
    }
    None
}

/// Whether each place of the diagonal is an entry.
///
/// Takes no memory. Work: one look at each number at most, up to the first column without its entry
/// of the diagonal.
pub fn is_diagonal_full<N: NumberList>(matrix: &Compressed<N>) -> bool
    requires { AreCompressed matrix.now }
    ensures { IsTrue result ↔ IsDiagonalFull (listed matrix.now) }
{
    let others = matrix.others as u32;
    let lists = (matrix.starts.len() - 1) as u32;
    let sides = if others < lists { others } else { lists };
    for side in 0..sides {
        if !has_id_of(matrix, side, side) {
            return false;
        }
    }
    true
}

/// Whether the ids of a column, by rows of a row, have this number.
pub fn has_id_of<N: NumberList>(matrix: &Compressed<N>, list: u32, id: u32) -> bool
    requires compressed { AreCompressed matrix.now }
    requires list { list < length matrix.now.starts - 1 }
    ensures { IsTrue result ↔ IsEntry (listed matrix.now) id list }
{
    columns_give_their_places();
    let from = matrix.starts.at(list as usize) as usize;
    let to = matrix.starts.at(list as usize + 1) as usize;
    has_id(matrix.ids, from, to, id as u64)
}

// Whether a number is one of those from one place to before another.
fn has_id<N: NumberList>(ids: N, from: usize, to: usize, id: u64) -> bool
    requires { to ≤ length (N.numbers ids) }
    ensures { IsTrue result ↔ Among id (slice_range (N.numbers ids) from to) }
{
    for at in from..to {
        if ids.at(at) == id {
            return true;
        }
    }
    false
}

/// The pairs of all places of the diagonal.
///
/// Returns `OutOfMemory` if it cannot allocate 4 bytes a row and 4 a column.
pub fn diagonal(alloc: Global, rows: u32, cols: u32) -> Result<Matching, OutOfMemory>
    ensures rows { IfOk result (λ m. m.rows ≡ rows) }
    ensures cols { IfOk result (λ m. m.cols ≡ cols) }
    ensures pairing { IfOk result IsPairing }
    ensures pairs { IfOk result (λ m. (r c : ℕ)
        → Among (r, c) m.pairs ↔ ((r ≡ c) × (r < rows) × (c < cols))) }
{
    let mut matching = Matching::empty(alloc, rows, cols)?;
    let sides = if rows < cols { rows } else { cols };
    for side in 0..sides {
        matching.pair(Row(side), Col(side));
    }
    Ok(matching)
}
