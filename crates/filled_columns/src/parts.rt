//! The parts of a matrix that has a perfect matching.

ghost use Rattle.std.specs.Prelude.{◌≡◌, IfOk, length};
ghost use Rattle.bip_defs.specs.Matrix.{Matrix};
ghost use Rattle.bip_graph.specs.Decompositions.{HasParts, parts_of};
ghost use Rattle.bip_graph.specs.Matching.{IsMaximumOf, Pairing};
ghost use Rattle.filled_columns.specs.Filled.{all_square};

use bip_graph::Parts;
use sp_ids::{Col, OutOfMemory, Row};
use std::alloc::Global;

/// All rows and columns in the square part: the parts of each matrix with so many rows and columns
/// that has a perfect matching.
///
/// Rows and columns count from 0. Returns `OutOfMemory` if it cannot allocate the two lists, 4
/// bytes a row and 4 a column. Work: one write for each row and column.
pub fn full_parts(alloc: Global, size: u32) -> Result<Parts, OutOfMemory>
    ensures lists { IfOk result (λ parts. parts_of parts ≡ all_square size) }

    // The parts of a matrix with a perfect matching.
    ensures parts { IfOk result (λ parts. (a : Matrix) (m : Pairing) → IsMaximumOf a m
        → m.rows ≡ size → m.cols ≡ size → length m.pairs ≡ size → HasParts a parts) }
{
    let mut rows = Vec::with_capacity(alloc, size as usize)?;
    let mut cols = Vec::with_capacity(alloc, size as usize)?;
    for number in 0..size {
        rows.push_reserved(Row(number));
        cols.push_reserved(Col(number));
    }
    Ok(Parts {
        hr: Vec::new(alloc),
        hc: Vec::new(alloc),
        sr: rows,
        sc: cols,
        vr: Vec::new(alloc),
        vc: Vec::new(alloc),
    })
}
