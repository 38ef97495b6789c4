//! The block triangular form that is found of a matrix.

ghost use Rattle.std.specs.Prelude.{◌≡◌, IfOk, map};
ghost use Rattle.bip_defs.specs.Matrix.{Matrix, upto};
ghost use Rattle.bip_graph.specs.Decompositions.{HasParts};
ghost use Rattle.bip_graph.specs.Matching.{IsMaximumOf};
ghost use Rattle.blocktri.specs.BlockForms.{IsBlockFormOf};
ghost use Rattle.blocktri.specs.PerfectMatchings.{IsPerfectMatching};

use bip_graph::{Blocks, Matching, Parts};
use column_lists::ColumnLists;
use dm_fine::fine_by_columns;
use sp_ids::{Id, OutOfMemory};
use std::alloc::Global;

/// The block triangular form of a matrix of m rows and n columns: its rank, its parts, and the fine
/// blocks of its square part.
#[derive(Drop)]
pub struct BlockForm {
    pub m: u32,
    pub n: u32,
    pub rank: u32,
    pub parts: Parts,
    pub blocks: Blocks,
}

/// The form, from a maximum matching and the parts.
pub fn form_of_parts<C: ColumnLists>(
    alloc: Global,
    columns: C,
    matching: &Matching,
    parts: Parts,
) -> Result<BlockForm, OutOfMemory>
    requires maximum { IsMaximumOf (C.matrix columns) matching.now }
    requires parts { HasParts (C.matrix columns) parts }
    ensures { IfOk result (IsBlockFormOf (C.matrix columns)) }
{
    let blocks = fine_by_columns(alloc, columns, matching, &parts)?;
    Ok(BlockForm {
        m: columns.rows(),
        n: columns.cols(),
        rank: matching.size(),
        parts,
        blocks,
    })
}

/// The form of a square matrix, from a perfect matching.
pub fn perfect_form<C: ColumnLists>(
    alloc: Global,
    columns: C,
    matching: &Matching,
) -> Result<BlockForm, OutOfMemory>
    requires { IsPerfectMatching (C.matrix columns) matching.now }
    ensures { IfOk result (IsBlockFormOf (C.matrix columns)) }
{
    let parts = square_parts(alloc, matching)?;
    form_of_parts(alloc, columns, matching, parts)
}

/// The parts of a square matrix with a perfect matching: all rows and all columns are square.
///
/// Returns `OutOfMemory` if it cannot allocate 4 bytes a row and 4 a column.
pub fn square_parts(alloc: Global, matching: &Matching) -> Result<Parts, OutOfMemory>
    ensures { (a : Matrix) → IsPerfectMatching a matching.now → IfOk result (HasParts a) }
{
    let sr = first_ids(alloc, matching.rows())?;
    let sc = first_ids(alloc, matching.cols())?;
    Ok(Parts {
        hr: Vec::new(alloc),
        hc: Vec::new(alloc),
        sr,
        sc,
        vr: Vec::new(alloc),
        vc: Vec::new(alloc),
    })
}

// So many rows or columns, from the first one on.
fn first_ids<I: Id>(alloc: Global, count: u32) -> Result<Vec<I>, OutOfMemory>
    ensures { IfOk result (λ ids. map I.number ids.items ≡ upto count) }
{
    let mut ids = Vec::with_capacity(alloc, count as usize)?;
    for k in 0..count {
        ids.push(I::of(k))?;
    }
    Ok(ids)
}
