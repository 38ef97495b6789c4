//! The fine blocks of a matrix's square part, in their order.
#![tactic(auto)]

mod condensation;
mod order;
mod square;
mod waits;

ghost use Rattle.std.specs.Prelude.{IfOk};
ghost use Rattle.bip_defs.specs.Blocks.{AreBlocksOf};
ghost use Rattle.bip_graph.specs.Decompositions.{HasParts};
ghost use Rattle.bip_graph.specs.Matching.{IsMaximumOf};

pub use crate::square::{SquareBlocks, square_blocks};
use bip_graph::{Blocks, Matching, Parts};
use column_lists::{ColumnLists, PatternColumns};
use sp_ids::OutOfMemory;
use sp_pattern::Pattern;
use square_components::OfParts;
use std::alloc::Global;

/// The fine blocks of a matrix, from a maximum matching and its coarse parts: those that
/// [`square_blocks`] finds, as a list.
///
/// Takes what [`square_blocks`] takes, and if there is one block, then 4 bytes a row, 4 a column
/// and 8 for it. Returns `OutOfMemory` if it cannot allocate that. Work: that of [`square_blocks`].
pub fn fine_by_columns<C: ColumnLists>(
    alloc: Global,
    columns: C,
    matching: &Matching,
    parts: &Parts,
) -> Result<Blocks, OutOfMemory>
    requires maximum { IsMaximumOf (C.matrix columns) matching.now }
    requires parts { HasParts (C.matrix columns) parts.now }
    ensures { IfOk result (λ b. AreBlocksOf (C.matrix columns) b) }
{
    let part = OfParts { matching, parts };
    part.is_square_part();
    match square_blocks(alloc, columns, part)? {
        SquareBlocks::Several(blocks) => Ok(blocks),
        SquareBlocks::One => {
            let (rows, cols) = (parts.sr.as_slice(), parts.sc.as_slice());
            let mut blocks = Blocks::with_room(alloc, 1, rows.len(), cols.len())?;
            blocks.push(rows, cols)?;
            Ok(blocks)
        }
    }
}

/// The fine blocks of a pattern, as [`fine_by_columns`] finds them.
pub fn fine(
    alloc: Global,
    pattern: &Pattern,
    matching: &Matching,
    parts: &Parts,
) -> Result<Blocks, OutOfMemory>
    requires maximum { IsMaximumOf pattern.now matching.now }
    requires parts { HasParts pattern.now parts.now }
    ensures { IfOk result (λ b. AreBlocksOf pattern.now b) }
{
    fine_by_columns(alloc, PatternColumns { pattern }, matching, parts)
}
