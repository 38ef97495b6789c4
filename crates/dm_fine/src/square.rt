//! The fine blocks of a square part.

ghost use Rattle.std.specs.Prelude.{IfOk};
ghost use Rattle.bip_defs.specs.Blocks.{AreBlocksOf};
ghost use Rattle.dm_fine.specs.SquareBlocks.{AreSquareBlocks};
ghost use Rattle.square_components.specs.Answers.{AreByLeast};
ghost use Rattle.square_components.specs.Part.{IsSquarePart};

use crate::condensation::Condensation;
use bip_graph::Blocks;
use column_lists::ColumnLists;
use sp_ids::OutOfMemory;
use square_components::{
    ByLeastColumn, SquareComponents, SquarePart, StrongComponents, components_by_least_column,
};
use std::alloc::Global;

/// The fine blocks of a square part: one, which has all its rows and columns, or the list of
/// several, or of none where it is empty.
#[derive(Drop)]
pub enum SquareBlocks {
    One,
    Several(Blocks),
}

/// The fine blocks of a matrix, from its square part with a maximum matching (Dulmage and
/// Mendelsohn 1958; Pothen and Fan 1990): all of them, in the one order of blocks. At each place
/// stands, of the blocks from there on whose columns have entries in the rows of no other of these,
/// the one with the least column. It reads the columns of the matrix alone, whose rows may stand in
/// any order and several times.
///
/// The blocks are the strong components of the square columns, each with the mates of its columns.
/// They are numbered by their least columns. Where numbers never rise along an entry, the blocks
/// stand by their numbers. Else they are put in order as a topological sort does that takes the
/// least source (Kahn 1962), but with no counts: each block that is not ready waits at one block
/// that is still to come.
///
/// Takes what `square_components::components_by_least_column` takes. If there is one block, it
/// takes no more. If there are several, it takes 4 bytes a row, 4 a column and 8 a block for the
/// answer, and as much once more for their rows and columns, and then gives 4 bytes a column back;
/// if they are not in order, it takes 16 bytes and a bit a block more. Returns `OutOfMemory` if it
/// cannot allocate that.
///
/// Work: two looks at most at each entry of a square column, with one look-up each, and one look
/// more for each time that a block waits. Each row, column and block is passed a fixed number of
/// times, but that a block which waits looks at some words of the set of those that are ready.
pub fn square_blocks<C: ColumnLists, S: SquarePart>(
    alloc: Global,
    columns: C,
    part: S,
) -> Result<SquareBlocks, OutOfMemory>
    requires { IsSquarePart (C.matrix columns) (S.rows part) (S.cols part) (S.pairs part) }
    ensures { IfOk result (AreSquareBlocks (C.matrix columns) (S.rows part) (S.cols part)) }
{
    match components_by_least_column(alloc, columns, part)? {
        SquareComponents::One => Ok(SquareBlocks::One),
        SquareComponents::Several(found) => {
            let blocks = blocks_of(alloc, columns, part, found)?;
            Ok(SquareBlocks::Several(blocks))
        }
    }
}

// The blocks by the numbers of rows and columns.
fn blocks_of<C: ColumnLists, S: SquarePart>(
    alloc: Global,
    columns: C,
    part: S,
    found: ByLeastColumn,
) -> Result<Blocks, OutOfMemory>
    requires part { IsSquarePart (C.matrix columns) (S.rows part) (S.cols part) (S.pairs part) }
    requires found { AreByLeast (C.matrix columns) (S.pairs part) found }
    ensures { IfOk result (AreBlocksOf (C.matrix columns)) }
{
    let ByLeastColumn {
        components,
        in_order,
    } = found;
    let StrongComponents {
        of_rows,
        of_cols,
        count,
    } = components;
    let size = part.len() as usize;
    let mut blocks = Blocks::with_room(alloc, count as usize, size, size)?;
    let condensation = Condensation::of(alloc, columns, of_rows.as_slice(), of_cols, count)?;
    if in_order {
        condensation.append_all(&mut blocks)?;
        return Ok(blocks);
    }
    condensation.order(alloc, of_rows, blocks)
}
