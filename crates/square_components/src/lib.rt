//! The strong components of the columns of a matrix's square part.
#![tactic(auto)]

mod explore;
mod numbering;
mod part;
mod search;

ghost use Rattle.std.specs.Prelude.{IfOk};
ghost use Rattle.bip_graph.specs.Matching.{IsMaximumOf};
ghost use Rattle.bip_graph.specs.Decompositions.{HasParts};
ghost use Rattle.square_components.specs.Answers.{AreByFinish, AreSquareComponents};
ghost use Rattle.square_components.specs.Part.{IsSquarePart};

use crate::explore::searched;
use crate::numbering::{by_finish, by_least};
pub use crate::numbering::{ByLeastColumn, SquareComponents, StrongComponents};
pub use crate::part::{OfDiagonal, OfParts, OfPerfect, SquarePart};
use bip_graph::{Matching, Parts};
use column_lists::ColumnLists;
use sp_ids::OutOfMemory;
use std::alloc::Global;

/// The strong components of the square part's columns, where a column leads over each of its
/// entries to the mate of the entry's row. A row has the number of its mate. An entry leads to no
/// greater number: components are numbered in the order in which they are finished.
///
/// One depth-first search with explicit stacks, which keeps the path of components that are not
/// finished (Gabow 2000; Tarjan 1972). A row stands for its mate and has one number, its place on
/// the path or that of its component, so each entry of a square column is looked at once and takes
/// one look-up; beside that each row and column is passed a fixed number of times. Takes 4 bytes a
/// row; for the search 16 bytes a row of the square part, which it gives back; then 4 bytes a
/// column. Returns `OutOfMemory` if it cannot allocate that.
pub fn strong_components<C: ColumnLists>(
    alloc: Global,
    columns: C,
    matching: &Matching,
    parts: &Parts,
) -> Result<StrongComponents, OutOfMemory>
    requires maximum { IsMaximumOf (C.matrix columns) matching.now }
    requires parts { HasParts (C.matrix columns) parts.now }
    ensures { IfOk result (AreByFinish (C.matrix columns) matching.now.pairs) }
{
    let part = OfParts { matching, parts };
    part.is_square_part();
    let found = searched(alloc, columns, part)?;
    by_finish(alloc, columns, part, found)
}

/// The strong components of [`strong_components`], numbered by their least columns, and whether the
/// numbers never rise along an entry. Where there is one component it gives no numbers.
///
/// The search is that of [`strong_components`]. For numbers it then takes 4 bytes a column, and 4
/// bytes a component, which it gives back; where there is one component it takes no more memory.
/// Returns `OutOfMemory` if it cannot allocate that.
pub fn components_by_least_column<C: ColumnLists, S: SquarePart>(
    alloc: Global,
    columns: C,
    part: S,
) -> Result<SquareComponents, OutOfMemory>
    requires { IsSquarePart (C.matrix columns) (S.rows part) (S.cols part) (S.pairs part) }
    ensures { IfOk result (AreSquareComponents (C.matrix columns) (S.pairs part)) }
{
    let (states, count) = searched(alloc, columns, part)?;
    if count == 1 {
        return Ok(SquareComponents::One);
    }
    let numbered = by_least(alloc, columns, part, (states, count))?;
    Ok(SquareComponents::Several(numbered))
}
