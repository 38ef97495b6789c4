//! The numbers of rows and columns, from what a search left of each row.

ghost use Rattle.std.specs.Prelude.{◌<◌, length, IfOk};
ghost use Rattle.bip_graph.specs.Matching.{none};
ghost use Rattle.square_components.specs.Answers.{AreByFinish, AreByLeast};
ghost use Rattle.square_components.specs.Found.{IsFound};
ghost use Rattle.square_components.specs.Part.{IsSquarePart};
ghost use Rattle.square_components.specs.Renumbering.{Gives};

use crate::part::SquarePart;
use crate::search::NONE;
use column_lists::ColumnLists;
use sp_ids::OutOfMemory;
use std::alloc::Global;

/// For each row and each column of the square part the number of its strong component, or
/// `u32::MAX` outside it, and how many components there are.
#[derive(Drop)]
pub struct StrongComponents {
    pub of_rows: Vec<u32>,
    pub of_cols: Vec<u32>,
    pub count: u32,
}

/// Components that are numbered by their least columns, and whether no entry leads to a greater
/// number, so that they stand in the order of the blocks.
#[derive(Drop)]
pub struct ByLeastColumn {
    pub components: StrongComponents,
    pub in_order: bool,
}

/// The strong components of a square part: one, which has all its rows and columns, or the numbers
/// of several, or of none where it is empty.
#[derive(Drop)]
pub enum SquareComponents {
    One,
    Several(ByLeastColumn),
}

/// Components by the numbers in which a search finished them.
pub fn by_finish<C: ColumnLists, S: SquarePart>(
    alloc: Global,
    columns: C,
    part: S,
    found: (Vec<u32>, u32),
) -> Result<StrongComponents, OutOfMemory>
    requires part { IsSquarePart (C.matrix columns) (S.rows part) (S.cols part) (S.pairs part) }
    requires found { IsFound (C.matrix columns) (S.pairs part) found.0.items found.1 }
    ensures { IfOk result (AreByFinish (C.matrix columns) (S.pairs part)) }
{
    let (mut of_rows, count) = found;
    let mut of_cols = vec![in alloc; NONE; columns.cols() as usize]?;
    for place in 0..part.len() {
        let col = part.col_at(place);
        let row = part.row_of(col).0 as usize;
        let number = NONE - of_rows[row];
        of_cols[col.0 as usize] = number;
        of_rows[row] = number;
    }
    Ok(StrongComponents {
        of_rows,
        of_cols,
        count,
    })
}

/// Components by their least columns.
pub fn by_least<C: ColumnLists, S: SquarePart>(
    alloc: Global,
    columns: C,
    part: S,
    found: (Vec<u32>, u32),
) -> Result<ByLeastColumn, OutOfMemory>
    requires part { IsSquarePart (C.matrix columns) (S.rows part) (S.cols part) (S.pairs part) }
    requires found { IsFound (C.matrix columns) (S.pairs part) found.0.items found.1 }
    ensures { IfOk result (AreByLeast (C.matrix columns) (S.pairs part)) }
{
    let (mut of_rows, finished) = found;
    let mut of_cols = vec![in alloc; NONE; columns.cols() as usize]?;
    let mut anew = vec![in alloc; NONE; finished as usize]?;
    let mut count = 0;
    let mut in_order = true;
    for place in 0..part.len() {
        let col = part.col_at(place);
        let row = part.row_of(col).0 as usize;
        let old = NONE - of_rows[row];
        let number = given(old, anew.as_mut_slice(), &mut count);
        in_order = in_order && number == old;
        of_cols[col.0 as usize] = number;
        of_rows[row] = number;
    }
    let components = StrongComponents {
        of_rows,
        of_cols,
        count,
    };
    Ok(ByLeastColumn {
        components,
        in_order,
    })
}

// The new number, which is the next one where none is given yet.
#[inline(always)]
fn given(number: u32, anew: &mut [u32], next: &mut u32) -> u32
    requires number { number < length anew.old }
    requires next { next.old < none }
    ensures { Gives number anew.old next.old result anew.new next.new }
{
    let known = anew[number as usize];
    if known != NONE {
        return known;
    }
    let new = *next;
    anew[number as usize] = new;
    *next = new + 1;
    new
}
