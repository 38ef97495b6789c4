//! The connected components of an outer part of a matrix, by labelled searches over its columns.
#![tactic(auto)]

mod classes;
mod contacts;
mod labels;

ghost use Rattle.std.specs.Prelude.{map, IfOk};
ghost use Rattle.bip_defs.specs.Lists.{Lists};
ghost use Rattle.bip_defs.specs.Parts.{IsHorizontalCol};
ghost use Rattle.outer_components.specs.Numbers.{AreNumbers};

use crate::contacts::NONE;
use crate::labels::label_all;
use column_lists::ColumnLists;
use sp_ids::{Id, OutOfMemory};
use std::alloc::Global;

/// The number of the component of each row and each column; no number below the count, where it is
/// of another part.
#[derive(Drop)]
pub struct Numbers {
    pub count: u32,
    pub rows: Vec<u32>,
    pub cols: Vec<u32>,
}

/// Numbers the connected components of the horizontal part from 0 on, by their least columns.
///
/// The columns of the part are gone over in turn, and their lists are read as they lie; the lists
/// of the rows are not needed. A column takes the label of the first of its rows that has one, else
/// a new one, and gives it to its rows that have none. Where a row has another label, the two labels
/// are in contact. Chains of contacts make classes of labels, by searches over the contacts of each
/// label (connected components by searches: Hopcroft and Tarjan 1973), and these classes are the
/// components. Where many contacts have come together, the labels so far become the numbers of
/// their classes, and the contacts are forgotten.
///
/// It takes 4 bytes a row and 4 a column, which are kept; and beside them 16 bytes a label and 32 a
/// contact while classes are made. There are at most as many labels as columns of the part, and at
/// most as many contacts as labels, or an eighth of the rows and columns, and the rows of one
/// column more. Returns `OutOfMemory` if that cannot be allocated, or where 2^32 contacts came
/// together. Work: two looks at each entry of a column of the part, a fixed number of looks at each
/// row and column, and at most a fixed number for each contact.
pub fn number_components<N: Id, L: ColumnLists>(
    alloc: Global,
    lists: L,
    columns: &[N],
) -> Result<Numbers, OutOfMemory>
    requires { Lists (IsHorizontalCol (L.matrix lists)) (map N.number columns.now) }
    ensures { IfOk result (λ n. AreNumbers (L.matrix lists) n.count n.rows.items n.cols.items) }
{
    let mut rows = vec![in alloc; NONE; lists.rows() as usize]?;
    let mut cols = vec![in alloc; NONE; lists.cols() as usize]?;
    let count = label_all(
        alloc,
        lists,
        columns,
        rows.as_mut_slice(),
        cols.as_mut_slice(),
    )?;
    Ok(Numbers { count, rows, cols })
}
