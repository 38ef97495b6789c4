//! The words with which a board is opened.

ghost use Rattle.std.specs.Prelude.{◌≡◌, ◌+◌, ◌*◌, ◌<◌, [], ◌∷◌, ◌++◌, IfOk, OnOk};
ghost use Rattle.flip_words.specs.Board.{AreTrees};
ghost use Rattle.flip_words.specs.WordCodes.{code_of, half};
ghost use Rattle.flip_words.specs.OpenedBoards.{AreLaid};

use crate::words::HALF;
use bip_graph::Matching;
use sp_ids::{Col, OutOfMemory, Row};
use std::alloc::Global;

// The code of a row or a column, or of none, in half a word.

fn row_code(row: Option<Row>) -> u64
    ensures { result ≡ code_of row }
{
    match row {
        Some(row) => 1 + row.0 as u64,
        None => 0,
    }
}

fn col_code(col: Option<Col>) -> u64
    ensures { result ≡ code_of col }
{
    match col {
        Some(col) => 1 + col.0 as u64,
        None => 0,
    }
}

// One vertex more, of this tree and with this code of its mate.
fn lay(words: &mut Vec<u64>, tree: Option<Col>, mate: u64) -> Result<(), OutOfMemory>
    requires tree { code_of tree < half }
    requires mate { mate < half }
    ensures { OnOk result (words.new.items ≡ words.old.items ++ (code_of tree * half + mate) ∷ []) }
{
    words.push(col_code(tree) * HALF + mate)?;
    Ok(())
}

// The spare word, the words of the trees and then those of the rows and columns.
pub(crate) fn lay_words(
    alloc: Global,
    matching: &Matching,
    row_tree: &[Option<Col>],
    col_tree: &[Option<Col>],
) -> Result<Vec<u64>, OutOfMemory>
    requires row_tree { AreTrees matching.now.rows matching.now.cols row_tree.now }
    requires col_tree { AreTrees matching.now.cols matching.now.cols col_tree.now }
    ensures { IfOk result
        (λ words. AreLaid matching.now (row_tree.now ++ col_tree.now) words.items) }
{
    matching.is_matching();
    let rows = matching.rows();
    let cols = matching.cols();
    let mut words = Vec::with_capacity(alloc, 1 + rows as usize + 2 * cols as usize)?;
    words.resize(1 + cols as usize, 0)?;
    for row in 0..rows {
        let mate = matching.col_of(Row(row));
        lay(&mut words, row_tree[row as usize], col_code(mate))?;
    }
    for col in 0..cols {
        let mate = matching.row_of(Col(col));
        lay(&mut words, col_tree[col as usize], row_code(mate))?;
    }
    Ok(words)
}
