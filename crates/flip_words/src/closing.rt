//! The mates of a board that is closed.

ghost use Rattle.std.specs.Prelude.{◌≡◌, ◌+◌, ◌++◌, length};
ghost use Rattle.std.specs.Mem.Slots.{IsFull, slots_items};
ghost use Rattle.flip_words.specs.WordCodes.{mates_in};
ghost use Rattle.flip_words.specs.Stored.{AreSized};

use crate::words::{as_col, as_row, mate};
use atomic_table::Closed;
use bip_graph::Mates;
use sp_ids::{Col, Row};
use std::alloc::Global;

// Sets the mates to those that the words hold.
pub(crate) fn read_mates(words: &Closed<(), Global>, rows: u32, cols: u32, mates: &mut Mates)
    requires full { IsFull words.now.words }
    requires many { length (slots_items words.now.words) ≡ 1 + cols + (rows + cols) }
    requires sizes { AreSized mates.old rows cols }
    ensures sizes { AreSized mates.new rows cols }
    ensures mates { mates.new.rows ++ mates.new.cols ≡ mates_in cols (slots_items words.now.words) }
{
    let first_row = 1 + cols as usize;
    for row in 0..rows {
        let word = words.word(first_row + row as usize);
        mates.set_row(Row(row), as_col(mate(word)));
    }
    let first_col = first_row + rows as usize;
    for col in 0..cols {
        let word = words.word(first_col + col as usize);
        mates.set_col(Col(col), as_row(mate(word)));
    }
}
