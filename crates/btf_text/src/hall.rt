//! Columns in which the entries of rows are looked for.

ghost use Rattle.std.specs.Prelude.{◌≡◌, ◌↔◌, ◌<◌, ◌≤◌, ◌∷◌, [], IsTrue, filter, length};
ghost use Rattle.bip_defs.specs.Lists.{Among, IsRising};
ghost use Rattle.bip_defs.specs.Matrix.{Matrix, neighbours, touches};
ghost use Rattle.bip_graph.specs.Texts.{counted, line, spaced};
ghost use Rattle.btf_text.specs.Texts.{Puts, PutsBytes};

use crate::text::Text;
use report_reader::rises;
use sp_ids::{Col, Id, Row};
use sp_pattern::Pattern;
use sp_ports::Sink;
use std::marker::Model;

/// Columns among which others are looked up: by halves where they rise, else one by one.
#[derive(Drop)]
pub(crate) struct Hall<'a> {
    cols: &'a [Col],
    rising: bool,
}

impl<'a> Model for Hall<'a> {
    ghost use Rattle.std.specs.Prelude.{◌≡◌, List, ℕ, true};
    ghost use Rattle.bip_defs.specs.Lists.{IsRising};

    ghost Value = { List ℕ };

    ghost view = { λ h. h.cols.now };

    ghost invariant = { λ h. h.rising ≡ true → IsRising h.cols.now };
}

impl<'a> Hall<'a> {
    /// These columns. Work: one look at each.
    pub(crate) fn new(cols: &'a [Col]) -> Hall<'a>
        ensures { result ≡ cols.now }
    {
        let rising = rises(cols);
        Hall { cols, rising }
    }

    /// Whether a column is one of these.
    pub(crate) fn has(&self, col: Col) -> bool
        ensures { IsTrue result ↔ Among col self.now }
    {
        if self.rising {
            has_by_halves(self.cols, col)
        } else {
            self.cols.contains(&col)
        }
    }
}

/// Whether a column is one of these, which rise: found by halves among the places where it can
/// stand, since no more numbers are missing before it than in all. Each step adds a product: a
/// branch in its place would be mispredicted half of the time.
fn has_by_halves(hall: &[Col], col: Col) -> bool
    requires { IsRising hall.now }
    ensures { IsTrue result ↔ Among col hall.now }
{
    if hall.len() == 0 {
        return false;
    }
    let last = hall.len() - 1;
    let least = hall[0].number();
    let missing = (hall[last].number() - least) as usize - last;
    let before = col.number().saturating_sub(least) as usize;
    let mut first = before.saturating_sub(missing).min(last);
    let mut len = before.min(last) - first + 1;
    while len > 1 {
        let half = len / 2;
        let middle = hall[first + half];
        let is_at_most = ((1 << 32) + u64::from(col.number()) - u64::from(middle.number())) >> 32;
        first += half * is_at_most as usize;
        len -= half;
    }
    hall[first] == col
}

/// A matrix in whose rows entries are looked up.
pub(crate) trait RowLookup {
    /// The matrix.
    ghost matrix: { Self → Matrix };

    /// The number of rows.
    fn rows(&self) -> u32
        ensures { result ≡ Matrix.rows (matrix self.now) };

    /// Whether a row has an entry in one of these columns.
    fn has_entry_in(&self, row: Row, hall: &Hall) -> bool
        requires { row < Matrix.rows (matrix self.now) }
        ensures { result ≡ touches (matrix self.now) hall.now row };
}

impl RowLookup for Pattern {
    ghost matrix = { λ a. a };

    fn rows(&self) -> u32 {
        Pattern::rows(self)
    }

    fn has_entry_in(&self, row: Row, hall: &Hall) -> bool {
        let cols = self.cols_of(row);
        for col in cols {
            if hall.has(*col) {
                return true;
            }
        }
        false
    }
}

/// Appends a row, counted from 1, if it has an entry in one of these columns.
fn put_where_touched<K: Sink, M: RowLookup>(text: &mut Text<K>, matrix: &M, hall: &Hall, row: Row)
    requires { row < Matrix.rows (M.matrix matrix.now) }
    ensures { PutsBytes K.taken K.faults text.old text.new
        (spaced (counted (filter (touches (M.matrix matrix.now) hall.now) (row ∷ [])))) }
{
    if !matrix.has_entry_in(row, hall) {
        return;
    }
    text.put_number(u64::from(row.0) + 1);
}

/// Appends the list line of the rows with an entry in one of these columns, behind a word of at
/// most 65,536 bytes.
pub(crate) fn put_neighbours<K: Sink, M: RowLookup>(
    text: &mut Text<K>,
    word: &[u8],
    matrix: &M,
    hall: &Hall,
)
    requires { length word.now ≤ 65536 }
    ensures { Puts K.taken K.faults text.old text.new
        (line word.now (counted (neighbours (M.matrix matrix.now) hall.now)) ∷ []) }
{
    text.put_piece(word);
    for row in 0..matrix.rows() {
        put_where_touched(text, matrix, hall, Row(row));
    }
    text.put_piece(b"\n");
}
