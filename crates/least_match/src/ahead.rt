//! First entries of the lists that a search looks at next, read before their turn.

ghost use Rattle.std.specs.Prelude.{◌≡◌, ℕ, ◌<◌, length, get_or, slice_index};
ghost use Rattle.bip_defs.specs.Lists.{Among, Lists};
ghost use Rattle.bip_defs.specs.Matching.{cols_of};
ghost use Rattle.bip_defs.specs.Matrix.{IsEntry, cols, column};
ghost use Rattle.bip_defs.specs.Queues.{at};
ghost use Rattle.bip_graph.specs.Matching.{IsMatchingOf};
ghost use Rattle.least_match.specs.Ahead.{AreFirstCols, AreFirstRows};

use crate::tail::ClassTail;
use crate::tree::Tree;
use bip_graph::Matching;
use sp_ids::{Col, Row};

/// How many lists of a tree are begun at a time, so that their reads wait for memory together.
pub const LISTS: usize = 8;

/// The rows of a column or the columns of a row, of which the first may have been read before the
/// others.
#[derive(Drop)]
pub struct IdList<'p, I> {
    first: I,
    ids: &'p [I],
    ghost first_is: { 0 < length ids.now → first ≡ get_or ids.now 0 first },
}

impl<I: Copy> IdList<'_, I> {
    /// How many there are.
    pub fn len(&self) -> usize
        ensures { result ≡ length self.now.ids.now }
    {
        self.ids.len()
    }

    /// The one at an index.
    #[inline(always)]
    pub fn at(&self, index: usize) -> I
        requires { index < length self.now.ids.now }
        ensures { result ≡ get_or self.now.ids.now index result }
    {
        if index == 0 {
            self.first
        } else {
            self.ids[index]
        }
    }
}

impl<'p> ClassTail<'p> {
    /// The first entry of the column at a place of a forward tree, and those of the next ones, each
    /// at the remainder of its place by [`LISTS`].
    pub fn first_rows(&self, forward: &Tree, place: u32) -> [(Row, Col); LISTS]
        requires place { place < length forward.now.queue }
        requires in_range { (i : ℕ) → i < length forward.now.queue
            → (at forward.now.queue i).0 < cols self.now.pattern.now }
        ensures { AreFirstRows self.now.pattern.now result }
    {
        let (col, _) = forward.at(place);
        let row = first_row(self.pattern.rows_of(col));
        let mut entries = [(row, col); LISTS];
        let end = forward.len().min(place.saturating_add(LISTS as u32));
        for next in place..end {
            let (col, _) = forward.at(next);
            let row = first_row(self.pattern.rows_of(col));
            entries[next as usize % LISTS] = (row, col);
        }
        entries
    }

    /// The rows of the column at a place of a forward tree. Where its first entry was not read
    /// ahead, it is read now, and those of the next columns too.
    pub fn rows_at(
        &self,
        forward: &Tree,
        place: u32,
        ahead: &mut [(Row, Col); LISTS],
    ) -> IdList<'p, Row>
        requires place { place < length forward.now.queue }
        requires in_range { (i : ℕ) → i < length forward.now.queue
            → (at forward.now.queue i).0 < cols self.now.pattern.now }
        requires ahead { AreFirstRows self.now.pattern.now ahead.old }
        ensures ahead { AreFirstRows self.now.pattern.now ahead.new }
        ensures rows { Lists
            (λ r. IsEntry self.now.pattern.now r (at forward.now.queue place).0) result.ids.now }
    {
        let (col, _) = forward.at(place);
        let (row, of) = ahead[place as usize % LISTS];
        let rows = self.pattern.rows_of(col);
        if of == col {
            return IdList {
                first: row,
                ids: rows,
            };
        }
        *ahead = self.first_rows(forward, place);
        IdList {
            first: first_row(rows),
            ids: rows,
        }
    }

    // The row of the column at a place of a backward tree.
    fn row_at(&self, matching: &Matching, backward: &Tree, place: u32) -> Row
        requires matching { IsMatchingOf self.now.pattern.now matching.now }
        requires place { place < length backward.now.queue }
        requires matched { (i : ℕ) → i < length backward.now.queue
            → Among (at backward.now.queue i).0 (cols_of matching.now.pairs) }
        ensures mate { Among (result, (at backward.now.queue place).0) matching.now.pairs }
        ensures in_range { result < self.now.pattern.now.rows }
    {
        let (col, _) = backward.at(place);
        matching.mate(col)
    }

    /// The first entry of the row of the column at a place of a backward tree, and those of the
    /// next ones, each at the remainder of its place by [`LISTS`].
    pub fn first_cols(
        &self,
        matching: &Matching,
        backward: &Tree,
        place: u32,
    ) -> [(Row, Col); LISTS]
        requires matching { IsMatchingOf self.now.pattern.now matching.now }
        requires place { place < length backward.now.queue }
        requires matched { (i : ℕ) → i < length backward.now.queue
            → Among (at backward.now.queue i).0 (cols_of matching.now.pairs) }
        ensures { AreFirstCols self.now.pattern.now result }
    {
        let row = self.row_at(matching, backward, place);
        let col = first_col(self.pattern.cols_of(row));
        let mut entries = [(row, col); LISTS];
        let end = backward.len().min(place.saturating_add(LISTS as u32));
        for next in place..end {
            let row = self.row_at(matching, backward, next);
            let col = first_col(self.pattern.cols_of(row));
            entries[next as usize % LISTS] = (row, col);
        }
        entries
    }

    /// The columns of the row of the column at a place of a backward tree. Where its first entry
    /// was not read ahead, it is read now, and those of the next rows too.
    pub fn cols_at(
        &self,
        matching: &Matching,
        backward: &Tree,
        place: u32,
        ahead: &mut [(Row, Col); LISTS],
    ) -> IdList<'p, Col>
        requires matching { IsMatchingOf self.now.pattern.now matching.now }
        requires place { place < length backward.now.queue }
        requires matched { (i : ℕ) → i < length backward.now.queue
            → Among (at backward.now.queue i).0 (cols_of matching.now.pairs) }
        requires ahead { AreFirstCols self.now.pattern.now ahead.old }
        ensures ahead { AreFirstCols self.now.pattern.now ahead.new }
        ensures cols { (r : ℕ) × Among (r, (at backward.now.queue place).0) matching.now.pairs
            × Lists (λ c. IsEntry self.now.pattern.now r c) result.ids.now }
    {
        let row = self.row_at(matching, backward, place);
        let (of, col) = ahead[place as usize % LISTS];
        let cols = self.pattern.cols_of(row);
        if of == row {
            return IdList {
                first: col,
                ids: cols,
            };
        }
        *ahead = self.first_cols(matching, backward, place);
        IdList {
            first: first_col(cols),
            ids: cols,
        }
    }
}

// The first of the rows, or 0.
fn first_row(rows: &[Row]) -> Row
    ensures { result ≡ slice_index rows.now 0 }
{
    match rows.first() {
        Some(row) => *row,
        None => Row(0),
    }
}

// The first of the columns, or 0.
fn first_col(cols: &[Col]) -> Col
    ensures { result ≡ slice_index cols.now 0 }
{
    match cols.first() {
        Some(col) => *col,
        None => Col(0),
    }
}
