//! Edits as a caller has them in memory.

ghost use Rattle.std.specs.Prelude.{◌≡◌, ◌<◌, ◌↔◌, IfNone, IfSome, IsTrue, length};
ghost use Rattle.blocktri_edits.specs.Edits.{AreAllWithin, HaveOneLength, IsFirstOutside, IsWithin, place_at};

use blocktri::NumberList;
use sp_ids::{Col, Row};
use std::marker::Model;

/// Edits of a matrix, in the order in which they are made: three lists of one length.
///
/// Row and column numbers are counted from 0. Nothing of the lists is trusted.
#[derive(Drop)]
pub struct EditPlaces<'a, N: NumberList> {
    /// The row of each edit's place.
    pub rows: N,
    /// The column of each edit's place.
    pub columns: N,
    /// For each edit 0 where it clears the entry at its place, and any other number where it sets
    /// it.
    pub sets: &'a [i32],
}

impl<'a, N: NumberList> Model for EditPlaces<'a, N> {
    ghost use Rattle.blocktri_edits.specs.Edits.{EditLists};

    ghost Value = { EditLists };

    ghost view = { λ e. record {
      rows = N.numbers e.rows;
      columns = N.numbers e.columns;
      sets = e.sets.now;
    } };
}

impl<'a, N: NumberList> EditPlaces<'a, N> {
    /// Whether the three lists have one length, and a list of ranks has it too.
    pub fn have_one_length(&self, ranks: &[u32]) -> bool
        ensures { IsTrue result ↔ HaveOneLength self.now ranks.now }
    {
        self.rows.len() == self.sets.len()
            && self.columns.len() == self.sets.len()
            && ranks.len() == self.sets.len()
    }

    /// How many edits there are.
    pub fn count(&self) -> usize
        ensures { result ≡ length self.now.sets }
    {
        self.sets.len()
    }

    /// The place of an edit that is in a matrix of so many rows and columns.
    pub fn place(&self, at: usize, rows: u32, columns: u32) -> (Row, Col)
        requires row { at < length self.now.rows }
        requires column { at < length self.now.columns }
        requires within { IsWithin rows columns (place_at self.now at) }
        ensures row { result.0 ≡ (place_at self.now at).0 }
        ensures column { result.1 ≡ (place_at self.now at).1 }
    {
        let row = self.rows.at(at) as u32;
        let column = self.columns.at(at) as u32;
        (Row(row), Col(column))
    }

    /// The first edit whose place is not in a matrix of so many rows and columns.
    pub fn first_outside(&self, rows: u32, columns: u32) -> Option<usize>
        requires row { length self.now.rows ≡ length self.now.sets }
        requires column { length self.now.columns ≡ length self.now.sets }
        ensures outside { IfSome result (IsFirstOutside rows columns self.now) }
        ensures within { IfNone result (AreAllWithin rows columns self.now) }
    {
        for at in 0..self.sets.len() {
            if self.rows.at(at) >= rows as u64 || self.columns.at(at) >= columns as u64 {
                return Some(at);
            }
        }
        None
    }
}
