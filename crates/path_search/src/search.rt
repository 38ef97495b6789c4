//! Searches, and what one keeps for the next.

ghost use Rattle.std.specs.Bool.{OnTrue, OnFalse};
ghost use Rattle.std.specs.Prelude.{◌≡◌, ℕ, ◌<◌, ◌≤◌, ◌^◌, ◌∷◌, ◌++◌, [], Bool, List, true, length, map, set, slice_index, IfOk, IfSome, IfNone};
ghost use Rattle.bip_defs.specs.Lists.{Among, IsMarked};
ghost use Rattle.bip_defs.specs.Matching.{Covers, rows_of};
ghost use Rattle.bip_defs.specs.Matrix.{IsEntry, cols};
ghost use Rattle.bip_graph.specs.Matching.{IsMatchingOf};
ghost use Rattle.path_search.specs.Flips.{CanFlip, Flips};
ghost use Rattle.path_search.specs.Search.{Augments, CanSearchFrom, Exhausts, Fails, Finds, HasMarked, HasSearched, MovesOnly};
ghost use Rattle.path_search.specs.Advances.{Advances, Descends};
ghost use Rattle.path_search.specs.Trails.{HasPassed, IsSearchAt, read_place};

use crate::columns::{next_unmarked, row_at, unmark, unmark_all, unmatched_row};
use crate::step::{ColumnPlace, Step};
use bip_graph::{Matching, Opposite};
use sp_ids::{Col, Id, OutOfMemory, Row};
use sp_pattern::Side;
use std::alloc::Global;
use std::marker::Model;

/// What searches for augmenting paths keep from one to the next: marks of rows, and how far each
/// column's list was looked through for an unmatched row.
#[derive(Drop)]
pub struct Search {
    look: Vec<u32>,
    marks: Vec<bool>,
    root: Col,
    path: Vec<(Row, Col)>,
    places: Vec<u32>,
    visited: Vec<Row>,
}

impl Model for Search {
    ghost use Rattle.std.specs.Prelude.{length, vec_capacity, ◌<◌, ◌≤◌, ◌^◌};
    ghost use Rattle.path_search.specs.Search.{SearchState};

    ghost Value = { SearchState };

    ghost view = { λ s. record {
      cols = length s.look.items;
      marks = s.marks.items;
      root = s.root;
      path = s.path.items;
      places = s.places.items;
      visited = s.visited.items;
    } };

    ghost invariant = { λ s. (length s.marks.items ≤ vec_capacity s.path)
        × (length s.marks.items ≤ vec_capacity s.places)
        × (length s.marks.items ≤ vec_capacity s.visited)
        × (length s.marks.items < 2 ^ 32) };
}

impl Search {
    /// For matrices of so many rows and columns, as a side sees them, with no row marked.
    ///
    /// Returns `OutOfMemory` if it cannot allocate the arrays, at most 17 bytes a row and 4 a
    /// column.
    pub fn new(alloc: Global, rows: u32, cols: u32) -> Result<Search, OutOfMemory>
        ensures cols { IfOk result (λ s. s.cols ≡ cols) }
        ensures rows { IfOk result (λ s. length s.marks ≡ rows) }
        ensures marks { IfOk result (λ s. (r : ℕ) → ¬ IsMarked s.marks r) }
    {
        let room = rows as usize;
        let look = vec![in alloc; 0u32; cols as usize]?;
        let marks = vec![in alloc; false; room]?;
        let path = Vec::with_capacity(alloc, room)?;
        let places = Vec::with_capacity(alloc, room)?;
        let visited = Vec::with_capacity(alloc, room)?;
        Ok(Search {
            look,
            marks,
            root: Col(0),
            path,
            places,
            visited,
        })
    }

    // Puts the search at a column, with nothing on its path.
    fn start(&mut self, root: Col)
        ensures at { self.new
            ≡ record self.old { root = root; path = []; places = []; visited = [] } }
        ensures few_rows { length self.new.marks < 2 ^ 32 }
    {
        self.root = root;
        self.path.clear();
        self.places.clear();
        self.visited.clear();
    }

    // Marks a row, and goes to it.
    fn enter(&mut self, row: Row, col: Col)
        requires row { row < length self.old.marks }
        requires room { length self.old.visited < length self.old.marks }
        requires shorter { length self.old.path ≤ length self.old.visited }
        ensures { self.new ≡ record self.old {
          marks = set self.old.marks row true;
          visited = self.old.visited ++ row ∷ [];
          path = self.old.path ++ (row, col) ∷ [];
        } }
    {
        self.marks[row.0 as usize] = true;
        self.visited.push_reserved(row);
        self.path.push_reserved((row, col));
    }

    // Notes the place from where the list of the path's last column is left to be read.
    fn note(&mut self, place: u32)
        requires room { length self.old.places < length self.old.marks }
        ensures { self.new ≡ record self.old { places = self.old.places ++ place ∷ [] } }
    {
        self.places.push_reserved(place);
    }

    // Leaves the path's last pair: the place from where its column is left to be read.
    fn back(&mut self) -> Option<ColumnPlace>
        requires { length self.old.path ≡ length self.old.places }
        ensures some { IfSome result
            (λ s. (r : ℕ) × (self.old
            ≡ record self.new {
              path = self.new.path ++ (r, s.col) ∷ [];
              places = self.new.places ++ s.place ∷ [];
            })) }
        ensures none { IfNone result ((self.new ≡ self.old) × (self.old.path ≡ [])) }
    {
        let place = self.places.pop()?;
        let (_row, col) = self.path.pop()?;
        Some(ColumnPlace { col, place })
    }

    // An unmatched row of a column that is not marked, where one was not passed yet.
    fn look_ahead<F: Opposite, S: Side<F>>(
        &mut self,
        side: &S,
        matching: &Matching,
        col: Col,
    ) -> Option<Row>
        requires rows { (F.seen matching.now).rows ≡ (S.matrix side.now).rows }
        requires marks { length self.old.marks ≡ (S.matrix side.now).rows }
        requires looks { self.old.cols ≡ cols (S.matrix side.now) }
        requires col { col < cols (S.matrix side.now) }
        requires few_rows { (S.matrix side.now).rows < 2 ^ 32 }
        ensures same { self.new ≡ self.old }
        ensures found { IfSome result
            (λ r. IsEntry (S.matrix side.now) r col
            × (¬ Among r (rows_of (F.seen matching.now).pairs))) }
        ensures unmarked { IfSome result (λ r. ¬ IsMarked self.old.marks r) }
    {
        let rows = side.rows_of(col);
        let marks = self.marks.as_slice();
        let look = &mut self.look[col.0 as usize];
        unmatched_row(rows, matching, marks, look)
    }

    // The first place of an unmarked row, from `place` on, or one past the end.
    fn next_place<F: Id>(&self, rows: &[F], place: u32, reversed: bool) -> usize
        requires in_range { (r : ℕ) → Among r (map F.number rows.now) → r < length self.now.marks }
        requires passed { HasPassed reversed self.now.marks (map F.number rows.now) place }
        ensures passed { HasPassed reversed self.now.marks (map F.number rows.now) result }
        ensures unmarked { result < length rows.now
            → ¬ IsMarked self.now.marks
            (slice_index (map F.number rows.now)
            (read_place reversed (length (map F.number rows.now)) result)) }
    {
        next_unmarked(rows, self.marks.as_slice(), place as usize, reversed)
    }

    // Goes down by the first unmarked row of a column, if there is one.
    fn descend<F: Opposite, S: Side<F>>(
        &mut self,
        side: &S,
        matching: &Matching,
        at: ColumnPlace,
        reversed: bool,
    ) -> Step
        requires matching { IsMatchingOf (S.matrix side.now) (F.seen matching.now) }
        requires search { IsSearchAt (S.matrix side.now)
            (F.seen matching.now).pairs reversed self.old at.col at.place }
        ensures { Descends (S.matrix side.now)
            (F.seen matching.now).pairs reversed self.old self.new at.col result }
    {
        let rows = side.rows_of(at.col);
        let place = self.next_place(rows, at.place, reversed);
        if place >= rows.len() {
            return Step::Stuck;
        }
        let row = row_at(rows, place, reversed);
        self.enter(row, at.col);
        match F::col_of(matching, row) {
            None => Step::Found,
            Some(next) => {
                self.note(place as u32 + 1);
                Step::On(ColumnPlace {
                    col: next,
                    place: 0,
                })
            }
        }
    }

    // At a column's first visit looks ahead, and goes down.
    fn visit<F: Opposite, S: Side<F>>(
        &mut self,
        side: &S,
        matching: &Matching,
        at: ColumnPlace,
        reversed: bool,
    ) -> Step
        requires matching { IsMatchingOf (S.matrix side.now) (F.seen matching.now) }
        requires search { IsSearchAt (S.matrix side.now)
            (F.seen matching.now).pairs reversed self.old at.col at.place }
        ensures { Descends (S.matrix side.now)
            (F.seen matching.now).pairs reversed self.old self.new at.col result }
    {
        if at.place == 0 {
            if let Some(row) = self.look_ahead(side, matching, at.col) {
                self.enter(row, at.col);
                return Step::Found;
            }
        }
        self.descend(side, matching, at, reversed)
    }

    // Goes down, or back where that is not possible.
    fn advance<F: Opposite, S: Side<F>>(
        &mut self,
        side: &S,
        matching: &Matching,
        at: ColumnPlace,
        reversed: bool,
    ) -> Step
        requires matching { IsMatchingOf (S.matrix side.now) (F.seen matching.now) }
        requires search { IsSearchAt (S.matrix side.now)
            (F.seen matching.now).pairs reversed self.old at.col at.place }
        ensures { Advances (S.matrix side.now)
            (F.seen matching.now).pairs reversed self.old self.new result }
    {
        match self.visit(side, matching, at, reversed) {
            Step::Stuck => match self.back() {
                Some(before) => Step::On(before),
                None => Step::Stuck,
            },
            step => step,
        }
    }

    // Searches from an unmatched column for an augmenting path through rows that are not marked.
    fn find<F: Opposite, S: Side<F>>(
        &mut self,
        side: &S,
        matching: &Matching,
        root: Col,
        reversed: bool,
    ) -> bool
        requires { CanSearchFrom root (S.matrix side.now) (F.seen matching.now) self.old }
        ensures searched { HasSearched self.old self.new }
        ensures found { OnTrue result (Finds (S.matrix side.now) (F.seen matching.now).pairs
            self.old.marks root self.new.path) }
        ensures visited { OnTrue result
            ((r : ℕ) → Among r (rows_of self.new.path) → Among r self.new.visited) }
        ensures failed { OnFalse result (Exhausts (S.matrix side.now) (F.seen matching.now).pairs
            self.new.marks self.new.visited root) }
    {
        self.start(root);
        let mut at = ColumnPlace {
            col: root,
            place: 0,
        };
        loop {
            match self.advance(side, matching, at, reversed) {
                Step::Found => return true,
                Step::Stuck => return false,
                Step::On(next) => at = next,
            }
        }
    }

    // Exchanges the path, and leaves something else in its place.
    fn flip<F: Opposite>(&mut self, matching: &mut Matching)
        requires { CanFlip (F.seen matching.old) self.old.path }
        ensures same { self.new ≡ record self.old { path = self.new.path } }
        ensures flips { Flips self.old.path (F.seen matching.old) (F.seen matching.new) }
    {
        F::exchange(matching, self.path.as_mut_slice());
    }

    /// Searches from an unmatched column, and exchanges the augmenting path that it finds. Whether
    /// it found one.
    ///
    /// The search is depth-first with look-ahead, through rows that are not marked, and marks each
    /// row that it goes down over, and the unmatched one that ends the path. So the paths of
    /// searches that keep each other's marks have no row in common. Where `reversed` holds, each
    /// column's list is read from its end. Work: the entries of the columns that it comes to, and
    /// of all look-aheads together each entry once.
    pub fn augment<F: Opposite, S: Side<F>>(
        &mut self,
        side: &S,
        matching: &mut Matching,
        root: Col,
        reversed: bool,
    ) -> bool
        requires { CanSearchFrom root (S.matrix side.now) (F.seen matching.old) self.old }
        ensures searched { HasSearched self.old self.new }
        ensures matching { IsMatchingOf (S.matrix side.now) (F.seen matching.new) }
        ensures covered { Covers (F.seen matching.old).pairs (F.seen matching.new).pairs }
        ensures found { OnTrue result
            (Augments root self.old.marks (F.seen matching.old).pairs (F.seen matching.new).pairs) }

        // Each row that gets a mate, or another one, is among those that this search has marked.
        ensures moved { MovesOnly self.new.visited (F.seen matching.old) (F.seen matching.new) }

        // Without a path the matching stays, and the rows that were marked are of no use to any
        // other path.
        ensures stays { OnFalse result (F.seen matching.new ≡ F.seen matching.old) }
        ensures failed { OnFalse result (Fails (S.matrix side.now) (F.seen matching.old).pairs
            self.old.marks self.new.marks root) }
    {
        if !self.find(side, matching, root, reversed) {
            return false;
        }
        self.flip::<F>(matching);
        true
    }

    /// Takes the marks of the last search away.
    pub fn forget(&mut self)
        requires { (start : List Bool) × HasMarked self.old.visited start self.old.marks }
        ensures cols { self.new.cols ≡ self.old.cols }

        // The marks are those from before the search.
        ensures marks { (start : List Bool) → HasMarked self.old.visited start self.old.marks
            → self.new.marks ≡ start }
    {
        unmark(self.marks.as_mut_slice(), self.visited.as_slice());
    }

    /// Takes all marks away.
    pub fn clear(&mut self)
        ensures cols { self.new.cols ≡ self.old.cols }
        ensures rows { length self.new.marks ≡ length self.old.marks }
        ensures marks { (r : ℕ) → ¬ IsMarked self.new.marks r }
    {
        unmark_all(self.marks.as_mut_slice());
    }

    /// The marks of the rows. It takes no memory.
    pub fn into_marks(self) -> Vec<bool>
        ensures { result.items ≡ self.marks }
    {
        self.marks
    }
}
