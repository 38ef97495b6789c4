//! Phases of breadth-first searches from all unmatched columns at once.

ghost use Rattle.std.specs.Prelude.{◌≡◌, ◌↔◌, ℕ, suc, ◌+◌, ◌<◌, ◌^◌, ◌≤◌, ◌∷◌, ◌++◌, [], true, length, set, IsTrue, IfOk, IfSome, IfNone};
ghost use Rattle.bip_defs.specs.Lists.{Among, IsMarked};
ghost use Rattle.bip_defs.specs.Marks.{IsExplored};
ghost use Rattle.bip_defs.specs.Matching.{Covers};
ghost use Rattle.bip_defs.specs.Matrix.{cols};
ghost use Rattle.bip_defs.specs.Parts.{MarkHorizontalRows};
ghost use Rattle.path_search.specs.Growth.{GrowsUnlessMaximum};
ghost use Rattle.path_search.specs.Batches.{Follows, IsBatch, LeadsToRow, numbers_in};
ghost use Rattle.path_search.specs.Flips.{CanFlip, Flips};
ghost use Rattle.path_search.specs.Forests.{AreGrowing, CanGrow, EndsAt, GrowOn, HaveNoPath, IsForest, IsLeafOf, LeadOn, Progresses, Spreads, Traces, Visits, reached_at};

use crate::batches::{Batch, ROOM, RowCandidate, gather, keep_unmarked, look_up, no_lists};
use crate::columns::unmark_all;
use crate::reached::{Reached, RootedQueue};
use bip_graph::{Matching, Opposite, trace_back};
use sp_ids::{Col, OutOfMemory, Row};
use sp_pattern::Side;
use std::alloc::Global;
use std::marker::{Model, PhantomData};

/// Trees of alternating paths that grow from all unmatched columns at once, each until it finds an
/// unmatched row.
///
/// It keeps 9 bytes a row and 12 a column.
#[derive(Drop)]
pub struct SearchForest {
    cols: u32,
    marks: Vec<bool>,
    queue: Vec<Reached>,
    path: Vec<(Row, Col)>,
}

impl Model for SearchForest {
    ghost use Rattle.std.specs.Prelude.{length, vec_capacity, ◌<◌, ◌≤◌, ◌^◌};
    ghost use Rattle.path_search.specs.Forests.{Trees};

    ghost Value = { Trees };

    ghost view = { λ f. record {
      cols = f.cols;
      marks = f.marks.items;
      queue = f.queue.items;
      path = f.path.items;
    } };

    ghost invariant = { λ f. (f.cols ≤ vec_capacity f.queue)
        × (length f.marks.items ≤ vec_capacity f.path)
        × (length f.marks.items < 2 ^ 32) };
}

impl SearchForest {
    /// For matrices of so many rows and columns, as a side sees them.
    ///
    /// Returns `OutOfMemory` if it cannot allocate the arrays.
    pub fn new(alloc: Global, rows: u32, cols: u32) -> Result<SearchForest, OutOfMemory>
        ensures cols { IfOk result (λ f. f.cols ≡ cols) }
        ensures rows { IfOk result (λ f. length f.marks ≡ rows) }
    {
        let room = rows as usize;
        let marks = vec![in alloc; false; room]?;
        let queue = Vec::with_capacity(alloc, cols as usize)?;
        let path = Vec::with_capacity(alloc, room)?;
        Ok(SearchForest {
            cols,
            marks,
            queue,
            path,
        })
    }

    // Takes all marks away, and leaves no column reached.
    fn clear(&mut self)
        ensures cols { self.new.cols ≡ self.old.cols }
        ensures rows { length self.new.marks ≡ length self.old.marks }
        ensures marks { (r : ℕ) → ¬ IsMarked self.new.marks r }
        ensures queue { self.new.queue ≡ [] }
        ensures few_rows { length self.new.marks < 2 ^ 32 }
    {
        unmark_all(self.marks.as_mut_slice());
        self.queue.clear();
    }

    fn is_marked(&self, row: Row) -> bool
        requires { row < length self.now.marks }
        ensures { IsTrue result ↔ IsMarked self.now.marks row }
    {
        self.marks[row.0 as usize]
    }

    fn mark(&mut self, row: Row)
        requires { row < length self.old.marks }
        ensures { self.new ≡ record self.old { marks = set self.old.marks row true } }
    {
        self.marks[row.0 as usize] = true;
    }

    fn reach(&mut self, next: Reached)
        requires { length self.old.queue < self.old.cols }
        ensures { self.new ≡ record self.old { queue = self.old.queue ++ next ∷ [] } }
    {
        self.queue.push_reserved(next);
    }

    pub(crate) fn reached(&self) -> usize
        ensures { result ≡ length self.now.queue }
    {
        self.queue.len()
    }

    fn queue(&self) -> &[Reached]
        ensures { result.now ≡ self.now.queue }
    {
        self.queue.as_slice()
    }

    pub(crate) fn marks(&self) -> &[bool]
        ensures { result.now ≡ self.now.marks }
    {
        self.marks.as_slice()
    }

    /// The marks of the rows. It takes no memory.
    pub fn into_marks(self) -> Vec<bool>
        ensures { result.items ≡ self.marks }
    {
        self.marks
    }

    pub(crate) fn at(&self, place: u32) -> Reached
        requires { place < length self.now.queue }
        ensures { result ≡ reached_at self.now.queue place }
    {
        self.queue[place as usize]
    }

    // Exchanges the path, and leaves something else in its place.
    fn flip<F: Opposite>(&mut self, matching: &mut Matching)
        requires { CanFlip (F.seen matching.old) self.old.path }
        ensures same { self.new ≡ record self.old { path = self.new.path } }
        ensures flips { Flips self.old.path (F.seen matching.old) (F.seen matching.new) }
    {
        F::exchange(matching, self.path.as_mut_slice());
    }

    // Starts a tree from each unmatched column.
    pub(crate) fn start<F: Opposite, S: Side<F>>(&mut self, side: &S, matching: &Matching)
        requires rows { length self.old.marks ≡ (S.matrix side.now).rows }
        requires cols { self.old.cols ≡ cols (S.matrix side.now) }
        requires matching_cols { (F.seen matching.now).cols ≡ cols (S.matrix side.now) }
        ensures forest { IsForest (S.matrix side.now) (F.seen matching.now).pairs self.new }
        ensures no_path { HaveNoPath (S.matrix side.now) (F.seen matching.now).pairs self.new 0 }
        ensures few_rows { (S.matrix side.now).rows < 2 ^ 32 }
        ensures few_cols { cols (S.matrix side.now) < 2 ^ 32 }
    {
        self.clear();
        for number in 0..side.cols() {
            let col = Col(number);
            match F::row_of(matching, col) {
                Some(_) => {}
                None => self.reach(Reached {
                    col,
                    from: 0,
                    root: col,
                }),
            }
        }
    }

    // Marks a row in which the column at a place has an entry, and reaches the row's mate. Whether
    // it has none.
    pub(crate) fn visit<F: Opposite, S: Side<F>>(
        &mut self,
        side: &S,
        matching: &Matching,
        row: Row,
        place: u32,
        root: Col,
    ) -> bool
        requires row { row < length self.old.marks }
        requires matching_rows { (F.seen matching.now).rows ≡ length self.old.marks }
        requires room { (d : ℕ) → Among (row, d) (F.seen matching.now).pairs
            → ¬ IsMarked self.old.marks row → length self.old.queue < self.old.cols }
        ensures { Visits (F.seen matching.now).pairs row place root self.old self.new result }
    {
        if self.is_marked(row) {
            return false;
        }
        self.mark(row);
        match F::col_of(matching, row) {
            Some(col) => {
                self.reach(Reached {
                    col,
                    from: place,
                    root,
                });
                false
            }
            None => true,
        }
    }

    // Looks through the list of the column at a place, until an unmatched row is found.
    fn scan<F: Opposite, S: Side<F>>(
        &mut self,
        side: &S,
        matching: &Matching,
        place: u32,
        col: Col,
        root: Col,
    ) -> Option<Row>
        requires growing { AreGrowing (S.matrix side.now) (F.seen matching.now) self.old }
        requires place { place < length self.old.queue }
        requires col { (reached_at self.old.queue place).col ≡ col }
        requires root { (reached_at self.old.queue place).root ≡ root }
        ensures forest { IsForest (S.matrix side.now) (F.seen matching.now).pairs self.new }
        ensures spreads { Spreads root self.old self.new }
        ensures found { IfSome result
            (IsLeafOf (S.matrix side.now) (F.seen matching.now).pairs self.new col) }
        ensures explored { IfNone result (IsExplored (S.matrix side.now) self.new.marks col) }
        ensures lead_on { IfNone result (LeadOn (F.seen matching.now).pairs self.old self.new) }
    {
        let rows = side.rows_of(col);
        for far in rows {
            let row = Row(far.number());
            if self.visit(side, matching, row, place, root) {
                return Some(row);
            }
        }
        None
    }

    // Follows a tree back from an unmatched row in which the column at a place has an entry, and
    // keeps the path.
    fn trace<F: Opposite, S: Side<F>>(
        &mut self,
        side: &S,
        matching: &Matching,
        row: Row,
        place: u32,
    )
        requires growing { AreGrowing (S.matrix side.now) (F.seen matching.now) self.old }
        requires ends { EndsAt (S.matrix side.now) (F.seen matching.now).pairs self.old row place }
        ensures same { self.new ≡ record self.old { path = self.new.path } }
        ensures path { Traces (S.matrix side.now) (F.seen matching.now).pairs self.old.queue
            (reached_at self.old.queue place).root row self.new.path }
    {
        let columns = self.queue.as_slice();
        let trees = RootedQueue::<F> {
            matching,
            columns,
            opposite: PhantomData,
        };
        trace_back(&trees, row, columns[place as usize], &mut self.path);
    }

    // Exchanges the path that a tree has found to an unmatched row in which the column at a place
    // has an entry.
    pub(crate) fn exchange<F: Opposite, S: Side<F>>(
        &mut self,
        side: &S,
        matching: &mut Matching,
        row: Row,
        place: u32,
    )
        requires growing { AreGrowing (S.matrix side.now) (F.seen matching.old) self.old }
        requires ends { EndsAt (S.matrix side.now) (F.seen matching.old).pairs self.old row place }
        ensures same { self.new ≡ record self.old { path = self.new.path } }
        ensures growing { AreGrowing (S.matrix side.now) (F.seen matching.new) self.new }
        ensures covered { Covers (F.seen matching.old).pairs (F.seen matching.new).pairs }
        ensures size { length (F.seen matching.new).pairs
            ≡ suc (length (F.seen matching.old).pairs) }
    {
        self.trace(side, matching, row, place);
        self.flip::<F>(matching);
    }

    // Looks through the list of the column at a place, unless its tree is done with, and exchanges
    // a path that ends there.
    fn grow<F: Opposite, S: Side<F>>(&mut self, side: &S, matching: &mut Matching, place: u32)
        requires growing { AreGrowing (S.matrix side.now) (F.seen matching.old) self.old }
        requires place { place < length self.old.queue }
        ensures grown { GrowOn (S.matrix side.now) (F.seen matching.old) (F.seen matching.new)
            self.old self.new }
        ensures progresses { Progresses (S.matrix side.now) (F.seen matching.old)
            (F.seen matching.new) self.old self.new place (place + 1) }
    {
        let column = self.at(place);
        match F::row_of(matching, column.root) {
            Some(_) => {}
            None => {
                let found = self.scan(side, matching, place, column.col, column.root);
                if let Some(row) = found {
                    self.exchange(side, matching, row, place);
                }
            }
        }
    }

    // Visits a candidate, unless its tree is done with, and exchanges a path that ends there.
    fn follow<F: Opposite, S: Side<F>>(
        &mut self,
        side: &S,
        matching: &mut Matching,
        next: RowCandidate,
    )
        requires growing { AreGrowing (S.matrix side.now) (F.seen matching.old) self.old }
        requires candidate { LeadsToRow (S.matrix side.now) self.old.queue next }
        ensures grown { GrowOn (S.matrix side.now) (F.seen matching.old) (F.seen matching.new)
            self.old self.new }
        ensures follows { Follows (S.matrix side.now) (F.seen matching.old) (F.seen matching.new)
            self.old self.new (next ∷ []) }
    {
        let column = self.at(next.place);
        let root = column.root;
        match F::row_of(matching, root) {
            Some(_) => {}
            None => {
                if self.visit(side, matching, next.row, next.place, root) {
                    self.exchange(side, matching, next.row, next.place);
                }
            }
        }
    }

    // Visits the candidates one after another.
    fn follow_all<F: Opposite, S: Side<F>>(
        &mut self,
        side: &S,
        matching: &mut Matching,
        candidates: &[RowCandidate],
    )
        requires growing { AreGrowing (S.matrix side.now) (F.seen matching.old) self.old }
        requires candidates { (x : RowCandidate) → Among x candidates.now
            → LeadsToRow (S.matrix side.now) self.old.queue x }
        ensures grown { GrowOn (S.matrix side.now) (F.seen matching.old) (F.seen matching.new)
            self.old self.new }
        ensures follows { Follows (S.matrix side.now) (F.seen matching.old) (F.seen matching.new)
            self.old self.new candidates.now }
    {
        for next in candidates {
            self.follow(side, matching, *next);
        }
    }

    // Looks through the lists of a batch from one on, as far as there is room for their unmarked
    // rows, and exchanges the paths that end there. The list where it ends.
    fn look_through<F: Opposite, S: Side<F>>(
        &mut self,
        side: &S,
        matching: &mut Matching,
        batch: &Batch<'_, '_, F>,
        at: usize,
        candidates: &mut [RowCandidate],
    ) -> usize
        requires growing { AreGrowing (S.matrix side.now) (F.seen matching.old) self.old }
        requires at { at < length batch.now.lists.now }
        requires batch { IsBatch (S.matrix side.now) (F.seen matching.old).pairs self.old.queue
            batch.now.place (length batch.now.lists.now) (numbers_in F.number batch.now.lists.now) }
        ensures end { (at < result) × (result ≤ length batch.now.lists.now) }
        ensures grown { GrowOn (S.matrix side.now) (F.seen matching.old) (F.seen matching.new)
            self.old self.new }
        ensures progresses { Progresses (S.matrix side.now) (F.seen matching.old)
            (F.seen matching.new) self.old self.new
            (batch.now.place + at) (batch.now.place + result) }
    {
        let (end, len) = gather(batch, at, candidates);
        if end == at {
            self.grow(side, matching, batch.place + at as u32);
            return at + 1;
        }
        let kept = keep_unmarked(candidates, len, self.marks());
        self.follow_all(side, matching, &candidates[..kept]);
        end
    }

    // Looks through the lists of a batch of columns, which begins at a place of the queue. The
    // place behind its last column.
    fn batch<'s, F: Opposite, S: Side<F>>(
        &mut self,
        side: &'s S,
        matching: &mut Matching,
        place: u32,
        lists: &mut [&'s [F]],
        candidates: &mut [RowCandidate],
    ) -> u32
        requires growing { AreGrowing (S.matrix side.now) (F.seen matching.old) self.old }
        requires place { place < length self.old.queue }
        requires room { 0 < length lists.old }
        ensures end { (place < result) × (result ≤ length self.new.queue) }
        ensures grown { GrowOn (S.matrix side.now) (F.seen matching.old) (F.seen matching.new)
            self.old self.new }
        ensures progresses { Progresses (S.matrix side.now) (F.seen matching.old)
            (F.seen matching.new) self.old self.new place result }
    {
        let count = look_up(side, matching, self.queue(), place as usize, lists);
        let batch = Batch {
            lists: &lists[..count],
            place,
        };
        let mut at = 0;
        while at < count {
            at = self.look_through(side, matching, &batch, at, candidates);
        }
        place + count as u32
    }

    /// Searches breadth-first from all unmatched columns at once, and exchanges the augmenting
    /// paths that it finds.
    ///
    /// From each unmatched column grows a tree of alternating paths, which ends at the first
    /// unmatched row that it comes to (Azad, Buluç and Pothen 2017). Each row is in one tree at
    /// most, so the paths have no vertex in common. Where there is no path the matching was
    /// maximum, and the rows of the columns that walks lead to stay marked. Takes no memory. Work:
    /// one look at each row and column, and at each entry once at most.
    ///
    /// Up to 64 columns are looked through at a time, with the outcome of one after another: their
    /// lists are looked up, then their rows' marks, up to 512 at once, and then the unmarked rows
    /// are visited. So looks of one kind stand together, and none hangs on what another found.
    pub fn sweep<F: Opposite, S: Side<F>>(&mut self, side: &S, matching: &mut Matching)
        requires ready { CanGrow (S.matrix side.now) (F.seen matching.old) self.old }
        ensures ready { CanGrow (S.matrix side.now) (F.seen matching.new) self.new }
        ensures covered { Covers (F.seen matching.old).pairs (F.seen matching.new).pairs }

        // Where the matching has not grown it was maximum, and the marked rows are the horizontal
        // rows.
        ensures maximum { GrowsUnlessMaximum (S.matrix side.now) (F.seen matching.old)
            (F.seen matching.new) }
        ensures marks { length (F.seen matching.new).pairs ≡ length (F.seen matching.old).pairs
            → MarkHorizontalRows (S.matrix side.now) self.new.marks }
    {
        self.start(side, matching);
        let mut lists = no_lists(side);
        let mut candidates = [RowCandidate {
            row: Row(0),
            place: 0,
        }; ROOM];
        let mut place: u32 = 0;
        while (place as usize) < self.reached() {
            place = self.batch(side, matching, place, &mut lists, &mut candidates);
        }
    }
}
