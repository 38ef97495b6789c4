//! Searches for exchanges, from both ends at once.

ghost use Rattle.std.specs.Prelude.{◌≡◌, ℕ, ◌<◌, ◌≤◌, List, length, IfSome, IfNone};
ghost use Rattle.bip_defs.specs.Lists.{Among, Lists};
ghost use Rattle.bip_defs.specs.Matching.{cols_of};
ghost use Rattle.bip_defs.specs.Matrix.{IsEntry, Place, cols};
ghost use Rattle.bip_defs.specs.Queues.{at, heads};
ghost use Rattle.least_match.specs.Classes.{IsInTail};
ghost use Rattle.least_match.specs.Outcomes.{EndsAs, IsTurn};
ghost use Rattle.least_match.specs.Searches.{AreTreesFor, CanLookBack, CanLookForward, CanSearch, GrowsBack, GrowsForward, MeetsIn, SeesBack, SeesForward};
ghost use Rattle.least_match.specs.Trees.{AreSearchTrees, Enters, HaveCols, IsScanned, IsScannedBack, LeadsTo, Looks};

use crate::ahead::IdList;
use crate::exchange::Meeting;
use crate::parts::ColPart;
use crate::tail::ClassTail;
use crate::tree::{SearchTrees, Tree};
use bip_graph::Matching;
use sp_ids::{Col, Row};
use sp_pattern::Pattern;

/// What a search comes to.
#[derive(Clone, Copy)]
pub enum Outcome {
    /// A path.
    Path(Meeting),
    /// No path: all rows of the columns of the forward tree were looked at.
    ForwardEnds,
    /// No path: all columns with entries in the rows of the backward tree were looked at.
    BackwardEnds,
}

/// What a search does next.
#[derive(Clone, Copy)]
pub enum Turn {
    GrowForward,
    GrowBackward,
    EndForward,
    EndBackward,
}

impl ClassTail<'_> {
    // Begins the forward tree with a column behind its own, and the backward tree with its own.
    fn begin(&self, first: Col, trees: &mut SearchTrees)
        requires first { IsInTail self.now.pattern.now self.now.classes.now self.now.col first }
        requires behind { self.now.col < first }
        requires cols { HaveCols (cols self.now.pattern.now) trees.old }
        ensures cols { HaveCols (cols self.now.pattern.now) trees.new }
        ensures trees { (m : List Place) → Among first (cols_of m) → Among self.now.col (cols_of m)
            → AreSearchTrees self.now.pattern.now m self.now.classes.now self.now.col first
            trees.new.forward.queue trees.new.backward.queue }
    {
        trees.forward.clear();
        trees.forward.push(first, 0);
        trees.backward.clear();
        trees.backward.push(self.col, 0);
    }

    // Looks at a row in which the column at a place of the forward tree has an entry: adds its
    // mate, or gives a path.
    fn look_forward(
        &self,
        matching: &Matching,
        row: Row,
        place: u32,
        trees: &mut SearchTrees,
    ) -> Option<Meeting>
        requires can { CanLookForward self.now matching.now place trees.old }
        requires entry { IsEntry self.now.pattern.now row (at trees.old.forward.queue place).0 }
        ensures cols { HaveCols (cols self.now.pattern.now) trees.new }
        ensures other { trees.new.backward ≡ trees.old.backward }
        ensures same { IfSome result (λ meeting. trees.new ≡ trees.old) }
        ensures found { IfSome result (MeetsIn self.now matching.now.pairs trees.old) }
        ensures seen { IfNone result
            (SeesForward self.now matching.now.pairs row place trees.old trees.new) }
    {
        match matching.col_of(row) {
            None => Some(Meeting::FreeRow { from: place, row }),
            Some(next) => {
                if !self.has(next) {
                    return None;
                }
                match enter(next, place, &mut trees.forward, &trees.backward) {
                    Some(to) => Some(Meeting::Trees { from: place, to }),
                    None => None,
                }
            }
        }
    }

    // Looks at a column with an entry in the row of the column at a place of the backward tree:
    // adds it, or gives a path.
    fn look_back(
        &self,
        matching: &Matching,
        next: Col,
        place: u32,
        trees: &mut SearchTrees,
    ) -> Option<Meeting>
        requires can { CanLookBack self.now matching.now place trees.old }
        requires next { next < cols self.now.pattern.now }
        requires leads { LeadsTo self.now.pattern.now matching.now.pairs
            next (at trees.old.backward.queue place).0 }
        ensures cols { HaveCols (cols self.now.pattern.now) trees.new }
        ensures other { trees.new.forward ≡ trees.old.forward }
        ensures same { IfSome result (λ meeting. trees.new ≡ trees.old) }
        ensures found { IfSome result (MeetsIn self.now matching.now.pairs trees.old) }
        ensures seen { IfNone result
            (SeesBack self.now matching.now.pairs next place trees.old trees.new) }
    {
        if !self.has(next) {
            return None;
        }
        match matching.row_of(next) {
            None => Some(Meeting::FreeCol {
                col: next,
                to: place,
            }),
            Some(_) => match enter(next, place, &mut trees.backward, &trees.forward) {
                Some(from) => Some(Meeting::Trees { from, to: place }),
                None => None,
            },
        }
    }

    // Looks at the rows of the column at a place of the forward tree, until a path is found.
    fn scan_forward(
        &self,
        matching: &Matching,
        place: u32,
        rows: &IdList<'_, Row>,
        trees: &mut SearchTrees,
    ) -> Option<Meeting>
        requires can { CanLookForward self.now matching.now place trees.old }
        requires rows { Lists
            (λ r. IsEntry self.now.pattern.now r (at trees.old.forward.queue place).0)
            rows.now.ids.now }
        ensures grown { GrowsForward self.now matching.now.pairs trees.old trees.new }
        ensures found { IfSome result (MeetsIn self.now matching.now.pairs trees.new) }
        ensures scanned { IfNone result
            (IsScanned self.now.pattern.now matching.now.pairs self.now.classes.now self.now.col
            trees.new.forward.queue (at trees.new.forward.queue place).0) }
    {
        for index in 0..rows.len() {
            match self.look_forward(matching, rows.at(index), place, trees) {
                Some(meeting) => return Some(meeting),
                None => {}
            }
        }
        None
    }

    // Looks at the columns with an entry in the row of the column at a place of the backward tree,
    // until a path is found.
    fn scan_back(
        &self,
        matching: &Matching,
        place: u32,
        found: &IdList<'_, Col>,
        trees: &mut SearchTrees,
    ) -> Option<Meeting>
        requires can { CanLookBack self.now matching.now place trees.old }
        requires found { (r : ℕ) × Among (r, (at trees.old.backward.queue place).0)
            matching.now.pairs × Lists (λ c. IsEntry self.now.pattern.now r c) found.now.ids.now }
        ensures grown { GrowsBack self.now matching.now.pairs trees.old trees.new }
        ensures found { IfSome result (MeetsIn self.now matching.now.pairs trees.new) }
        ensures scanned { IfNone result
            (IsScannedBack self.now.pattern.now matching.now.pairs self.now.classes.now
            self.now.col trees.new.backward.queue (at trees.new.backward.queue place).0) }
    {
        for index in 0..found.len() {
            match self.look_back(matching, found.at(index), place, trees) {
                Some(meeting) => return Some(meeting),
                None => {}
            }
        }
        None
    }

    /// Searches from a column behind its own, and towards its own, by a tree from either end, until
    /// a path is found or it is certain that there is none.
    ///
    /// The tree of which fewer entries were looked at grows next, so that a search which fails
    /// costs about as much as the set with fewer entries of the two that it parts, and the entries
    /// of one column or one row more. Of each tree the first entries of the lists that it looks at
    /// next are read together, before the one at hand is gone through.
    pub fn search(
        &self,
        matching: &Matching,
        part: ColPart,
        first: Col,
        trees: &mut SearchTrees,
    ) -> Outcome
        requires { CanSearch self.now matching.now part first trees.old }
        ensures cols { HaveCols (cols self.now.pattern.now) trees.new }
        ensures trees { AreTreesFor self.now matching.now.pairs first trees.new }
        ensures ends { EndsAs self.now.pattern.now matching.now.pairs self.now.classes.now
            self.now.col trees.new.forward.queue trees.new.backward.queue result }
    {
        self.begin(first, trees);
        let mut next_rows = self.first_rows(&trees.forward, 0);
        let mut next_cols = self.first_cols(matching, &trees.backward, 0);
        let mut forward_at: u32 = 0;
        let mut backward_at: u32 = 0;
        let mut forward_looks: u64 = 0;
        let mut backward_looks: u64 = 0;
        loop {
            let forward_scan = scan_of(&trees.forward, forward_at);
            let backward_scan = scan_of(&trees.backward, backward_at);
            let forward_first = forward_looks <= backward_looks;
            match next_turn(part, forward_scan, backward_scan, forward_first) {
                Turn::EndForward => return Outcome::ForwardEnds,
                Turn::EndBackward => return Outcome::BackwardEnds,
                Turn::GrowForward => {
                    let rows = self.rows_at(&trees.forward, forward_at, &mut next_rows);
                    match self.scan_forward(matching, forward_at, &rows, trees) {
                        Some(meeting) => return Outcome::Path(meeting),
                        None => {}
                    }
                    forward_looks = forward_looks.saturating_add(rows.len() as u64);
                    forward_at += 1;
                    continue;
                }
                Turn::GrowBackward => {
                    let cols = self.cols_at(matching, &trees.backward, backward_at, &mut next_cols);
                    match self.scan_back(matching, backward_at, &cols, trees) {
                        Some(meeting) => return Outcome::Path(meeting),
                        None => {}
                    }
                    backward_looks = backward_looks.saturating_add(cols.len() as u64);
                    backward_at += 1;
                    continue;
                }
            }
        }
    }
}

// Adds a column to a tree, behind its parent, unless it is there already. Where the column is in
// the other tree, its place there.
fn enter(col: Col, parent: u32, tree: &mut Tree, other: &Tree) -> Option<u32>
    requires col { col < tree.old.cols }
    requires other { col < other.now.cols }
    ensures cols { tree.new.cols ≡ tree.old.cols }
    ensures within { IfSome result (λ to. to < length other.now.queue) }
    ensures meets { IfSome result (λ to. (at other.now.queue to).0 ≡ col) }
    ensures same { IfSome result (λ to. tree.new ≡ tree.old) }
    ensures apart { IfNone result (¬ Among col (heads other.now.queue)) }
    ensures entered { IfNone result (Enters col parent tree.old.queue tree.new.queue) }
{
    if let Some(place) = other.place_of(col) {
        return Some(place);
    }
    match tree.place_of(col) {
        Some(_) => {}
        None => tree.push(col, parent),
    }
    None
}

// How many columns of a tree were looked at, and how many it has.
#[derive(Clone, Copy)]
struct Scan {
    done: u32,
    len: u32,
}

// The scan of a tree of which so many columns were looked at.
fn scan_of(tree: &Tree, done: u32) -> Scan
    ensures done { result.done ≡ done }
    ensures len { result.len ≡ length tree.now.queue }
{
    Scan {
        done,
        len: tree.len(),
    }
}

// Which tree grows next, by how many of its columns were looked at, and how many it has; where both
// have columns left, the forward tree if it is first.
//
// A forward tree that is complete shows that there is no path, where no maximum matching misses a
// column of its class; a backward one, where none misses a row of it. One of the two holds in each
// part.
fn next_turn(part: ColPart, forward: Scan, backward: Scan, forward_first: bool) -> Turn
    requires within { (forward.done ≤ forward.len) × (backward.done ≤ backward.len) }
    ensures { IsTurn part forward.done forward.len backward.done backward.len result }
{
    match part {
        ColPart::Horizontal => {
            if backward.done == backward.len {
                Turn::EndBackward
            } else if forward.done == forward.len {
                Turn::GrowBackward
            } else if forward_first {
                Turn::GrowForward
            } else {
                Turn::GrowBackward
            }
        }
        ColPart::Vertical => {
            if forward.done == forward.len {
                Turn::EndForward
            } else if backward.done == backward.len {
                Turn::GrowForward
            } else if forward_first {
                Turn::GrowForward
            } else {
                Turn::GrowBackward
            }
        }
        ColPart::Square => {
            if forward.done == forward.len {
                Turn::EndForward
            } else if backward.done == backward.len {
                Turn::EndBackward
            } else if forward_first {
                Turn::GrowForward
            } else {
                Turn::GrowBackward
            }
        }
    }
}
