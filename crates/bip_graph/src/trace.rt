//! Augmenting paths, followed back from their ends.

ghost use Rattle.std.specs.Prelude.{◌≡◌, ◌⊎◌, ℕ, ◌<◌, ◌≤◌, ◌∷◌, ◌++◌, [], List, length, vec_len, vec_capacity, IfSome, IfNone};
ghost use Rattle.bip_defs.specs.Lists.{Among};
ghost use Rattle.bip_defs.specs.Matching.{cols_of, rows_of};
ghost use Rattle.bip_defs.specs.Matrix.{Place};
ghost use Rattle.bip_defs.specs.Paths.{IsAugmenting};
ghost use Rattle.bip_defs.specs.Queues.{at};
ghost use Rattle.bip_graph.specs.Parents.{AreTrees, IsQueue, IsReachedIn, IsRooted, IsTraced};

use crate::matching::Matching;
use sp_ids::{Col, Row};

/// Alternating trees that a search has grown from unmatched columns.
///
/// A row is reached from a column, its parent, and with the row the column of its pair.
pub trait Parents {
    /// A column that was reached, as the search keeps it.
    type Reached: Copy + Drop;

    /// The pairs of the matching.
    ghost pairs: { Self → List Place };

    /// A row and its parent.
    ghost reached: { Self → ℕ → ℕ → Type 0 };

    /// What is kept of the columns that were reached.
    ghost kept: { Self → Self.Reached → Type 0 };

    /// The column that is kept.
    ghost column: { Self.Reached → ℕ };

    /// The column that is kept.
    fn col(&self, at: Self::Reached) -> Col
        ensures { result ≡ column at };

    /// The row of the column's pair, and that row's parent; none where the column has no pair, the
    /// root of its tree.
    fn parent(&self, at: Self::Reached) -> Option<(Row, Self::Reached)>
        requires kept { kept self.now at }
        requires depth { IsRooted (pairs self.now) (reached self.now) (column at) }
        ensures pair { IfSome result (λ x. Among (x.0, column at) (pairs self.now)) }
        ensures parent { IfSome result (λ x. reached self.now x.0 (column x.1)) }
        ensures kept { IfSome result (λ x. kept self.now x.1) }
        ensures root { IfNone result (¬ Among (column at) (cols_of (pairs self.now))) };
}

/// Writes the path that leads to an unmatched row, in order from the root of the tree in which the
/// row's column was reached: an augmenting path.
///
/// Allocates nothing: the list has room for each augmenting path of the matching. Work: one step a
/// pair of the path.
pub fn trace_back<T: Parents>(trees: &T, leaf: Row, from: T::Reached, path: &mut Vec<(Row, Col)>)
    requires trees { AreTrees (T.pairs trees.now) (T.reached trees.now) }
    requires kept { T.kept trees.now from }
    requires depth { IsRooted (T.pairs trees.now) (T.reached trees.now) (T.column from) }
    requires leaf { ¬ Among leaf (rows_of (T.pairs trees.now)) }
    requires room { length (T.pairs trees.now) < vec_capacity path.old }
    ensures path { IsAugmenting (T.pairs trees.now) path.new.items }
    ensures leaf { Among (leaf, T.column from) path.new.items }
    ensures pairs { (p : Place) → Among p path.new.items
        → IsTraced (T.pairs trees.now) (T.reached trees.now) leaf (T.column from) p }
    ensures room { vec_capacity path.old ≤ vec_capacity path.new }
{
    path.clear();
    let mut at = from;
    path.push_reserved((leaf, trees.col(at)));
    while let Some((row, parent)) = trees.parent(at) {
        at = parent;
        path.push_reserved((row, trees.col(at)));
    }
    path.as_mut_slice().reverse();
}

/// The columns that a search has reached, each with the place of its parent, and the matching.
#[derive(Clone, Copy)]
pub struct Queue<'s> {
    pub matching: &'s Matching,
    pub columns: &'s [(u32, u32)],
}

impl Parents for Queue<'_> {
    type Reached = (u32, u32);

    ghost pairs = { λ q. q.matching.now.pairs };

    ghost reached = { λ q. IsReachedIn q.matching.now.pairs q.columns.now };

    ghost kept = { λ q x. IsQueue q.matching.now q.columns.now × Among x q.columns.now };

    ghost column = { λ x. x.0 };

    fn col(&self, at: (u32, u32)) -> Col {
        Col(at.0)
    }

    fn parent(&self, at: (u32, u32)) -> Option<(Row, (u32, u32))> {
        match self.matching.row_of(Col(at.0)) {
            Some(row) => Some((row, self.columns[at.1 as usize])),
            None => None,
        }
    }
}

impl Queue<'_> {
    /// Writes the augmenting path that leads over the column at a place to an unmatched row, in
    /// order from the root of the tree.
    ///
    /// Allocates nothing: the list has room for each augmenting path of the matching. Work: one
    /// step a pair of the path.
    pub fn path_to(&self, leaf: Row, place: u32, path: &mut Vec<(Row, Col)>)
        requires queue { IsQueue self.now.matching.now self.now.columns.now }
        requires place { place < length self.now.columns.now }
        requires leaf { ¬ Among leaf (rows_of self.now.matching.now.pairs) }
        requires room { length self.now.matching.now.pairs < vec_capacity path.old }
        ensures path { IsAugmenting self.now.matching.now.pairs path.new.items }
        ensures pairs { (p : Place) → Among p path.new.items
            → (p ≡ (leaf, (at self.now.columns.now place).0))
            ⊎ IsReachedIn self.now.matching.now.pairs self.now.columns.now p.0 p.1 }
        ensures room { vec_capacity path.old ≤ vec_capacity path.new }
    {
        self.matching.is_matching();
        trace_back(self, leaf, self.columns[place as usize], path);
    }
}
