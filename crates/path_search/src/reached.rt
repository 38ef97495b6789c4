//! What a breadth-first search keeps of each column, and its trees followed back.

ghost use Rattle.bip_defs.specs.Lists.{Among};
ghost use Rattle.bip_defs.specs.Matching.{cols_of};
ghost use Rattle.path_search.specs.Forests.{AreRooted, HasParent};

use bip_graph::{Matching, Opposite, Parents};
use sp_ids::{Col, Row};
use std::marker::PhantomData;

/// A column that was reached.
#[derive(Clone, Copy)]
pub struct Reached {
    pub col: Col,
    /// The place of the column that led to it.
    pub from: u32,
    /// The unmatched column where its tree begins.
    pub root: Col,
}

/// The columns that were reached, and the matching as a side sees it. A tree whose root has a mate
/// by now is left out.
#[derive(Drop)]
pub struct RootedQueue<'s, F: Opposite> {
    pub matching: &'s Matching,
    pub columns: &'s [Reached],
    pub opposite: PhantomData<F>,
}

impl<F: Opposite> Parents for RootedQueue<'_, F> {
    type Reached = Reached;

    ghost pairs = { λ q. (F.seen q.matching.now).pairs };

    ghost reached = { λ q. HasParent (F.seen q.matching.now).pairs q.columns.now };

    ghost kept = { λ q x. AreRooted (F.seen q.matching.now) q.columns.now × Among x q.columns.now
        × (¬ Among x.root (cols_of (F.seen q.matching.now).pairs)) };

    ghost column = { λ x. x.col };

    fn col(&self, at: Reached) -> Col {
        at.col
    }

    fn parent(&self, at: Reached) -> Option<(Row, Reached)> {
        match F::row_of(self.matching, at.col) {
            Some(row) => Some((row, self.columns[at.from as usize])),
            None => None,
        }
    }
}
