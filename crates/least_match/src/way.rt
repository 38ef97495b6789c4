//! What a path that was found is good for.

ghost use Rattle.std.specs.Prelude.{ℕ};
ghost use Rattle.bip_defs.specs.Lists.{Among};
ghost use Rattle.bip_defs.specs.Queues.{at};
ghost use Rattle.bip_graph.specs.Matching.{IsMatchingOf};
ghost use Rattle.least_match.specs.Exchanges.{Frees, HaveSameSizes};
ghost use Rattle.least_match.specs.Searches.{AreTreesFor, MeetsIn};

use crate::exchange::{Meeting, shift, unpair_col, vacate};
use crate::tail::ClassTail;
use crate::tree::SearchTrees;
use bip_graph::Matching;

impl ClassTail<'_> {
    /// Exchanges along the path that was found, so that the column and the row of the forward
    /// tree's first column have no mates, and the matching has a pair less.
    ///
    /// Takes no memory. Work: some reads and writes a pair of the path.
    pub fn exchange_path(&self, matching: &mut Matching, trees: &SearchTrees, meeting: Meeting)
        requires matching { IsMatchingOf self.now.pattern.now matching.old }
        requires trees { (d : ℕ) × AreTreesFor self.now matching.old.pairs d trees.now }
        requires meets { MeetsIn self.now matching.old.pairs trees.now meeting }
        ensures sizes { HaveSameSizes matching.old matching.new }
        ensures frees { (r : ℕ) → Among (r, (at trees.now.forward.queue 0).0) matching.old.pairs
            → Frees self.now.pattern.now matching.old.pairs self.now.col r matching.new.pairs }
    {
        match meeting {
            Meeting::Trees { from, to } => {
                let row = vacate(matching, &trees.backward, to);
                shift(matching, &trees.forward, from, row);
            }
            Meeting::FreeRow { from, row } => {
                unpair_col(matching, self.col);
                shift(matching, &trees.forward, from, row);
            }
            Meeting::FreeCol { col, to } => {
                let row = vacate(matching, &trees.backward, to);
                matching.pair(row, col);
                let (first, _) = trees.forward.at(0);
                unpair_col(matching, first);
            }
        }
    }
}
