//! Phases of shortest augmenting paths.

ghost use Rattle.std.specs.Prelude.{◌≡◌, ◌⊎◌, ◌<◌, length, IfSome};
ghost use Rattle.bip_defs.specs.Lists.{Among};
ghost use Rattle.bip_defs.specs.Matching.{Covers, cols_of};
ghost use Rattle.bip_defs.specs.Matrix.{cols};
ghost use Rattle.path_search.specs.Forests.{AreGrowing, CanGrow, EndsAt, Extends, GrowOn, IsForest, reached_at};
ghost use Rattle.path_search.specs.Layers.{AreLayers};

use crate::forest::SearchForest;
use crate::layers::Layers;
use bip_graph::{Matching, Opposite};
use sp_ids::{OutOfMemory, Row};
use sp_pattern::Side;

impl SearchForest {
    /// Exchanges shortest augmenting paths that have no vertex in common, until none is left beside
    /// them (Hopcroft and Karp 1973).
    ///
    /// The columns are put into layers up to the first in which a column has an entry in an
    /// unmatched row. From each unmatched column a depth-first search goes down by one layer with
    /// each row, and comes to no row twice. Where no path ends the matching stays; that none is
    /// found is no proof here that the matching is maximum. Returns `OutOfMemory` if it cannot
    /// allocate 4 bytes a column of two layers; the matching is as before then. Work: one look at
    /// each row and column, and at each entry twice at most.
    pub fn shortest<F: Opposite, S: Side<F>>(
        &mut self,
        side: &S,
        matching: &mut Matching,
        layers: &mut Layers,
    ) -> Result<(), OutOfMemory>
        requires ready { CanGrow (S.matrix side.now) (F.seen matching.old) self.old }
        requires layers { AreLayers (cols (S.matrix side.now)) layers.old }
        ensures ready { CanGrow (S.matrix side.now) (F.seen matching.new) self.new }
        ensures layers { AreLayers (cols (S.matrix side.now)) layers.new }
        ensures covered { Covers (F.seen matching.old).pairs (F.seen matching.new).pairs }
        ensures grown { (F.seen matching.new ≡ F.seen matching.old)
            ⊎ (length (F.seen matching.old).pairs < length (F.seen matching.new).pairs) }
    {
        if !layers.make(side, matching)? {
            return Ok(());
        }
        self.start(side, matching);
        for root in 0..self.reached() {
            self.extend(side, matching, layers, root as u32);
        }
        Ok(())
    }

    // Searches from the root at a place, unless it has a mate, and exchanges the path that it finds.
    fn extend<F: Opposite, S: Side<F>>(
        &mut self,
        side: &S,
        matching: &mut Matching,
        layers: &mut Layers,
        root: u32,
    )
        requires growing { AreGrowing (S.matrix side.now) (F.seen matching.old) self.old }
        requires layers { AreLayers (cols (S.matrix side.now)) layers.old }
        requires root { root < length self.old.queue }
        ensures trees { GrowOn (S.matrix side.now) (F.seen matching.old) (F.seen matching.new)
            self.old self.new }
        ensures layers { AreLayers (cols (S.matrix side.now)) layers.new }
        ensures grown { (F.seen matching.new ≡ F.seen matching.old)
            ⊎ (length (F.seen matching.old).pairs < length (F.seen matching.new).pairs) }
    {
        match F::row_of(matching, self.at(root).root) {
            Some(_) => {}
            None => {
                if let Some((row, place)) = self.find(side, matching, layers, root) {
                    self.exchange(side, matching, row, place);
                }
            }
        }
    }

    // Goes down from a root, layer by layer, to an unmatched row, and back where no row leads on.
    // The row, with the place of the column that has an entry in it.
    fn find<F: Opposite, S: Side<F>>(
        &mut self,
        side: &S,
        matching: &Matching,
        layers: &mut Layers,
        root: u32,
    ) -> Option<(Row, u32)>
        requires growing { AreGrowing (S.matrix side.now) (F.seen matching.now) self.old }
        requires layers { AreLayers (cols (S.matrix side.now)) layers.old }
        requires root { root < length self.old.queue }
        requires unmatched { ¬ Among (reached_at self.old.queue root).root
            (cols_of (F.seen matching.now).pairs) }
        ensures forest { IsForest (S.matrix side.now) (F.seen matching.now).pairs self.new }
        ensures extends { Extends self.old self.new }
        ensures layers { AreLayers (cols (S.matrix side.now)) layers.new }
        ensures found { IfSome result
            (λ e. EndsAt (S.matrix side.now) (F.seen matching.now).pairs self.new e.0 e.1) }
    {
        let mut place = root;
        loop {
            let column = self.at(place);
            match layers.next_row(side, matching, self.marks(), column.col) {
                Some(row) => {
                    if self.visit(side, matching, row, place, column.root) {
                        return Some((row, place));
                    }
                    place = self.reached() as u32 - 1;
                }
                None => {
                    if column.col.0 == column.root.0 {
                        return None;
                    }
                    place = column.from;
                }
            }
        }
    }
}
