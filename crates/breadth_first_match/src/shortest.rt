//! Phases of shortest augmenting paths alone.

ghost use Rattle.std.specs.Prelude.{IfOk};
ghost use Rattle.bip_defs.specs.Matching.{Covers};
ghost use Rattle.bip_defs.specs.Parts.{MarkHorizontalRows};
ghost use Rattle.bip_graph.specs.Matching.{IsMatchingOf, IsMaximumOf};
ghost use Rattle.breadth_first_match.specs.Phases.{EndsPhase};
ghost use Rattle.breadth_first_match.specs.Ready.{AreLaid};

use bip_graph::{Matching, Opposite};
use path_search::{Layers, SearchForest};
use sp_ids::OutOfMemory;
use sp_pattern::Side;
use std::alloc::Global;

/// What phases of shortest paths keep from one to the next.
#[derive(Drop)]
pub struct ShortestPhases {
    forest: SearchForest,
    layers: Layers,
}

impl ShortestPhases {
    pub fn new<F: Opposite, S: Side<F>>(
        alloc: Global,
        side: &S,
        matching: &Matching,
    ) -> Result<ShortestPhases, OutOfMemory>
        requires matching { IsMatchingOf (S.matrix side.now) (F.seen matching.now) }
        ensures { IfOk result (AreLaid (S.matrix side.now) (F.seen matching.now)) }
    {
        let forest = SearchForest::new(alloc, side.rows(), side.cols())?;
        let layers = Layers::new(alloc, side.cols())?;
        Ok(ShortestPhases { forest, layers })
    }

    /// One phase. Whether the matching has grown.
    ///
    /// A phase that finds no shortest path searches once more as a breadth-first phase does, which
    /// shows that the matching is maximum.
    pub fn run<F: Opposite, S: Side<F>>(
        &mut self,
        side: &S,
        matching: &mut Matching,
    ) -> Result<bool, OutOfMemory>
        requires ready { AreLaid (S.matrix side.now) (F.seen matching.old) self.old }
        ensures ready { IfOk result
            (λ b. AreLaid (S.matrix side.now) (F.seen matching.new) self.new) }
        ensures covered { Covers (F.seen matching.old).pairs (F.seen matching.new).pairs }
        ensures phase { IfOk result (EndsPhase (S.matrix side.now)
            (F.seen matching.old) (F.seen matching.new) self.new.forest.marks) }
    {
        let before = F::size(matching);
        self.forest.shortest(side, matching, &mut self.layers)?;
        if F::size(matching) == before {
            self.forest.sweep(side, matching);
        }
        Ok(F::size(matching) > before)
    }
}

/// Phases of shortest paths from one side, until the matching is maximum, and what the last one has
/// marked.
///
/// They are at most twice the square root of the number of pairs of a maximum matching, and two
/// more (Hopcroft and Karp 1973).
pub fn complete_by_shortest<F: Opposite, S: Side<F>>(
    alloc: Global,
    side: &S,
    matching: Matching,
) -> Result<(Matching, Vec<bool>), OutOfMemory>
    requires matching { IsMatchingOf (S.matrix side.now) (F.seen matching) }
    ensures maximum { IfOk result (λ p. IsMaximumOf (S.matrix side.now) (F.seen p.0)) }
    ensures covered { IfOk result (λ p. Covers (F.seen matching).pairs (F.seen p.0).pairs) }
    ensures marks { IfOk result (λ p.
        MarkHorizontalRows (S.matrix side.now) p.1.items) }
{
    let mut phases = ShortestPhases::new(alloc, side, &matching)?;
    let mut grown = matching;
    let mut grows = true;
    while grows {
        grows = phases.run(side, &mut grown)?;
    }
    Ok((grown, phases.forest.into_marks()))
}
