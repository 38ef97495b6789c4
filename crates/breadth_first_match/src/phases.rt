//! Breadth-first phases from one side, and then those of shortest paths.

ghost use Rattle.std.specs.Prelude.{IfOk};
ghost use Rattle.bip_defs.specs.Matching.{Covers};
ghost use Rattle.bip_defs.specs.Parts.{MarkHorizontalRows};
ghost use Rattle.bip_graph.specs.Matching.{IsMatchingOf, IsMaximumOf};
ghost use Rattle.path_search.specs.Forests.{CanGrow};
ghost use Rattle.breadth_first_match.specs.Phases.{EndsPhase};

use crate::shortest::complete_by_shortest;
use bip_graph::{Matching, Opposite};
use path_search::SearchForest;
use sp_ids::OutOfMemory;
use sp_pattern::Side;
use std::alloc::Global;

// How many breadth-first phases there are before those of shortest paths.
const BREADTH_FIRST_PHASES: u32 = 128;

/// A maximum matching, by phases from one side, in which every row and column that was matched
/// before is matched: what [`complete`](crate::complete) makes of the side that it chooses, over
/// whatever lends the rows of its columns, or over the rows of a pattern.
///
/// The matching must be of the entries and sizes that the side has. Memory, errors and work: as
/// `complete` says of its own, but for the choice of a side.
pub fn complete_from<F: Opposite, S: Side<F>>(
    alloc: Global,
    side: &S,
    matching: Matching,
) -> Result<Matching, OutOfMemory>
    requires matching { IsMatchingOf (S.matrix side.now) (F.seen matching) }
    ensures maximum { IfOk result (λ m. IsMaximumOf (S.matrix side.now) (F.seen m)) }
    ensures covered { IfOk result (λ m. Covers (F.seen matching).pairs (F.seen m).pairs) }
{
    let (maximum, _marks) = complete_from_with_marks(alloc, side, matching)?;
    Ok(maximum)
}

/// [`complete_from`], with what the last phase has marked: for each row, as the side sees them,
/// whether it is horizontal.
///
/// No row is looked at for that: the marks are those of the searches. Memory, errors and work: as
/// those of `complete_from`; of its memory a byte a row stays in use.
pub fn complete_from_with_marks<F: Opposite, S: Side<F>>(
    alloc: Global,
    side: &S,
    matching: Matching,
) -> Result<(Matching, Vec<bool>), OutOfMemory>
    requires matching { IsMatchingOf (S.matrix side.now) (F.seen matching) }
    ensures maximum { IfOk result (λ p. IsMaximumOf (S.matrix side.now) (F.seen p.0)) }
    ensures covered { IfOk result (λ p. Covers (F.seen matching).pairs (F.seen p.0).pairs) }
    ensures marks { IfOk result (λ p.
        MarkHorizontalRows (S.matrix side.now) p.1.items) }
{
    let mut forest = SearchForest::new(alloc, side.rows(), side.cols())?;
    let mut grown = matching;
    for _phase in 0..BREADTH_FIRST_PHASES {
        if !grow(&mut forest, side, &mut grown) {
            return Ok((grown, forest.into_marks()));
        }
    }
    drop(forest);
    complete_by_shortest(alloc, side, grown)
}

// One phase. Whether the matching has grown.
fn grow<F: Opposite, S: Side<F>>(
    forest: &mut SearchForest,
    side: &S,
    matching: &mut Matching,
) -> bool
    requires ready { CanGrow (S.matrix side.now) (F.seen matching.old) forest.old }
    ensures ready { CanGrow (S.matrix side.now) (F.seen matching.new) forest.new }
    ensures covered { Covers (F.seen matching.old).pairs (F.seen matching.new).pairs }
    ensures phase { EndsPhase (S.matrix side.now) (F.seen matching.old) (F.seen matching.new)
        forest.new.marks result }
{
    let before = F::size(matching);
    forest.sweep(side, matching);
    F::size(matching) > before
}
