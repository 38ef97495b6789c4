//! Depth-first phases as long as they match many, and what completes what they leave.

ghost use Rattle.std.specs.Prelude.{◌≡◌, ◌⊎◌, ◌+◌, ◌<◌, length, IfOk, IfSome};
ghost use Rattle.bip_defs.specs.Matching.{Covers, IsMaximum};
ghost use Rattle.bip_defs.specs.Parts.{MarkHorizontalRows};
ghost use Rattle.bip_graph.specs.Matching.{IsMatchingOf, IsMaximumOf};
ghost use Rattle.path_search.specs.Growth.{GrowsUnlessMaximum};
ghost use Rattle.path_search.specs.Search.{CanSearch};
ghost use Rattle.pothen_fan.specs.Roots.{HoldRoots};

use crate::sweep::sweep;
use bip_graph::{Matching, Opposite};
use path_search::{Search, roots};
use sp_ids::{Col, OutOfMemory};
use sp_pattern::Side;
use std::alloc::Global;

/// A maximum matching, by phases from one side, in which every row and column that was matched
/// before is matched, and what the last phase has marked.
pub fn complete_from_with_marks<F: Opposite, S: Side<F>>(
    alloc: Global,
    side: &S,
    matching: Matching,
) -> Result<(Matching, Vec<bool>), OutOfMemory>
    requires matching { IsMatchingOf (S.matrix side.now) (F.seen matching) }
    ensures maximum { IfOk result (λ p. IsMaximumOf (S.matrix side.now) (F.seen p.0)) }
    ensures covered { IfOk result (λ p. Covers (F.seen matching).pairs (F.seen p.0).pairs) }
    ensures marks { IfOk result (λ p. MarkHorizontalRows (S.matrix side.now) p.1.items) }
{
    let (longer, marks) = lengthen_from(alloc, side, matching)?;
    match marks {
        Some(marks) => Ok((longer, marks)),
        None => breadth_first_match::complete_from_with_marks(alloc, side, longer),
    }
}

/// Depth-first phases from one side, at least one, and another while each matches at least half of
/// the roots that were unmatched before it. What the last one has marked, where it has found no
/// path.
pub fn lengthen_from<F: Opposite, S: Side<F>>(
    alloc: Global,
    side: &S,
    matching: Matching,
) -> Result<(Matching, Option<Vec<bool>>), OutOfMemory>
    requires matching { IsMatchingOf (S.matrix side.now) (F.seen matching) }
    ensures matching { IfOk result (λ p. IsMatchingOf (S.matrix side.now) (F.seen p.0)) }
    ensures longer { IfOk result (λ p. IsMaximum (S.matrix side.now) (F.seen p.0).pairs
        ⊎ (length (F.seen matching).pairs < length (F.seen p.0).pairs)) }
    ensures covered { IfOk result (λ p. Covers (F.seen matching).pairs (F.seen p.0).pairs) }

    // Where there are marks, the matching is maximum, and the marked rows are the horizontal rows.
    ensures maximum { IfOk result (λ p. IfSome p.1
        (λ _. IsMaximumOf (S.matrix side.now) (F.seen p.0))) }
    ensures marks { IfOk result (λ p. IfSome p.1
        (λ marks. MarkHorizontalRows (S.matrix side.now) marks.items)) }
{
    let mut search = Search::new(alloc, side.rows(), side.cols())?;
    let roots = roots(alloc, side, &matching)?;
    let mut left = roots.len();
    let mut longer = matching;
    let mut reversed = false;
    loop {
        let growth = grow(&mut search, side, &mut longer, roots.as_slice(), reversed);
        if growth == 0 {
            return Ok((longer, Some(search.into_marks())));
        }
        left = left.saturating_sub(growth as usize);
        if !pays(growth as usize, left) {
            return Ok((longer, None));
        }
        reversed = !reversed;
    }
}

// One phase. How many roots it has matched.
fn grow<F: Opposite, S: Side<F>>(
    search: &mut Search,
    side: &S,
    matching: &mut Matching,
    roots: &[Col],
    reversed: bool,
) -> u32
    requires ready { CanSearch (S.matrix side.now) (F.seen matching.old) search.old }
    requires roots { HoldRoots (S.matrix side.now) (F.seen matching.old).pairs roots.now }
    ensures ready { CanSearch (S.matrix side.now) (F.seen matching.new) search.new }
    ensures covered { Covers (F.seen matching.old).pairs (F.seen matching.new).pairs }
    ensures growth { length (F.seen matching.new).pairs
        ≡ length (F.seen matching.old).pairs + result }

    // Where the matching has not grown it was maximum, and the marked rows are the horizontal rows.
    ensures maximum { GrowsUnlessMaximum (S.matrix side.now) (F.seen matching.old)
        (F.seen matching.new) }
    ensures marks { result ≡ 0 → MarkHorizontalRows (S.matrix side.now) search.new.marks }
{
    let before = F::size(matching);
    sweep(search, side, matching, roots, reversed);
    F::size(matching) - before
}

// Whether another phase is worth while after one that has left so many unmatched: where it matched
// at least half.
fn pays(growth: usize, left: usize) -> bool {
    growth >= left
}
