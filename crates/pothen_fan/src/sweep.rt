//! One depth-first phase.

ghost use Rattle.std.specs.Prelude.{◌≡◌, ◌<◌, ◌↔◌, ◌+◌, length, IfOk, OnErr};
ghost use Rattle.bip_defs.specs.Matching.{Covers, IsMaximum};
ghost use Rattle.bip_defs.specs.Matrix.{cols};
ghost use Rattle.bip_defs.specs.Parts.{MarkHorizontalRows};
ghost use Rattle.bip_graph.specs.Matching.{IsMatchingOf};
ghost use Rattle.path_search.specs.Growth.{GrowsUnlessMaximum};
ghost use Rattle.path_search.specs.Search.{CanSearch};
ghost use Rattle.pothen_fan.specs.Roots.{Extends, HoldRoots};

use bip_graph::{Matching, Opposite};
use path_search::{Search, marked_rows_are_horizontal, roots};
use sp_ids::{Col, OutOfMemory};
use sp_pattern::Side;
use std::alloc::Global;

/// One depth-first phase from one side: [`phase`](crate::phase) over whatever lends the rows of its
/// columns, or over the rows of a pattern.
///
/// Gives by how much the matching has grown: 0 exactly where it was maximum, and then it stays as
/// it was. The matching must be of the entries and sizes that the side has, and no row or column
/// loses its mate without a new one. Returns `OutOfMemory` if it cannot allocate 17 bytes a row, 4
/// a column and 4 an unmatched column that has entries, as the side sees them; the matching is as
/// before then. Work: at most two passes over the entries, one of look-ahead and one of the
/// searches.
pub fn phase_from<F: Opposite, S: Side<F>>(
    alloc: Global,
    side: &S,
    matching: &mut Matching,
) -> Result<u32, OutOfMemory>
    requires matching { IsMatchingOf (S.matrix side.now) (F.seen matching.old) }
    ensures matching { IsMatchingOf (S.matrix side.now) (F.seen matching.new) }
    ensures growth { IfOk result
        (λ k. length (F.seen matching.new).pairs ≡ length (F.seen matching.old).pairs + k) }
    ensures maximum { IfOk result
        (λ k. (k ≡ 0) ↔ IsMaximum (S.matrix side.now) (F.seen matching.old).pairs) }
    ensures same { IfOk result (λ k. k ≡ 0 → F.seen matching.new ≡ F.seen matching.old) }
    ensures covered { Covers (F.seen matching.old).pairs (F.seen matching.new).pairs }
    ensures refused { OnErr result (F.seen matching.new ≡ F.seen matching.old) }
{
    let mut search = Search::new(alloc, side.rows(), side.cols())?;
    let roots = roots(alloc, side, matching)?;
    let before = F::size(matching);
    sweep(&mut search, side, matching, roots.as_slice(), false);
    Ok(F::size(matching) - before)
}

/// Searches once from each root that is unmatched, with no row marked at first.
pub fn sweep<F: Opposite, S: Side<F>>(
    search: &mut Search,
    side: &S,
    matching: &mut Matching,
    roots: &[Col],
    reversed: bool,
)
    requires ready { CanSearch (S.matrix side.now) (F.seen matching.old) search.old }
    requires roots { HoldRoots (S.matrix side.now) (F.seen matching.old).pairs roots.now }
    ensures ready { CanSearch (S.matrix side.now) (F.seen matching.new) search.new }
    ensures covered { Covers (F.seen matching.old).pairs (F.seen matching.new).pairs }

    // Where the matching has not grown it was maximum, and the marked rows are the horizontal rows.
    ensures maximum { GrowsUnlessMaximum (S.matrix side.now) (F.seen matching.old)
        (F.seen matching.new) }
    ensures marks { length (F.seen matching.new).pairs ≡ length (F.seen matching.old).pairs
        → MarkHorizontalRows (S.matrix side.now) search.new.marks }
{
    marked_rows_are_horizontal();
    search.clear();
    for root in roots {
        extend(search, side, matching, *root, reversed);
    }
}

// Searches from a column, if it is unmatched.
fn extend<F: Opposite, S: Side<F>>(
    search: &mut Search,
    side: &S,
    matching: &mut Matching,
    root: Col,
    reversed: bool,
)
    requires root { root < cols (S.matrix side.now) }
    requires ready { CanSearch (S.matrix side.now) (F.seen matching.old) search.old }
    ensures ready { CanSearch (S.matrix side.now) (F.seen matching.new) search.new }
    ensures covered { Covers (F.seen matching.old).pairs (F.seen matching.new).pairs }
    ensures extends { Extends (S.matrix side.now) (F.seen matching.old)
        (F.seen matching.new) search.old.marks search.new.marks root }
{
    match F::row_of(matching, root) {
        Some(_) => {}
        None => {
            search.augment(side, matching, root, reversed);
        }
    }
}
