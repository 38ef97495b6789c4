//! Maximum matchings by one depth-first search from each unmatched column, after Duff's MC21
//! (1981).
//!
//! Each column's list is looked through for an unmatched row before the search goes deeper (cheap
//! assignment), from where the last look-ahead ended: rows that were found matched stay matched.
//! The rows that a failed search has visited are left out of all later ones, since no augmenting
//! path leads through them, then or later: all failed searches together look at each entry once.
#![tactic(auto)]

ghost use Rattle.std.specs.Prelude.{◌+◌, ◌<◌, IfOk};
ghost use Rattle.bip_defs.specs.Matching.{Covers};
ghost use Rattle.bip_defs.specs.Matrix.{cols};
ghost use Rattle.bip_graph.specs.Matching.{IsMatchingOf, IsMaximumOf};
ghost use Rattle.mc21_match.specs.Searched.{AreTriedBelow};

use bip_graph::Matching;
use path_search::Search;
use sp_ids::{Col, OutOfMemory};
use sp_pattern::Pattern;
use std::alloc::Global;

/// A maximum matching, in which every row and column that was matched before is matched.
///
/// The matching must be of the pattern's entries and sizes. Returns `OutOfMemory` if it cannot
/// allocate 17 bytes a row and 4 a column; the matching is dropped then. Work: one pass over the
/// entries for all failed searches together, one for all look-aheads, and at most one for each
/// successful search (Duff 1981).
pub fn complete(
    alloc: Global,
    pattern: &Pattern,
    matching: Matching,
) -> Result<Matching, OutOfMemory>
    requires matching { IsMatchingOf pattern.now matching }
    ensures maximum { IfOk result (λ m. IsMaximumOf pattern.now m) }
    ensures covered { IfOk result (λ m. Covers matching.pairs m.pairs) }
{
    let mut search = Search::new(alloc, pattern.rows(), pattern.cols())?;
    let mut grown = matching;
    for number in 0..pattern.cols() {
        extend(&mut search, pattern, &mut grown, Col(number));
    }
    Ok(grown)
}

// Searches from a column, if it is unmatched. The marks of a failed search stay.
fn extend(search: &mut Search, pattern: &Pattern, matching: &mut Matching, root: Col)
    requires root { root < cols pattern.now }
    requires matching { IsMatchingOf pattern.now matching.old }
    requires searched { AreTriedBelow pattern.now matching.old search.old root }
    ensures searched { AreTriedBelow pattern.now matching.new search.new (root + 1) }
    ensures matching { IsMatchingOf pattern.now matching.new }
    ensures covered { Covers matching.old.pairs matching.new.pairs }
{
    match matching.row_of(root) {
        Some(_) => {}
        None => {
            if search.augment(pattern, matching, root, false) {
                search.forget();
            }
        }
    }
}
