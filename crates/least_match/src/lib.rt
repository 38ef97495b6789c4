//! The least maximum matching, whatever maximum matching it is made from.
#![tactic(auto)]

mod ahead;
mod classes;
mod exchange;
mod exchanges;
mod parts;
mod search;
mod tail;
mod tree;
mod way;

ghost use Rattle.std.specs.Prelude.{IfOk};
ghost use Rattle.bip_defs.specs.LeastMatching.{IsLeastMaximum};
ghost use Rattle.bip_graph.specs.Decompositions.{HasParts};
ghost use Rattle.bip_graph.specs.Matching.{IsMaximumOf};
ghost use Rattle.least_match.specs.Outcomes.{AreParted};

use crate::exchanges::Exchanges;
use crate::parts::{ColPart, listed_parts, parts};
use bip_graph::{Matching, Parts};
use sp_ids::{Col, OutOfMemory};
use sp_pattern::Pattern;
use std::alloc::Global;

/// The least maximum matching: of all maximum matchings the one whose code is lexicographically
/// least. The code has, for each column, rising, the row of its pair, or the number of rows where
/// it has none.
///
/// The matching that is given must be a maximum matching of the pattern's entries; the answer is
/// the same for each of them. The columns are settled one after the other. A column gets the least
/// row that a maximum matching gives it which agrees at the columns before: its own row, or one
/// that an alternating cycle or an even alternating path leads to (Berge 1957; Dulmage and
/// Mendelsohn 1958). The search for such a path grows a tree from either end. One that fails has
/// found a set of columns that no such path leaves, or none enters; from then on this set is a
/// class of its own, and no search crosses it.
///
/// Returns `OutOfMemory` if it cannot allocate 30 bytes a column, or before that 10 a row and 10 a
/// column for two searches. From then on it takes none. Work: a column that has no mate, or has the
/// least of its rows that are left, costs its entries alone. Searches that fail part the square
/// part by the set with fewer entries each time, so they look at some e log e entries in all, where
/// there are e, and each at one column or row more; in an outer part such a search may look at all
/// of it. At most one search a column finds a path. It may look at all entries that are left, so
/// the worst case is all entries once for each column; in one large block of entries at random it
/// was some 400 to 1,300 entries where the matrix has 100,000, and 1,100 to 3,700 where it has
/// 1,000,000.
pub fn least(alloc: Global, pattern: &Pattern, matching: Matching) -> Result<Matching, OutOfMemory>
    requires maximum { IsMaximumOf pattern.now matching }
    ensures least { IfOk result (λ m. IsLeastMaximum pattern.now m.pairs) }
    ensures maximum { IfOk result (IsMaximumOf pattern.now) }
{
    let parts = parts(alloc, pattern, &matching)?;
    settled(alloc, pattern, matching, parts)
}

/// [`least`], where the coarse parts of the matrix are known: the same matching, and the two
/// searches for them are not made.
///
/// The parts must be the pattern's. Returns `OutOfMemory` if it cannot allocate 30 bytes a column.
/// Work: as `least` without the two searches.
pub fn least_by_parts(
    alloc: Global,
    pattern: &Pattern,
    matching: Matching,
    parts: &Parts,
) -> Result<Matching, OutOfMemory>
    requires maximum { IsMaximumOf pattern.now matching }
    requires parts { HasParts pattern.now parts.now }
    ensures least { IfOk result (λ m. IsLeastMaximum pattern.now m.pairs) }
    ensures maximum { IfOk result (IsMaximumOf pattern.now) }
{
    let parts = listed_parts(alloc, pattern, parts)?;
    settled(alloc, pattern, matching, parts)
}

// The least maximum matching, from one of which the columns' parts are known: each column settled,
// one after the other.
fn settled(
    alloc: Global,
    pattern: &Pattern,
    matching: Matching,
    parts: Vec<ColPart>,
) -> Result<Matching, OutOfMemory>
    requires maximum { IsMaximumOf pattern.now matching }
    requires parts { AreParted pattern.now parts.items }
    ensures least { IfOk result (λ m. IsLeastMaximum pattern.now m.pairs) }
    ensures maximum { IfOk result (IsMaximumOf pattern.now) }
{
    let mut matching = matching;
    let mut exchanges = Exchanges::new(alloc, pattern, parts)?;
    for col in 0..pattern.cols() {
        exchanges.settle(&mut matching, Col(col));
    }
    Ok(matching)
}
