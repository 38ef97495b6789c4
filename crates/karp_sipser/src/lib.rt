//! The start of Karp and Sipser: a maximal matching that takes rows and columns with one unmatched
//! neighbour first.
#![tactic(auto)]

mod laws;
mod neighbour_sums;
mod rest;
mod unmatched;

ghost use Rattle.std.specs.Prelude.{ℕ, IfOk};
ghost use Rattle.bip_defs.specs.Start.{IsFree, IsStart};
ghost use Rattle.bip_graph.specs.Matching.{IsMatchingOf};

pub use crate::laws::only_neighbours_lose_nothing;
use crate::rest::Rest;
use bip_graph::Matching;
use sp_ids::OutOfMemory;
use sp_pattern::{FromRows, Pattern};
use std::alloc::Global;

/// A maximal matching to start a search from (Karp and Sipser 1981).
///
/// Of the unmatched rest it takes again and again: the least column with exactly one unmatched
/// neighbour, with that row; else the least row with exactly one unmatched neighbour, with that
/// column; else the least column that has an unmatched neighbour, with the least such row. A pair
/// of the first two kinds is in some maximum matching of what was left
/// ([`only_neighbours_lose_nothing`]), so the start is often maximum or nearly so.
///
/// Of each row and column it keeps in one word the sum over the unmatched neighbours of a unit, the
/// number of rows or that of columns, whichever is greater, and their number. Where there is one
/// neighbour the sum shows its number, and no entry is looked at to find it. A sum without a mate's
/// number shows in the same way whether one other neighbour is left alone, and which: only where
/// more are left, the list is looked at.
///
/// Returns `OutOfMemory` if it cannot allocate its tables: 8 bytes a row and 8 a column for the
/// matching and the sums, and an eighth of a byte each for the waiting ones. Work: each entry is
/// looked at five times at most, twice where sums are added up, twice where sums are lowered and
/// once where a column with more neighbours is looked for, and a row or column goes in and out of a
/// set once at most, unless its list has 2^30 / unit entries or more. A list of 2^31 / unit entries
/// or more is also looked through each time that its sum looks like that of one neighbour, which it
/// may though it has more or none.
pub fn start(alloc: Global, pattern: &Pattern) -> Result<Matching, OutOfMemory>
    ensures start { IfOk result (λ m. IsStart pattern.now m.pairs) }
    ensures matching { IfOk result (IsMatchingOf pattern.now) }
    ensures maximal { IfOk result (λ m. (r c : ℕ) → ¬ IsFree pattern.now m.pairs r c) }
{
    let sides = FromRows { pattern };
    let mut rest = Rest::new(alloc, &sides)?;
    while let Some((row, col)) = rest.choose(&sides) {
        rest.take(&sides, row, col);
    }
    let matching = rest.matching;
    matching.is_matching();
    Ok(matching)
}
