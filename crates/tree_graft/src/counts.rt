//! How many rows and columns there are of each kind by which a phase chooses.

ghost use Rattle.bip_defs.specs.Forest.{IsSettled};
ghost use Rattle.tree_graft.specs.Counts.{IsCountOf, IsFreed, IsKept};
ghost use Rattle.tree_graft.specs.PhaseSearch.{IsUnclaimed};

use forest_core::Forest;

/// How many rows are not claimed.
pub fn unclaimed_count(forest: &Forest) -> u32
    ensures { IsCountOf (IsUnclaimed forest.now) result }
{
    forest.pattern().rows() - forest.claims().len() as u32
}

/// How many rows the exchange of the paths frees: those that are claimed in trees with a leaf.
///
/// Work: one look for each claim.
pub fn freed_count(forest: &Forest) -> u32
    ensures { IsCountOf (IsFreed forest.now) result }
{
    forest.pattern().is_pattern();
    let mut freed: u32 = 0;
    for root in forest.claim_roots() {
        if forest.has_leaf(*root) {
            freed += 1;
        }
    }
    freed
}

/// How many columns are kept in trees without a leaf, where so many rows are freed: the roots
/// without a leaf, and the base mates of the rows that are claimed and not freed.
pub fn kept_count(forest: &Forest, freed: u32) -> u32
    requires settled { IsSettled forest.now }
    requires freed { IsCountOf (IsFreed forest.now) freed }
    ensures { IsCountOf (IsKept forest.now) result }
{
    forest.pattern().is_pattern();
    let claimed = forest.claims().len() as u32;
    let roots = forest.pattern().cols() - forest.base().size() - forest.leaves().len() as u32;
    roots + (claimed - freed)
}
