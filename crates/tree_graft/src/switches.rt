//! The choices that a phase makes by counts. They change no answer.

ghost use Rattle.std.specs.Prelude.{ℕ, ◌↔◌, ◌<◌, ◌*◌, ◌^◌, length, IsTrue};
ghost use Rattle.bip_defs.specs.Forest.{IsSettled};
ghost use Rattle.tree_graft.specs.Counts.{FreesFew, IsCountOf};
ghost use Rattle.tree_graft.specs.PhaseSearch.{IsUnclaimed};

use crate::counts::{freed_count, kept_count, unclaimed_count};
use crate::sizes::SearchSizes;
use forest_core::Forest;
use sp_ids::Col;
use sp_pattern::Pattern;

/// Whether a level goes down from the frontier, and not up from the unclaimed rows: exactly where
/// there are more than five unclaimed rows for each column of the frontier. It takes no memory.
pub fn goes_top_down(frontier: u32, unclaimed: u32) -> bool
    ensures { IsTrue result ↔ (5 * frontier < unclaimed) }
{
    5 * u64::from(frontier) < u64::from(unclaimed)
}

/// Whether the trees without a leaf are kept for the next phase: exactly where fewer than five rows
/// are freed for each column that is kept. It takes no memory.
pub fn keeps_trees(kept: u32, freed: u32) -> bool
    ensures { IsTrue result ↔ (freed < 5 * kept) }
{
    u64::from(freed) < 5 * u64::from(kept)
}

/// Whether the next level goes down from this frontier: as `goes_top_down` says of the numbers of
/// its columns and of the rows that are not claimed.
pub fn goes_down_from(forest: &Forest, frontier: &[Col]) -> bool
    requires { length frontier.now < 2 ^ 32 }
    ensures { (unclaimed : ℕ) → IsCountOf (IsUnclaimed forest.now) unclaimed
        → IsTrue result ↔ (5 * length frontier.now < unclaimed) }
{
    goes_top_down(frontier.len() as u32, unclaimed_count(forest))
}

/// Whether the trees without a leaf are to be kept: as `keeps_trees` says of the numbers of the
/// columns in them and of the rows that the other trees free.
pub fn trees_stay(forest: &Forest) -> bool
    requires { IsSettled forest.now }
    ensures { IsTrue result ↔ FreesFew forest.now }
{
    let freed = freed_count(forest);
    keeps_trees(kept_count(forest, freed), freed)
}

/// Whether a pattern has more rows and columns together than serial phases search to the end: the
/// boards of a phase by workers cost more than it saves where they are few.
pub fn is_large(pattern: &Pattern, sizes: &SearchSizes) -> bool {
    u64::from(pattern.rows()) + u64::from(pattern.cols()) > sizes.serial_to_the_end
}
