//! The paths of roots.

ghost use Rattle.std.specs.Prelude.{◌≡◌, ℕ, ◌≤◌, List, None, length, vec_capacity};
ghost use Rattle.bip_defs.specs.Paths.{IsAugmenting};
ghost use Rattle.forest_core.specs.Adopted.{CanExchange};
ghost use Rattle.forest_core.specs.Paths.{ArePathPairs, CanTrace, HasHolder, IsColOfTrees, IsExchanged};
ghost use Rattle.bip_defs.specs.Forest.{State};

use crate::adopted::{Adopted, replace_base};
use crate::claim_table::ClaimTable;
use crate::table::Table;
use bip_graph::{Matching, Parents, trace_back};
use sp_ids::{Col, Id, Row};

// The trees of the claims, over a matching in which the paths of some roots are exchanged.
#[derive(Clone, Copy)]
struct Trees<'t> {
    matching: &'t Matching,
    claimed: &'t ClaimTable,
}

impl Parents for Trees<'_> {
    type Reached = Col;

    ghost pairs = { λ t. t.matching.now.pairs };

    ghost reached = { λ t. HasHolder t.claimed.now.holders };

    ghost kept = { λ t c. IsColOfTrees t.matching.now t.claimed.now.holders c };

    ghost column = { λ c. c };

    fn col(&self, at: Col) -> Col {
        at
    }

    fn parent(&self, at: Col) -> Option<(Row, Col)> {
        match self.matching.row_of(at) {
            Some(row) => Some((row, self.claimed.holder_at(row))),
            None => None,
        }
    }
}

// Follows a root's path up from its leaf, and leaves it in order from the root.
fn trace(matching: &Matching, claimed: &ClaimTable, leaf: Row, path: &mut Vec<(Row, Col)>)
    requires room { length claimed.now.holders ≤ vec_capacity path.old }
    requires forest { (s : State) × (xs : List ℕ) × (x : ℕ)
        × CanTrace s xs x matching.now claimed.now.holders leaf }
    ensures augments { IsAugmenting matching.now.pairs path.new.items }
    ensures pairs { (s : State) (xs : List ℕ) (x : ℕ)
        → CanTrace s xs x matching.now claimed.now.holders leaf → ArePathPairs s x path.new.items }
    ensures room { length claimed.now.holders ≤ vec_capacity path.new }
{
    let trees = Trees { matching, claimed };
    trace_back(&trees, leaf, claimed.holder_at(leaf), path);
}

/// The roots whose paths belong to the current matching, the leaf of each, and the claims through
/// which its path runs.
#[derive(Clone, Copy)]
pub struct Flipped<'t> {
    pub roots: &'t [Col],
    pub leaf_of: &'t Table,
    pub claimed: &'t ClaimTable,
}

/// Exchanges the paths of flipped roots, but of those whose paths are exchanged in an adopted
/// matching, which then stands in the base's place.
pub fn exchange(
    base: &mut Matching,
    adopted: &mut Option<Adopted>,
    flipped: &Flipped,
    path: &mut Vec<(Row, Col)>,
)
    requires room { length flipped.now.claimed.now.holders ≤ vec_capacity path.old }
    requires forest { (s : State) × CanExchange s base.old adopted.old
        flipped.now.claimed.now.holders flipped.now.leaf_of.now flipped.now.roots.now }
    ensures exchanged { (s : State) → CanExchange s base.old adopted.old
        flipped.now.claimed.now.holders flipped.now.leaf_of.now flipped.now.roots.now
        → IsExchanged s flipped.now.roots.now base.new }
    ensures adopted { adopted.new ≡ None }
    ensures room { length flipped.now.claimed.now.holders ≤ vec_capacity path.new }
{
    let Flipped {
        roots,
        leaf_of,
        claimed,
    } = *flipped;
    let done = replace_base(base, adopted);
    for i in done..roots.len() {
        let root = roots[i];
        trace(base, claimed, Row(leaf_of.at(root.number())), path);
        base.flip(path.as_slice());
    }
}
