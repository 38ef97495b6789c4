//! What stays of a forest when its base matching is renewed.

ghost use Rattle.std.specs.Prelude.{◌≡◌, ℕ, ◌<◌, [], length, take};
ghost use Rattle.bip_defs.specs.Lists.{Among, IsMarked};
ghost use Rattle.forest_core.specs.Kept.{AreClaimsIn, AreFirstRoots, kept};
ghost use Rattle.bip_defs.specs.Forest.{roots_of};
ghost use Rattle.forest_core.specs.Stored.{AreMarks};
ghost use Rattle.forest_core.specs.Tables.{AreAlike, IsTableOf, beside};

use crate::claim_table::ClaimTable;
use crate::table::Table;
use sp_ids::{Col, Id, Row};

/// Moves the claims whose root has no leaf to the front, in their order, each with its root, and
/// takes the others' rows back. How many stay.
pub fn keep(
    claims: &mut [(Row, Col)],
    roots: &mut [Col],
    claimed: &mut ClaimTable,
    leaf_of: &Table,
) -> usize
    requires { AreClaimsIn claimed.old leaf_of.now claims.old roots.old }
    ensures claims { take result claims.new ≡ kept claimed.old.roots leaf_of.now claims.old }
    ensures roots { AreFirstRoots result claimed.old.roots claims.new roots.new }
    ensures holders { IsTableOf (take result claims.new) claimed.new.holders }
    ensures same { (r c : ℕ) → Among (r, c) (take result claims.new)
        → beside claimed.new.roots r ≡ beside claimed.old.roots r }
    ensures alike { AreAlike claimed.new }
    ensures long { length claimed.new.holders ≡ length claimed.old.holders }
{
    let mut stay: usize = 0;
    for i in 0..claims.len() {
        let (claim, root) = (claims[i], roots[i]);
        if leaf_of.get(root.number()).is_some() {
            claimed.clear(claim.0);
        } else {
            claims[stay] = claim;
            roots[stay] = root;
            stay += 1;
        }
    }
    stay
}

/// Takes back all rows that are claimed.
///
/// Where more than one row in 16 is claimed the table is written anew in order: for each claim it
/// would cost more.
pub fn clear_claims(claims: &[(Row, Col)], claimed: &mut ClaimTable)
    requires rows { (r c : ℕ) → Among (r, c) claims.now → r < length claimed.old.holders }
    requires holders { IsTableOf claims.now claimed.old.holders }
    requires alike { AreAlike claimed.old }
    ensures holders { IsTableOf [] claimed.new.holders }
    ensures alike { AreAlike claimed.new }
    ensures long { length claimed.new.holders ≡ length claimed.old.holders }
{
    if claims.len() > claimed.len() / 16 {
        claimed.clear_all();
        return;
    }
    for (row, _) in claims {
        claimed.clear(*row);
    }
}

/// Takes the leaves and the marks of these roots away.
pub fn clear_leaves(leaves: &[(Col, Row)], leaf_of: &mut Table, marks: &mut [bool])
    requires cols { (x r : ℕ) → Among (x, r) leaves.now
        → (x < length leaf_of.old) × (x < length marks.old) }
    requires leaf_of { IsTableOf leaves.now leaf_of.old }
    requires marks { (x : ℕ) → IsMarked marks.old x → Among x (roots_of leaves.now) }
    ensures leaf_of { IsTableOf [] leaf_of.new }
    ensures marks { AreMarks [] marks.new }
    ensures long { length leaf_of.new ≡ length leaf_of.old }
{
    for (root, _) in leaves {
        leaf_of.clear(root.number());
        marks[root.number() as usize] = false;
    }
}
