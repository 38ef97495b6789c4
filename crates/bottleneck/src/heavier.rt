//! Maximum matchings of the entries above a weight.

ghost use Rattle.std.specs.Prelude.{◌≡◌, ◌⊎◌, IfOk};
ghost use Rattle.bip_defs.specs.Lists.{Among, AreDistinct};
ghost use Rattle.bip_defs.specs.Matching.{cols_of, rows_of};
ghost use Rattle.bip_defs.specs.Matrix.{Place, cols};
ghost use Rattle.bip_graph.specs.Matching.{IsMatchingOf};
ghost use Rattle.bottleneck.specs.Heavier.{IsHeavier};
ghost use Rattle.sp_pattern.specs.Weights.{weight_at};

use bip_graph::Matching;
use breadth_first_match::complete;
use sp_ids::{Col, OutOfMemory, Row};
use sp_pattern::{Pattern, Weights};
use std::alloc::Global;

/// The entries above a weight, with a maximum matching of them.
#[derive(Drop)]
pub struct Heavier {
    pub above: u64,
    pub entries: Pattern,
    pub maximum: Matching,
}

/// The entries above a weight, and a maximum matching of them, which is made from the pairs of
/// another matching that are left.
pub fn heavier_matching(
    alloc: Global,
    weights: &Weights,
    matching: &Matching,
    above: u64,
) -> Result<Heavier, OutOfMemory>
    requires matching { IsMatchingOf weights.now.matrix matching.now }
    ensures heavier { IfOk result (IsHeavier weights.now) }
    ensures above { IfOk result (λ h. h.above ≡ above) }
{
    let entries = weights.above(alloc, above)?;
    let left = pairs_left(alloc, &entries, matching)?;
    let maximum = complete(alloc, &entries, left)?;
    Ok(Heavier {
        above,
        entries,
        maximum,
    })
}

// The pairs of a matching that are entries of the pattern.
fn pairs_left(
    alloc: Global,
    pattern: &Pattern,
    matching: &Matching,
) -> Result<Matching, OutOfMemory>
    requires rows { matching.now.rows ≡ pattern.now.rows }
    requires cols { matching.now.cols ≡ cols pattern.now }
    requires distinct { AreDistinct (rows_of matching.now.pairs) }
    ensures { IfOk result (IsMatchingOf pattern.now) }
{
    let mut left = Matching::empty(alloc, pattern.rows(), pattern.cols())?;
    for col in 0..pattern.cols() {
        match matching.row_of(Col(col)) {
            Some(row) => keep(pattern, &mut left, row, Col(col)),
            None => {}
        }
    }
    Ok(left)
}

// Makes a pair of an entry.
fn keep(pattern: &Pattern, left: &mut Matching, row: Row, col: Col)
    requires matching { IsMatchingOf pattern.now left.old }
    requires row_free { ¬ Among row (rows_of left.old.pairs) }
    requires col_free { ¬ Among col (cols_of left.old.pairs) }
    ensures matching { IsMatchingOf pattern.now left.new }
    ensures added { (p : Place) → Among p left.new.pairs
        → (p ≡ (row, col)) ⊎ Among p left.old.pairs }
{
    if pattern.has(row, col) {
        left.pair(row, col);
        left.is_matching();
    }
}
