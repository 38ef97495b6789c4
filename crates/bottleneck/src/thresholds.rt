//! Perfect matchings of the entries above one weight after another.

ghost use Rattle.std.specs.Prelude.{◌≡◌, length, IfOk, IfSome};
ghost use Rattle.bip_defs.specs.Matrix.{cols};
ghost use Rattle.bip_graph.specs.Matching.{IsMatchingOf};
ghost use Rattle.bottleneck.specs.Heavier.{IsShort};
ghost use Rattle.sp_pattern.specs.Weights.{weight_at};

use crate::heavier::{Heavier, heavier_matching};
use crate::pairs::least_of;
use bip_graph::Matching;
use sp_ids::{Col, OutOfMemory};
use sp_pattern::{Neighbours, Weights};
use std::alloc::Global;

/// A perfect matching of greater least weight, where there is one: the weights from the least one
/// of this matching up to the bound, which no least weight passes, are tried by halves, and each
/// matching begins with the pairs of the last perfect one that are left. With it the entries above
/// the last weight of those that were tried in vain, where one was.
pub fn raised(
    alloc: Global,
    weights: &Weights,
    matching: Matching,
    bound: u64,
) -> Result<(Matching, Option<Heavier>), OutOfMemory>
    requires matching { IsMatchingOf weights.now.matrix matching }
    requires full { length matching.pairs ≡ cols weights.now.matrix }
    ensures matching { IfOk result (λ o. IsMatchingOf weights.now.matrix o.0) }
    ensures full { IfOk result (λ o. length o.0.pairs ≡ cols weights.now.matrix) }
    ensures short { IfOk result (λ o. IfSome o.1 (IsShort weights.now)) }
{
    let pairs = matching.pairs(alloc)?;
    let least = least_of(weights, pairs.as_slice(), 0);
    drop(pairs);
    let thresholds = weights_between(alloc, weights, least, bound)?;
    let mut matching = matching;
    let mut short = None;
    let mut low = 0;
    let mut high = thresholds.len();
    while low < high {
        let middle = low + (high - low) / 2;
        let above = thresholds[middle];
        let heavier = heavier_matching(alloc, weights, &matching, above)?;
        if heavier.maximum.size() < weights.cols() {
            short = Some(heavier);
            high = middle;
            continue;
        }
        matching = heavier.maximum;
        low = middle + 1;
    }
    Ok((matching, short))
}

// The weights of entries from `low` up to below `high`, rising, each once. They are thresholds to
// try, so nothing is said of them.
fn weights_between(
    alloc: Global,
    weights: &Weights,
    low: u64,
    high: u64,
) -> Result<Vec<u64>, OutOfMemory> {
    let mut between = Vec::new(alloc);
    for col in 0..weights.cols() {
        for weight in weights.weights_of(Col(col)) {
            if low <= *weight && *weight < high {
                between.push(*weight)?;
            }
        }
    }
    between.as_mut_slice().sort_unstable();
    between.dedup();
    Ok(between)
}
