//! The least weight of pairs.

ghost use Rattle.bip_defs.specs.Bottleneck.{IsLeastWeight};
ghost use Rattle.bip_defs.specs.Matrix.{AreEntries};
ghost use Rattle.bottleneck.specs.Heavier.{WeighAtLeast};
ghost use Rattle.sp_pattern.specs.Weights.{weight_at};

use sp_ids::{Col, Row};
use sp_pattern::Weights;

/// The least weight of these entries, each of which weighs at least `bound`; 0 where there are
/// none. Work: a search in its column for each of them, up to the first that weighs no more.
pub fn least_of(weights: &Weights, pairs: &[(Row, Col)], bound: u64) -> u64
    requires entries { AreEntries weights.now.matrix pairs.now }
    requires bound { WeighAtLeast (weight_at weights.now) pairs.now bound }
    ensures { IsLeastWeight (weight_at weights.now) pairs.now result }
{
    if pairs.len() == 0 {
        return 0;
    }
    let first = pairs[0];
    let mut least = weights.weight(first.0, first.1);
    for k in 1..pairs.len() {
        if least <= bound {
            return least;
        }
        let pair = pairs[k];
        let weight = weights.weight(pair.0, pair.1);
        if weight < least {
            least = weight;
        }
    }
    least
}
