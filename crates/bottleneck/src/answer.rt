//! The three cases.

ghost use Rattle.std.specs.Prelude.{◌≡◌, ◌<◌, ◌⊎◌, length, IfOk, IfSome};
ghost use Rattle.bip_defs.specs.Bottleneck.{IsFull, IsLeastWeight};
ghost use Rattle.bip_defs.specs.Lists.{IsRising};
ghost use Rattle.bip_defs.specs.Matching.{cols_of};
ghost use Rattle.bip_defs.specs.Matrix.{cols};
ghost use Rattle.bip_graph.specs.Matching.{IsMatchingOf, IsMaximumOf};
ghost use Rattle.bottleneck.specs.Answers.{IsBottleneck};
ghost use Rattle.bottleneck.specs.Heavier.{IsHeavier, IsShort, WeighAtLeast};
ghost use Rattle.sp_pattern.specs.Weights.{weight_at};

use crate::bound::{bound, bounded_matching};
use crate::heavier::{Heavier, heavier_matching};
use crate::pairs::least_of;
use crate::thresholds::raised;
use bip_graph::{Bottleneck, Matching};
use breadth_first_match::complete;
use hall_witness::hall_set;
use sp_ids::{Col, OutOfMemory, Row};
use sp_pattern::{Neighbours, Pattern, Weights};
use std::alloc::Global;

/// A perfect matching whose least weight is greatest, that weight, and columns that show that no
/// perfect matching has a greater one: they are more than their neighbours above it.
///
/// The weights must be those of the pattern. `Rectangular` exactly where the matrix has not as many
/// rows as columns; `Singular` exactly where it has, and its rank is less, with the columns that
/// some maximum matching misses. Returns `OutOfMemory` if it cannot allocate 8 bytes an entry, the
/// pattern of the entries above a weight and what a maximum matching takes. Work: at most three
/// maximum matchings and one search where the first matching is best already, and else at most as
/// many more as the number of distinct weights has binary digits.
pub fn best(alloc: Global, pattern: &Pattern, weights: &Weights) -> Result<Bottleneck, OutOfMemory>
    requires { weights.now.matrix ≡ pattern.now }
    ensures { IfOk result (IsBottleneck weights.now) }
{
    if pattern.rows() != pattern.cols() {
        return Ok(Bottleneck::Rectangular);
    }
    best_of_square(alloc, weights)
}

// The same of a square matrix.
fn best_of_square(alloc: Global, weights: &Weights) -> Result<Bottleneck, OutOfMemory>
    requires { weights.now.matrix.rows ≡ cols weights.now.matrix }
    ensures { IfOk result (IsBottleneck weights.now) }
{
    let bound = bound(alloc, weights)?;
    let heavy = bounded_matching(alloc, weights, bound)?;
    if heavy.size() == weights.cols() {
        return shown(alloc, weights, heavy, bound);
    }
    let matching = complete(alloc, weights.pattern(), heavy)?;
    if matching.size() < weights.cols() {
        return singular(alloc, weights, &matching);
    }
    let (matching, short) = raised(alloc, weights, matching, bound)?;
    answered(alloc, weights, matching, short)
}

// The answer where the matrix has no perfect matching.
fn singular(
    alloc: Global,
    weights: &Weights,
    matching: &Matching,
) -> Result<Bottleneck, OutOfMemory>
    requires maximum { IsMaximumOf weights.now.matrix matching.now }
    requires square { weights.now.matrix.rows ≡ cols weights.now.matrix }
    requires short { length matching.now.pairs < cols weights.now.matrix }
    ensures { IfOk result (IsBottleneck weights.now) }
{
    let hall = hall_set(alloc, weights.pattern(), matching)?;
    Ok(Bottleneck::Singular {
        rank: matching.size(),
        hall,
    })
}

// The answer from a perfect matching, and from entries above a weight that have none: where that is
// the matching's least weight, they show that it is best.
fn answered(
    alloc: Global,
    weights: &Weights,
    matching: Matching,
    short: Option<Heavier>,
) -> Result<Bottleneck, OutOfMemory>
    requires square { weights.now.matrix.rows ≡ cols weights.now.matrix }
    requires matching { IsMatchingOf weights.now.matrix matching }
    requires full { length matching.pairs ≡ cols weights.now.matrix }
    requires short { IfSome short (IsShort weights.now) }
    ensures { IfOk result (IsBottleneck weights.now) }
{
    if let Some(heavier) = short {
        let pairs = matching.pairs(alloc)?;
        let least = least_of(weights, pairs.as_slice(), 0);
        if heavier.above == least {
            matching.is_matching();
            return with_hall_set(alloc, weights, &heavier, pairs);
        }
    }
    shown(alloc, weights, matching, 0)
}

// The answer from a perfect matching, each pair of which weighs at least `bound`: it is shown to be
// best, or one of greater least weight is found and shown to be.
fn shown(
    alloc: Global,
    weights: &Weights,
    matching: Matching,
    bound: u64,
) -> Result<Bottleneck, OutOfMemory>
    requires square { weights.now.matrix.rows ≡ cols weights.now.matrix }
    requires matching { IsMatchingOf weights.now.matrix matching }
    requires full { length matching.pairs ≡ cols weights.now.matrix }
    requires bound { WeighAtLeast (weight_at weights.now) matching.pairs bound }
    ensures { IfOk result (IsBottleneck weights.now) }
{
    let cols = weights.cols();
    let mut matching = matching;
    let mut pairs = matching.pairs(alloc)?;
    let mut least = least_of(weights, pairs.as_slice(), bound);
    loop {
        let heavier = heavier_matching(alloc, weights, &matching, least)?;
        if cols == 0 || heavier.maximum.size() < cols {
            matching.is_matching();
            return with_hall_set(alloc, weights, &heavier, pairs);
        }
        matching = heavier.maximum;
        pairs = matching.pairs(alloc)?;
        least = least_of(weights, pairs.as_slice(), 0);
    }
}

// The answer of these pairs, where the entries above their least weight have no perfect matching.
fn with_hall_set(
    alloc: Global,
    weights: &Weights,
    heavier: &Heavier,
    pairs: Vec<(Row, Col)>,
) -> Result<Bottleneck, OutOfMemory>
    requires square { weights.now.matrix.rows ≡ cols weights.now.matrix }
    requires full { IsFull weights.now.matrix pairs.items }
    requires rising { IsRising (cols_of pairs.items) }
    requires least { IsLeastWeight (weight_at weights.now) pairs.items heavier.now.above }
    requires heavier { IsHeavier weights.now heavier.now }
    requires short { (cols weights.now.matrix ≡ 0)
        ⊎ (length heavier.now.maximum.pairs < cols weights.now.matrix) }
    ensures { IfOk result (IsBottleneck weights.now) }
{
    let hall = hall_set(alloc, &heavier.entries, &heavier.maximum)?;
    Ok(Bottleneck::Best {
        pairs,
        least: heavier.above,
        hall,
    })
}
