//! How great a least weight can be at most, and a matching of entries that reach it.

ghost use Rattle.std.specs.Prelude.{◌≡◌, ◌<◌, IfOk, length};
ghost use Rattle.bip_defs.specs.Matrix.{cols};
ghost use Rattle.bip_graph.specs.Matching.{IsMatchingOf};
ghost use Rattle.bottleneck.specs.Heavier.{WeighAtLeast};
ghost use Rattle.sp_pattern.specs.Weights.{weight_at};

use bip_graph::Matching;
use breadth_first_match::complete;
use karp_sipser::start;
use sp_ids::{Col, OutOfMemory};
use sp_pattern::{Neighbours, Weights};
use std::alloc::Global;

/// The least of the greatest weights of the rows and of the columns, and 0 where a row or a column
/// has no entry. Every perfect matching has a pair in each of them, so none has a greater least
/// weight. It is a threshold to begin with, so nothing is said of it.
///
/// It takes 8 bytes a row. Work: one look at each entry.
pub fn bound(alloc: Global, weights: &Weights) -> Result<u64, OutOfMemory> {
    let mut of_rows = vec![in alloc; 0u64; weights.rows() as usize]?;
    let mut least = u64::MAX;
    for col in 0..weights.cols() {
        let greatest = raise_rows(weights, of_rows.as_mut_slice(), Col(col));
        if greatest < least {
            least = greatest;
        }
    }
    for greatest in of_rows.as_slice() {
        if *greatest < least {
            least = *greatest;
        }
    }
    Ok(least)
}

// Raises the weights of the rows to those of a column's entries. Gives the greatest of these.
fn raise_rows(weights: &Weights, of_rows: &mut [u64], col: Col) -> u64
    requires rows { length of_rows.old ≡ weights.now.matrix.rows }
    requires col { col < cols weights.now.matrix }
    ensures { length of_rows.new ≡ length of_rows.old }
{
    let rows = weights.rows_of(col);
    let weights = weights.weights_of(col);
    let mut greatest = 0;
    for k in 0..rows.len() {
        let weight = weights[k];
        let row = rows[k];
        let at = row.0 as usize;
        if weight > greatest {
            greatest = weight;
        }
        if weight > of_rows[at] {
            of_rows[at] = weight;
        }
    }
    greatest
}

/// A matching of entries that weigh at least this much, as many as there can be.
///
/// Returns `OutOfMemory` if it cannot allocate the pattern of these entries, or what a maximum
/// matching of it takes. Work: that of both.
pub fn bounded_matching(
    alloc: Global,
    weights: &Weights,
    bound: u64,
) -> Result<Matching, OutOfMemory>
    ensures matching { IfOk result (IsMatchingOf weights.now.matrix) }
    ensures bound { IfOk result (λ m. WeighAtLeast (weight_at weights.now) m.pairs bound) }
{
    if bound == 0 {
        return start(alloc, weights.pattern());
    }
    let heavy = weights.above(alloc, bound - 1)?;
    let started = start(alloc, &heavy)?;
    let matching = complete(alloc, &heavy, started)?;
    Ok(matching)
}
