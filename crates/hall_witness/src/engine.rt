//! The plain engine: one augmenting path after another.

ghost use Rattle.std.specs.Prelude.{IfOk};
ghost use Rattle.bip_defs.specs.Witness.{IsWitness};
ghost use Rattle.bip_graph.specs.Matching.{IsMaximumOf};

use crate::answer::Reach;
use crate::witness::reach;
use bip_graph::Matching;
use sp_ids::{Col, OutOfMemory};
use sp_pattern::Pattern;
use std::alloc::Global;

/// A maximum matching, from none, by one augmenting path after another, and its witness.
///
/// Returns `OutOfMemory` if it cannot allocate the matching, 9 bytes a column and a path or the
/// witness. Work: one search for each pair and one that shows that it is maximum, each of which
/// looks at each column and each entry once at most (Berge 1957).
pub fn plain(alloc: Global, pattern: &Pattern) -> Result<(Matching, Vec<Col>), OutOfMemory>
    ensures witness { IfOk result (λ o. IsWitness pattern.now o.0.pairs o.1.items) }
    ensures maximum { IfOk result (λ o. IsMaximumOf pattern.now o.0) }
{
    let mut matching = Matching::empty(alloc, pattern.rows(), pattern.cols())?;
    loop {
        match reach(alloc, pattern, &matching)? {
            Reach::Path(path) => matching.flip(path.as_slice()),
            Reach::Witness(columns) => return Ok((matching, columns)),
        }
    }
}
