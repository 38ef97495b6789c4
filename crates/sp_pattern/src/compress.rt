//! Pairs in order, compressed: a start for each outer number, and one flat list of inner numbers.

ghost use Rattle.std.specs.Prelude.{◌≡◌, ◌+◌, ◌<◌, ◌≤◌, ◌^◌, ℕ, List, length, map, IfOk, OnOk};
ghost use Rattle.sp_pattern.specs.Pairs.{AreInside, AreSorted, IsCompressed, IsOrderOf, Pair};

use crate::pairs::Pairs;
use sp_ids::{Id, OutOfMemory};
use std::alloc::Global;

/// Writes `end` as the start of each outer number up to this one that has none yet.
pub fn fill_starts(starts: &mut Vec<u32>, outer: u32, end: u32) -> Result<(), OutOfMemory>
    requires { length starts.old.items ≤ outer + 1 }
    ensures opened { OnOk result (length starts.new.items ≡ outer + 1) }
    ensures compressed { OnOk result ((ds : List Pair) (flat : List ℕ) → length flat ≡ end
        → IsCompressed ds starts.old.items flat → IsCompressed ds starts.new.items flat) }
{
    while starts.len() <= outer as usize {
        starts.push(end)?;
    }
    Ok(())
}

/// The pairs, each of them once. Work: one look at each pair, and one write for each that differs
/// and each outer number.
pub fn compress<P: Pairs, I: Id>(
    alloc: Global,
    pairs: &P,
    outer: u32,
    inner: u32,
) -> Result<(Vec<u32>, Vec<I>), OutOfMemory>
    requires sorted { AreSorted (P.pairs pairs.now) }
    requires inside { AreInside outer inner (P.pairs pairs.now) }
    requires few { length (P.pairs pairs.now) < 2 ^ 32 }
    ensures { IfOk result (λ o.
        IsOrderOf outer inner (P.pairs pairs.now) o.0.items (map I.number o.1.items)) }
{
    let len = pairs.len();
    let mut starts = Vec::with_capacity(alloc, outer as usize + 1)?;
    let mut flat = Vec::with_capacity(alloc, len)?;
    let mut last = None;
    for k in 0..len {
        let pair = pairs.at(k);
        fill_starts(&mut starts, pair.0, flat.len() as u32)?;
        if last != Some(pair) {
            flat.push(I::of(pair.1))?;
            last = Some(pair);
        }
    }
    fill_starts(&mut starts, outer, flat.len() as u32)?;
    Ok((starts, flat))
}
