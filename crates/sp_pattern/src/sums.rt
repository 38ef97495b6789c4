//! The sums of the values that a file gives for a pattern's entries.

ghost use Rattle.std.specs.Prelude.{◌≡◌, ◌+ℤ◌, FitsSigned, pos, replicate, IfOk};
ghost use Rattle.std.specs.Int.{w128};
ghost use Rattle.sp_ids.specs.declared.triples.Field.TheVariants.{Integer};
ghost use Rattle.sp_pattern.specs.Weights.{AreSums};

use crate::Pattern;
use sp_ids::{OutOfMemory, Triples};
use std::alloc::Global;

/// The sums of the values of the entries' places, in the order of the pattern's columns: 0 where
/// the file gives none. It takes 16 bytes an entry. Work: one look for a file that gives the entries
/// in this order, and else a search in its column for each.
pub fn sums_of(
    alloc: Global,
    pattern: &Pattern,
    triples: &Triples,
) -> Result<Vec<i128>, OutOfMemory>
    requires { triples.now.field ≡ Integer }
    ensures { IfOk result (λ s. AreSums triples.now.items pattern.now s.items) }
{
    pattern.is_pattern();
    let mut sums = zeros(alloc, pattern.entries())?;
    // Most files give one entry behind the other.
    let mut next = 0;
    for k in 0..triples.len() {
        let (row, col) = triples.place(k);
        match pattern.find_near(next, row, col) {
            Some(at) => {
                sums[at] = added(sums[at], triples.value(k));
                next = at + 1;
            }
            None => {}
        }
    }
    Ok(sums)
}

/// A sum with one value more.
pub fn added(sum: i128, value: i64) -> i128
    requires { FitsSigned w128 (sum +ℤ value) }
    ensures { result ≡ sum +ℤ value }
{
    sum + value as i128
}

/// As many zeros.
pub fn zeros(alloc: Global, count: u32) -> Result<Vec<i128>, OutOfMemory>
    ensures { IfOk result (λ s. s.items ≡ replicate count (pos 0)) }
{
    Ok(vec![in alloc; 0; count as usize]?)
}
