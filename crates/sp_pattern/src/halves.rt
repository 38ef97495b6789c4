//! The places on and below the diagonal of a symmetric file, compressed as they stand.

ghost use Rattle.std.specs.Prelude.{◌≡◌, ◌<◌, ◌^◌, ℕ, length, map, IfOk, IfSome};
ghost use Rattle.sp_pattern.specs.Mirror.{AreSymmetric, lower, lowered};
ghost use Rattle.sp_pattern.specs.Pairs.{AreInside, IsOrderOf};

use crate::compress::fill_starts;
use crate::mirror::behind_mirror;
use crate::pairs::{is_at_most, lower_by_col};
use sp_ids::{Col, Id, OutOfMemory, Row};
use std::alloc::Global;

/// Whether the half stands by columns or by rows.
pub trait Half {
    /// The pair of a place that is not above the diagonal.
    ghost pair: { ℕ × ℕ → ℕ × ℕ };

    /// The pair of a place or of its mirror image, whichever is not above the diagonal.
    fn pair_of(row: Row, col: Col) -> (u32, u32)
        ensures { result ≡ pair (lower (row, col)) };
}

/// With the column as the outer number.
pub struct HalfByCol;

impl Half for HalfByCol {
    ghost pair = { λ p. (p.1, p.0) };

    fn pair_of(row: Row, col: Col) -> (u32, u32) {
        lower_by_col(row, col)
    }
}

/// With the row as the outer number.
pub struct HalfByRow;

impl Half for HalfByRow {
    ghost pair = { λ p. p };

    fn pair_of(row: Row, col: Col) -> (u32, u32) {
        let (outer, inner) = lower_by_col(row, col);
        (inner, outer)
    }
}

/// The pairs of the places on and below the diagonal, each of them once. None where a place off the
/// diagonal does not stand beside its mirror image, or a pair is greater than the next. Work: one
/// look at each place up to the first of which that is so, and one write for each pair that differs
/// and each outer number.
pub fn compress_half<H: Half, I: Id>(
    alloc: Global,
    places: &[(Row, Col)],
    n: u32,
) -> Result<Option<(Vec<u32>, Vec<I>)>, OutOfMemory>
    requires inside { AreInside n n (map H.pair (lowered places.now)) }
    requires few { length places.now < 2 ^ 32 }
    ensures mirrored { IfOk result (λ half. IfSome half (λ o. AreSymmetric places.now)) }
    ensures order { IfOk result (λ half. IfSome half (λ o.
        IsOrderOf n n (map H.pair (lowered places.now)) o.0.items (map I.number o.1.items))) }
{
    let len = places.len();
    let mut starts = Vec::with_capacity(alloc, n as usize + 1)?;
    let mut flat = Vec::with_capacity(alloc, len)?;
    let mut last = (0, 0);
    let mut k = 0;
    while k < len {
        let (row, col) = places[k];
        let pair = H::pair_of(row, col);
        if !is_at_most(last, pair) {
            return Ok(None);
        }
        let Some(next) = behind_mirror(places, k) else {
            return Ok(None);
        };
        fill_starts(&mut starts, pair.0, flat.len() as u32)?;
        if k == 0 || pair != last {
            flat.push(I::of(pair.1))?;
            last = pair;
        }
        k = next;
    }
    fill_starts(&mut starts, n, flat.len() as u32)?;
    Ok(Some((starts, flat)))
}
