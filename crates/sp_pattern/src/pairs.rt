//! Lists of pairs of an outer and an inner number.

ghost use Rattle.std.specs.Prelude.{◌≡◌, ◌<◌, ◌↔◌, IsTrue, ℕ, List, length, map};
ghost use Rattle.bip_defs.specs.Matching.{transposed_places};
ghost use Rattle.sp_pattern.specs.Mirror.{lower, lowered};
ghost use Rattle.sp_pattern.specs.Pairs.{AreSorted, IsAtMost, in_buckets, pair_at, with_zero};

use sp_ids::{Col, Id, Row};

/// A list of pairs.
pub trait Pairs: Drop {
    ghost pairs: { Self → List (ℕ × ℕ) };

    fn len(&self) -> usize
        ensures { result ≡ length (pairs self.now) };

    fn at(&self, k: usize) -> (u32, u32)
        requires { k < length (pairs self.now) }
        ensures { result ≡ pair_at (pairs self.now) k };
}

/// Places, with the column as the outer number.
#[derive(Clone, Copy)]
pub struct ByCol<'a> {
    pub places: &'a [(Row, Col)],
}

impl Pairs for ByCol<'_> {
    ghost pairs = { λ s. transposed_places s.places.now };

    fn len(&self) -> usize {
        self.places.len()
    }

    fn at(&self, k: usize) -> (u32, u32) {
        let (row, col) = self.places[k];
        (col.0, row.0)
    }
}

/// Places, with the row as the outer number.
#[derive(Clone, Copy)]
pub struct ByRow<'a> {
    pub places: &'a [(Row, Col)],
}

impl Pairs for ByRow<'_> {
    ghost pairs = { λ s. s.places.now };

    fn len(&self) -> usize {
        self.places.len()
    }

    fn at(&self, k: usize) -> (u32, u32) {
        let (row, col) = self.places[k];
        (row.0, col.0)
    }
}

/// The places on and below the diagonal that the places or their mirror images are, with the column
/// as the outer number.
#[derive(Clone, Copy)]
pub struct LowerByCol<'a> {
    pub places: &'a [(Row, Col)],
}

impl Pairs for LowerByCol<'_> {
    ghost pairs = { λ s. transposed_places (lowered s.places.now) };

    fn len(&self) -> usize {
        self.places.len()
    }

    fn at(&self, k: usize) -> (u32, u32) {
        let (row, col) = self.places[k];
        lower_by_col(row, col)
    }
}

/// Numbers, each as the inner one of a pair.
#[derive(Clone, Copy)]
pub struct Inners<'a, I> {
    pub flat: &'a [I],
}

impl<I: Id> Pairs for Inners<'_, I> {
    ghost pairs = { λ s. with_zero (map I.number s.flat.now) };

    fn len(&self) -> usize {
        self.flat.len()
    }

    fn at(&self, k: usize) -> (u32, u32) {
        (0, self.flat[k].number())
    }
}

/// How many inner numbers make a bucket.
pub const BUCKET: u32 = 4096;

/// The same pairs, with the bucket of the inner number in its place.
#[derive(Clone, Copy)]
pub struct Buckets<'a, P> {
    pub pairs: &'a P,
}

impl<P: Pairs> Pairs for Buckets<'_, P> {
    ghost pairs = { λ s. in_buckets (P.pairs s.pairs.now) };

    fn len(&self) -> usize {
        self.pairs.len()
    }

    fn at(&self, k: usize) -> (u32, u32) {
        let (outer, inner) = self.pairs.at(k);
        (outer, inner / BUCKET)
    }
}

/// Pairs of their own.
#[derive(Drop)]
pub struct Split {
    pub pairs: Vec<(u32, u32)>,
}

impl Pairs for Split {
    ghost pairs = { λ s. s.pairs.items };

    fn len(&self) -> usize {
        self.pairs.len()
    }

    fn at(&self, k: usize) -> (u32, u32) {
        self.pairs[k]
    }
}

/// The column and the row of a place or of its mirror image, whichever is not above the diagonal.
pub fn lower_by_col(row: Row, col: Col) -> (u32, u32)
    ensures { result ≡ ((lower (row, col)).1, (lower (row, col)).0) }
{
    if row.0 < col.0 {
        (row.0, col.0)
    } else {
        (col.0, row.0)
    }
}

/// Whether a pair is not greater than another, by the outer number and then by the inner one.
pub fn is_at_most(pair: (u32, u32), other: (u32, u32)) -> bool
    ensures { IsTrue result ↔ IsAtMost pair other }
{
    pair.0 < other.0 || pair.0 == other.0 && pair.1 <= other.1
}

/// Whether no pair is greater than the next.
pub fn are_sorted<P: Pairs>(pairs: &P) -> bool
    ensures { IsTrue result ↔ AreSorted (P.pairs pairs.now) }
{
    let len = pairs.len();
    if len == 0 {
        return true;
    }
    let mut last = pairs.at(0);
    for k in 1..len {
        let next = pairs.at(k);
        if !is_at_most(last, next) {
            return false;
        }
        last = next;
    }
    true
}
