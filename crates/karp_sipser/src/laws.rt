//! What the first two rules of the start lose: nothing.

ghost use Rattle.std.specs.Prelude.{ℕ, ◌≤◌, ◌∷◌, List, length};
ghost use Rattle.bip_defs.specs.Matrix.{Matrix, Place};
ghost use Rattle.bip_defs.specs.Start.{IsFree, IsOnly};
ghost use Rattle.karp_sipser.specs.Extensions.{Extends};

/// Where a column has exactly one unmatched neighbour, or a row has, the pair of the two is in some
/// longest of the matchings that have the pairs so far: for each of these there is one with the
/// pair that is at least as long.
///
/// A law, with an empty body (Karp and Sipser 1981).
pub fn only_neighbours_lose_nothing()
    ensures col { (a : Matrix) (pairs m : List Place) (r c : ℕ) → IsOnly (λ s. IsFree a pairs s c) r
        → Extends a pairs m → (n : List Place) × Extends a ((r, c) ∷ pairs) n
        × (length m ≤ length n) }
    ensures row { (a : Matrix) (pairs m : List Place) (r c : ℕ) → IsOnly (λ d. IsFree a pairs r d) c
        → Extends a pairs m → (n : List Place) × Extends a ((r, c) ∷ pairs) n
        × (length m ≤ length n) }
{}
