//! What prices and full matchings show.

ghost use Rattle.std.specs.Prelude.{◌≡◌, ℤ, ◌≤◌, List};
ghost use Rattle.bip_defs.specs.Matching.{IsRank};
ghost use Rattle.bip_defs.specs.Matrix.{Matrix, Place, cols};
ghost use Rattle.bip_defs.specs.Bottleneck.{IsFull};
ghost use Rattle.integer_diagonal.specs.Prices.{AreFair, total};
ghost use Rattle.sp_pattern.specs.Weights.{Weighing};

/// Fair prices show that no diagonal is heavier.
///
/// The prices of all rows and all columns add up to the weight of the one diagonal, and to at least
/// the weight of each other: the weak duality of the assignment problem (Egervary 1931; Kuhn 1955).
pub fn fair_prices_show_heaviest()
    ensures { (w : Weighing) (m other : List Place) (u v : List ℤ) → IsFull w.matrix m
        → AreFair w m u v → IsFull w.matrix other → total w other ≤ total w m }
{}

/// A matrix with a diagonal is square, and its rank is the number of its columns.
pub fn full_matching_shows_rank()
    ensures square { (a : Matrix) (m : List Place) → IsFull a m → a.rows ≡ cols a }
    ensures rank { (a : Matrix) (m : List Place) → IsFull a m → IsRank a (cols a) }
{}
