//! What columns with few neighbours of great weight show of every perfect matching.

ghost use Rattle.std.specs.Prelude.{◌↔◌, ◌<◌, ◌≤◌, ◌≡◌, ℕ, Bool, List, length, true};
ghost use Rattle.bip_defs.specs.Bottleneck.{IsFull, above, restricted};
ghost use Rattle.bip_defs.specs.Lists.{Among, IsRising};
ghost use Rattle.bip_defs.specs.Matrix.{IsEntry, Matrix, Place, cols, neighbours};

/// Where columns are more than their neighbours above a weight, every perfect matching has a pair
/// of at most that weight.
///
/// Those columns cannot all be matched above the weight (Hall 1935).
pub fn few_neighbours_bound_the_least_weight()
    ensures { (a : Matrix) (weight : ℕ → ℕ → ℕ) (least : ℕ) (w : List ℕ) (m : List Place)
        → IsRising w → ((c : ℕ) → Among c w → c < cols a)
        → length (neighbours (above a weight least) w) < length w → IsFull a m
        → (r : ℕ) × (c : ℕ) × Among (r, c) m × (weight r c ≤ least) }
{}

/// The entries of a restricted matrix are those that pass; those above a weight have a greater one.
pub fn restricted_entries()
    ensures passing { (a : Matrix) (passes : ℕ → ℕ → Bool) (r c : ℕ)
        → IsEntry (restricted a passes) r c ↔ (IsEntry a r c × (passes r c ≡ true)) }
    ensures above { (a : Matrix) (weight : ℕ → ℕ → ℕ) (least r c : ℕ)
        → IsEntry (above a weight least) r c ↔ (IsEntry a r c × (least < weight r c)) }
{}
