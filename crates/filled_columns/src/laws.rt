//! Laws on a matrix that is filled with pairs.

ghost use Rattle.std.specs.Prelude.{◌≡◌, ◌↔◌, ◌⊎◌, ◌<◌, ℕ, List};
ghost use Rattle.bip_defs.specs.Lists.{Among, Lists};
ghost use Rattle.bip_defs.specs.Matrix.{AreEntries, IsEntry, Matrix, Place, cols, column};
ghost use Rattle.bip_defs.specs.Parts.{ArePartsOf};
ghost use Rattle.bip_graph.specs.Matching.{IsMaximumOf, Pairing};
ghost use Rattle.filled_columns.specs.Filled.{IsFullPairing, all_square, filled};

/// A filled matrix has as many rows and columns, the entries that were there, the places that it is
/// filled with, and no others.
pub fn filled_entries()
    ensures rows { (a : Matrix) (m : List Place) → Matrix.rows (filled a m) ≡ Matrix.rows a }
    ensures cols_are { (a : Matrix) (m : List Place) → cols (filled a m) ≡ cols a }
    ensures entries { (a : Matrix) (m : List Place)
        → ((r c : ℕ) → Among (r, c) m → (r < Matrix.rows a) × (c < cols a))
        → (r c : ℕ) → IsEntry (filled a m) r c ↔ (Among (r, c) m ⊎ IsEntry a r c) }
{}

/// Pairs that have each row and each column of a square matrix once are a maximum matching of the
/// matrix filled with them, which has all rows and columns in its square part.
pub fn filled_matrix_is_full()
    ensures maximum { (a : Matrix) (m : Pairing) → IsFullPairing a m
        → IsMaximumOf (filled a m.pairs) m }
    ensures parts { (a : Matrix) (m : Pairing) → IsFullPairing a m
        → ArePartsOf (filled a m.pairs) (all_square (Matrix.rows a)) }
{}

/// A matrix whose columns list their rows rising is the same after it is filled with entries of
/// its own.
pub fn filled_with_entries()
    ensures { (a : Matrix) (m : List Place)
        → ((c : ℕ) → Lists (λ r. IsEntry a r c) (column a c))
        → AreEntries a m → filled a m ≡ a }
{}
