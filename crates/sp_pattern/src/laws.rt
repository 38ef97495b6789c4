//! Facts for proofs, at no cost.

ghost use Rattle.std.specs.Prelude.{◌↔◌, ◌-◌, ◌<◌, ℕ, List, length};
ghost use Rattle.bip_defs.specs.Lists.{Among};
ghost use Rattle.bip_defs.specs.Matrix.{HasPlaces, IsEntry};
ghost use Rattle.bip_defs.specs.Pieces.{piece};
ghost use Rattle.sp_pattern.specs.Columns.{AreColumns, matrix_of, places_of};

/// The matrix of compressed columns has an entry at each place that they give and at no other, and
/// so it is the matrix of every file with the same places: no two matrices have the same.
pub fn columns_give_their_places()
    ensures places { (rows : ℕ) (starts ids : List ℕ) → AreColumns rows starts ids
        → HasPlaces rows (length starts - 1) (places_of starts ids) (matrix_of rows starts ids) }
    ensures entries { (rows : ℕ) (starts ids : List ℕ) (r c : ℕ) → AreColumns rows starts ids
        → IsEntry (matrix_of rows starts ids) r c
        ↔ ((c < length starts - 1) × Among r (piece starts ids c)) }
{}
