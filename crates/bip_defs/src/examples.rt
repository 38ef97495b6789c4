//! What the definitions say of small matrices, of matrices without entries, and of places given
//! twice or out of range.

ghost use Rattle.std.specs.Prelude.{◌↔◌, ◌<◌, ℕ, List, [], ◌∷◌};
ghost use Rattle.bip_defs.specs.Decomposition.{IsDecompositionOf};
ghost use Rattle.bip_defs.specs.Lists.{Among, Lists};
ghost use Rattle.bip_defs.specs.Small.{lower_triangle, lower_triangle_parts, outer_parts_alone, single, whole_triangle, wide_row, wide_row_parts};
ghost use Rattle.bip_defs.specs.Matrix.{HasPlaces, IsEntry, Matrix, Place};
ghost use Rattle.bip_defs.specs.Triangular.{IsBlockUpperTriangular, IsProperPart, IsRowOver, diagonal_blocks};

/// A place given twice stands for one entry, and no place is out of range.
pub fn given_places()
    ensures twice { (m n : ℕ) (p : Place) (places : List Place) (a : Matrix)
        → HasPlaces m n (p ∷ p ∷ places) a ↔ HasPlaces m n (p ∷ places) a }
    ensures in_range { (m n : ℕ) (places : List Place) (a : Matrix) (r c : ℕ)
        → HasPlaces m n places a → Among (r, c) places → (r < m) × (c < n) }
{}

/// Without entries, as without rows or columns, the rank is 0, all columns are horizontal and all
/// rows vertical.
pub fn no_entries()
    ensures { (a : Matrix) → ((r c : ℕ) → ¬ IsEntry a r c)
        → IsDecompositionOf a (outer_parts_alone a) }
{}

/// Two columns with one row: both are horizontal, and the other row is vertical.
pub fn two_columns_of_one_row()
    ensures { IsDecompositionOf wide_row wide_row_parts }
{}

/// Of a lower triangle the last column's block comes first: it is the one whose column has entries
/// in no other block's row.
pub fn lower_triangle_from_its_end()
    ensures { IsDecompositionOf lower_triangle lower_triangle_parts }
{}

/// A lower triangle is block upper triangular by its blocks from the end, not by those from the
/// start, nor by some of them alone. The outer parts are diagonal blocks too, and need not be
/// square.
pub fn orders_of_small_matrices()
    ensures from_the_end { IsBlockUpperTriangular lower_triangle
        (single 2 ∷ single 1 ∷ single 0 ∷ []) }
    ensures from_the_start { ¬ IsBlockUpperTriangular lower_triangle
        (single 0 ∷ single 1 ∷ single 2 ∷ []) }
    ensures not_all { ¬ IsBlockUpperTriangular lower_triangle (single 2 ∷ single 1 ∷ []) }
    ensures outer_parts { IsBlockUpperTriangular wide_row (diagonal_blocks wide_row_parts) }
{}

/// All rows and columns of a lower triangle together fall apart: its last column has entries in one
/// row alone.
pub fn whole_triangle_falls_apart()
    ensures part { IsProperPart whole_triangle (2 ∷ []) }
    ensures rows { Lists (IsRowOver lower_triangle whole_triangle (2 ∷ [])) (2 ∷ []) }
{}
