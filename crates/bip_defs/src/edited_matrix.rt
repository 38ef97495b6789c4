//! Edits of a matrix, one place at a time, and what they leave of its matchings and its rank.

ghost use Rattle.std.specs.Prelude.{◌↔◌, ◌⊎◌, ◌≡◌, ◌≢◌, ◌<◌, ◌≤◌, ℕ, suc, List, ◌∷◌, length};
ghost use Rattle.bip_defs.specs.EditedMatrix.{AreWithin, Edit, edited, edited_places, with_place, without_place};
ghost use Rattle.bip_defs.specs.Lists.{Among, Lists};
ghost use Rattle.bip_defs.specs.Matching.{IsMatching, IsMaximum, IsRank, cols_of, rows_of};
ghost use Rattle.bip_defs.specs.Matrix.{HasPlaces, IsEntry, Matrix, Place, cols, column, entry_count};

/// An edit changes the entry of its place alone.
pub fn edited_entries()
    ensures with_place { (a : Matrix) (p : Place) (r c : ℕ) → p.0 < a.rows → p.1 < cols a
        → IsEntry (with_place a p) r c ↔ (((r, c) ≡ p) ⊎ IsEntry a r c) }
    ensures without_place { (a : Matrix) (p : Place) (r c : ℕ)
        → IsEntry (without_place a p) r c ↔ (IsEntry a r c × ((r, c) ≢ p)) }
{}

/// The edited matrix has the places that are left when those of the edits are added to the matrix's
/// places and removed from them in turn.
pub fn edited_matrix_has_the_edited_places()
    ensures { (rows cols : ℕ) (ps : List Place) (a : Matrix) (es : List Edit)
        → HasPlaces rows cols ps a → AreWithin rows cols es
        → HasPlaces rows cols (edited_places ps es) (edited a es) }
{}

/// An edit that changes nothing, and one that is taken back, leave the matrix.
pub fn edits_are_taken_back()
    ensures with_again { (a : Matrix) (p : Place) → Lists (λ r. IsEntry a r p.1) (column a p.1)
        → IsEntry a p.0 p.1 → with_place a p ≡ a }
    ensures without_none { (a : Matrix) (p : Place) → Lists (λ r. IsEntry a r p.1) (column a p.1)
        → ¬ IsEntry a p.0 p.1 → without_place a p ≡ a }
    ensures with_back { (a : Matrix) (p : Place) → Lists (λ r. IsEntry a r p.1) (column a p.1)
        → IsEntry a p.0 p.1 → with_place (without_place a p) p ≡ a }
    ensures without_back { (a : Matrix) (p : Place) → Lists (λ r. IsEntry a r p.1) (column a p.1)
        → ¬ IsEntry a p.0 p.1 → p.1 < cols a → without_place (with_place a p) p ≡ a }
{}

/// An entry that is set is one more, and one that is cleared one less.
pub fn edits_change_the_count_by_one()
    ensures with_place { (a : Matrix) (p : Place) → ¬ IsEntry a p.0 p.1 → p.0 < a.rows
        → p.1 < cols a → entry_count (with_place a p) ≡ suc (entry_count a) }
    ensures without_place { (a : Matrix) (p : Place)
        → Lists (λ r. IsEntry a r p.1) (column a p.1) → IsEntry a p.0 p.1
        → entry_count a ≡ suc (entry_count (without_place a p)) }
{}

/// One entry more raises the rank by one at most, and one entry less lowers it by one at most.
pub fn one_entry_changes_the_rank_by_one()
    ensures with_place { (a : Matrix) (p : Place) (k l : ℕ) → IsRank a k → IsRank (with_place a p) l
        → (k ≤ l) × (l ≤ suc k) }
    ensures without_place { (a : Matrix) (p : Place) (k l : ℕ) → IsRank a k
        → IsRank (without_place a p) l → (l ≤ k) × (k ≤ suc l) }
{}

/// Where an entry is set, a matching that is longer by one than a maximum one was is maximum: one
/// augmenting path decides. Where the entry's row and column are unmatched, it is such a pair.
pub fn one_pair_more_is_maximum()
    ensures longer { (a : Matrix) (p : Place) (m n : List Place) → IsMaximum a m
        → IsMatching (with_place a p) n → length n ≡ suc (length m)
        → IsMaximum (with_place a p) n }
    ensures pair { (a : Matrix) (p : Place) (m : List Place) → IsMaximum a m → p.0 < a.rows
        → p.1 < cols a → ¬ Among p.0 (rows_of m) → ¬ Among p.1 (cols_of m)
        → IsMaximum (with_place a p) (p ∷ m) }
{}

/// Where an entry is cleared, a maximum matching that has no such pair stays maximum, and so is
/// every matching that is left and has as many pairs as a maximum one had.
pub fn as_many_pairs_are_maximum()
    ensures kept { (a : Matrix) (p : Place) (m : List Place) → IsMaximum a m → ¬ Among p m
        → IsMaximum (without_place a p) m }
    ensures as_long { (a : Matrix) (p : Place) (m n : List Place) → IsMaximum a m
        → IsMatching (without_place a p) n → length n ≡ length m
        → IsMaximum (without_place a p) n }
{}
