//! A law on marked rows.

ghost use Rattle.std.specs.Prelude.{◌≡◌, ◌<◌, ℕ, Bool, List, length};
ghost use Rattle.bip_defs.specs.Lists.{Among};
ghost use Rattle.bip_defs.specs.Marks.{AreClosed, IsExplored};
ghost use Rattle.bip_defs.specs.Matching.{IsMatching, cols_of};
ghost use Rattle.bip_defs.specs.Matrix.{Matrix, Place, cols};
ghost use Rattle.bip_defs.specs.Parts.{MarkHorizontalRows};
ghost use Rattle.path_search.specs.Search.{AreLedTo};

/// Where the entries of all unmatched columns are in marked rows, and so are those of the marked
/// rows' mates, and walks lead to each marked row, the marked rows are the horizontal rows
/// (Dulmage and Mendelsohn 1958; Pothen and Fan 1990).
pub fn marked_rows_are_horizontal()
    ensures { (a : Matrix) (m : List Place) (marks : List Bool) → IsMatching a m
        → length marks ≡ a.rows → AreClosed a m marks → AreLedTo a m marks
        → ((c : ℕ) → c < cols a → ¬ Among c (cols_of m) → IsExplored a marks c)
        → MarkHorizontalRows a marks }
{}
