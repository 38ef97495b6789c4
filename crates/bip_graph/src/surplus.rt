//! What the numbers of a rank's text say of each other.

ghost use Rattle.std.specs.Prelude.{◌≡◌, ◌+◌, List, ℕ, length};
ghost use Rattle.bip_defs.specs.Matrix.{Matrix, cols};
ghost use Rattle.bip_graph.specs.Answers.{IsRankText};

/// In the text of a matrix's rank the horizontal columns are more than their rows, by as many as
/// the rank leaves columns unmatched. These rows are all that the horizontal columns have entries
/// in, so every matching misses that many columns.
///
/// The deficiency form of Hall's theorem (Ore 1955).
pub fn surplus_is_unmatched()
    ensures { (a : Matrix) (text : List ℕ) (t : IsRankText a text)
        → length t.cols + t.rank ≡ cols a + length t.rows }
{}
