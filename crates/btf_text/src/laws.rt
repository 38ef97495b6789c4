//! Laws on reports.

ghost use Rattle.std.specs.Prelude.{Bool, List, ℕ};
ghost use Rattle.bip_defs.specs.Matrix.{Matrix};
ghost use Rattle.bip_graph.specs.Answers.{IsAnalysis};
ghost use Rattle.btf_text.specs.Surplus.{HasSurplus};

/// In a report of a matrix, of either version and whatever it was asked for, the horizontal columns
/// are more than their rows, by as many as the rank leaves columns unmatched. These rows are all
/// that the horizontal columns have entries in, so every matching misses that many columns.
///
/// The deficiency form of Hall's theorem (Ore 1955).
pub fn surplus_of_a_report_is_unmatched()
    ensures { (a : Matrix) (version : ℕ) (order pairs least : Bool) (text : List ℕ)
        (t : IsAnalysis a version order pairs least text) → HasSurplus a t.decomposition }
{}
