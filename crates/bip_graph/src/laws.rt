//! Laws on the texts, and on a matching of the transpose.

ghost use Rattle.std.specs.Prelude.{◌≡◌, ◌↔◌, ℕ, Bool, true, false, List};
ghost use Rattle.bip_defs.specs.Matrix.{Matrix, transpose};
ghost use Rattle.bip_graph.specs.Answers.{IsAnalysis, IsRankText, IsWithPairs};
ghost use Rattle.bip_graph.specs.Matching.{IsMatchingOf, IsMaximumOf, Pairing, transposed};

/// A matrix has at most one text of its rank.
pub fn one_rank_text()
    ensures { (a : Matrix) (s t : List ℕ) → IsRankText a s → IsRankText a t → s ≡ t }
{}

/// Two reports of one matrix in one version under the same options, without pairs, are the same
/// bytes.
pub fn one_report()
    ensures { (a : Matrix) (version : ℕ) (order : Bool) (s t : List ℕ)
        → IsAnalysis a version order false false s → IsAnalysis a version order false false t
        → s ≡ t }
{}

/// Two reports of one matrix in one version under the same options, with the pairs of the least
/// maximum matching, are the same bytes.
pub fn one_report_with_least_pairs()
    ensures { (a : Matrix) (version : ℕ) (order pairs : Bool) (s t : List ℕ)
        → IsAnalysis a version order pairs true s → IsAnalysis a version order pairs true t
        → s ≡ t }
{}

/// The reports with pairs are the one without them, with the lines of any maximum matching before
/// its end, or those of the least one where that is asked for.
pub fn pairs_before_the_end()
    ensures any { (a : Matrix) (version : ℕ) (order : Bool) (t : List ℕ)
        → IsAnalysis a version order true false t ↔ IsWithPairs a version order false t }
    ensures least { (a : Matrix) (version : ℕ) (order pairs : Bool) (t : List ℕ)
        → IsAnalysis a version order pairs true t ↔ IsWithPairs a version order true t }
{}

/// The matchings of the transpose are those of the matrix with each pair turned, and so are the
/// maximum ones.
pub fn matchings_of_the_transpose()
    ensures matching { (a : Matrix) (m : Pairing)
        → IsMatchingOf a m ↔ IsMatchingOf (transpose a) (transposed m) }
    ensures maximum { (a : Matrix) (m : Pairing)
        → IsMaximumOf a m ↔ IsMaximumOf (transpose a) (transposed m) }
{}
