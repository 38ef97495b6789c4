//! Laws on reports that are read.

ghost use Rattle.std.specs.Prelude.{◌≡◌, Bool, List, ℕ, Option, Some};
ghost use Rattle.bip_defs.specs.ConnectedComponents.{Components};
ghost use Rattle.bip_defs.specs.Decomposition.{Decomposition, IsDecompositionOf};
ghost use Rattle.bip_defs.specs.Lists.{IsRising};
ghost use Rattle.bip_defs.specs.Matching.{IsMatching, cols_of};
ghost use Rattle.bip_defs.specs.Matrix.{Matrix, Place};
ghost use Rattle.bip_graph.specs.Answers.{AreOfVersion, report_of};
ghost use Rattle.bip_graph.specs.Texts.{Report, report_text};
ghost use Rattle.report_reader.specs.Readable.{FitsText, IsReadable};

/// No two reports that can be read have the same bytes. So a report that was read is the only one
/// that its bytes spell.
pub fn one_spelling()
    ensures { (r s : Report) → IsReadable r → IsReadable s → report_text r ≡ report_text s → r ≡ s }
{}

/// The report of a matrix can be read, in either version, with orders or without, where its pairs
/// are a matching of the matrix's entries that rises by column, maximum or not: what `write_report`
/// of `btf_text` writes with pairs is read again, and by `one_spelling` as the same report.
pub fn reports_can_be_read()
    ensures { (a : Matrix) (d : Decomposition) (version : ℕ) (components : Option Components)
        (order : Bool) (m : List Place) → FitsText a → IsDecompositionOf a d
        → AreOfVersion a version components → IsMatching a m → IsRising (cols_of m)
        → IsReadable (report_of a d components order (Some m)) }
{}
