//! Laws on the text of a batch.

ghost use Rattle.std.specs.Prelude.{◌≡◌, ℕ, List};
ghost use Rattle.batch_core.specs.BatchText.{IsBatchText};

use bip_graph::one_report;

/// There is one text over the files of a batch.
pub fn one_batch_text()
    ensures { (files : List (List ℕ)) (s t : List ℕ) → IsBatchText files s → IsBatchText files t
        → s ≡ t }
{
    // There is one report of a matrix.
    one_report();
}
