//! Laws on the reasons and on verdicts.

ghost use Rattle.std.specs.Prelude.{◌≡◌, ◌↔◌, ℕ, List};
ghost use Rattle.bip_defs.specs.Matrix.{Matrix};
ghost use Rattle.btf_check.specs.Verdicts.{IsMetBy, IsValid, IsVerdict};
ghost use Rattle.btf_check.specs.declared.verdict.Verdict.{Verdict};
ghost use Rattle.sp_pattern.specs.Stored.{IsPattern};

use report_reader::{one_spelling, reports_can_be_read};

/// No reason applies to bytes exactly where they are the report with pairs of the matrix, in either
/// version, with orders or without.
pub fn no_reason_applies()
    ensures { (a : Matrix) (bytes : List ℕ) → IsPattern a → ((k : ℕ) → IsMetBy a bytes k)
        ↔ IsValid a bytes }
{
    one_spelling();
    reports_can_be_read();
}

/// There is one verdict on bytes.
pub fn one_verdict()
    ensures { (a : Matrix) (bytes : List ℕ) (v w : Verdict) → IsPattern a → IsVerdict a bytes v
        → IsVerdict a bytes w → v ≡ w }
{
    no_reason_applies();
}
