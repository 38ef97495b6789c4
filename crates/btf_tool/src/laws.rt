//! Laws on what a job answers, and on its input.

ghost use Rattle.std.specs.Prelude.{◌≡◌, ℕ, List};
ghost use Rattle.bip_defs.specs.Matrix.{Matrix};
ghost use Rattle.sp_ports.specs.Device.{Device, IsUntouched};
ghost use Rattle.btf_tool.specs.Runs.{StaysKnown};
ghost use Rattle.btf_tool.specs.Summaries.{IsLoadMatrix, IsSummary};

/// A matrix has one summary, and so have a size and a seed, whichever engine finds it.
pub fn one_summary()
    ensures matrix { (a : Matrix) (s t : List ℕ) → IsSummary a s → IsSummary a t → s ≡ t }
    ensures load { (size seed : ℕ) (a b : Matrix) (s t : List ℕ) → IsLoadMatrix size seed a
        → IsLoadMatrix size seed b → IsSummary a s → IsSummary b t → s ≡ t }
{}

/// An input that tells its bytes and was not used tells them still.
pub fn unused_input_tells()
    ensures { (input : Device) → IsUntouched input → StaysKnown input }
{}
