//! The end of an answer's text.

ghost use Rattle.std.specs.Prelude.{ℕ, List, Option};
ghost use Rattle.btf_text.specs.Buffered.{since};
ghost use Rattle.sp_ports.specs.Device.{Writes};

use sp_ports::{Failed, Sink};

/// Hands on a text that was written, and returns whether both were done. After a write that failed
/// nothing is asked of the device.
pub(crate) fn hand_on<O: Sink>(out: &mut O, written: Result<(), Failed>) -> Result<(), Failed>
    ensures { (taken : Option (List ℕ)) (faults : ℕ) (text : List ℕ)
        → Writes (since taken faults (O.taken out.old) (O.faults out.old)) text written
        → Writes (since taken faults (O.taken out.new) (O.faults out.new)) text result }
{
    written?;
    out.flush()
}
