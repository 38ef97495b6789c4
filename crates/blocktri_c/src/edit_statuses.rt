//! The statuses of the calls on edits.

ghost use Rattle.std.specs.Prelude.{◌≡◌, ◌≢◌, pos};
ghost use Rattle.blocktri_c.specs.EditStatuses.{edits_fault_of, edits_status_of};

use crate::statuses::status;
use blocktri::Refusal;
use blocktri_edits::EditsRefusal;

/// The status where there is no answer, with the place of the fault.
pub fn edits_status(refusal: EditsRefusal, fault: &mut u64) -> i32
    ensures status { result ≡ edits_status_of refusal }
    ensures fault { fault.new ≡ edits_fault_of refusal fault.old }
    ensures refused { result ≢ pos 0 }
{
    match refusal {
        EditsRefusal::Lengths => status(Refusal::Lengths, fault),
        EditsRefusal::Columns(error) => status(Refusal::Columns(error), fault),
        EditsRefusal::BadEdit(at) => {
            *fault = at as u64;
            28
        }
    }
}
