//! The statuses of the calls on a matrix with values.

ghost use Rattle.std.specs.Prelude.{◌≡◌, ◌≢◌, pos};
ghost use Rattle.blocktri_c.specs.DiagonalStatuses.{diagonal_fault_of, diagonal_status_of};

use crate::statuses::{SINGULAR, status};
use blocktri::DiagonalRefusal;

/// The status where there is no answer, with the place of the fault.
pub fn diagonal_status(refusal: DiagonalRefusal, fault: &mut u64) -> i32
    ensures status { result ≡ diagonal_status_of refusal }
    ensures fault { fault.new ≡ diagonal_fault_of refusal fault.old }
    ensures refused { result ≢ pos 0 }
{
    match refusal {
        DiagonalRefusal::Lists(refusal) => status(refusal, fault),
        DiagonalRefusal::SumLimit(at) => {
            *fault = at as u64;
            4
        }
        DiagonalRefusal::NotSquare => 2,
        DiagonalRefusal::Singular => SINGULAR,
        DiagonalRefusal::PriceLimit => 24,
    }
}
