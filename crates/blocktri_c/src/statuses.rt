//! The statuses of the calls.

ghost use Rattle.std.specs.Prelude.{◌≡◌, ◌≢◌, pos};
ghost use Rattle.blocktri_c.specs.Statuses.{fault_of, status_of};

use blocktri::{ColumnsError, Refusal};

/// Every call's status where it has an answer.
pub const OK: i32 = 0;

/// The status where the matrix is square, and its rank is less than its size.
pub const SINGULAR: i32 = 1;

/// The status where the matrix has not as many rows as columns.
pub const NOT_SQUARE: i32 = 2;

/// The status where there is no answer, with the place of the fault.
pub fn status(refusal: Refusal, fault: &mut u64) -> i32
    ensures status { result ≡ status_of refusal }
    ensures fault { fault.new ≡ fault_of refusal fault.old }
    ensures refused { result ≢ pos 0 }
    ensures no_answer { (result ≢ pos 1) × (result ≢ pos 2) }
{
    match refusal {
        Refusal::Columns(ColumnsError::OutOfMemory) => 7,
        Refusal::Columns(ColumnsError::BadStart(at)) => {
            *fault = at as u64;
            20
        }
        Refusal::Columns(ColumnsError::BadRow(at)) => {
            *fault = at as u64;
            21
        }
        Refusal::Lengths => 22,
        Refusal::Columns(ColumnsError::TooManyRows) => 23,
    }
}
