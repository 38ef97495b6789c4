//! What an answer that was written says.

ghost use Rattle.std.specs.Prelude.{◌≡◌};
ghost use Rattle.btf_tool.specs.Refusals.{status_of_answer};

use sp_ids::Status;

/// Whether the answer that was written is what was asked for.
#[derive(Clone, Copy, Debug, PartialEq, Eq)]
pub enum Answer {
    /// It is.
    Positive,
    /// It says that there is no such thing: the report that was checked is not valid, the matrix
    /// has no diagonal, or of a batch some file is not good.
    Negative,
}

impl Answer {
    /// The status with which the run ends.
    pub fn status(self) -> Status
        ensures { result ≡ status_of_answer self }
    {
        match self {
            Answer::Positive => Status::Ok,
            Answer::Negative => Status::Negative,
        }
    }
}
