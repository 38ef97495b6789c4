//! How a run of the program ends.

ghost use Rattle.std.specs.Prelude.{◌≡◌};
ghost use Rattle.sp_ids.specs.Exit.{exit_code};

/// How a run of the program ended.
#[derive(Clone, Copy, Debug, PartialEq, Eq)]
pub enum Status {
    /// The answer was written.
    Ok,
    /// The answer is no: a report is not valid, a matrix has no perfect matching, or of a batch
    /// some file is not good.
    Negative,
    /// The words on the command line are not those of a command.
    Usage,
    /// The first bad line of the input is not of the file's form.
    Malformed,
    /// The input passes a limit.
    Limit,
    /// A read of the input failed.
    ReadFault,
    /// A write of the answer failed.
    WriteFault,
    /// There was not enough memory.
    OutOfMemory,
    /// The command needs a file of the field integer.
    NeedsInteger,
}

impl Status {
    /// The number with which the program ends.
    pub fn code(self) -> u8
        ensures { result ≡ exit_code self }
    {
        match self {
            Status::Ok => 0,
            Status::Negative => 1,
            Status::Usage => 2,
            Status::Malformed => 3,
            Status::Limit => 4,
            Status::ReadFault => 5,
            Status::WriteFault => 6,
            Status::OutOfMemory => 7,
            Status::NeedsInteger => 8,
        }
    }
}
