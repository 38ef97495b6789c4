//! Bad lines.

ghost use Rattle.std.specs.Prelude.{◌≡◌};
ghost use Rattle.mm_reader.specs.BadLines.{answer_to};

use mm_defs::{Kind, ReadError};
use std::marker::Model;

/// A bad line: its number, counted from 1, and the first kind of fault that applies to it.
#[derive(Clone, Copy, Debug, PartialEq, Eq)]
pub struct BadLine {
    pub line: u64,
    pub kind: Kind,
}

impl Model for BadLine {
    ghost use Rattle.mm_defs.specs.File.{Fault};

    ghost Value = { Fault };

    ghost view = { λ b. record { line = b.line; kind = b.kind } };

    ghost inverse = { λ fault. record { line = fault.line; kind = fault.kind } };
}

impl BadLine {
    /// The answer: `Limit` where the kind is that the line passes a limit, and else `Malformed`.
    pub fn answer(self) -> ReadError
        ensures { result ≡ answer_to self }
    {
        let BadLine { line, kind } = self;
        if kind.is_limit() {
            ReadError::Limit { line, kind }
        } else {
            ReadError::Malformed { line, kind }
        }
    }
}
