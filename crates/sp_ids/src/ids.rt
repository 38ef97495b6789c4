//! Rows and columns.

ghost use Rattle.std.specs.Prelude.{◌≡◌, ℕ};

use std::marker::Model;

/// A row of a matrix, counted from 0. Files and texts count rows from 1.
#[derive(Clone, Copy, Debug, PartialEq, Eq, PartialOrd, Ord)]
pub struct Row(pub u32);

impl Model for Row {
    ghost Value = { ℕ };

    ghost view = { λ r. r.0 };

    ghost inverse = { λ n. record { 0 = n } };
}

/// A column of a matrix, counted from 0. Files and texts count columns from 1.
#[derive(Clone, Copy, Debug, PartialEq, Eq, PartialOrd, Ord)]
pub struct Col(pub u32);

impl Model for Col {
    ghost Value = { ℕ };

    ghost view = { λ c. c.0 };

    ghost inverse = { λ n. record { 0 = n } };
}

/// A row or a column, where code serves both.
pub trait Id: Copy {
    /// Its number, counted from 0.
    ghost number: { Self → ℕ };

    /// Its number, counted from 0.
    fn number(self) -> u32
        ensures { result ≡ number self };

    /// The row or column of a number.
    fn of(at: u32) -> Self
        ensures { number result ≡ at };
}

impl Id for Row {
    ghost number = { λ r. r };

    fn number(self) -> u32 {
        self.0
    }

    fn of(at: u32) -> Row {
        Row(at)
    }
}

impl Id for Col {
    ghost number = { λ c. c };

    fn number(self) -> u32 {
        self.0
    }

    fn of(at: u32) -> Col {
        Col(at)
    }
}
