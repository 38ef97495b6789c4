//! How many workers search at once.

ghost use Rattle.std.specs.Prelude.{◌≡◌, ◌≤◌};
ghost use Rattle.sp_ids.specs.Limits.{max_workers};

use std::marker::Model;

/// How many workers search at once: 1 to 64.
#[derive(Clone, Copy, Debug, PartialEq, Eq)]
pub struct Workers {
    number: u32,
}

impl Model for Workers {
    ghost use Rattle.std.specs.Prelude.{◌≤◌, ℕ};
    ghost use Rattle.sp_ids.specs.Limits.{max_workers};

    ghost Value = { ℕ };

    ghost view = { λ w. w.number };

    ghost inverse = { λ n. record { number = n } };

    ghost invariant = { λ w. (1 ≤ w.number) × (w.number ≤ max_workers) };
}

impl Workers {
    /// So many workers.
    pub fn new(number: u32) -> Workers
        requires some { 1 ≤ number }
        requires few { number ≤ max_workers }
        ensures { result ≡ number }
    {
        Workers { number }
    }

    /// How many they are.
    pub fn number(self) -> u32
        ensures number { result ≡ self }
        ensures some { 1 ≤ result }
        ensures few { result ≤ max_workers }
    {
        self.number
    }
}
