//! The numbers of a device's calls.

ghost use Rattle.std.specs.Prelude.{◌≡◌, ◌<◌, ◌≤◌, ◌↔◌, ◌^◌, IsTrue, Contains};
ghost use Rattle.sp_ports.specs.InMemory.{number_after};

use std::marker::Model;

/// The calls of a device are numbered from 0, and the listed ones fail.
#[derive(Drop)]
pub(crate) struct Numbers {
    failing: Vec<u64>,
    // 2^64 where every number that the list can hold is used
    next: u128,
}

impl Model for Numbers {
    ghost use Rattle.std.specs.Prelude.{◌≤◌, ◌^◌};
    ghost use Rattle.sp_ports.specs.InMemory.{Calls};

    ghost Value = { Calls };

    ghost view = { λ n. record { failing = n.failing.items; next = n.next } };

    ghost invariant = { λ n. n.next ≤ 2 ^ 64 };
}

impl Numbers {
    pub(crate) fn new(failing: Vec<u64>) -> Numbers
        ensures { result ≡ record { failing = failing.items; next = 0 } }
    {
        Numbers { failing, next: 0 }
    }

    /// Whether the next call fails. It is counted as made.
    pub(crate) fn fails_next(&mut self) -> bool
        ensures fails { IsTrue result ↔ Contains self.old.failing self.old.next }
        ensures range { IsTrue result → self.old.next < 2 ^ 64 }
        ensures next { self.new ≡ record self.old { next = number_after self.old.next } }
    {
        let fails = is_listed(self.failing.as_slice(), self.next);
        if self.next < 1 << 64 {
            self.next += 1;
        }
        fails
    }
}

// Whether the list has the number.
fn is_listed(failing: &[u64], number: u128) -> bool
    ensures listed { IsTrue result ↔ Contains failing.now number }
    ensures range { IsTrue result → number < 2 ^ 64 }
{
    match u64::try_from(number) {
        Ok(number) => failing.contains(&number),
        Err(_) => false,
    }
}
