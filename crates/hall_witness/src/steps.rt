//! How many steps a search makes, counted in proofs alone.

ghost use Rattle.std.specs.Prelude.{◌≡◌, ◌+◌, ◌<◌, ℕ, Bool, true, false};
ghost use Rattle.std.specs.Int.{from_bool};

use std::marker::Model;
use std::sync::ledger::{Blank, Book, Ledger, Share};

/// A number of steps. It takes no bytes, and counting takes no time: only proofs see the number.
#[derive(Drop)]
pub struct Steps<L: Ledger> {
    book: Book<L>,
    share: Share<L>,
}

impl<L: Ledger> Model for Steps<L> {
    ghost use Rattle.std.specs.Prelude.{◌<◌, ℕ};

    ghost Value = { ℕ };

    ghost view = { λ s. s.book.total };

    ghost invariant = { λ s. 0 < s.share.parts };
}

impl<L: Ledger> Steps<L> {
    /// No steps yet, on a new ledger.
    pub fn new(blank: Blank) -> Steps<L>
        requires name { blank.name ≡ L.name }
        requires parts { blank.parts ≡ L.parts }
        requires some { 0 < blank.parts }
        ensures { result ≡ 0 }
    {
        let (book, share) = blank.open::<L>();
        Steps { book, share }
    }

    /// One step more.
    pub fn tick(&mut self)
        ensures { self.new ≡ self.old + 1 }
    {
        self.book.add(&mut self.share, 1);
    }
}

/// What counts the steps of a search.
pub trait Counter: Drop {
    ghost total: { Self → ℕ };

    /// Whether steps are counted.
    ghost counts: { Bool };

    /// One step more, where they are counted.
    fn count(&mut self)
        ensures { total self.new ≡ total self.old + from_bool counts };
}

impl<L: Ledger> Counter for Steps<L> {
    ghost total = { λ s. s };

    ghost counts = { true };

    fn count(&mut self) {
        self.tick();
    }
}

/// Counts none.
#[derive(Drop)]
pub struct Uncounted;

impl Counter for Uncounted {
    ghost total = { λ s. 0 };

    ghost counts = { false };

    fn count(&mut self) {}
}
