//! Costs, prices and distances.

ghost use Rattle.std.specs.Prelude.{◌≡◌, ℕ, ◌+◌, ◌-◌, ◌<◌, ◌≤◌, ◌==◌, ⊤, pos, IfSome};
ghost use Rattle.std.specs.Ordering.{as_partial_cmp, nat_cmp};
ghost use Rattle.std.specs.Cmp.{partial_order_from_own_ties};
ghost use Rattle.std.specs.Cmp.Rules.{comparing};
ghost use Rattle.std.proofs.Common.{ap, rules};
ghost use Rattle.integer_diagonal.specs.Amounts.{infinity};

use crate::width::Width;
use std::alloc::AllocError;
use std::cmp::Ordering;
use std::marker::Model;
use std::ops::{Add, AddAssign, Sub};

/// A cost, a price or a distance, kept in a number of one width.
#[derive(Drop)]
pub struct Amount<W: Width>(W);

impl<W: Width> Model for Amount<W> {
    ghost Value = { ℕ };

    ghost view = { λ a. W.amount a.0 };

    ghost inverse = { λ n. record { 0 = W.number n } };

    ghost inverse_ok = { λ a h. ap (λ w. record { 0 = w }) (W.number_of_amount a.0) };
}

impl<W: Width> Amount<W> {
    /// Nothing to pay.
    pub fn zero() -> Amount<W>
        ensures { result ≡ 0 }
    {
        Amount(W::of(0))
    }

    /// A cost.
    pub fn of(cost: u64) -> Amount<W>
        requires { cost < W.limit }
        ensures { result ≡ cost }
    {
        Amount(W::of(cost))
    }

    /// Stands for no distance: distances are less.
    pub fn infinity() -> Amount<W>
        ensures { result ≡ infinity }
    {
        Amount(W::infinity())
    }

    /// The same, as a number with a sign.
    pub fn signed(self) -> i128
        requires { self < W.limit }
        ensures { result ≡ pos self }
    {
        self.0.signed()
    }

    /// The cost that this is, if it is not too great for one.
    pub fn as_cost(self) -> Option<u64>
        ensures { IfSome result (λ cost. cost ≡ self) }
    {
        self.0.as_cost()
    }
}

impl<W: Width> Copy for Amount<W> {}

impl<W: Width> Clone for Amount<W> {
    ghost is_clone = { λ a b. b ≡ a };

    ghost is_infallible = { λ _. ⊤ };

    fn clone(&self) -> Result<Amount<W>, AllocError> {
        Ok(*self)
    }
}

impl<W: Width> Add for Amount<W> {
    type Output = Amount<W>;

    ghost can_add = { λ a b. a + b < W.limit };

    ghost add_gives = { λ a b c. c ≡ a + b };

    fn add(self, other: Amount<W>) -> Amount<W> {
        Amount(self.0.plus(other.0))
    }
}

impl<W: Width> AddAssign for Amount<W> {
    ghost can_add_assign = { λ a b. a + b < W.limit };

    ghost add_assign_gives = { λ a b c. c ≡ a + b };

    fn add_assign(&mut self, other: Amount<W>) {
        *self = *self + other;
    }
}

impl<W: Width> Sub for Amount<W> {
    type Output = Amount<W>;

    ghost can_sub = { λ a b. (b ≤ a) × (a < W.limit) };

    ghost sub_gives = { λ a b c. c ≡ a - b };

    fn sub(self, other: Amount<W>) -> Amount<W> {
        Amount(self.0.minus(other.0))
    }
}

impl<W: Width> PartialEq for Amount<W> {
    ghost eq = { ◌==◌ };

    ghost laws = { Prim.search (comparing, rules) };

    fn eq(&self, other: &Amount<W>) -> bool {
        self.0.compare(other.0).is_eq()
    }
}

impl<W: Width> Eq for Amount<W> {
    ghost laws = { Prim.search (comparing, rules) };
}

impl<W: Width> PartialOrd for Amount<W> {
    ghost partial_cmp = { as_partial_cmp nat_cmp };

    ghost laws = { partial_order_from_own_ties (Prim.search (comparing, rules))
        (Prim.search (comparing, rules)) };

    fn partial_cmp(&self, other: &Amount<W>) -> Option<Ordering> {
        Some(self.cmp(other))
    }
}

impl<W: Width> Ord for Amount<W> {
    ghost cmp = { nat_cmp };

    ghost total = { Prim.search (comparing, rules) };

    ghost matches_partial_cmp = { Prim.search (comparing, rules) };

    ghost matches_eq = { Prim.search (comparing, rules) };

    fn cmp(&self, other: &Amount<W>) -> Ordering {
        self.0.compare(other.0)
    }
}
