//! Numbers of 64 or of 128 bits, which a search adds up in.

ghost use Rattle.std.specs.Prelude.{◌≡◌, ◌↔◌, ℕ, ◌+◌, ◌-◌, ◌^◌, ◌<◌, ◌≤◌, pos, IfSome, IsTrue};
ghost use Rattle.std.specs.Ordering.{nat_cmp};
ghost use Rattle.std.proofs.Common.{refl, rules};
ghost use Rattle.integer_diagonal.specs.Amounts.{HasRoom, amount_of_64, infinity, number_of_64, number_of_amount};

use std::cmp::Ordering;

/// Numbers of one width. One of them stands for no distance, the greatest; the others stand for
/// themselves.
pub trait Width: Copy {
    /// What a number stands for.
    ghost amount: { Self → ℕ };

    /// The number that stands for an amount.
    ghost number: { ℕ → Self };

    /// No two numbers stand for one amount.
    ghost number_of_amount: { (x : Self) → number (amount x) ≡ x };

    /// Sums are less than this.
    ghost limit: { ℕ };

    /// A cost.
    fn of(cost: u64) -> Self
        requires { cost < limit }
        ensures { amount result ≡ cost };

    /// What stands for no distance.
    fn infinity() -> Self
        ensures { amount result ≡ infinity };

    /// The sum of the two.
    fn plus(self, other: Self) -> Self
        requires { amount self + amount other < limit }
        ensures { amount result ≡ amount self + amount other };

    /// By how much this is more than the other.
    fn minus(self, other: Self) -> Self
        requires fits { amount self < limit }
        requires less { amount other ≤ amount self }
        ensures { amount result ≡ amount self - amount other };

    /// Which of the two is less.
    fn compare(self, other: Self) -> Ordering
        ensures { result ≡ nat_cmp (amount self) (amount other) };

    /// The same, as a number with a sign.
    fn signed(self) -> i128
        requires { amount self < limit }
        ensures { result ≡ pos (amount self) };

    /// The cost that this stands for, if it is not too great for one.
    fn as_cost(self) -> Option<u64>
        ensures { IfSome result (λ cost. cost ≡ amount self) };

    /// Whether all sums are less than the limit where a matrix has so many columns, and no entry
    /// weighs more than `top`.
    fn has_room(columns: u32, top: u64) -> bool
        ensures { IsTrue result ↔ HasRoom columns top limit };

    /// Each sum is less than what stands for no distance.
    ghost in_range: { (0 < limit) × (limit ≤ 2 ^ 100) };
}

impl Width for u64 {
    ghost amount = { amount_of_64 };

    ghost number = { number_of_64 };

    ghost number_of_amount = { number_of_amount };

    ghost limit = { 2 ^ 64 - 1 };

    fn of(cost: u64) -> u64 {
        cost
    }

    fn infinity() -> u64 {
        u64::MAX
    }

    fn plus(self, other: u64) -> u64 {
        self + other
    }

    fn minus(self, other: u64) -> u64 {
        self - other
    }

    fn compare(self, other: u64) -> Ordering {
        self.cmp(&other)
    }

    fn signed(self) -> i128 {
        self as i128
    }

    fn as_cost(self) -> Option<u64> {
        if self == u64::MAX { None } else { Some(self) }
    }

    fn has_room(columns: u32, top: u64) -> bool {
        let top = top as u128;
        3 * (columns as u128 * top) + 4 * top < u64::MAX as u128
    }

    ghost in_range = { Prim.search rules };
}

impl Width for u128 {
    ghost amount = { λ n. n };

    ghost number = { λ n. n };

    ghost number_of_amount = { λ n. refl };

    ghost limit = { 2 ^ 100 };

    fn of(cost: u64) -> u128 {
        cost as u128
    }

    fn infinity() -> u128 {
        u128::MAX
    }

    fn plus(self, other: u128) -> u128 {
        self + other
    }

    fn minus(self, other: u128) -> u128 {
        self - other
    }

    fn compare(self, other: u128) -> Ordering {
        self.cmp(&other)
    }

    fn signed(self) -> i128 {
        self as i128
    }

    fn as_cost(self) -> Option<u64> {
        if self > u64::MAX as u128 {
            None
        } else {
            Some(self as u64)
        }
    }

    fn has_room(columns: u32, top: u64) -> bool {
        let top = top as u128;
        3 * (columns as u128 * top) + 4 * top < 1267650600228229401496703205376
    }

    ghost in_range = { Prim.search rules };
}
