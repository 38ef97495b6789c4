//! A matching with its prices.

ghost use Rattle.std.specs.Prelude.{◌≡◌, ◌+◌, ◌-◌, ◌<◌};
ghost use Rattle.integer_diagonal.specs.Amounts.{HasDistance, infinity};

use crate::amount::Amount;
use crate::width::Width;
use bip_graph::Matching;

/// A matching of cheapest entries. What an entry costs is how much less it weighs than `top`, which
/// is the greatest weight. A column's dual variable is at most the price of a row and the cost of
/// their entry together, and as much where the two are a pair.
#[derive(Drop)]
pub struct Assignment<W: Width> {
    pub top: u64,
    pub prices: Vec<Amount<W>>,
    pub duals: Vec<Amount<W>>,
    pub matching: Matching,
}

impl<W: Width> Assignment<W> {
    /// The distance that an entry of this weight leads to from this depth: farther by its reduced
    /// cost, which is its row's price and what it costs, less its column's dual variable.
    pub fn distance(
        &self,
        price: Amount<W>,
        weight: u64,
        dual: Amount<W>,
        depth: Amount<W>,
    ) -> Amount<W>
        requires { HasDistance W.limit self.now.top price weight dual depth }
        ensures sum { result ≡ depth + (price + (self.now.top - weight) - dual) }
        ensures near { result < infinity }
    {
        let cost = Amount::of(self.top - weight);
        depth + (price + cost - dual)
    }
}
