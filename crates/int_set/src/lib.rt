//! Sets of numbers below a bound that give their least member.
//!
//! A set is a tree of 64-bit words: the lowest words have a bit for each number, and each word
//! above says which of the 64 words below it are not empty (after van Emde Boas 1975). It takes
//! about an eighth of a byte for each number below the bound. Where the bound is below 64^k,
//! `insert` and `least` look at k words at most, and `take_least` at 2 k.
#![tactic(auto)]

mod tree;

ghost use Rattle.std.specs.Prelude.{◌≡◌, ◌⊎◌, ◌↔◌, ◌<◌, ◌≤◌, ◌∷◌, ℕ, [], IfOk, IfSome, IfNone};
ghost use Rattle.bip_defs.specs.Lists.{Among, IsRising};

use sp_ids::OutOfMemory;
use std::alloc::Global;
use std::marker::Model;

/// A set of numbers below a bound that is set when it is made.
#[derive(Drop)]
pub struct IntSet {
    words: Vec<u64>,
    depth: u32,
    first: usize,
    bound: u32,
}

impl Model for IntSet {
    ghost use Rattle.int_set.specs.Numbers.{Numbers};

    ghost Value = { Numbers };

    ghost use Rattle.int_set.specs.Tree.{numbers_of, IsSetOf};

    ghost view = { λ s. numbers_of s.words.items s.first s.bound };

    ghost invariant = { λ s. IsSetOf s.words.items s.depth s.first s.bound };
}

impl IntSet {
    /// The empty set of numbers below `bound`.
    ///
    /// It takes `bound / 8` bytes and a little more, and writes them. Returns `OutOfMemory` if
    /// these cannot be allocated.
    pub fn new(alloc: Global, bound: u32) -> Result<IntSet, OutOfMemory>
        ensures { IfOk result (λ s. s ≡ record { bound = bound; members = [] }) }
    {
        let lowest = bound as usize / 64 + 1;
        let shape = tree::shape_for(lowest);
        let words = tree::zeros(alloc, shape.start + lowest)?;
        Ok(IntSet {
            words,
            depth: shape.depth,
            first: 64 * shape.start,
            bound,
        })
    }

    /// Puts a number in, which must be below the bound.
    pub fn insert(&mut self, number: u32)
        requires { number < self.old.bound }
        ensures members { (x : ℕ)
            → Among x self.new.members ↔ ((x ≡ number) ⊎ Among x self.old.members) }
        ensures bound { self.new.bound ≡ self.old.bound }
    {
        let words = self.words.as_mut_slice();
        tree::mark(words, self.first, number);
    }

    /// The least member, which is below the bound. None where the set is empty.
    #[inline(always)]
    pub fn least(&self) -> Option<u32>
        ensures none { IfNone result (self.now.members ≡ []) }
        ensures least { IfSome result (λ x. Among x self.now.members
            × ((y : ℕ) → Among y self.now.members → x ≤ y)) }
        ensures in_range { IfSome result (λ x. x < self.now.bound) }
        ensures rising { IsRising self.now.members }
    {
        let words = self.words.as_slice();
        if words[0] == 0 {
            return None;
        }
        let bit = tree::least_bit(words, self.depth);
        Some((bit - self.first) as u32)
    }

    /// Takes the least member out, which is below the bound. None where the set is empty.
    #[inline(always)]
    pub fn take_least(&mut self) -> Option<u32>
        ensures none { IfNone result ((self.old.members ≡ []) × (self.new.members ≡ [])) }
        ensures least { IfSome result (λ x. self.old.members ≡ x ∷ self.new.members) }
        ensures in_range { IfSome result (λ x. x < self.old.bound) }
        ensures rising { IsRising self.old.members }
        ensures bound { self.new.bound ≡ self.old.bound }
    {
        let least = self.least()?;
        let words = self.words.as_mut_slice();
        tree::clear(words, self.first, least);
        Some(least)
    }
}
