//! Classes of columns that no exchange crosses.

ghost use Rattle.std.specs.Prelude.{◌≡◌, ◌⊎◌, ℕ, ◌+◌, ◌<◌, length, IfOk};
ghost use Rattle.bip_defs.specs.Lists.{Among};
ghost use Rattle.bip_defs.specs.Queues.{heads};
ghost use Rattle.least_match.specs.Classes.{HaveParts, IsSplit, number_of_part};

use crate::parts::ColPart;
use crate::tree::Tree;
use sp_ids::OutOfMemory;
use std::alloc::Global;

/// The class of each column, by its number, and the first number that no class has.
#[derive(Drop)]
pub struct ColClasses {
    pub numbers: Vec<u32>,
    pub count: u32,
}

impl ColClasses {
    /// A class for each part.
    pub fn new(alloc: Global, parts: &[ColPart]) -> Result<ColClasses, OutOfMemory>
        ensures parts { IfOk result (λ x. HaveParts parts.now (length parts.now) x.numbers.items) }
        ensures count { IfOk result (λ x. x.count ≡ 3) }
    {
        let mut numbers = Vec::with_capacity(alloc, parts.len())?;
        for part in parts {
            numbers.push(number_of(*part))?;
        }
        Ok(ColClasses { numbers, count: 3 })
    }

    /// Makes a class of the columns of a tree, which have one class. Where no number is left, all
    /// stays as it is.
    pub fn split(&mut self, tree: &Tree)
        requires cols { (c : ℕ) → Among c (heads tree.now.queue)
            → c < length self.old.numbers.items }
        ensures { (self.new ≡ self.old)
            ⊎ (IsSplit self.old.numbers.items self.old.count (heads tree.now.queue)
            self.new.numbers.items × (self.new.count ≡ self.old.count + 1)) }
    {
        if self.count == u32::MAX {
            return;
        }
        renumber(self.numbers.as_mut_slice(), tree, self.count);
        self.count += 1;
    }
}

// Gives a number to the columns of a tree.
fn renumber(numbers: &mut [u32], tree: &Tree, number: u32)
    requires cols { (c : ℕ) → Among c (heads tree.now.queue) → c < length numbers.old }
    ensures { IsSplit numbers.old number (heads tree.now.queue) numbers.new }
{
    for place in 0..tree.len() {
        let (col, _) = tree.at(place);
        numbers[col.0 as usize] = number;
    }
}

// The number of a part's class.
fn number_of(part: ColPart) -> u32
    ensures { number_of_part part ≡ result }
{
    match part {
        ColPart::Horizontal => 0,
        ColPart::Square => 1,
        ColPart::Vertical => 2,
    }
}
