//! Rows that are to be looked at, the nearest first.

ghost use Rattle.std.specs.Prelude.{◌≡◌, ◌⊎◌, ◌↔◌, ℕ, ◌<◌, ◌≤◌, [], length, map, slice_index_or, true, false, IfSome, IfNone, OnOk};
ghost use Rattle.std.specs.BinaryHeap.{IsHeap, heap_items, heap_len};
ghost use Rattle.std.specs.declared.cmp.Reverse.{Reverse as Reversed};
ghost use Rattle.bip_defs.specs.Lists.{Among};
ghost use Rattle.integer_diagonal.specs.Nearness.{by_nearness, unwrapped};

use crate::amount::Amount;
use crate::width::Width;
use std::alloc::{AllocError, Global};
use std::cmp::Reverse;
use std::collections::BinaryHeap;
use std::marker::Model;

/// Rows with their distances. Those that are no farther than the level lie in a list, the others in
/// a heap.
///
/// The level is the distance that the heap gave last. Many entries lead no farther than the row
/// that was looked at last, since they cost as little as their prices ask, and a list takes less
/// work than a heap (Duff and Koster 2001).
#[derive(Drop)]
pub struct Frontier<W: Width> {
    heap: BinaryHeap<Reverse<(Amount<W>, u32)>, Global>,
    level: Amount<W>,
    near: Vec<u32>,
}

impl<W: Width> Model for Frontier<W> {
    ghost use Rattle.std.specs.Prelude.{ℕ, List, ◌++◌, map};
    ghost use Rattle.std.specs.BinaryHeap.{IsHeap, heap_items};
    ghost use Rattle.integer_diagonal.specs.Nearness.{at_level, by_nearness, unwrapped};

    ghost Value = { List (ℕ × ℕ) };

    ghost view = { λ f. at_level f.level f.near.items ++ map unwrapped (heap_items f.heap) };

    ghost invariant = { λ f. IsHeap by_nearness (heap_items f.heap) };
}

impl<W: Width> Frontier<W> {
    /// Without rows.
    pub fn new(alloc: Global) -> Frontier<W>
        ensures { result ≡ [] }
    {
        Frontier {
            heap: BinaryHeap::new(alloc),
            level: Amount::zero(),
            near: Vec::new(alloc),
        }
    }

    /// Adds a row at a distance. It may stand there several times.
    #[inline(always)]
    pub fn push(&mut self, distance: Amount<W>, row: u32) -> Result<(), AllocError>
        ensures { OnOk result
            ((e : ℕ × ℕ) → Among e self.new ↔ ((e ≡ (distance, row)) ⊎ Among e self.old)) }
    {
        if distance == self.level {
            self.near.push(row)?;
            return Ok(());
        }
        self.heap.push(Reverse((distance, row)))?;
        Ok(())
    }

    /// Takes out what is nearest.
    pub fn pop(&mut self) -> Option<(Amount<W>, u32)>
        ensures taken { IfSome result
            (λ x. (e : ℕ × ℕ) → Among e self.old ↔ ((e ≡ x) ⊎ Among e self.new)) }
        ensures nearest { IfSome result (λ x. (e : ℕ × ℕ) → Among e self.old → x.0 ≤ e.0) }
        ensures shorter { IfSome result (λ x. length self.new < length self.old) }
        ensures none { IfNone result (self.old ≡ []) }
    {
        if begins_below(&self.heap, self.level) {
            let nearest = self.heap.pop()?;
            return Some(nearest.0);
        }
        match self.near.pop() {
            Some(row) => Some((self.level, row)),
            None => {
                let nearest = self.heap.pop()?;
                let (distance, row) = nearest.0;
                self.level = distance;
                Some((distance, row))
            }
        }
    }

    /// Takes out all.
    pub fn clear(&mut self)
        ensures { self.new ≡ [] }
    {
        self.heap.clear();
        self.near.clear();
        self.level = Amount::zero();
    }
}

// Whether the nearest row of a heap is nearer than the level.
fn begins_below<W: Width>(
    heap: &BinaryHeap<Reverse<(Amount<W>, u32)>, Global>,
    level: Amount<W>,
) -> bool
    ensures some { result ≡ true → 0 < heap_len heap.now }
    ensures below { result ≡ true → (x : Reversed (ℕ × ℕ))
        → (unwrapped (slice_index_or (heap_items heap.now) 0 x)).0 < level }
    ensures beyond { result ≡ false → IsHeap by_nearness (heap_items heap.now) → (e : ℕ × ℕ)
        → Among e (map unwrapped (heap_items heap.now)) → level ≤ e.0 }
{
    match heap.peek() {
        Some(nearest) => nearest.0.0 < level,
        None => false,
    }
}
