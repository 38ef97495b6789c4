//! The sums of the unmatched neighbours of the rows, or of the columns, which say who has one alone.

ghost use Rattle.std.specs.Prelude.{◌≡◌, ◌⊎◌, ◌<◌, ◌%◌, ◌^◌, ◌↔◌, ℕ, [], false, length, map, slice_index, IfOk, IfSome, IfNone, IsTrue};
ghost use Rattle.bip_defs.specs.Lists.{Among, IsRising};
ghost use Rattle.bip_defs.specs.Matrix.{cols, column};
ghost use Rattle.bip_defs.specs.Start.{ColOfOne, IsFree, IsOnly};
ghost use Rattle.karp_sipser.specs.NeighbourSums.{AreSums, AreSumsOf, HoldsOnes, IsLeastOfOne, IsRest, IsShort, IsUnit, LeavesOut, LooksLikeOne, Lowers, total, wrapping_sub};

use crate::unmatched::only_unmatched;
use bip_graph::{Matching, Opposite};
use int_set::IntSet;
use sp_ids::{Col, Id, OutOfMemory};
use sp_pattern::Side;
use std::alloc::Global;

/// For each vertex, a column of the matrix that a side sees, one word: the sum over its unmatched
/// neighbours of a unit and their number, modulo 2^32. The unit is at least the number of rows. Of
/// a matched vertex the word says nothing.
///
/// A word without the unit that is below the unit looks like that of one neighbour, and is its
/// number then. It is so where there is one neighbour; where there are more or none, only if
/// 2^31 / unit entries or more stand in the vertex's list.
#[derive(Drop)]
pub struct NeighbourSums {
    pub unit: u32,
    pub words: Vec<u32>,
    /// Whether some list is so long.
    pub some_long: bool,
    /// The vertices whose words look like one neighbour's, and maybe others.
    pub of_one: IntSet,
}

impl NeighbourSums {
    /// Where nothing is matched.
    ///
    /// Returns `OutOfMemory` if it cannot allocate its tables: 4 bytes and an eighth of a byte a
    /// vertex. Work: one look at each entry.
    pub fn new<I: Id, S: Side<I>>(
        alloc: Global,
        side: &S,
        unit: u32,
    ) -> Result<NeighbourSums, OutOfMemory>
        requires unit { IsUnit (S.matrix side.now) unit }
        ensures sums { IfOk result (AreSums (S.matrix side.now) []) }
        ensures ones { IfOk result (λ s. HoldsOnes (S.matrix side.now) [] s.of_one.members) }
    {
        let count = side.cols();
        let mut words = vec![in alloc; 0; count as usize]?;
        let mut of_one = IntSet::new(alloc, count)?;
        let mut longest = 0;
        for vertex in 0..count {
            let ids = side.rows_of(Col(vertex));
            let word = sum_of(ids, unit);
            words[vertex as usize] = word;
            longest = longest.max(ids.len());
            if looks_like_one(word, unit) {
                of_one.insert(vertex);
            }
        }
        Ok(NeighbourSums {
            unit,
            words,
            some_long: is_long(longest, unit),
            of_one,
        })
    }

    /// The least vertex with exactly one unmatched neighbour, which is taken out of the set, and
    /// this neighbour. Others that the set still has but that have none or more are taken out too.
    pub fn take_of_one<I: Opposite, S: Side<I>>(
        &mut self,
        side: &S,
        matching: &Matching,
    ) -> Option<(u32, u32)>
        requires sums { AreSumsOf (S.matrix side.now) (I.seen matching.now) self.old }
        requires ones { HoldsOnes (S.matrix side.now) (I.seen matching.now).pairs
            self.old.of_one.members }
        ensures none { IfNone result
            ((c : ℕ) → ¬ ColOfOne (S.matrix side.now) (I.seen matching.now).pairs c) }
        ensures taken { IfSome result (IsLeastOfOne (S.matrix side.now)
            (I.seen matching.now).pairs self.new.of_one.members) }
        ensures sums { AreSums (S.matrix side.now) (I.seen matching.now).pairs self.new }
    {
        while let Some(vertex) = self.of_one.take_least() {
            if let Some(mate) = self.only_neighbour(side, matching, vertex) {
                return Some((vertex, mate));
            }
        }
        None
    }

    // The one unmatched neighbour of an unmatched vertex, if it has exactly one.
    #[inline(always)]
    fn only_neighbour<I: Opposite, S: Side<I>>(
        &self,
        side: &S,
        matching: &Matching,
        vertex: u32,
    ) -> Option<u32>
        requires vertex { vertex < cols (S.matrix side.now) }
        requires sums { AreSumsOf (S.matrix side.now) (I.seen matching.now) self.now }
        ensures only { IfSome result (IsOnly
            (λ r. IsFree (S.matrix side.now) (I.seen matching.now).pairs r vertex)) }
        ensures none { IfNone result
            (¬ ColOfOne (S.matrix side.now) (I.seen matching.now).pairs vertex) }
    {
        let mate = self.words[vertex as usize].wrapping_sub(self.unit);
        if mate >= self.unit || I::row_of(matching, Col(vertex)).is_some() {
            return None;
        }
        if !self.some_long {
            return Some(mate);
        }
        let ids = side.rows_of(Col(vertex));
        if !is_long(ids.len(), self.unit) {
            return Some(mate);
        }
        only_unmatched(matching, ids)
    }

    /// Whether an unmatched vertex surely has this one unmatched neighbour alone.
    #[inline(always)]
    pub fn has_only<I: Id, S: Side<I>>(&self, side: &S, vertex: u32, mate: u32) -> bool
        requires vertex { vertex < cols (S.matrix side.now) }
        requires long { length self.now.words.items ≡ cols (S.matrix side.now) }
        requires positive { 0 < self.now.unit }
        ensures word { IsTrue result
            → wrapping_sub (slice_index self.now.words.items vertex) self.now.unit ≡ mate }
        ensures short { IsTrue result
            → (self.now.some_long ≡ false)
            ⊎ IsShort self.now.unit (length (column (S.matrix side.now) vertex)) }
    {
        self.words[vertex as usize].wrapping_sub(self.unit) == mate
            && !(self.some_long && is_long(side.rows_of(Col(vertex)).len(), self.unit))
    }

    /// The one unmatched neighbour of an unmatched vertex beside this one, where surely no other
    /// is unmatched.
    #[inline(always)]
    pub fn only_beside<I: Id, S: Side<I>>(&self, side: &S, vertex: u32, mate: u32) -> Option<I>
        requires vertex { vertex < cols (S.matrix side.now) }
        requires long { length self.now.words.items ≡ cols (S.matrix side.now) }
        requires positive { 0 < self.now.unit }
        ensures word { IfSome result (λ id. IsRest self.now.unit
            (slice_index self.now.words.items vertex) mate (I.number id)) }
        ensures short { IfSome result (λ id. (self.now.some_long ≡ false)
            ⊎ IsShort self.now.unit (length (column (S.matrix side.now) vertex))) }
    {
        let by = self.unit.wrapping_add(mate);
        let other = self.words[vertex as usize]
            .wrapping_sub(by)
            .wrapping_sub(self.unit);
        if other >= self.unit
            || self.some_long && is_long(side.rows_of(Col(vertex)).len(), self.unit)
        {
            return None;
        }
        Some(I::of(other))
    }

    /// Leaves out a vertex that is matched now, and its mate: those of `ids`, which are beside the
    /// mate, lose it, and those that come to one neighbour go into the set.
    pub fn leave_out<I: Id>(&mut self, matched: u32, mate: u32, ids: &[I])
        requires rising { IsRising (map I.number ids.now) }
        requires in_range { (x : ℕ) → Among x (map I.number ids.now)
            → x < length self.old.words.items }
        requires matched { matched < length self.old.words.items }
        requires bound { self.old.of_one.bound ≡ length self.old.words.items }
        ensures { LeavesOut matched mate (map I.number ids.now) self.old self.new }
    {
        // Far from what looks like one neighbour.
        self.words[matched as usize] = self.unit.wrapping_add(1 << 31);
        let words = self.words.as_mut_slice();
        lower(words, self.unit, ids, mate, &mut self.of_one);
    }
}

// Whether a word looks like that of one neighbour.
#[inline(always)]
fn looks_like_one(word: u32, unit: u32) -> bool
    ensures { IsTrue result ↔ LooksLikeOne unit word }
{
    word.wrapping_sub(unit) < unit
}

// Whether the sum of so many numbers may look like one number's though they are more or none.
#[inline(always)]
fn is_long(count: usize, unit: u32) -> bool
    requires { 0 < unit }
    ensures { result ≡ false → IsShort unit count }
{
    count >= (1 << 31) / unit as usize
}

// The sum of these rows or columns, with a unit for each.
#[inline(always)]
fn sum_of<I: Id>(ids: &[I], unit: u32) -> u32
    ensures { result ≡ total unit (map I.number ids.now) % 2 ^ 32 }
{
    let mut sum = 0u32;
    for id in ids {
        sum = sum.wrapping_add(unit.wrapping_add(id.number()));
    }
    sum
}

// Takes a neighbour off the sums of these rows or columns, and puts those that look like one
// neighbour's then into the set.
#[inline(always)]
fn lower<I: Id>(words: &mut [u32], unit: u32, ids: &[I], neighbour: u32, of_one: &mut IntSet)
    requires rising { IsRising (map I.number ids.now) }
    requires in_range { (x : ℕ) → Among x (map I.number ids.now) → x < length words.old }
    requires bound { of_one.old.bound ≡ length words.old }
    ensures lowers { Lowers unit neighbour (map I.number ids.now) words.old words.new }
    ensures ones { (x : ℕ) → Among x (map I.number ids.now)
        → LooksLikeOne unit (slice_index words.new x) → Among x of_one.new.members }
    ensures grows { (x : ℕ) → Among x of_one.old.members → Among x of_one.new.members }
    ensures bound { of_one.new.bound ≡ length words.old }
{
    let by = unit.wrapping_add(neighbour);
    for id in ids {
        let at = id.number();
        let word = words[at as usize].wrapping_sub(by);
        words[at as usize] = word;
        if looks_like_one(word, unit) {
            of_one.insert(at);
        }
    }
}
