//! The tree of words, as one list: the words of each level follow those of the level above it, and
//! the words below word `k` are `64 * k + 1` to `64 * k + 64`. So bit `i` of the list speaks of
//! word `i + 1`.

ghost use Rattle.std.specs.Prelude.{◌≡◌, ◌≢◌, ◌+◌, ◌*◌, ◌<◌, ◌≤◌, ◌^◌, ℕ, length, replicate, IfOk, slice_index};
ghost use Rattle.int_set.specs.Tree.{IsTree, NoneSet, start_of};
ghost use Rattle.int_set.specs.Words.{bit, IsSet};

use sp_ids::OutOfMemory;
use std::alloc::Global;

/// How many levels a tree has above its lowest, and how many words they have.
#[derive(Clone, Copy)]
pub struct Shape {
    pub depth: u32,
    pub start: usize,
}

/// The least shape whose lowest level can have this many words.
pub fn shape_for(lowest: usize) -> Shape
    requires { lowest < 2 ^ 32 }
    ensures start { result.start ≡ start_of result.depth }
    ensures wide { lowest ≤ 63 * result.start + 1 }
    ensures small { result.start < 2 ^ 34 }
{
    let mut depth = 0u32;
    let mut start = 0usize;
    while 63 * start + 1 < lowest {
        start = 64 * start + 1;
        depth += 1;
    }
    Shape { depth, start }
}

/// Words without a bit.
pub fn zeros(alloc: Global, count: usize) -> Result<Vec<u64>, OutOfMemory>
    ensures { IfOk result (λ words. words.items ≡ replicate count 0) }
{
    let words = vec![in alloc; 0u64; count]?;
    Ok(words)
}

/// Sets the bit of a number, and the bits above it.
pub fn mark(words: &mut [u64], first: usize, number: u32)
    requires tree { IsTree words.old first }
    requires fits { length words.old ≤ first + 1 }
    requires holds { first + number < 64 * length words.old }
    requires small { first < 2 ^ 40 }
    ensures tree { IsTree words.new first }
    ensures set { IsSet words.new (first + number) }
    ensures others { (x : ℕ) → x ≢ number → bit words.new (first + x) ≡ bit words.old (first + x) }
{
    let mut bit = first + number as usize;
    loop {
        let at = bit / 64;
        let word = words[at];
        words[at] = word | 1 << (bit % 64);
        if word != 0 || at == 0 {
            return;
        }
        bit = at - 1;
    }
}

/// Clears the bit of a number, and the bits above it whose words are left empty.
pub fn clear(words: &mut [u64], first: usize, number: u32)
    requires tree { IsTree words.old first }
    requires fits { length words.old ≤ first + 1 }
    requires holds { first + number < 64 * length words.old }
    requires small { first < 2 ^ 40 }
    ensures tree { IsTree words.new first }
    ensures clear { ¬ IsSet words.new (first + number) }
    ensures others { (x : ℕ) → x ≢ number → bit words.new (first + x) ≡ bit words.old (first + x) }
{
    let mut bit = first + number as usize;
    loop {
        let at = bit / 64;
        let word = words[at] & !(1 << (bit % 64));
        words[at] = word;
        if word != 0 || at == 0 {
            return;
        }
        bit = at - 1;
    }
}

/// The first bit of the lowest level that is set.
pub fn least_bit(words: &[u64], depth: u32) -> usize
    requires tree { IsTree words.now (64 * start_of depth) }
    requires some { slice_index words.now 0 ≢ 0 }
    requires a_word { 0 < length words.now }
    requires fits { length words.now ≤ 64 * start_of depth + 1 }
    requires small { 64 * start_of depth < 2 ^ 40 }
    ensures set { IsSet words.now result }
    ensures lowest { 64 * start_of depth ≤ result }
    ensures least { NoneSet words.now (64 * start_of depth) result }
{
    let mut at = 0;
    for _ in 0..depth {
        at = 64 * at + words[at].trailing_zeros() as usize + 1;
    }
    64 * at + words[at].trailing_zeros() as usize
}
