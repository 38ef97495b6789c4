//! The pattern of some of the entries.

ghost use Rattle.std.specs.Prelude.{◌≡◌, ◌+◌, ◌^◌, ◌<◌, ◌≤◌, ◌++◌, ℕ, Bool, length, nat_lt, pos, slice_index, slice_index_or, IfOk, OnOk};
ghost use Rattle.std.specs.Int.RustNames.{unsigned_abs};
ghost use Rattle.bip_defs.specs.Bottleneck.{above, restricted};
ghost use Rattle.bip_defs.specs.Matrix.{HasPlaces, entry_count};
ghost use Rattle.sp_ids.specs.declared.triples.Field.TheVariants.{Integer};
ghost use Rattle.sp_pattern.specs.Restricted.{AreKept, Decides, taken, taken_rows};
ghost use Rattle.sp_pattern.specs.Weights.{nonzero_places, weight_at};

use crate::compress::fill_starts;
use crate::sums::sums_of;
use crate::{Pattern, Weights};
use sp_ids::{Col, OutOfMemory, Row, Triples};
use std::alloc::Global;
use std::thread::Threads;

/// Which entries are taken, by where they stand in the order of all columns.
pub trait Choice {
    /// How many entries are chosen from.
    ghost count: { Self → ℕ };

    ghost takes: { Self → ℕ → Bool };

    fn takes(&self, at: usize) -> bool
        requires { at < count self.now }
        ensures { result ≡ takes self.now at };
}

/// The entries whose weight is greater than `least`.
#[derive(Clone, Copy)]
pub struct AboveWeight<'w> {
    pub weights: &'w [u64],
    pub least: u64,
}

impl Choice for AboveWeight<'_> {
    ghost count = { λ s. length s.weights.now };

    ghost takes = { λ s at. nat_lt s.least (slice_index s.weights.now at) };

    fn takes(&self, at: usize) -> bool {
        self.least < self.weights[at]
    }
}

/// The entries whose sum is not 0.
#[derive(Clone, Copy)]
pub struct Nonzero<'s> {
    pub sums: &'s [i128],
}

impl Choice for Nonzero<'_> {
    ghost count = { λ s. length s.sums.now };

    ghost takes = { λ s at. nat_lt 0 (unsigned_abs (slice_index_or s.sums.now at (pos 0))) };

    fn takes(&self, at: usize) -> bool {
        0 < self.sums[at].unsigned_abs()
    }
}

impl Pattern {
    /// The pattern of the places whose values do not add up to 0, of a file of the field integer.
    ///
    /// Values are added up in 128 bits, in which no sum wraps. Beside the pattern it takes what
    /// [`Pattern::build`] takes, the pattern of all places and 16 bytes for each of these. Returns
    /// `OutOfMemory` if it cannot allocate that. Work: that of `build`, a search in its column for
    /// each entry of the file, and three looks at each place.
    pub fn build_nonzero<R: Threads + Sync>(
        rt: &R,
        alloc: Global,
        triples: &Triples,
    ) -> Result<Pattern, OutOfMemory>
        requires { triples.now.field ≡ Integer }
        ensures { IfOk result
            (HasPlaces triples.now.rows triples.now.cols (nonzero_places triples.now)) }
    {
        let all = Pattern::build(rt, alloc, triples)?;
        let sums = sums_of(alloc, &all, triples)?;
        all.restrict(
            alloc,
            &Nonzero {
                sums: sums.as_slice(),
            },
        )
    }

    /// [`Weights::above`] of weights, which must be those of this pattern.
    pub fn above(
        &self,
        alloc: Global,
        weights: &Weights,
        least: u64,
    ) -> Result<Pattern, OutOfMemory>
        requires { weights.now.matrix ≡ self.now }
        ensures { IfOk result (λ b. b ≡ above self.now (weight_at weights.now) least) }
    {
        weights.above(alloc, least)
    }

    // The pattern of the entries that are taken.
    fn restrict<C: Choice>(&self, alloc: Global, choice: &C) -> Result<Pattern, OutOfMemory>
        requires { C.count choice.now ≡ entry_count self.now }
        ensures { IfOk result (λ b. (passes : ℕ → ℕ → Bool)
            → Decides self.now (C.takes choice.now) passes → b ≡ restricted self.now passes) }
    {
        self.is_pattern();
        let (starts, rows) = self.taken_columns(alloc, choice)?;
        Pattern::from_column_order(alloc, self.rows(), self.cols(), starts, rows)
    }

    // The rows of the entries that are taken, column by column.
    fn taken_columns<C: Choice>(
        &self,
        alloc: Global,
        choice: &C,
    ) -> Result<(Vec<u32>, Vec<Row>), OutOfMemory>
        requires { C.count choice.now ≡ entry_count self.now }
        ensures { IfOk result
            (λ o. AreKept self.now (taken_rows self.now (C.takes choice.now)) o.0.items o.1.items) }
    {
        self.is_pattern();
        let cols = self.cols();
        let mut starts = Vec::with_capacity(alloc, cols as usize + 1)?;
        let mut rows = Vec::with_capacity(alloc, self.entries() as usize)?;
        for col in 0..cols {
            fill_starts(&mut starts, col, rows.len() as u32)?;
            let (from, _to) = self.span(Col(col));
            push_taken(&mut rows, self.rows_of(Col(col)), from, choice)?;
        }
        fill_starts(&mut starts, cols, rows.len() as u32)?;
        Ok((starts, rows))
    }
}

impl<'p> Weights<'p> {
    /// The pattern of the entries whose weight is greater than `least`.
    ///
    /// Returns `OutOfMemory` if it cannot allocate the pattern, in which the list by columns has
    /// room for all entries, or what [`Pattern::build`] takes while the second order is derived
    /// from the first. Work: linear in the entries, the rows and the columns.
    pub fn above(&self, alloc: Global, least: u64) -> Result<Pattern, OutOfMemory>
        ensures { IfOk result (λ b. b ≡ above self.now.matrix (weight_at self.now) least) }
    {
        let weights = self.weights();
        self.pattern()
            .restrict(alloc, &AboveWeight { weights, least })
    }
}

// Adds the rows of a column's entries that are taken. The first of the entries stands at `from`.
fn push_taken<C: Choice>(
    rows: &mut Vec<Row>,
    column: &[Row],
    from: usize,
    choice: &C,
) -> Result<(), OutOfMemory>
    requires within { from + length column.now ≤ C.count choice.now }
    requires few { C.count choice.now < 2 ^ 32 }
    ensures { OnOk result
        (rows.new.items ≡ rows.old.items ++ taken (C.takes choice.now) from column.now) }
{
    for k in 0..column.len() {
        if choice.takes(from + k) {
            rows.push(column[k])?;
        }
    }
    Ok(())
}
