//! The two searches over a matrix with a matching, and what they mark.

ghost use Rattle.std.specs.Prelude.{◌≡◌, IfOk};
ghost use Rattle.bip_defs.specs.Matching.{IsMatching};
ghost use Rattle.bip_defs.specs.Matrix.{cols};
ghost use Rattle.dm_coarse.specs.Searches.{AreColsIfMaximum, AreRowsIfMaximum};

use bip_graph::{Matching, matchings_of_the_transpose};
use hall_witness::reached_if_maximum;
use sp_ids::OutOfMemory;
use sp_pattern::{FromRows, Pattern};
use std::alloc::Global;
use std::thread::{Threads, join};

/// A matrix and a matching of it.
#[derive(Clone, Copy)]
pub struct Matched<'p> {
    pub pattern: &'p Pattern,
    pub matching: &'p Matching,
    ghost rows: { matching.now.rows ≡ pattern.now.rows },
    ghost cols: { matching.now.cols ≡ cols pattern.now },
    // A ghost field has one proof at most, so it says that nothing refutes this.
    ghost of_entries: { ¬ ¬ IsMatching pattern.now matching.now.pairs },
}

impl Matched<'_> {
    /// Marks the horizontal columns and the vertical rows, by two searches at once, if the matching
    /// is maximum.
    pub fn marks<R: Threads + Sync>(
        &self,
        rt: &R,
        alloc: Global,
    ) -> (
        Result<Option<Vec<bool>>, OutOfMemory>,
        Result<Option<Vec<bool>>, OutOfMemory>,
    )
        ensures cols { IfOk result.0 (AreColsIfMaximum self.now.pattern.now self.now.matching.now) }
        ensures rows { IfOk result.1 (AreRowsIfMaximum self.now.pattern.now self.now.matching.now) }
    {
        let of_cols = move || -> Result<Option<Vec<bool>>, OutOfMemory>
            ensures { IfOk result
                (AreColsIfMaximum self.entry.now.pattern.now self.entry.now.matching.now) }
        { self.horizontal_cols(alloc) };
        let of_rows = move || -> Result<Option<Vec<bool>>, OutOfMemory>
            ensures { IfOk result
                (AreRowsIfMaximum self.entry.now.pattern.now self.entry.now.matching.now) }
        { self.vertical_rows(alloc) };
        join(rt, of_cols, of_rows)
    }

    /// [`Matched::marks`], by one search after the other.
    pub fn marks_in_turn(
        &self,
        alloc: Global,
    ) -> (
        Result<Option<Vec<bool>>, OutOfMemory>,
        Result<Option<Vec<bool>>, OutOfMemory>,
    )
        ensures cols { IfOk result.0 (AreColsIfMaximum self.now.pattern.now self.now.matching.now) }
        ensures rows { IfOk result.1 (AreRowsIfMaximum self.now.pattern.now self.now.matching.now) }
    {
        (self.horizontal_cols(alloc), self.vertical_rows(alloc))
    }

    /// Marks the horizontal columns, if the matching is maximum.
    fn horizontal_cols(&self, alloc: Global) -> Result<Option<Vec<bool>>, OutOfMemory>
        ensures { IfOk result (AreColsIfMaximum self.now.pattern.now self.now.matching.now) }
    {
        reached_if_maximum(alloc, self.pattern, self.matching)
    }

    /// Marks the vertical rows, if the matching is maximum.
    fn vertical_rows(&self, alloc: Global) -> Result<Option<Vec<bool>>, OutOfMemory>
        ensures { IfOk result (AreRowsIfMaximum self.now.pattern.now self.now.matching.now) }
    {
        matchings_of_the_transpose();
        let side = FromRows {
            pattern: self.pattern,
        };
        reached_if_maximum(alloc, &side, self.matching)
    }
}
