//! Exchanges that give a column the row that it can have.

ghost use Rattle.std.specs.Bool.{OnTrue, OnFalse};
ghost use Rattle.std.specs.Prelude.{◌≡◌, ◌+◌, ◌<◌, ◌≤◌, List, IfOk};
ghost use Rattle.bip_defs.specs.LeastMatching.{mate_or};
ghost use Rattle.bip_defs.specs.Matching.{IsMaximum};
ghost use Rattle.bip_defs.specs.Matrix.{IsEntry, Place, cols};
ghost use Rattle.bip_graph.specs.Matching.{IsMaximumOf};
ghost use Rattle.least_match.specs.Extensions.{Excludes, Extends, HasAt};
ghost use Rattle.least_match.specs.Outcomes.{AreParted};
ghost use Rattle.least_match.specs.Ready.{CanExchange, IsReady};

use crate::classes::ColClasses;
use crate::exchange::{pass, swap};
use crate::parts::ColPart;
use crate::search::Outcome;
use crate::tail::ClassTail;
use crate::tree::SearchTrees;
use bip_graph::Matching;
use sp_ids::{Col, OutOfMemory, Row};
use sp_pattern::Pattern;
use std::alloc::Global;

/// A matrix, and what searches for exchanges keep from one to the next.
#[derive(Drop)]
pub struct Exchanges<'p> {
    pub pattern: &'p Pattern,
    pub parts: Vec<ColPart>,
    pub classes: ColClasses,
    pub trees: SearchTrees,
}

impl<'p> Exchanges<'p> {
    /// For a matrix with these parts of its columns. It is ready beside each maximum matching.
    ///
    /// Returns `OutOfMemory` if it cannot allocate the arrays.
    pub fn new(
        alloc: Global,
        pattern: &'p Pattern,
        parts: Vec<ColPart>,
    ) -> Result<Exchanges<'p>, OutOfMemory>
        requires { AreParted pattern.now parts.items }
        ensures ready { IfOk result (λ x. (m : List Place) → IsMaximum pattern.entry.now m
            → IsReady pattern.entry.now m 0 x) }
    {
        let classes = ColClasses::new(alloc, parts.as_slice())?;
        let trees = SearchTrees::new(alloc, pattern.cols())?;
        Ok(Exchanges {
            pattern,
            parts,
            classes,
            trees,
        })
    }

    /// Gives a row to a column, where some maximum matching that agrees at the columns before has
    /// it there. Whether one has.
    pub fn improve(&mut self, matching: &mut Matching, row: Row, col: Col) -> bool
        requires maximum { IsMaximumOf self.old.pattern.now matching.old }
        requires ready { IsReady self.old.pattern.now matching.old.pairs col self.old }
        requires entry { IsEntry self.old.pattern.now row col }
        ensures ready { IsReady self.old.pattern.now matching.old.pairs col self.new }
        ensures maximum { IsMaximumOf self.old.pattern.now matching.new }
        ensures found { OnTrue result
            (HasAt self.old.pattern.now matching.old.pairs col row matching.new.pairs) }
        ensures none { OnFalse result ((matching.new ≡ matching.old)
            × Excludes self.old.pattern.now matching.old.pairs col row) }
    {
        match matching.col_of(row) {
            None => {
                swap(matching, row, col);
                true
            }
            Some(other) => {
                if other.0 < col.0 {
                    return false;
                }
                if other.0 == col.0 {
                    return true;
                }
                match matching.row_of(col) {
                    None => {
                        pass(matching, other, col);
                        true
                    }
                    Some(_) => self.exchange(matching, row, col, other),
                }
            }
        }
    }

    // Gives a row to a column that has another one, by an exchange that gives the row's mate
    // another row, or none where another column gets one. Whether there is such an exchange.
    fn exchange(&mut self, matching: &mut Matching, row: Row, col: Col, other: Col) -> bool
        requires { CanExchange self.old.pattern.now matching.old row col other self.old }
        ensures ready { IsReady self.old.pattern.now matching.old.pairs col self.new }
        ensures maximum { IsMaximumOf self.old.pattern.now matching.new }
        ensures found { OnTrue result
            (HasAt self.old.pattern.now matching.old.pairs col row matching.new.pairs) }
        ensures none { OnFalse result ((matching.new ≡ matching.old)
            × Excludes self.old.pattern.now matching.old.pairs col row) }
    {
        let tail = ClassTail {
            pattern: self.pattern,
            classes: self.classes.numbers.as_slice(),
            col,
        };
        if !tail.has(other) {
            return false;
        }
        let part = self.parts[col.0 as usize];
        match tail.search(matching, part, other, &mut self.trees) {
            Outcome::Path(meeting) => {
                tail.exchange_path(matching, &self.trees, meeting);
                matching.pair(row, col);
                true
            }
            Outcome::ForwardEnds => {
                self.classes.split(&self.trees.forward);
                false
            }
            Outcome::BackwardEnds => {
                self.classes.split(&self.trees.backward);
                false
            }
        }
    }

    /// Settles a column: gives it the least row that it has in a maximum matching which agrees at
    /// the columns before.
    pub fn settle(&mut self, matching: &mut Matching, col: Col)
        requires col { col < cols self.old.pattern.now }
        requires maximum { IsMaximumOf self.old.pattern.now matching.old }
        requires ready { IsReady self.old.pattern.now matching.old.pairs col self.old }
        ensures pattern { self.new.pattern.now ≡ self.old.pattern.now }
        ensures ready { IsReady self.old.pattern.now matching.new.pairs (col + 1) self.new }
        ensures maximum { IsMaximumOf self.old.pattern.now matching.new }
        ensures extends { Extends self.old.pattern.now matching.old.pairs col matching.new.pairs }
        ensures least { (n : List Place) → Extends self.old.pattern.now matching.old.pairs col n
            → mate_or self.old.pattern.now.rows matching.new.pairs col
            ≤ mate_or self.old.pattern.now.rows n col }
    {
        let rows = self.pattern.rows_of(col);
        for row in rows {
            if self.improve(matching, *row, col) {
                return;
            }
        }
    }
}
