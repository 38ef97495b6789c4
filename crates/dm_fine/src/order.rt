//! The order of the components where numbers rise along an entry.

ghost use Rattle.std.specs.Prelude.{◌≡◌, ◌+◌, ◌<◌, ℕ, [], length, slice_index, IfNone, IfOk, IfSome, OnOk};
ghost use Rattle.bip_defs.specs.Blocks.{AreBlocksOf};
ghost use Rattle.bip_defs.specs.Lists.{Among};
ghost use Rattle.bip_graph.specs.Matching.{none};
ghost use Rattle.dm_fine.specs.Condensation.{IsCondensation};
ghost use Rattle.dm_fine.specs.Layout.{layout};
ghost use Rattle.dm_fine.specs.Waiting.{IsAtEnd, IsOrdering, IsReleasing, IsTaken};
ghost use Rattle.dm_fine.specs.Waits.{first_of};

use crate::condensation::Condensation;
use crate::waits::{IDLE, NONE, Wait, hold};
use bip_graph::Blocks;
use column_lists::ColumnLists;
use int_set::IntSet;
use sp_ids::{OutOfMemory, Row};
use std::alloc::Global;

/// Where the order stands: the number of each row's component, or `u32::MAX` where that is placed
/// or the row has none; where components wait; those that lead to placed ones alone; how many were
/// looked at; and the blocks that were placed.
#[derive(Drop)]
pub struct Waiting {
    pub of_rows: Vec<u32>,
    pub waits: Vec<Wait>,
    pub ready: IntSet,
    pub cursor: u32,
    pub blocks: Blocks,
}

impl<C: ColumnLists> Condensation<C> {
    /// Appends the components to a list of no blocks, in order: each time, of those that have no
    /// entry in rows of another one that is still to come, the one with the least column. A row has
    /// the number of its component.
    ///
    /// Components are looked at by rising numbers, when no lesser one is ready. One with an entry
    /// in a row of another that is not placed waits in the list of that one, and is looked at
    /// again, from that entry on, when that is placed; else it is ready. Takes 16 bytes a component
    /// and a bit for the set of those that are ready. Returns `OutOfMemory` if it cannot allocate
    /// that, or room for the blocks. Work: each entry of the components' columns is passed once,
    /// where it takes one look-up, and looked at once more where a component waited; one insertion
    /// in the set and one removal for a component that waited.
    pub fn order(
        &self,
        alloc: Global,
        of_rows: Vec<u32>,
        blocks: Blocks,
    ) -> Result<Blocks, OutOfMemory>
        requires made { IsCondensation (layout (C.matrix self.now.columns)
            (C.listed self.now.columns) self.now.rows self.now.cols) of_rows.items }
        requires none { blocks ≡ [] }
        ensures { IfOk result (AreBlocksOf (C.matrix self.now.columns)) }
    {
        let count = self.cols.count();
        let mut s = Waiting {
            of_rows,
            waits: vec![in alloc; IDLE; count as usize]?,
            ready: IntSet::new(alloc, count)?,
            cursor: 0,
            blocks,
        };
        while let Some(own) = self.next(&mut s) {
            self.place(own, &mut s)?;
        }
        Ok(s.blocks)
    }

    // The next component: the least of those that are ready, or the first one that is found to be
    // so when it is looked at.
    fn next(&self, s: &mut Waiting) -> Option<u32>
        requires { IsOrdering (layout (C.matrix self.now.columns) (C.listed self.now.columns)
            self.now.rows self.now.cols) s.old }
        ensures some { IfSome result (λ k. IsTaken (layout (C.matrix self.now.columns)
            (C.listed self.now.columns) self.now.rows self.now.cols) k s.new) }
        ensures none { IfNone result (IsAtEnd (layout (C.matrix self.now.columns)
            (C.listed self.now.columns) self.now.rows self.now.cols) s.new) }
        ensures blocks { s.new.blocks ≡ s.old.blocks }
    {
        if let Some(own) = s.ready.take_least() {
            return Some(own);
        }
        while s.cursor < self.cols.count() {
            let own = s.cursor;
            s.cursor = own + 1;
            let stop = self.look(s.of_rows.as_slice(), own, 0, 0);
            if stop.on == NONE {
                return Some(own);
            }
            hold(s.waits.as_mut_slice(), own, stop);
        }
        None
    }

    // Looks again at the components that wait at one that is placed now.
    fn release(&self, own: u32, s: &mut Waiting)
        requires { IsReleasing (layout (C.matrix self.now.columns) (C.listed self.now.columns)
            self.now.rows self.now.cols) own (first_of s.old.waits.items own) s.old }
        ensures ordering { IsOrdering (layout (C.matrix self.now.columns)
            (C.listed self.now.columns) self.now.rows self.now.cols) s.new }
        ensures blocks { s.new.blocks ≡ s.old.blocks }
    {
        let mut next = s.waits[own as usize].first;
        while next != NONE {
            let wait = s.waits[next as usize];
            let stop = self.look(s.of_rows.as_slice(), next, wait.col, wait.at);
            if stop.on == NONE {
                s.ready.insert(next);
            } else {
                hold(s.waits.as_mut_slice(), next, stop);
            }
            next = wait.next;
        }
    }

    // Appends the next component as a block.
    fn place(&self, own: u32, s: &mut Waiting) -> Result<(), OutOfMemory>
        requires { IsTaken (layout (C.matrix self.now.columns) (C.listed self.now.columns)
            self.now.rows self.now.cols) own s.old }
        ensures ordering { OnOk result (IsOrdering (layout (C.matrix self.now.columns)
            (C.listed self.now.columns) self.now.rows self.now.cols) s.new) }
        ensures longer { OnOk result (length s.new.blocks ≡ length s.old.blocks + 1) }
    {
        let rows = self.rows.of(own);
        s.blocks.push(rows, self.cols.of(own))?;
        mark_off(rows, s.of_rows.as_mut_slice());
        self.release(own, s);
        Ok(())
    }
}

// Takes the numbers of rows off.
fn mark_off(rows: &[Row], of_rows: &mut [u32])
    requires { (r : ℕ) → Among r rows.now → r < length of_rows.old }
    ensures gone { (r : ℕ) → Among r rows.now → slice_index of_rows.new r ≡ none }
    ensures others { (r : ℕ) → ¬ Among r rows.now
        → slice_index of_rows.new r ≡ slice_index of_rows.old r }
{
    for row in rows {
        of_rows[row.0 as usize] = NONE;
    }
}
