//! The columns of a matrix that changes place by place.

ghost use Rattle.std.specs.Prelude.{◌≡◌, ◌↔◌, ◌+◌, ◌<◌, ◌^◌, [], length, IfErr, IfOk, IsTrue, OnOk, is_ok};
ghost use Rattle.bip_defs.specs.EditedMatrix.{with_place, without_place};
ghost use Rattle.bip_defs.specs.Lists.{StandsAt};
ghost use Rattle.bip_defs.specs.Matrix.{IsEntry, cols, column, entry_count, transpose};
ghost use Rattle.edit_session.specs.Columns.{HasRoom, IsGap, RoomyMatrix};
ghost use Rattle.sp_pattern.specs.Stored.{IsPattern};

use crate::arena::Arena;
use sp_ids::{Col, OutOfMemory, Row};
use sp_pattern::{Neighbours, Pattern};
use std::alloc::Global;
use std::marker::Model;

/// For each column of a matrix the rows of its entries, rising. Entries are inserted and removed one
/// by one.
///
/// All lists lie in one array, each with room to grow. They take at most some 24 bytes a column, and
/// 24 for each of the most entries that the matrix has had.
#[derive(Drop)]
pub struct Columns {
    rows: u32,
    entries: u32,
    lists: Arena,
}

impl Model for Columns {
    ghost use Rattle.edit_session.specs.Columns.{IsCounted, RoomyMatrix};

    ghost Value = { RoomyMatrix };

    ghost view = { λ s. record {
      matrix = record { rows = s.rows; columns = s.lists.lists };
      room = s.lists.room;
    } };

    ghost invariant = { λ s.
        IsCounted (record { rows = s.rows; columns = s.lists.lists }) s.entries };
}

impl Neighbours for Columns {
    ghost matrix = { λ s. s.matrix };

    fn rows(&self) -> u32 {
        self.rows
    }

    fn cols(&self) -> u32
        ensures count { result ≡ cols self.now.matrix }
        ensures pattern { IsPattern self.now.matrix }
    {
        self.lists.len() as u32
    }

    fn rows_of(&self, col: Col) -> &[Row] {
        self.lists.list(col.0 as usize)
    }
}

impl Columns {
    /// The columns of a matrix of so many entries, with room for a sixteenth more, which the first
    /// new entries take.
    ///
    /// Returns `OutOfMemory` if it cannot allocate 16 bytes a column and 4.25 an entry. Work: one
    /// copy of the lists.
    pub fn of<N: Neighbours>(
        alloc: Global,
        neighbours: &N,
        entries: u32,
    ) -> Result<Columns, OutOfMemory>
        requires { entry_count (N.matrix neighbours.now) ≡ entries }
        ensures matrix { IfOk result (λ s. s.matrix ≡ N.matrix neighbours.now) }
        ensures pattern { IfOk result (λ s. IsPattern s.matrix) }
    {
        let mut lists = no_lists(alloc, neighbours.cols(), entries)?;
        for col in 0..neighbours.cols() {
            lists.push(neighbours.rows_of(Col(col)))?;
        }
        Ok(Columns {
            rows: neighbours.rows(),
            entries,
            lists,
        })
    }

    /// The columns of the transpose of a pattern: its rows, with room as in [`Columns::of`].
    ///
    /// Returns `OutOfMemory` if it cannot allocate 16 bytes a row, 4.25 an entry and a list of the
    /// longest row. Work: one copy of the lists.
    pub fn of_rows(alloc: Global, pattern: &Pattern) -> Result<Columns, OutOfMemory>
        requires { IsPattern pattern.now }
        ensures { IfOk result (λ s. s.matrix ≡ transpose pattern.now) }
    {
        let entries = pattern.entries();
        let mut lists = no_lists(alloc, pattern.rows(), entries)?;
        let mut list = Vec::new(alloc);
        for row in 0..pattern.rows() {
            copy_numbers(pattern.cols_of(Row(row)), &mut list)?;
            lists.push(list.as_slice())?;
        }
        Ok(Columns {
            rows: pattern.cols(),
            entries,
            lists,
        })
    }

    /// The number of entries.
    pub fn entries(&self) -> u32
        ensures { result ≡ entry_count self.now.matrix }
    {
        self.entries
    }

    /// Whether a place is an entry. The row and the column may be any numbers.
    pub fn has(&self, row: Row, col: Col) -> bool
        ensures entry { IsTrue result ↔ IsEntry self.now.matrix row col }
        ensures pattern { IsPattern self.now.matrix }
    {
        col.0 < self.cols() && self.find(row, col).is_ok()
    }

    /// Makes room for one row more in a column; the matrix stays.
    ///
    /// A column without room moves to the end of the array, with twice the room. If the array has
    /// more places than four times the entries and twice the columns, all lists are copied into a
    /// new array first. So many edits come between two such copies that each edit pays for a
    /// constant part. Returns `OutOfMemory` if it cannot allocate the new room or the new array.
    pub fn make_room(&mut self, alloc: Global, col: Col) -> Result<(), OutOfMemory>
        requires col { col < cols self.old.matrix }
        requires few { length (column self.old.matrix col) < self.old.matrix.rows }
        ensures matrix { self.new.matrix ≡ self.old.matrix }
        ensures room { OnOk result (HasRoom self.new col) }
    {
        let at = col.0 as usize;
        let len = self.lists.list(at).len() as u32;
        if len < self.lists.room(at) {
            return Ok(());
        }
        if self.lists.slots() > 4 * self.entries as usize + 2 * self.lists.len() {
            self.pack(alloc)?;
        }
        self.widen(col)
    }

    // Gives a column twice the room that it needs.
    fn widen(&mut self, col: Col) -> Result<(), OutOfMemory>
        requires col { col < cols self.old.matrix }
        requires few { length (column self.old.matrix col) < self.old.matrix.rows }
        ensures matrix { self.new.matrix ≡ self.old.matrix }
        ensures room { OnOk result (HasRoom self.new col) }
    {
        let at = col.0 as usize;
        let room = more_room(self.lists.list(at).len() as u32, self.rows);
        self.lists.widen(at, room)
    }

    // Copies the lists into an array of their own length.
    fn pack(&mut self, alloc: Global) -> Result<(), OutOfMemory>
        ensures matrix { self.new.matrix ≡ self.old.matrix }
    {
        let packed = Columns::of(alloc, self, self.entries())?;
        self.lists = packed.lists;
        Ok(())
    }

    /// Inserts an entry, unless it is there. The column must have room for it. Work: a binary search,
    /// and one move of each row of the column behind it.
    pub fn insert(&mut self, row: Row, col: Col)
        requires row { row < self.old.matrix.rows }
        requires col { col < cols self.old.matrix }
        requires few { entry_count self.old.matrix + 1 < 2 ^ 32 }
        requires room { HasRoom self.old col }
        ensures matrix { self.new.matrix ≡ with_place self.old.matrix (row, col) }
    {
        if let Err(at) = self.find(row, col) {
            self.lists.insert(col.0 as usize, at, row);
            self.entries += 1;
        }
    }

    /// Removes an entry, if it is there; the column keeps its room. Work: as for
    /// [`Columns::insert`].
    pub fn take(&mut self, row: Row, col: Col)
        requires col { col < cols self.old.matrix }
        ensures matrix { self.new.matrix ≡ without_place self.old.matrix (row, col) }
        ensures room { IsEntry self.old.matrix row col → HasRoom self.new col }
        ensures pattern { IsPattern self.old.matrix }
    {
        if let Ok(at) = self.find(row, col) {
            self.lists.remove(col.0 as usize, at);
            self.entries -= 1;
        }
    }

    // Where a row stands in a column's list, or before which row it would stand.
    fn find(&self, row: Row, col: Col) -> Result<usize, usize>
        requires { col < cols self.now.matrix }
        ensures found { IfOk result (StandsAt (column self.now.matrix col) row) }
        ensures gap { IfErr result (IsGap (column self.now.matrix col) row) }
        ensures entry { IsTrue (is_ok result) ↔ IsEntry self.now.matrix row col }
    {
        self.rows_of(col).binary_search(&row)
    }
}

// No lists, with memory for so many of so many entries in all, and for a sixteenth more.
fn no_lists(alloc: Global, lists: u32, entries: u32) -> Result<Arena, OutOfMemory>
    ensures { IfOk result (λ a. a ≡ record { lists = []; room = [] }) }
{
    let entries_to_come = entries as usize / 16;
    Arena::with_capacity(alloc, lists as usize, entries as usize + entries_to_come)
}

// Gives a list the numbers of these columns, as rows, in place of its own.
fn copy_numbers(cols: &[Col], list: &mut Vec<Row>) -> Result<(), OutOfMemory>
    ensures { OnOk result (list.new.items ≡ cols.now) }
{
    list.clear();
    for col in cols {
        list.push(Row(col.0))?;
    }
    Ok(())
}

// Room for twice as many rows and one, but for no more than there are.
fn more_room(len: u32, rows: u32) -> u32
    requires { len < rows }
    ensures { len < result }
{
    let doubled = 2 * len as u64 + 1;
    if doubled < rows as u64 {
        doubled as u32
    } else {
        rows
    }
}
