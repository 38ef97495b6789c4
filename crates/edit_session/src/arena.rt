//! Lists of rows that grow and shrink, all of them in one array.

ghost use Rattle.std.specs.Prelude.{◌≡◌, ◌<◌, ◌≤◌, ◌^◌, [], length, set, slice_index, IfOk, OnErr, OnOk};
ghost use Rattle.std.specs.List.{insert, remove};
ghost use Rattle.edit_session.specs.Arena.{list_at, with_list};
ghost use Rattle.edit_session.specs.Spans.{IsShiftedDown, IsShiftedUp};

use sp_ids::{OutOfMemory, Row};
use std::alloc::Global;
use std::marker::Model;

/// Where the rows of a list begin in the array, how many there are, and how many have room.
#[derive(Clone, Copy, Debug)]
pub struct Span {
    pub start: usize,
    pub len: u32,
    pub room: u32,
}

/// Lists of rows in one array, each with room of its own. A list that needs more room moves to the
/// end of the array, and its old room is not used again.
///
/// It takes 4 bytes a place of the array and 16 a list.
#[derive(Drop)]
pub struct Arena {
    spans: Vec<Span>,
    slots: Vec<Row>,
}

impl Model for Arena {
    ghost use Rattle.std.specs.Prelude.{length, map};
    ghost use Rattle.edit_session.specs.Arena.{RoomyLists, room_of, rows_in};
    ghost use Rattle.edit_session.specs.Spans.{AreSpans};

    ghost Value = { RoomyLists };

    ghost view = { λ a. record {
      lists = map (rows_in a.slots.items) a.spans.items;
      room = map room_of a.spans.items;
    } };

    ghost invariant = { λ a. AreSpans a.spans.items (length a.slots.items) };
}

impl Arena {
    /// No lists, with memory for so many of so many rows in all.
    pub fn with_capacity(alloc: Global, lists: usize, rows: usize) -> Result<Arena, OutOfMemory>
        ensures { IfOk result (λ a. a ≡ record { lists = []; room = [] }) }
    {
        Ok(Arena {
            spans: Vec::with_capacity(alloc, lists)?,
            slots: Vec::with_capacity(alloc, rows)?,
        })
    }

    /// The number of lists.
    pub fn len(&self) -> usize
        ensures { result ≡ length self.now.lists }
    {
        self.spans.len()
    }

    /// The number of places of the array, used or not.
    pub fn slots(&self) -> usize {
        self.slots.len()
    }

    /// The rows of a list.
    pub fn list(&self, list: usize) -> &[Row]
        requires { list < length self.now.lists }
        ensures { result.now ≡ list_at self.now list }
    {
        let span = self.spans[list];
        &self.slots.as_slice()[span.start..span.start + span.len as usize]
    }

    /// How many rows a list has room for.
    pub fn room(&self, list: usize) -> u32
        requires { list < length self.now.lists }
        ensures room { result ≡ slice_index self.now.room list }
        ensures filled { length (list_at self.now list) ≤ result }
    {
        self.spans[list].room
    }

    /// Adds a list of these rows at the end, with room for no more.
    pub fn push(&mut self, rows: &[Row]) -> Result<(), OutOfMemory>
        requires { length rows.now < 2 ^ 32 }
        ensures ok { OnOk result (self.new ≡ with_list self.old rows.now) }
        ensures err { OnErr result (self.new ≡ self.old) }
    {
        let span = Span {
            start: self.slots.len(),
            len: rows.len() as u32,
            room: rows.len() as u32,
        };
        // Once there is room nothing fails.
        self.spans.reserve(1)?;
        self.slots.extend_from_slice(rows)?;
        self.spans.push(span)?;
        Ok(())
    }

    /// Moves a list to the end of the array, where it has this room. If allocation fails, the lists
    /// and their room stay as they were.
    pub fn widen(&mut self, list: usize, room: u32) -> Result<(), OutOfMemory>
        requires list { list < length self.old.lists }
        requires room { length (list_at self.old list) ≤ room }
        ensures lists { self.new.lists ≡ self.old.lists }
        ensures ok { OnOk result (self.new.room ≡ set self.old.room list room) }
        ensures has { OnOk result (slice_index self.new.room list ≡ room) }
        ensures err { OnErr result (self.new.room ≡ self.old.room) }
    {
        let span = self.spans[list];
        let start = self.slots.len();
        self.slots.reserve(room as usize)?;
        self.slots
            .extend_from_within(span.start..span.start + span.len as usize)?;
        self.slots.resize(start + room as usize, Row(0))?;
        self.spans[list] = Span {
            start,
            len: span.len,
            room,
        };
        Ok(())
    }

    /// Inserts a row into a list, before the one at this place.
    pub fn insert(&mut self, list: usize, at: usize, row: Row)
        requires list { list < length self.old.lists }
        requires at { at ≤ length (list_at self.old list) }
        requires room { length (list_at self.old list) < slice_index self.old.room list }
        ensures lists { self.new.lists
            ≡ set self.old.lists list (insert (list_at self.old list) at row) }
        ensures room { self.new.room ≡ self.old.room }
    {
        let span = self.spans[list];
        let end = span.start + span.len as usize;
        shift_up(self.slots.as_mut_slice(), span.start + at, end, row);
        self.spans[list] = Span {
            start: span.start,
            len: span.len + 1,
            room: span.room,
        };
    }

    /// Removes the row at this place from a list. The list keeps its room.
    pub fn remove(&mut self, list: usize, at: usize)
        requires list { list < length self.old.lists }
        requires at { at < length (list_at self.old list) }
        ensures lists { self.new.lists
            ≡ set self.old.lists list (remove (list_at self.old list) at) }
        ensures room { self.new.room ≡ self.old.room }
        ensures filled { length (list_at self.old list) ≤ slice_index self.old.room list }
    {
        let span = self.spans[list];
        let end = span.start + span.len as usize;
        shift_down(self.slots.as_mut_slice(), span.start + at, end);
        self.spans[list] = Span {
            start: span.start,
            len: span.len - 1,
            room: span.room,
        };
    }
}

// Moves the rows of these places up by one, and writes a row before them.
fn shift_up(slots: &mut [Row], from: usize, end: usize, row: Row)
    requires from { from ≤ end }
    requires end { end < length slots.old }
    ensures { IsShiftedUp from end row slots.old slots.new }
{
    slots.copy_within(from..end, from + 1);
    slots[from] = row;
}

// Moves the rows of these places but the first down by one, over the first.
fn shift_down(slots: &mut [Row], from: usize, end: usize)
    requires from { from < end }
    requires end { end ≤ length slots.old }
    ensures { IsShiftedDown from end slots.old slots.new }
{
    slots.copy_within(from + 1..end, from);
}
