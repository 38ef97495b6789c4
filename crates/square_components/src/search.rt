//! What a depth-first search for strong components keeps, and the changes of it.

ghost use Rattle.std.specs.Prelude.{◌≡◌, ◌≢◌, ℕ, ◌+◌, ◌<◌, ◌≤◌, ◌++◌, List, [], ◌∷◌, length, slice_index, vec_capacity, IfNone, IfOk, IfSome, MatchBool};
ghost use Rattle.bip_defs.specs.Lists.{Among, IsRising};
ghost use Rattle.bip_defs.specs.Matrix.{Matrix};
ghost use Rattle.bip_graph.specs.Matching.{none};
ghost use Rattle.square_components.specs.Numbers.{look};
ghost use Rattle.square_components.specs.Part.{IsSquarePart};
ghost use Rattle.square_components.specs.Stacks.{PathState};
ghost use Rattle.square_components.specs.Steps.{AreBelow, AreUnmet, Assigns, GoesBack, HasRoom, IsBeginning, IsLast, Leaves, Passes, StopsAt, entering, finishing, merging, with_top};

use crate::part::SquarePart;
use column_lists::ColumnLists;
use sp_ids::OutOfMemory;
use sp_pattern::NumberList;
use std::alloc::Global;
use std::marker::Model;

/// Stands for no number.
pub const NONE: u32 = u32::MAX;

/// The state of the search. The rows of the path are kept in the order in which they were entered,
/// cut into the components that are known so far.
///
/// Of each row it keeps one number: 0 before it is met, p + 1 at the place p of the path,
/// `u32::MAX` - k in the component k once that is finished, and `u32::MAX` outside the square part.
/// The rows of the path and the finished components are together at most 2^32 - 1, so a place is
/// below the number of each finished component.
#[derive(Drop)]
pub struct ComponentSearch {
    stack: Vec<u32>,
    starts: Vec<u32>,
    frames: Vec<(u32, u32)>,
    state: Vec<u32>,
    count: u32,
    room: usize,
}

impl Model for ComponentSearch {
    ghost use Rattle.std.specs.Prelude.{length, vec_capacity, ◌≤◌};
    ghost use Rattle.square_components.specs.Stacks.{PathState};

    ghost Value = { PathState };

    ghost view = { λ s. record {
      stack = s.stack.items;
      starts = s.starts.items;
      frames = s.frames.items;
      state = s.state.items;
      count = s.count;
      room = s.room;
    } };

    ghost invariant = { λ s. (s.room ≤ vec_capacity s.stack)
        × (s.room ≤ vec_capacity s.starts)
        × (s.room ≤ vec_capacity s.frames) };
}

impl ComponentSearch {
    /// The search of a square part, of which no row was met.
    pub fn new<C: ColumnLists, S: SquarePart>(
        alloc: Global,
        columns: C,
        part: S,
    ) -> Result<ComponentSearch, OutOfMemory>
        requires { IsSquarePart (C.matrix columns) (S.rows part) (S.cols part) (S.pairs part) }
        ensures { IfOk result (IsBeginning (Matrix.rows (C.matrix columns)) (S.rows part)) }
    {
        let room = part.len() as usize;
        let state = unmet(alloc, columns, part)?;
        let stack = Vec::with_capacity(alloc, room)?;
        let starts = Vec::with_capacity(alloc, room)?;
        let frames = Vec::with_capacity(alloc, room)?;
        Ok(ComponentSearch {
            stack,
            starts,
            frames,
            state,
            count: 0,
            room,
        })
    }

    /// Whether a row was met.
    pub fn is_met(&self, row: u32) -> bool
        requires { row < length self.now.state }
        ensures { MatchBool result (look self.now.state row ≢ 0) (look self.now.state row ≡ 0) }
    {
        self.state[row as usize] != 0
    }

    /// The row at a place of the path.
    #[inline(always)]
    pub fn row_at(&self, place: u32) -> u32
        requires { place < length self.now.stack }
        ensures { result ≡ slice_index self.now.stack place }
    {
        self.stack[place as usize]
    }

    /// Enters a row as a component of its own, and returns its place.
    #[inline(always)]
    pub fn enter(&mut self, row: u32) -> u32
        requires row { row < length self.old.state }
        requires room { HasRoom self.old }
        ensures place { result ≡ length self.old.stack }
        ensures state { self.new ≡ entering self.old row }
    {
        let place = self.stack.len() as u32;
        self.stack.push_reserved(row);
        self.starts.push_reserved(place);
        self.state[row as usize] = place + 1;
        place
    }

    /// Notes how many entries of the row at a place were gone over, to come back to it.
    #[inline(always)]
    pub fn wait(&mut self, place: u32, gone: u32)
        requires { length self.old.frames < self.old.room }
        ensures { self.new ≡ with_top self.old place gone }
    {
        self.frames.push_reserved((place, gone));
    }

    /// The last place that was noted, and how many of its entries were gone over. It is noted no
    /// more.
    #[inline(always)]
    pub fn back(&mut self) -> Option<(u32, u32)>
        ensures some { IfSome result (λ f. GoesBack self.old f self.new) }
        ensures none { IfNone result ((self.old.frames ≡ []) × (self.new ≡ self.old)) }
    {
        self.frames.pop()
    }

    /// Goes over entries from a place of their list on, up to one that leads to a row that was not
    /// met, and returns where that one stands. The components after a row to which an entry leads
    /// are joined to that of the row.
    #[inline(always)]
    pub fn scan<N: NumberList>(&mut self, list: N, from: usize) -> usize
        requires starts { IsRising self.old.starts }
        requires first { Among 0 self.old.starts }
        requires rows { (r : ℕ) → Among r (N.numbers list) → r < length self.old.state }
        requires from { from ≤ length (N.numbers list) }
        ensures same { self.new ≡ merging self.old self.new.starts }
        ensures passes { Passes self.old.state (N.numbers list) from self.old.starts
            result self.new.starts }
        ensures stops { StopsAt self.old.state (N.numbers list) result }
    {
        pass(self.state.as_slice(), &mut self.starts, list, from)
    }

    /// Leaves the row at the last place, and finishes its component if it starts there.
    #[inline(always)]
    pub fn leave(&mut self, place: u32)
        requires starts { self.old.starts ≢ [] }
        requires on { place < length self.old.stack }
        requires count { self.old.count < none }
        requires rows { (i : ℕ) → i < length self.old.stack
            → slice_index self.old.stack i < length self.old.state }
        ensures { Leaves self.old place self.new }
    {
        if last_of(self.starts.as_slice()) == place {
            self.finish(place);
        }
    }

    // Numbers the rows of the last component, which starts at `start`, and takes them off the
    // path.
    fn finish(&mut self, start: u32)
        requires start { IsLast self.old.starts start }
        requires on { start < length self.old.stack }
        requires count { self.old.count < none }
        requires rows { (i : ℕ) → i < length self.old.stack
            → slice_index self.old.stack i < length self.old.state }
        ensures numbers { (v : ℕ) → v + self.old.count ≡ none → Assigns self.old.stack start
            (length self.old.stack) v self.old.state self.new.state }
        ensures starts { self.old.starts ≡ self.new.starts ++ start ∷ [] }
        ensures same { self.new ≡ finishing self.old start self.new.starts self.new.state }
    {
        let from = start as usize;
        let number = NONE - self.count;
        number_from(
            self.stack.as_slice(),
            from,
            self.state.as_mut_slice(),
            number,
        );
        self.stack.truncate(from);
        cut(&mut self.starts);
        self.count += 1;
    }

    /// The numbers that the rows have, and how many components are finished.
    pub fn end(self) -> (Vec<u32>, u32)
        ensures state { result.0.items ≡ self.state }
        ensures count { result.1 ≡ self.count }
    {
        (self.state, self.count)
    }
}

// For each row 0 where it is in the square part, and else no number.
fn unmet<C: ColumnLists, S: SquarePart>(
    alloc: Global,
    columns: C,
    part: S,
) -> Result<Vec<u32>, OutOfMemory>
    requires { IsSquarePart (C.matrix columns) (S.rows part) (S.cols part) (S.pairs part) }
    ensures { IfOk result
        (λ v. AreUnmet (Matrix.rows (C.matrix columns)) (S.rows part) v.items) }
{
    let rows = columns.rows();
    if part.len() == rows {
        return Ok(vec![in alloc; 0u32; rows as usize]?);
    }
    let mut state = vec![in alloc; NONE; rows as usize]?;
    for place in 0..part.len() {
        state[part.row_at(place).0 as usize] = 0;
    }
    Ok(state)
}

// Goes over the entries from one on, up to one in a row that was not met, and takes off the starts
// above each row that it meets.
#[inline(always)]
fn pass<N: NumberList>(state: &[u32], starts: &mut Vec<u32>, list: N, from: usize) -> usize
    requires starts { IsRising starts.old.items }
    requires first { Among 0 starts.old.items }
    requires rows { (r : ℕ) → Among r (N.numbers list) → r < length state.now }
    requires from { from ≤ length (N.numbers list) }
    ensures passes { Passes state.now (N.numbers list) from starts.old.items
        result starts.new.items }
    ensures stops { StopsAt state.now (N.numbers list) result }
    ensures capacity { vec_capacity starts.old ≤ vec_capacity starts.new }
{
    let mut last = last_of(starts.as_slice());
    for at in from..list.len() {
        let met = state[list.at(at) as usize];
        if met == 0 {
            return at;
        }
        if met <= last {
            last = drop_from(starts, met);
        }
    }
    list.len()
}

// The last of a list.
#[inline(always)]
fn last_of(list: &[u32]) -> u32
    requires { list.now ≢ [] }
    ensures { IsLast list.now result }
{
    list[list.len() - 1]
}

// Takes the last off a list.
#[inline(always)]
fn cut(list: &mut Vec<u32>)
    ensures items { (prefix : List ℕ) (x : ℕ) → list.old.items ≡ prefix ++ x ∷ []
        → list.new.items ≡ prefix }
    ensures capacity { vec_capacity list.old ≤ vec_capacity list.new }
{
    list.pop();
}

// Takes the places from `met` on off a rising list, which has 0, and returns the last that is left.
fn drop_from(starts: &mut Vec<u32>, met: u32) -> u32
    requires rising { IsRising starts.old.items }
    requires first { Among 0 starts.old.items }
    requires met { 0 < met }
    ensures starts { AreBelow met starts.old.items starts.new.items }
    ensures last { IsLast starts.new.items result }
    ensures capacity { vec_capacity starts.old ≤ vec_capacity starts.new }
{
    let mut last = last_of(starts.as_slice());
    while last >= met {
        cut(starts);
        last = last_of(starts.as_slice());
    }
    last
}

// Gives a number to the rows at the places from one on.
fn number_from(stack: &[u32], start: usize, state: &mut [u32], number: u32)
    requires start { start ≤ length stack.now }
    requires rows { (i : ℕ) → i < length stack.now → slice_index stack.now i < length state.old }
    ensures { Assigns stack.now start (length stack.now) number state.old state.new }
{
    for at in start..stack.len() {
        state[stack[at] as usize] = number;
    }
}
