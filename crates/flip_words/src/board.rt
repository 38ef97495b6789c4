//! The board.

ghost use Rattle.std.specs.Prelude.{◌≡◌, ℕ, ◌+◌, ◌<◌, ◌≤◌, ◌++◌, Some, length, IfOk, IfErr};
ghost use Rattle.std.specs.Mem.Slots.{IsFull, slots_items, slots_len};
ghost use Rattle.bip_defs.specs.WordValues.{held};
ghost use Rattle.sp_ids.specs.Limits.{max_workers};
ghost use Rattle.flip_words.specs.Board.{AreTrees, IsOpenedFrom, col_vertex};
ghost use Rattle.flip_words.specs.ClosedBoards.{SettlesAll, gathered};
ghost use Rattle.flip_words.specs.WordCodes.{half};
ghost use Rattle.flip_words.specs.Listed.{followed_by, nothing};
ghost use Rattle.flip_words.specs.OpenedBoards.{AreOpening};
ghost use Rattle.flip_words.specs.Rule.{opened_in};
ghost use Rattle.flip_words.specs.Seat.{AreAllSeats, HasSet, HasSetTo, HoldsAllSeats, KnowsTaker, LeavesUnset, Took, after_look, after_set, after_take, first_seat, new_seat, new_seats};
ghost use Rattle.flip_words.specs.Stored.{AreLeft, board_in};
ghost use Rattle.flip_words.specs.Taken.{taker_before};

use crate::closing::read_mates;
use crate::opening::lay_words;
use crate::plays::{Newcomer, OneTakerEach, Take, TakesIn, VertexLook, VertexSet};
use crate::seat::{FlipSeat, TableSeat};
use crate::seats::are_rightful;
use crate::taken::Taken;
use crate::views::{Opening, View};
use crate::words;
use atomic_table::{Closed, Table};
use bip_graph::{Matching, Mates};
use sp_ids::{Col, Id, OutOfMemory, Row};
use std::alloc::Global;
use std::marker::Model;
use std::snapshot::Snapshot;

/// A word for each row and each column, with its mate and the root of its tree, and a word for each
/// tree, with the seat that took it. It keeps 8 bytes for each row and 16 for each column.
#[derive(Drop)]
pub struct FlipBoard {
    table: Table<(), View, Opening, OneTakerEach, Global>,
    rows: usize,
    cols: usize,
}

impl Model for FlipBoard {
    ghost use Rattle.flip_words.specs.Board.{Board};

    ghost Value = { Board };

    ghost use Rattle.flip_words.specs.Rule.{opened_in};
    ghost use Rattle.flip_words.specs.Stored.{IsLaid, board_in};

    ghost view = { λ b. board_in b.table.shared.table_id
        (opened_in b.table.shared.key.rows b.table.shared.key.cols
        b.table.shared.key.words.value.items) };

    ghost invariant = { λ b. IsLaid b.table.shared.table_id b.rows b.cols
        b.table.shared.key.rows b.table.shared.key.cols b.table.shared.key.words.value.items };
}

// What a take answers where the tree's word held this.
fn answer(taker: Option<u32>) -> Taken
    ensures { taker_before result ≡ taker }
{
    match taker {
        Some(number) => Taken::Held(number),
        None => Taken::Mine,
    }
}

impl FlipBoard {
    /// A board with the mates of the matching and with these trees: for each row and each column
    /// the root of its tree, or none. Nothing is taken or set. With it come as many seats as are
    /// asked for, from 1 to 64, numbered from 0.
    ///
    /// Returns `OutOfMemory` if it cannot allocate the words or the seats. While it works it holds
    /// the words twice. Work: one write for each word.
    pub fn new(
        alloc: Global,
        matching: &Matching,
        row_tree: &[Option<Col>],
        col_tree: &[Option<Col>],
        seats: u32,
    ) -> Result<(FlipBoard, Vec<FlipSeat>), OutOfMemory>
        requires seats { (1 ≤ seats) × (seats ≤ max_workers) }
        requires row_tree { AreTrees matching.now.rows matching.now.cols row_tree.now }
        requires col_tree { AreTrees matching.now.cols matching.now.cols col_tree.now }
        ensures board { IfOk result
            (λ b. IsOpenedFrom matching.now (row_tree.now ++ col_tree.now) b.0) }
        ensures seats { IfOk result (λ b. b.1.items ≡ new_seats b.0 seats) }
    {
        let words = lay_words(alloc, matching, row_tree, col_tree)?;
        let (board, first) = FlipBoard::open(alloc, &words, matching.rows(), matching.cols())?;
        let all = board.split_off(alloc, first, seats)?;
        Ok((board, all))
    }

    // A board that is opened with these words, and its first seat.
    fn open(
        alloc: Global,
        words: &Vec<u64>,
        rows: u32,
        cols: u32,
    ) -> Result<(FlipBoard, TableSeat), OutOfMemory>
        requires { AreOpening rows cols words.now.items }
        ensures board { IfOk result
            (λ b. b.0 ≡ board_in b.0.id (opened_in rows cols words.now.items)) }
        ensures seat { IfOk result (λ b. b.1 ≡ first_seat b.0 1 nothing) }
    {
        let (rows, cols) = (rows as usize, cols as usize);
        let key = Opening {
            words: Snapshot::of(words),
            rows,
            cols,
        };
        let (table, seat) = Table::of_words(alloc, words.as_slice(), &key)?;
        Ok((FlipBoard { table, rows, cols }, TableSeat { seat }))
    }

    // All seats of the board, of which this is the first.
    fn split_off(
        &self,
        alloc: Global,
        first: TableSeat,
        seats: u32,
    ) -> Result<Vec<FlipSeat>, OutOfMemory>
        requires seats { (1 ≤ seats) × (seats ≤ max_workers) }
        requires first { first ≡ first_seat self.now 1 nothing }
        ensures { IfOk result (λ all. all.items ≡ new_seats self.now seats) }
    {
        let mut all = Vec::with_capacity(alloc, seats as usize)?;
        all.push(FlipSeat {
            place: first,
            number: 0,
        })?;
        for number in 1..seats {
            let next = self.split(&mut all[0], number);
            all.push(next)?;
        }
        Ok(all)
    }

    // The next seat, of this number, which the seat 0 splits off.
    fn split(&self, first: &mut FlipSeat, number: u32) -> FlipSeat
        requires first { first.old ≡ first_seat self.now number nothing }
        requires few { number < max_workers }
        ensures first { first.new ≡ first_seat self.now (1 + number) nothing }
        ensures next { result ≡ new_seat self.now number }
    {
        FlipSeat {
            place: TableSeat {
                seat: self
                    .table
                    .shared
                    .split_seat::<Newcomer>(&mut first.place.seat),
            },
            number,
        }
    }

    // The seat 0 takes in the seat with the highest number.
    fn join(&self, first: &mut TableSeat, last: TableSeat)
        requires first { first.old ≡ first_seat self.now (1 + last.number) first.old.listed }
        requires last { last.board ≡ self.now }
        ensures { first.new
            ≡ first_seat self.now last.number (followed_by last.listed first.old.listed) }
    {
        let TableSeat { seat } = last;
        self.table
            .shared
            .join_seat::<TakesIn>(&mut first.seat, seat);
    }

    /// Each row and each column has a mate or none and a tree or none, and there are less than 2^32
    /// of each.
    pub fn has_all_vertices(&self)
        ensures mates { length self.now.mates ≡ self.now.rows + self.now.cols }
        ensures trees { length self.now.trees ≡ self.now.rows + self.now.cols }
        ensures few { (self.now.rows < half) × (self.now.cols < half) }
    {
        prove!((self.rows as u64) < words::HALF && (self.cols as u64) < words::HALF);
    }

    /// Takes a tree, given by its root, unless a seat has taken it. No memory is taken and nothing
    /// is waited for.
    pub fn take(&self, seat: &mut FlipSeat, root: Col) -> Taken
        requires seat { seat.old.board ≡ self.now }
        requires root { root < self.now.cols }
        ensures seat { seat.new ≡ after_take seat.old root (taker_before result) }

        // Who took the tree, or saw who did, is answered so again.
        ensures known { (x : ℕ) → KnowsTaker seat.old root x → taker_before result ≡ Some x }
    {
        let number = seat.number;
        answer(self.exchange(&mut seat.place, root.number(), number))
    }

    /// Sets the mate of a row of a tree that the seat took. No other seat sets it. No memory is
    /// taken and nothing is waited for.
    pub fn set_row(&self, seat: &mut FlipSeat, root: Col, row: Row, col: Col)
        requires seat { seat.old.board ≡ self.now }
        requires range { (root < self.now.cols) × (row < self.now.rows) × (col < self.now.cols) }
        requires took { Took seat.old root }
        requires tree { held self.now.trees row ≡ Some root }
        requires unset { ¬ HasSet seat.old row }
        ensures { seat.new ≡ after_set seat.old row col }
    {
        self.has_all_vertices();
        let vertex = row.number() as usize;
        self.store(&mut seat.place, root.number(), vertex, col.number());
    }

    /// Sets the mate of a column of a tree that the seat took. No other seat sets it. No memory is
    /// taken and nothing is waited for.
    pub fn set_col(&self, seat: &mut FlipSeat, root: Col, col: Col, row: Row)
        requires seat { seat.old.board ≡ self.now }
        requires range { (root < self.now.cols) × (col < self.now.cols) × (row < self.now.rows) }
        requires took { Took seat.old root }
        requires tree { held self.now.trees (col_vertex self.now col) ≡ Some root }
        requires unset { ¬ HasSet seat.old (col_vertex self.now col) }
        ensures { seat.new ≡ after_set seat.old (col_vertex self.now col) row }
    {
        self.has_all_vertices();
        let vertex = self.rows + col.number() as usize;
        self.store(&mut seat.place, root.number(), vertex, row.number());
    }

    /// The mate of a row, if it has one. No memory is taken and nothing is waited for.
    pub fn look_row(&self, seat: &mut FlipSeat, row: Row) -> Option<Col>
        requires seat { seat.old.board ≡ self.now }
        requires row { row < self.now.rows }
        ensures seat { seat.new ≡ after_look seat.old row result }

        // The taker of the row's tree gets what it set, or the opened mate where it set none.
        ensures set { (x : ℕ) → HasSetTo seat.old row x → result ≡ Some x }
        ensures unset { LeavesUnset seat.old row → result ≡ held self.now.mates row }
    {
        self.has_all_vertices();
        words::as_col(self.load(&mut seat.place, row.number() as usize))
    }

    /// The mate of a column, if it has one. No memory is taken and nothing is waited for.
    pub fn look_col(&self, seat: &mut FlipSeat, col: Col) -> Option<Row>
        requires seat { seat.old.board ≡ self.now }
        requires col { col < self.now.cols }
        ensures seat { seat.new ≡ after_look seat.old (col_vertex self.now col) result }

        // The taker of the column's tree gets what it set, or the opened mate where it set none.
        ensures set { (x : ℕ) → HasSetTo seat.old (col_vertex self.now col) x → result ≡ Some x }
        ensures unset { LeavesUnset seat.old (col_vertex self.now col)
            → result ≡ held self.now.mates (col_vertex self.now col) }
    {
        self.has_all_vertices();
        words::as_row(self.load(&mut seat.place, self.rows + col.number() as usize))
    }

    /// The mates, once all seats are back, in any order: those with which the board was opened,
    /// changed by what the seats have set.
    ///
    /// Where the two arrays of the mates cannot be allocated, the board and the seats are handed
    /// back as they were. Work: one read and one write for each row and each column.
    pub fn close(
        self,
        alloc: Global,
        mut seats: Vec<FlipSeat>,
    ) -> Result<Mates, (FlipBoard, Vec<FlipSeat>)>
        requires { HoldsAllSeats self seats.items }
        ensures ok { IfOk result (λ m. SettlesAll self m seats.items) }
        ensures err { IfErr result (λ back. (back.0 ≡ self) × (back.1.items ≡ seats.items)) }
    {
        let (rows, cols) = (self.rows as u32, self.cols as u32);
        let Ok(mut mates) = Mates::empty(alloc, rows, cols) else {
            return Err((self, seats));
        };
        are_rightful(seats.as_slice());
        seats.sort_unstable_by_key(|seat| seat.number());
        let whole = self.join_all(seats);
        let words = self.end(whole);
        read_mates(&words, rows, cols, &mut mates);
        words.free();
        Ok(mates)
    }

    // The seat 0, which has taken in all others.
    fn join_all(&self, mut seats: Vec<FlipSeat>) -> TableSeat
        requires { AreAllSeats self.now seats.items }
        ensures { result ≡ first_seat self.now 1 (gathered seats.items) }
    {
        let FlipSeat {
            place: mut first,
            number: _,
        } = seats.remove(0);
        while let Some(last) = seats.pop() {
            let FlipSeat { place, number: _ } = last;
            self.join(&mut first, place);
        }
        first
    }

    // The words, where the seat 0 is the only one.
    fn end(self, whole: TableSeat) -> Closed<(), Global>
        requires { whole ≡ first_seat self 1 whole.listed }
        ensures words { AreLeft self whole.listed (slots_items result.words) }
        ensures full { IsFull result.words }
        ensures slots { slots_len result.slots ≡ 0 }
    {
        let TableSeat { seat } = whole;
        self.table.close_with(seat)
    }

    // One exchange of the tree's word, for the seat of this number.
    fn exchange(&self, seat: &mut TableSeat, root: u32, number: u32) -> Option<u32>
        requires seat { seat.old.board ≡ self.now }
        requires number { number ≡ seat.old.number }
        requires root { root < self.now.cols }
        ensures seat { seat.new ≡ after_take seat.old root result }
        ensures known { (x : ℕ) → KnowsTaker seat.old root x → result ≡ Some x }
    {
        let word = 1 + root as usize;
        let code = 1 + number as u64;
        let found = self
            .table
            .shared
            .compare_exchange::<Take>(&mut seat.seat, word, 0, code);
        words::taker(found)
    }

    // One load of the vertex's word.
    fn load(&self, seat: &mut TableSeat, vertex: usize) -> Option<u32>
        requires seat { seat.old.board ≡ self.now }
        requires vertex { vertex < length self.now.mates }
        ensures seat { seat.new ≡ after_look seat.old vertex result }
        ensures set { (x : ℕ) → HasSetTo seat.old vertex x → result ≡ Some x }
        ensures unset { LeavesUnset seat.old vertex → result ≡ held self.now.mates vertex }
    {
        let word = 1 + self.cols + vertex;
        words::mate(self.table.shared.load::<VertexLook>(&mut seat.seat, word))
    }

    // One store of the vertex's word. The tree stays as it is.
    fn store(&self, seat: &mut TableSeat, root: u32, vertex: usize, mate: u32)
        requires seat { seat.old.board ≡ self.now }
        requires root { root < self.now.cols }
        requires vertex { vertex < length self.now.mates }
        requires mate { 1 + mate < half }
        requires took { Took seat.old root }
        requires tree { held self.now.trees vertex ≡ Some root }
        requires unset { ¬ HasSet seat.old vertex }
        ensures { seat.new ≡ after_set seat.old vertex mate }
    {
        let word = 1 + self.cols + vertex;
        let code = (1 + root as u64) * words::HALF + (1 + mate as u64);
        self.table
            .shared
            .store::<VertexSet>(&mut seat.seat, word, code);
    }
}
