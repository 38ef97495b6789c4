//! The board.

ghost use Rattle.std.specs.Prelude.{◌≡◌, ℕ, ◌+◌, ◌<◌, ◌≤◌, Some, None, length, map, ◌++◌, option_map, IfOk, OnOk};
ghost use Rattle.bip_defs.specs.Occurrences.{times};
ghost use Rattle.bip_defs.specs.WordValues.{value_of};
ghost use Rattle.claim_words.specs.Answers.{col_before, leaf_before};
ghost use Rattle.claim_words.specs.Board.{Words};
ghost use Rattle.claim_words.specs.WordCodes.{AllFit, code_by, greatest_word, words_for};
ghost use Rattle.claim_words.specs.Listed.{followed_by, nothing, root_word, row_word};
ghost use Rattle.claim_words.specs.Seat.{KnowsRoot, KnowsRow, after_claim, after_look, after_win, first_seat, new_seat, new_seats};
ghost use Rattle.claim_words.specs.Settles.{Settles};
ghost use Rattle.sp_ids.specs.Limits.{max_workers};

use crate::answers::{Claimed, Won};
use crate::plays::{
    EachWordOnce, Newcomer, RootExchange, RootLoad, RowExchange, RowLoad, SpareLoad, TakesIn,
};
use crate::seat::ClaimSeat;
use crate::views::{Opening, View};
use atomic_table::Table;
use sp_ids::{Col, Id, OutOfMemory, Row};
use std::alloc::Global;
use std::marker::Model;
use std::snapshot::Snapshot;

/// A word for each row, which a column claims, and a word for each root, which a leaf wins. It
/// keeps 8 bytes a word, and one word more. Threads share it by `&`, each with a seat of its own.
#[derive(Drop)]
pub struct ClaimBoard {
    pub(crate) table: Table<(), View, Opening, EachWordOnce, Global>,
    pub(crate) rows: usize,
}

impl Model for ClaimBoard {
    ghost use Rattle.claim_words.specs.Board.{Board};

    ghost Value = { Board };

    ghost use Rattle.claim_words.specs.Stored.{IsLaid, board_in};

    ghost view = { λ b. board_in b.table.shared.table_id b.table.shared.key.rows
        b.table.shared.key.words.value.items };

    ghost invariant = { λ b. IsLaid b.table.shared.table_id b.rows b.table.shared.key.rows
        b.table.shared.key.words.value.items };
}

// What a word holds.
pub(crate) fn value(word: u64) -> Option<u32>
    requires { word ≤ greatest_word }
    ensures { result ≡ value_of word }
{
    if word == 0 {
        None
    } else {
        Some((word - 1) as u32)
    }
}

// The answer of a claim that found this column.
fn claimed(found: Option<u32>) -> Claimed
    ensures { col_before result ≡ found }
{
    match found {
        None => Claimed::Mine,
        Some(col) => Claimed::Held(Col(col)),
    }
}

// The answer of a win that found this leaf.
fn won(found: Option<u32>) -> Won
    ensures { leaf_before result ≡ found }
{
    match found {
        None => Won::Mine,
        Some(leaf) => Won::Held(Row(leaf)),
    }
}

// A row or a column of its number.
pub(crate) fn identified<I: Id>(number: Option<u32>) -> Option<I>
    ensures { option_map I.number result ≡ number }
{
    match number {
        None => None,
        Some(at) => Some(I::of(at)),
    }
}

// The word that holds a value, or is empty.
fn code<I: Id>(value: Option<I>) -> u64
    ensures code { result ≡ code_by I.number value }
    ensures fits { result ≤ greatest_word }
{
    match value {
        None => 0,
        Some(id) => 1 + id.number() as u64,
    }
}

// Adds the words that hold these values.
fn lay<I: Id>(words: &mut Vec<u64>, values: &[Option<I>]) -> Result<(), OutOfMemory>
    requires { AllFit words.old.items }
    ensures words { OnOk result
        (words.new.items ≡ words.old.items ++ map (code_by I.number) values.now) }
    ensures fit { OnOk result (AllFit words.new.items) }
{
    for value in values {
        words.push(code(*value))?;
    }
    Ok(())
}

// The words of a board that is opened with these values: the spare word, the rows' words and the
// roots' words.
fn laid(alloc: Global, rows: &[Option<Col>], roots: &[Option<Row>]) -> Result<Vec<u64>, OutOfMemory>
    ensures words { IfOk result (λ words. words.items ≡ words_for rows.now roots.now) }
    ensures fit { IfOk result (λ words. AllFit words.items) }
{
    let mut words = Vec::with_capacity(alloc, 1 + rows.len() + roots.len())?;
    words.push(0)?;
    lay(&mut words, rows)?;
    lay(&mut words, roots)?;
    Ok(words)
}

impl ClaimBoard {
    /// A board whose words hold these values, the rows' and the roots', and so many seats, numbered
    /// from 0. Returns `OutOfMemory` if it cannot allocate 8 bytes a word, twice for a moment.
    pub fn new(
        alloc: Global,
        rows: &[Option<Col>],
        roots: &[Option<Row>],
        seats: u32,
    ) -> Result<(ClaimBoard, Vec<ClaimSeat>), OutOfMemory>
        requires { (1 ≤ seats) × (seats ≤ max_workers) }
        ensures board { IfOk result (λ b. (b.0.rows ≡ rows.now) × (b.0.roots ≡ roots.now)) }
        ensures seats { IfOk result (λ b. b.1.items ≡ new_seats b.0 seats) }
    {
        let (board, first) = ClaimBoard::open(alloc, rows, roots)?;
        let seats = board.seat_all(alloc, first, seats - 1)?;
        Ok((board, seats))
    }

    // A board and its seat 0.
    fn open(
        alloc: Global,
        rows: &[Option<Col>],
        roots: &[Option<Row>],
    ) -> Result<(ClaimBoard, ClaimSeat), OutOfMemory>
        ensures board { IfOk result (λ b. (b.0.rows ≡ rows.now) × (b.0.roots ≡ roots.now)) }
        ensures seat { IfOk result (λ b. b.1 ≡ first_seat b.0 1 nothing) }
    {
        let words = laid(alloc, rows, roots)?;
        let opening = Opening {
            words: Snapshot::of(&words),
            rows: rows.len(),
        };
        let (table, seat) = Table::of_words(alloc, words.as_slice(), &opening)?;
        let board = ClaimBoard {
            table,
            rows: rows.len(),
        };
        Ok((board, ClaimSeat { seat, number: 0 }))
    }

    // The seat 0 and so many others.
    fn seat_all(
        &self,
        alloc: Global,
        mut first: ClaimSeat,
        others: u32,
    ) -> Result<Vec<ClaimSeat>, OutOfMemory>
        requires first { first ≡ first_seat self.now 1 nothing }
        requires few { others < max_workers }
        ensures { IfOk result (λ seats. seats.items ≡ new_seats self.now (1 + others)) }
    {
        let mut seats = Vec::new(alloc);
        for made in 0..others {
            seats.push(self.split(&mut first, 1 + made))?;
        }
        seats.insert(0, first)?;
        Ok(seats)
    }

    /// Claims a row for a column, by one exchange of the row's word. `Mine`: the word was empty,
    /// holds the column from now on, and the seat lists it once. `Held`: the word held this column
    /// and holds it for good, and the seat has seen it. A seat that knows what the word holds is
    /// told that. It takes no memory and does not wait.
    pub fn claim(&self, seat: &mut ClaimSeat, row: Row, col: Col) -> Claimed
        requires seat { seat.old.board ≡ self.now }
        requires row { row < length self.now.rows }
        ensures seat { seat.new ≡ after_claim seat.old row col (col_before result) }
        ensures known { (x : ℕ) → KnowsRow seat.old row x → col_before result ≡ Some x }
        ensures once { col_before result ≡ None → times row seat.new.listed.claims ≡ 1 }
    {
        let word = 1 + row.number() as usize;
        let claim = 1 + col.number() as u64;
        let shared = &self.table.shared;
        let found = shared.compare_exchange::<RowExchange>(&mut seat.seat, word, 0, claim);
        claimed(value(found))
    }

    /// Wins a root for a leaf, by one exchange of the root's word. `Mine`: the word was empty,
    /// holds the leaf from now on, and the seat lists it once. `Held`: the word held this leaf and
    /// holds it for good, and the seat has seen it. A seat that knows what the word holds is told
    /// that. It takes no memory and does not wait.
    pub fn win(&self, seat: &mut ClaimSeat, root: Col, leaf: Row) -> Won
        requires seat { seat.old.board ≡ self.now }
        requires root { root < length self.now.roots }
        ensures seat { seat.new ≡ after_win seat.old root leaf (leaf_before result) }
        ensures known { (x : ℕ) → KnowsRoot seat.old root x → leaf_before result ≡ Some x }
        ensures once { leaf_before result ≡ None → times root seat.new.listed.wins ≡ 1 }
    {
        let word = 1 + self.rows + root.number() as usize;
        let win = 1 + leaf.number() as u64;
        let shared = &self.table.shared;
        let found = shared.compare_exchange::<RootExchange>(&mut seat.seat, word, 0, win);
        won(value(found))
    }

    /// The column that holds a row, if any, by one load of the row's word, which the seat has seen
    /// from now on. A seat that knows what the word holds is told that. It takes no memory and does
    /// not wait.
    pub fn look_row(&self, seat: &mut ClaimSeat, row: Row) -> Option<Col>
        requires seat { seat.old.board ≡ self.now }
        requires row { row < length self.now.rows }
        ensures seat { seat.new ≡ after_look seat.old (row_word row result) }
        ensures known { (x : ℕ) → KnowsRow seat.old row x → result ≡ Some x }
    {
        let word = 1 + row.number() as usize;
        let found = self.table.shared.load::<RowLoad>(&mut seat.seat, word);
        let holder = value(found);
        identified(holder)
    }

    /// The leaf that a root has, if any, by one load of the root's word, which the seat has seen
    /// from now on. A seat that knows what the word holds is told that. It takes no memory and does
    /// not wait.
    pub fn look_root(&self, seat: &mut ClaimSeat, root: Col) -> Option<Row>
        requires seat { seat.old.board ≡ self.now }
        requires root { root < length self.now.roots }
        ensures seat { seat.new ≡ after_look seat.old (root_word root result) }
        ensures known { (x : ℕ) → KnowsRoot seat.old root x → result ≡ Some x }
    {
        let word = 1 + self.rows + root.number() as usize;
        let found = self.table.shared.load::<RootLoad>(&mut seat.seat, word);
        let leaf = value(found);
        identified(leaf)
    }

    // The next seat, of this number, which the seat 0 splits off.
    pub(crate) fn split(&self, first: &mut ClaimSeat, number: u32) -> ClaimSeat
        requires first { first.old ≡ first_seat self.now number first.old.listed }
        requires few { number < max_workers }
        ensures first { first.new ≡ first_seat self.now (1 + number) first.old.listed }
        ensures new { result ≡ new_seat self.now number }
    {
        ClaimSeat {
            seat: self.table.shared.split_seat::<Newcomer>(&mut first.seat),
            number,
        }
    }

    // The seat 0 takes in the seat with the highest number.
    pub(crate) fn join(&self, first: &mut ClaimSeat, last: ClaimSeat)
        requires first { first.old ≡ first_seat self.now (1 + last.number) first.old.listed }
        requires last { last.board ≡ self.now }
        ensures { first.new
            ≡ first_seat self.now last.number (followed_by last.listed first.old.listed) }
    {
        let ClaimSeat { seat, number: _ } = last;
        self.table
            .shared
            .join_seat::<TakesIn>(&mut first.seat, seat);
    }

    // The seat 0, once no other is left, is told by a load of the spare word that its lists account
    // for all words.
    pub(crate) fn account(&self, first: &mut ClaimSeat)
        requires { first.old ≡ first_seat self.now 1 first.old.listed }
        ensures same { first.new ≡ first.old }
        ensures words { (words : Words)
            × Settles self.now.rows self.now.roots words first.old.listed }
    {
        self.table.shared.load::<SpareLoad>(&mut first.seat, 0);
    }
}
