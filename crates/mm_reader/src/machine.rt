//! The reader's machine: what each line is, by the lines before it.

ghost use Rattle.std.specs.Prelude.{◌≡◌, ◌≤◌, ◌<◌, ◌*◌, ◌+◌, ◌++◌, ℕ, nat_abs, pos, true, false, List, [], ◌∷◌, length, take, IfOk, IfErr, IfSome, OnOk, MatchResult, ◌-◌, ◌^◌};
ghost use Rattle.sp_ids.specs.Entries.{Entries};
ghost use Rattle.sp_ids.specs.Limits.{max_entry_lines, max_value};
ghost use Rattle.mm_defs.specs.Words.{is_skipped, words};
ghost use Rattle.mm_defs.specs.declared.header.Format.{Format};
ghost use Rattle.mm_defs.specs.declared.header.Header.{Header};
ghost use Rattle.mm_defs.specs.Header.{is_general, is_integer_field};
ghost use Rattle.mm_defs.specs.File.{Reads, mirror, placed, with_mirrors, line_faults, later_lines};
ghost use Rattle.mm_lines.specs.Lines.{IsLine};
ghost use Rattle.mm_reader.specs.EntryLimits.{AreWithinLimits};
ghost use Rattle.mm_reader.specs.Judged.{Fits, IsHeader, triple_of};
ghost use Rattle.mm_reader.specs.Machine.{HasBanner, HasLines, HasRoom, IsReady, Steps, StopsAt, TakesLine, is_complete};
ghost use Rattle.mm_reader.specs.Stages.{begun_lines, ClosesWhole, HasOpenLine, IsBetween, IsAfter, IsAll, GoesOn, Halts, Lacks, StopsIn, StopsWithin, StopsAtEnd, TakesPiece};
ghost use Rattle.mm_reader.specs.Additions.{with_entries};
ghost use Rattle.mm_reader.specs.Plain.{AwaitsPlain, IsUsual, SaysEntry, SaysValue};
ghost use Rattle.mm_reader.specs.ArrayPlaces.{place_of};

use crate::array::{ArrayPlace, first_place, following};
use crate::bad::BadLine;
use crate::judge::{
    Entry, judge_banner, judge_entry, judge_integer, judge_place, judge_size, judge_value,
};
use crate::plain::{PlainLine, PlainValue, plain_line, plain_value};
use mm_defs::{End, Format, Header, Kind, Size, Symmetry};
use mm_lines::LineSoFar;
use sp_ids::{Col, Field, OutOfMemory, Row, Triples};
use std::alloc::Global;

/// Which lines have come.
#[derive(Clone, Copy, Debug, PartialEq, Eq)]
pub enum Phase {
    /// None.
    Banner,
    /// The banner, and no size line yet.
    Sizes { header: Header },
    /// The size line, and lines of the matrix.
    Entries { preamble: Preamble, at: Position },
}

/// What the banner and the size line said.
#[derive(Clone, Copy, Debug, PartialEq, Eq)]
pub struct Preamble {
    pub header: Header,
    pub size: Size,
}

/// How many entry lines or value lines have come, and the place of the next value of an array file.
#[derive(Clone, Copy, Debug, PartialEq, Eq)]
pub struct Position {
    pub done: u32,
    pub place: ArrayPlace,
}

/// Why the machine stopped.
#[derive(Clone, Copy, Debug, PartialEq, Eq)]
pub enum Stop {
    /// A line is bad.
    Bad(BadLine),
    /// There was not enough memory.
    Memory,
}

/// Whether the matrix is read, where what follows is not judged.
pub fn is_complete(end: End, phase: Phase) -> bool
    ensures { result ≡ is_complete end phase }
{
    match end {
        End::File => false,
        End::LastEntry => match phase {
            Phase::Banner => false,
            Phase::Sizes { .. } => false,
            Phase::Entries { preamble, at } => at.done == preamble.size.count,
        },
    }
}

/// Line 1 has come.
fn after_banner(line: &LineSoFar) -> Result<Phase, Stop>
    ensures steps { (end : End) (bytes : List ℕ) (t : Entries)
        → IsLine line.now bytes
        → Steps end (bytes ∷ []) t result }
    ensures ready { (t : Entries) → IfOk result (λ phase. IsReady phase t) }
{
    match judge_banner(line) {
        Ok(header) => Ok(Phase::Sizes { header }),
        Err(kind) => Err(Stop::Bad(BadLine { line: 1, kind })),
    }
}

/// A later line has come, and no size line before it.
fn after_size(
    alloc: Global,
    header: Header,
    line: &LineSoFar,
    number: u64,
    triples: &mut Triples,
) -> Result<Phase, Stop>
    requires { IsHeader header }
    ensures steps { (end : End) (ls : List (List ℕ)) (bytes : List ℕ)
        → IsLine line.now bytes
        → HasBanner header ls → later_lines ls ≡ [] → line_faults end ls ≡ []
        → number ≡ length ls + 1
        → Steps end (ls ++ bytes ∷ []) triples.new result }
    ensures ready { IfOk result (λ phase. IsReady phase triples.new) }
{
    if line.is_skipped() {
        return Ok(Phase::Sizes { header });
    }
    let size = match judge_size(header, line) {
        Err(kind) => return Err(Stop::Bad(BadLine { line: number, kind })),
        Ok(size) => size,
    };
    match Triples::new(alloc, size.rows, size.cols, header.field) {
        Err(_) => return Err(Stop::Memory),
        Ok(empty) => *triples = empty,
    }
    Ok(Phase::Entries {
        preamble: Preamble { header, size },
        at: Position {
            done: 0,
            place: first_place(header.symmetry),
        },
    })
}

/// A line behind the size line has come. It gives the position behind it.
fn after_line(
    preamble: Preamble,
    at: Position,
    line: &LineSoFar,
    number: u64,
    triples: &mut Triples,
) -> Result<Position, Stop>
    requires { HasRoom preamble at triples.old }
    ensures steps { (end : End) (bytes : List ℕ)
        → IsLine line.now bytes
        → is_complete end (Phase.Entries preamble at) ≡ false
        → TakesLine preamble at triples.old number end bytes triples.new result }
    ensures ready { IfOk result (λ next. HasRoom preamble next triples.new) }
{
    if line.is_skipped() {
        return Ok(at);
    }
    if at.done == preamble.size.count {
        return Err(Stop::Bad(BadLine {
            line: number,
            kind: Kind::Trailing,
        }));
    }
    match preamble.header.format {
        Format::Coordinate => after_entry(preamble, at, line, number, triples),
        Format::Array => after_value(preamble, at, line, number, triples),
    }
}

/// An entry line has come. It gives the position behind it.
fn after_entry(
    preamble: Preamble,
    at: Position,
    line: &LineSoFar,
    number: u64,
    triples: &mut Triples,
) -> Result<Position, Stop>
    requires room { HasRoom preamble at triples.old }
    requires low { at.done < preamble.size.count }
    requires format { preamble.header.format ≡ Format.Coordinate }
    ensures steps { (end : End) (bytes : List ℕ)
        → IsLine line.now bytes
        → is_skipped (words bytes) ≡ false
        → TakesLine preamble at triples.old number end bytes triples.new result }
    ensures ready { IfOk result (λ next. HasRoom preamble next triples.new) }
{
    match judge_entry(preamble.header, preamble.size, line) {
        Err(kind) => Err(Stop::Bad(BadLine { line: number, kind })),
        Ok(entry) => keep_entry(preamble, at, entry, triples),
    }
}

/// A value line has come. It gives the position behind it.
fn after_value(
    preamble: Preamble,
    at: Position,
    line: &LineSoFar,
    number: u64,
    triples: &mut Triples,
) -> Result<Position, Stop>
    requires room { HasRoom preamble at triples.old }
    requires low { at.done < preamble.size.count }
    requires format { preamble.header.format ≡ Format.Array }
    ensures steps { (end : End) (bytes : List ℕ)
        → IsLine line.now bytes
        → is_skipped (words bytes) ≡ false
        → TakesLine preamble at triples.old number end bytes triples.new result }
    ensures ready { IfOk result (λ next. HasRoom preamble next triples.new) }
{
    match judge_value(preamble.header, line) {
        Err(kind) => Err(Stop::Bad(BadLine { line: number, kind })),
        Ok(value) => keep_value(preamble, at, value, triples),
    }
}

/// Keeps an entry line's entry. It gives the position behind it.
#[inline(always)]
fn keep_entry(
    preamble: Preamble,
    at: Position,
    entry: Entry,
    triples: &mut Triples,
) -> Result<Position, Stop>
    requires room { HasRoom preamble at triples.old }
    requires low { at.done < preamble.size.count }
    requires format { preamble.header.format ≡ Format.Coordinate }
    requires fits { Fits preamble.header preamble.size entry }
    ensures entries { OnOk result
        (triples.new ≡ with_entries triples.old
        (triple_of entry ∷ mirror preamble.header.symmetry (triple_of entry))) }
    ensures ready { IfOk result (λ next. HasRoom preamble next triples.new) }
    ensures done { IfOk result (λ next. next.done ≡ at.done + 1) }
    ensures err { IfErr result (λ stop. stop ≡ Stop.Memory) }
{
    match add(preamble.header.symmetry, entry, triples) {
        Err(_) => Err(Stop::Memory),
        Ok(()) => Ok(Position {
            done: at.done + 1,
            place: at.place,
        }),
    }
}

/// Keeps the value of the next place of an array file. It gives the position behind it.
#[inline(always)]
fn keep_value(
    preamble: Preamble,
    at: Position,
    value: i64,
    triples: &mut Triples,
) -> Result<Position, Stop>
    requires room { HasRoom preamble at triples.old }
    requires low { at.done < preamble.size.count }
    requires format { preamble.header.format ≡ Format.Array }
    requires small { nat_abs value ≤ max_value }
    ensures entries { OnOk result
        (triples.new ≡ with_entries triples.old
        (with_mirrors preamble.header.symmetry (placed (place_of at.place) value))) }
    ensures ready { IfOk result (λ next. HasRoom preamble next triples.new) }
    ensures done { IfOk result (λ next. next.done ≡ at.done + 1) }
    ensures err { IfErr result (λ stop. stop ≡ Stop.Memory) }
{
    match add_value(preamble.header.symmetry, at.place, value, triples) {
        Err(_) => Err(Stop::Memory),
        Ok(()) => Ok(Position {
            done: at.done + 1,
            place: following(preamble.header.symmetry, preamble.size.rows, at.place),
        }),
    }
}

/// Adds the value of a place of an array file: an entry, and the place on the other side of the
/// diagonal, or nothing where it is 0.
#[inline(always)]
fn add_value(
    symmetry: Symmetry,
    place: ArrayPlace,
    value: i64,
    triples: &mut Triples,
) -> Result<(), OutOfMemory>
    requires row { place.row < triples.old.rows }
    requires col { place.col < triples.old.cols }
    requires square { is_general symmetry ≡ false → triples.old.rows ≡ triples.old.cols }
    requires few { length triples.old.items + 2 ≤ 2 * max_entry_lines }
    requires field { triples.old.field ≡ Field.Integer }
    requires small { nat_abs value ≤ max_value }
    ensures { OnOk result
        (triples.new ≡ with_entries triples.old
        (with_mirrors symmetry (placed (place_of place) value))) }
{
    if value == 0 {
        return Ok(());
    }
    let entry = Entry {
        row: Row(place.row),
        col: Col(place.col),
        value,
    };
    add(symmetry, entry, triples)
}

/// Adds an entry, and the place on the other side of the diagonal.
#[inline(always)]
fn add(symmetry: Symmetry, entry: Entry, triples: &mut Triples) -> Result<(), OutOfMemory>
    requires row { entry.row < triples.old.rows }
    requires col { entry.col < triples.old.cols }
    requires square { is_general symmetry ≡ false → triples.old.rows ≡ triples.old.cols }
    requires few { length triples.old.items + 2 ≤ 2 * max_entry_lines }
    requires value { is_integer_field triples.old.field ≡ false → entry.value ≡ pos 0 }
    requires small { nat_abs entry.value ≤ max_value }
    ensures { OnOk result
        (triples.new ≡ with_entries triples.old
        (triple_of entry ∷ mirror symmetry (triple_of entry))) }
{
    let Entry { row, col, value } = entry;
    triples.push(row, col, value)?;
    match symmetry {
        Symmetry::General => Ok(()),
        Symmetry::SkewSymmetric => triples.push(Row(col.0), Col(row.0), -value),
        Symmetry::Symmetric | Symmetry::Hermitian => {
            if row.0 == col.0 {
                return Ok(());
            }
            triples.push(Row(col.0), Col(row.0), value)
        }
    }
}

/// The reader's machine.
#[derive(Drop)]
pub struct Machine {
    pub phase: Phase,
    /// How many lines have ended.
    pub number: u64,
    pub triples: Triples,
    /// The open line has bytes.
    pub begun: bool,
    pub line: LineSoFar,
}

/// No byte has come.
pub fn start(alloc: Global) -> Result<Machine, OutOfMemory>
    ensures ready { IfOk result (λ m. IsReady m.phase m.triples) }
    ensures none { IfOk result (λ m. begun_lines m ≡ 0) }
    ensures open { (end : End) → IfOk result (λ m. is_complete end m.phase ≡ false) }
    ensures stands { (end : End) → IfOk result (λ m. IsAfter end m []) }
{
    let triples = Triples::new(alloc, 0, 0, Field::Pattern)?;
    Ok(Machine {
        phase: Phase::Banner,
        number: 0,
        triples,
        begun: false,
        line: LineSoFar::new(),
    })
}

/// One more line has come.
fn next_phase(
    alloc: Global,
    phase: Phase,
    line: &LineSoFar,
    number: u64,
    triples: &mut Triples,
) -> Result<Phase, Stop>
    requires { IsReady phase triples.old }
    ensures steps { (end : End) (ls : List (List ℕ)) (bytes : List ℕ)
        → IsLine line.now bytes
        → HasLines end phase triples.old ls → number ≡ length ls + 1 → is_complete end phase ≡ false
        → Steps end (ls ++ bytes ∷ []) triples.new result }
    ensures ready { IfOk result (λ next. IsReady next triples.new) }
{
    match phase {
        Phase::Banner => after_banner(line),
        Phase::Sizes { header } => after_size(alloc, header, line, number, triples),
        Phase::Entries { preamble, at } => {
            let at = after_line(preamble, at, line, number, triples)?;
            Ok(Phase::Entries { preamble, at })
        }
    }
}

/// The open line has ended.
fn end_line(alloc: Global, m: &mut Machine) -> Result<(), Stop>
    requires ready { IsReady m.old.phase m.old.triples }
    requires room { m.old.number < 2 ^ 64 - 1 }
    ensures ready { OnOk result (IsReady m.new.phase m.new.triples) }
    ensures number { OnOk result (begun_lines m.new ≡ m.old.number + 1) }
    ensures closed { OnOk result (m.new.begun ≡ false) }
    ensures steps { (end : End) (ls : List (List ℕ)) (bytes : List ℕ)
        → HasOpenLine end m.old ls bytes → is_complete end m.old.phase ≡ false
        → MatchResult result (λ _. IsBetween end m.new (ls ++ bytes ∷ []))
        (StopsAt end (ls ++ bytes ∷ [])) }
{
    let number = m.number + 1;
    let phase = next_phase(alloc, m.phase, &m.line, number, &mut m.triples)?;
    m.phase = phase;
    m.number = number;
    m.begun = false;
    m.line.clear();
    Ok(())
}

/// One more byte comes.
fn take(alloc: Global, m: &mut Machine, byte: u8) -> Result<(), Stop>
    requires ready { IsReady m.old.phase m.old.triples }
    requires room { begun_lines m.old < 2 ^ 64 - 1 }
    ensures ready { OnOk result (IsReady m.new.phase m.new.triples) }
    ensures number { OnOk result (begun_lines m.new ≤ begun_lines m.old + 1) }
    ensures steps { (end : End) (bytes : List ℕ) → IsAfter end m.old bytes
        → is_complete end m.old.phase ≡ false
        → MatchResult result (λ _. IsAfter end m.new (bytes ++ byte ∷ []))
        (StopsIn end (bytes ++ byte ∷ [])) }
    ensures closed { OnOk result (ClosesWhole m.old m.new) }
{
    if byte == b'\n' {
        return end_line(alloc, m);
    }
    m.line.push(byte);
    m.begun = true;
    Ok(())
}

/// Where entries are to come and no line has begun, what the banner and the size line said, how
/// many lines of the matrix have come, and the place of the next value.
fn awaits_plain(m: &Machine) -> Option<(Preamble, Position)>
    ensures { IfSome result (λ x. AwaitsPlain m.now x.0 x.1) }
{
    if m.begun {
        return None;
    }
    match m.phase {
        Phase::Entries { preamble, at } => Some((preamble, at)),
        _ => None,
    }
}

/// What a line of the usual form says that lies whole in a piece.
trait UsualLine: Copy {
    /// The format of the files that have such lines.
    ghost format: { Format };

    /// A line with these bytes says this, in a file with this header.
    ghost says: { Header → Self → List ℕ → Type 0 };

    /// Where the line behind it begins.
    ghost next: { Self → ℕ };

    /// The line that begins here, if it is of the usual form and lies whole in the piece.
    fn find(header: Header, piece: &[u8], from: usize) -> Option<Self>
        requires { from ≤ length piece.now }
        ensures { IfSome result (λ line. IsUsual (says header line) piece.now from (next line)) };

    /// Where the line behind it begins.
    fn next(&self) -> usize
        ensures { result ≡ next self.now };

    /// The line of this number has come. It gives the position behind it.
    fn keep(
        self,
        preamble: Preamble,
        at: Position,
        number: u64,
        triples: &mut Triples,
    ) -> Result<Position, Stop>
        requires room { HasRoom preamble at triples.old }
        requires low { at.done < preamble.size.count }
        requires format { preamble.header.format ≡ format }
        ensures steps { (end : End) (bytes : List ℕ) → says preamble.header self bytes
            → TakesLine preamble at triples.old number end bytes triples.new result }
        ensures ready { IfOk result (λ next. HasRoom preamble next triples.new) }
        ensures done { IfOk result (λ next. next.done ≡ at.done + 1) };
}

impl UsualLine for PlainLine {
    ghost format = { Format.Coordinate };

    ghost says = { λ header line bytes. SaysEntry header.field line bytes };

    ghost next = { λ line. line.next };

    #[inline(always)]
    fn find(header: Header, piece: &[u8], from: usize) -> Option<PlainLine> {
        plain_line(piece, from, header.field)
    }

    #[inline(always)]
    fn next(&self) -> usize {
        self.next
    }

    fn keep(
        self,
        preamble: Preamble,
        at: Position,
        number: u64,
        triples: &mut Triples,
    ) -> Result<Position, Stop> {
        match judge_place(
            preamble.header,
            preamble.size,
            self.row,
            self.col,
            Some(self.value),
        ) {
            Err(kind) => Err(Stop::Bad(BadLine { line: number, kind })),
            Ok(entry) => keep_entry(preamble, at, entry, triples),
        }
    }
}

impl UsualLine for PlainValue {
    ghost format = { Format.Array };

    ghost says = { λ header line bytes. SaysValue line bytes };

    ghost next = { λ line. line.next };

    #[inline(always)]
    fn find(_header: Header, piece: &[u8], from: usize) -> Option<PlainValue> {
        plain_value(piece, from)
    }

    #[inline(always)]
    fn next(&self) -> usize {
        self.next
    }

    fn keep(
        self,
        preamble: Preamble,
        at: Position,
        number: u64,
        triples: &mut Triples,
    ) -> Result<Position, Stop> {
        match judge_integer(Some(self.value)) {
            Err(kind) => Err(Stop::Bad(BadLine { line: number, kind })),
            Ok(value) => keep_value(preamble, at, value, triples),
        }
    }
}

/// Takes the lines of the usual form that begin here, one behind the other, as far as they lie
/// whole in the piece. It gives where the machine goes on.
fn take_plain(m: &mut Machine, piece: &[u8], at: usize) -> Result<usize, Stop>
    requires place { at ≤ length piece.now }
    requires ready { IsReady m.old.phase m.old.triples }
    requires room { begun_lines m.old + (length piece.now - at) < 2 ^ 64 }
    ensures ok { IfOk result (GoesOn m.old m.new piece.now at) }
    ensures same { IfOk result (λ next. next ≡ at → m.new ≡ m.old) }
    ensures err { IfErr result (Halts m.old piece.now at) }
{
    match awaits_plain(m) {
        None => Ok(at),
        Some((preamble, position)) => match preamble.header.format {
            Format::Coordinate => take_lines::<PlainLine>(preamble, position, m, piece, at),
            Format::Array => take_lines::<PlainValue>(preamble, position, m, piece, at),
        },
    }
}

/// Takes the lines of this form that begin here.
fn take_lines<L: UsualLine>(
    preamble: Preamble,
    before: Position,
    m: &mut Machine,
    piece: &[u8],
    at: usize,
) -> Result<usize, Stop>
    requires awaits { AwaitsPlain m.old preamble before }
    requires format { preamble.header.format ≡ L.format }
    requires place { at ≤ length piece.now }
    requires ready { IsReady m.old.phase m.old.triples }
    requires room { begun_lines m.old + (length piece.now - at) < 2 ^ 64 }
    ensures ok { IfOk result (GoesOn m.old m.new piece.now at) }
    ensures same { IfOk result (λ next. next ≡ at → m.new ≡ m.old) }
    ensures err { IfErr result (Halts m.old piece.now at) }
{
    let mut position = before;
    let mut next = at;
    while position.done < preamble.size.count {
        let line = match L::find(preamble.header, piece, next) {
            None => break,
            Some(line) => line,
        };
        let number = m.number + 1;
        position = line.keep(preamble, position, number, &mut m.triples)?;
        m.number = number;
        next = line.next();
    }
    m.phase = Phase::Entries {
        preamble,
        at: position,
    };
    Ok(next)
}

/// Takes lines of the usual form, or a byte.
fn step(alloc: Global, m: &mut Machine, piece: &[u8], at: usize) -> Result<usize, Stop>
    requires place { at < length piece.now }
    requires ready { IsReady m.old.phase m.old.triples }
    requires room { begun_lines m.old + (length piece.now - at) < 2 ^ 64 }
    ensures ok { IfOk result (GoesOn m.old m.new piece.now at) }
    ensures more { IfOk result (λ next. at < next) }
    ensures err { IfErr result (Halts m.old piece.now at) }
{
    let next = take_plain(m, piece, at)?;
    if next > at {
        return Ok(next);
    }
    take(alloc, m, piece[at])?;
    Ok(at + 1)
}

/// A piece comes. It gives how many of its bytes were used: all, unless the matrix is read and what
/// follows is not judged.
pub fn feed(alloc: Global, m: &mut Machine, end: End, piece: &[u8]) -> Result<usize, Stop>
    requires ready { IsReady m.old.phase m.old.triples }
    requires room { begun_lines m.old + length piece.now < 2 ^ 64 }
    requires open { is_complete end m.old.phase ≡ false }
    ensures ok { IfOk result (TakesPiece end m.old m.new piece.now) }
    ensures steps { (bytes : List ℕ) → IsAfter end m.old bytes
        → MatchResult result (λ n. IsAfter end m.new (bytes ++ take n piece.now))
        (StopsWithin end bytes piece.now) }
{
    let mut at = 0;
    while at < piece.len() {
        at = step(alloc, m, piece, at)?;
        if is_complete(end, m.phase) {
            return Ok(at);
        }
    }
    Ok(at)
}

/// The input has ended.
pub fn finish(alloc: Global, m: &mut Machine) -> Result<(), Stop>
    requires ready { IsReady m.old.phase m.old.triples }
    requires room { begun_lines m.old < 2 ^ 64 }
    ensures steps { (end : End) (bytes : List ℕ) → IsAfter end m.old bytes
        → is_complete end m.old.phase ≡ false
        → MatchResult result (λ _. Reads bytes end m.new.triples []) (StopsAtEnd end bytes) }
    ensures within { OnOk result (AreWithinLimits m.new.triples) }
{
    if !m.begun {
        return missing(m.phase, m.number);
    }
    end_line(alloc, m)?;
    missing(m.phase, m.number)
}

/// What is missing at the end of the input.
fn missing(phase: Phase, number: u64) -> Result<(), Stop>
    ensures steps { (end : End) (t : Entries) (ls : List (List ℕ)) → HasLines end phase t ls
        → number ≡ length ls
        → MatchResult result (λ _. IsAll end phase t ls) (Lacks end ls) }
    ensures within { (t : Entries) → IsReady phase t → OnOk result (AreWithinLimits t) }
{
    match phase {
        Phase::Banner => Err(Stop::Bad(BadLine {
            line: 1,
            kind: Kind::NoBanner,
        })),
        Phase::Sizes { .. } => Err(Stop::Bad(BadLine {
            line: number,
            kind: Kind::NoSize,
        })),
        Phase::Entries { preamble, at } => {
            if at.done < preamble.size.count {
                return Err(Stop::Bad(BadLine {
                    line: number,
                    kind: Kind::MissingEntries,
                }));
            }
            Ok(())
        }
    }
}
