//! The buffer through which a text goes to its sink.

ghost use Rattle.std.specs.Prelude.{◌≡◌, OnOk, OnErr, true, ◌∷◌, ◌++◌, ◌+◌, ◌≤◌, [], false, length, map, decimal, IfOk};
ghost use Rattle.bip_graph.specs.Texts.{counted, line, spaced};
ghost use Rattle.std.specs.Fmt.{signed_decimal};
ghost use Rattle.btf_text.specs.Diagonals.{signed_line};
ghost use Rattle.btf_text.specs.Buffered.{Appends, AppendsLines, Ends};
ghost use Rattle.sp_ports.specs.Device.{seen};

use itoa::Buffer;
use sp_ids::{Id, OutOfMemory};
use sp_ports::{Failed, Sink, taken_in_turn, write_all};
use std::alloc::Global;
use std::marker::Model;

/// How many bytes the buffer holds.
const CAPACITY: usize = 65_536;

/// A buffer of 65,536 bytes, and whether a write has failed since the text began.
///
/// A failure is kept and answered when the text is over. Nothing more is written after it.
#[derive(Drop)]
pub struct TextBuf {
    bytes: Vec<u8>,
    failed: bool,
}

impl Model for TextBuf {
    ghost use Rattle.std.specs.Prelude.{◌≤◌};
    ghost use Rattle.std.specs.Vec.{vec_len, vec_capacity};
    ghost use Rattle.btf_text.specs.Buffered.{Buffered};

    ghost Value = { Buffered };

    ghost view = { λ b. record { bytes = b.bytes.items; failed = b.failed } };

    ghost invariant = { λ b. (vec_len b.bytes ≤ 65536) × (65536 ≤ vec_capacity b.bytes) };
}

/// Hands the bytes on, unless a write has failed before: whether one has failed by now.
fn write_kept<K: Sink>(out: &mut K, bytes: &[u8], failed: bool) -> bool
    ensures { Appends (seen K.taken K.faults out.old out.new)
        (record { bytes = bytes.now; failed = failed })
        (record { bytes = []; failed = result }) [] }
{
    if failed {
        return true;
    }
    taken_in_turn();
    match write_all(out, bytes) {
        Ok(()) => false,
        Err(Failed) => true,
    }
}

/// Whether a text was written.
fn outcome(failed: bool) -> Result<(), Failed>
    ensures ok { OnOk result (failed ≡ false) }
    ensures err { OnErr result (failed ≡ true) }
{
    if failed { Err(Failed) } else { Ok(()) }
}

impl TextBuf {
    /// A buffer in which no text stands. It takes 65,536 bytes, and no call of it takes memory
    /// later.
    pub fn new(alloc: Global) -> Result<TextBuf, OutOfMemory>
        ensures { IfOk result (λ b. b ≡ record { bytes = []; failed = false }) }
    {
        Ok(TextBuf {
            bytes: Vec::with_capacity(alloc, CAPACITY)?,
            failed: false,
        })
    }

    /// Begins a text: what an earlier one left is forgotten.
    pub fn start(&mut self)
        ensures { self.new ≡ record { bytes = []; failed = false } }
    {
        self.bytes.clear();
        self.failed = false;
    }

    /// Hands on what is kept.
    fn hand_on<K: Sink>(&mut self, out: &mut K)
        ensures empty { self.new.bytes ≡ [] }
        ensures same { Appends (seen K.taken K.faults out.old out.new) self.old self.new [] }
    {
        self.failed = write_kept(out, self.bytes.as_slice(), self.failed);
        self.bytes.clear();
    }

    /// Adds bytes to what is kept, for which there is room.
    fn add(&mut self, piece: &[u8])
        requires { length self.old.bytes + length piece.now ≤ 65536 }
        ensures bytes { self.new.bytes ≡ self.old.bytes ++ piece.now }
        ensures failed { self.new.failed ≡ self.old.failed }
    {
        match self.bytes.extend_from_slice(piece) {
            Ok(()) => {}
            Err(_) => unreachable!(),
        }
    }

    /// Makes room for so many bytes.
    fn make_room<K: Sink>(&mut self, out: &mut K, count: usize)
        requires { count ≤ 65536 }
        ensures room { length self.new.bytes + count ≤ 65536 }
        ensures same { Appends (seen K.taken K.faults out.old out.new) self.old self.new [] }
    {
        if self.bytes.len() <= CAPACITY - count {
            return;
        }
        self.hand_on(out);
    }

    /// Appends these bytes, at most 65,536.
    pub fn put_piece<K: Sink>(&mut self, out: &mut K, piece: &[u8])
        requires { length piece.now ≤ 65536 }
        ensures { Appends (seen K.taken K.faults out.old out.new) self.old self.new piece.now }
    {
        self.make_room(out, piece.len());
        self.add(piece);
    }

    /// Appends a space and a number.
    pub fn put_number<K: Sink>(&mut self, out: &mut K, number: u64)
        ensures { Appends (seen K.taken K.faults out.old out.new) self.old self.new
            (32 ∷ decimal number) }
    {
        let mut digits = Buffer::new();
        let text = digits.format(number).as_bytes();
        self.make_room(out, 1 + text.len());
        self.add(b" ");
        self.add(text);
    }

    /// Appends a line: a word of at most 65,536 bytes, and a space and a number each.
    pub fn put_line<K: Sink>(&mut self, out: &mut K, word: &[u8], numbers: &[u64])
        requires { length word.now ≤ 65536 }
        ensures { AppendsLines (seen K.taken K.faults out.old out.new) self.old self.new
            (line word.now numbers.now ∷ []) }
    {
        self.put_piece(out, word);
        for number in numbers {
            self.put_number(out, *number);
        }
        self.put_piece(out, b"\n");
    }

    /// Appends a list line: a word of at most 65,536 bytes, and a space and a number each,
    /// which count from 1.
    pub fn put_list<K: Sink, N: Id>(&mut self, out: &mut K, word: &[u8], list: &[N])
        requires { length word.now ≤ 65536 }
        ensures { AppendsLines (seen K.taken K.faults out.old out.new) self.old self.new
            (line word.now (counted (map N.number list.now)) ∷ []) }
    {
        self.put_piece(out, word);
        self.put_ids(out, list);
        self.put_piece(out, b"\n");
    }

    /// Appends a space and a number each, which count from 1.
    pub(crate) fn put_ids<K: Sink, N: Id>(&mut self, out: &mut K, list: &[N])
        ensures { Appends (seen K.taken K.faults out.old out.new) self.old self.new
            (spaced (counted (map N.number list.now))) }
    {
        for id in list {
            self.put_number(out, u64::from(id.number()) + 1);
        }
    }

    /// Appends a space and a number that may be below zero.
    fn put_signed<K: Sink>(&mut self, out: &mut K, number: i128)
        ensures { Appends (seen K.taken K.faults out.old out.new) self.old self.new
            (32 ∷ signed_decimal number) }
    {
        let mut digits = Buffer::new();
        let text = digits.format(number).as_bytes();
        self.put_piece(out, b" ");
        self.put_piece(out, text);
    }

    /// Appends a line: a word of at most 65,536 bytes, and a space and a number each, which may be
    /// below zero.
    pub(crate) fn put_signed_line<K: Sink>(&mut self, out: &mut K, word: &[u8], numbers: &[i128])
        requires { length word.now ≤ 65536 }
        ensures { AppendsLines (seen K.taken K.faults out.old out.new) self.old self.new
            (signed_line word.now numbers.now ∷ []) }
    {
        self.put_piece(out, word);
        for number in numbers {
            self.put_signed(out, *number);
        }
        self.put_piece(out, b"\n");
    }

    /// Ends the text: hands on what is kept, and returns whether a write has failed since the text
    /// began.
    pub fn finish<K: Sink>(&mut self, out: &mut K) -> Result<(), Failed>
        ensures { Ends (seen K.taken K.faults out.old out.new) self.old result }
    {
        self.hand_on(out);
        outcome(self.failed)
    }
}
