//! A text on its way to its sink.

ghost use Rattle.std.specs.Prelude.{◌≤◌, ◌∷◌, [], decimal, length, map};
ghost use Rattle.bip_graph.specs.Texts.{counted, line, spaced};
ghost use Rattle.btf_text.specs.Diagonals.{signed_line};

use crate::TextBuf;
use sp_ids::Id;
use sp_ports::{Failed, Sink};

/// A sink, and the buffer through which a text goes to it.
#[derive(Drop)]
pub(crate) struct Text<'a, K> {
    pub(crate) sink: &'a mut K,
    pub(crate) buf: &'a mut TextBuf,
}

impl<'a, K: Sink> Text<'a, K> {
    ghost use Rattle.btf_text.specs.Buffered.{Ends};
    ghost use Rattle.btf_text.specs.Texts.{Begins, Puts, PutsBytes};
    ghost use Rattle.sp_ports.specs.Device.{seen};

    /// Begins a text: what an earlier one left in the buffer is forgotten.
    pub(crate) fn start(sink: &'a mut K, buf: &'a mut TextBuf) -> Text<'a, K>
        ensures { Begins sink.entry buf.entry result }
    {
        buf.start();
        Text { sink, buf }
    }

    /// Ends the text: hands on what is kept, and returns whether a write has failed since the text
    /// began.
    pub(crate) fn finish(self) -> Result<(), Failed>
        ensures { Ends (seen K.taken K.faults self.entry.sink.now self.exit.0.now)
            self.entry.buf.now result }
    {
        let Text { sink, buf } = self;
        buf.finish(sink)
    }

    /// Appends these bytes, at most 65,536.
    pub(crate) fn put_piece(&mut self, piece: &[u8])
        requires { length piece.now ≤ 65536 }
        ensures { PutsBytes K.taken K.faults self.old self.new piece.now }
    {
        self.buf.put_piece(self.sink, piece);
    }

    /// Appends a space and a number.
    pub(crate) fn put_number(&mut self, number: u64)
        ensures { PutsBytes K.taken K.faults self.old self.new (32 ∷ decimal number) }
    {
        self.buf.put_number(self.sink, number);
    }

    /// Appends a space and a number each, which count from 1.
    pub(crate) fn put_ids<N: Id>(&mut self, list: &[N])
        ensures { PutsBytes K.taken K.faults self.old self.new
            (spaced (counted (map N.number list.now))) }
    {
        self.buf.put_ids(self.sink, list);
    }

    /// Appends a line: a word of at most 65,536 bytes, and a space and a number each.
    pub(crate) fn put_line(&mut self, word: &[u8], numbers: &[u64])
        requires { length word.now ≤ 65536 }
        ensures { Puts K.taken K.faults self.old self.new (line word.now numbers.now ∷ []) }
    {
        self.buf.put_line(self.sink, word, numbers);
    }

    /// Appends a list line: a word of at most 65,536 bytes, and a space and a number each, which
    /// count from 1.
    pub(crate) fn put_list<N: Id>(&mut self, word: &[u8], list: &[N])
        requires { length word.now ≤ 65536 }
        ensures { Puts K.taken K.faults self.old self.new
            (line word.now (counted (map N.number list.now)) ∷ []) }
    {
        self.buf.put_list(self.sink, word, list);
    }

    /// Appends a line: a word of at most 65,536 bytes, and a space and a number each, which may be
    /// below zero.
    pub(crate) fn put_signed_line(&mut self, word: &[u8], numbers: &[i128])
        requires { length word.now ≤ 65536 }
        ensures { Puts K.taken K.faults self.old self.new (signed_line word.now numbers.now ∷ []) }
    {
        self.buf.put_signed_line(self.sink, word, numbers);
    }
}
