//! What is kept of the text of a word: as many bytes as tell all words of a banner apart.

ghost use Rattle.std.specs.Prelude.{◌≡◌, ℕ, List, [], ◌∷◌, ◌++◌, take, map, slice_index};
ghost use Rattle.std.specs.Char.{to_ascii_lowercase};
ghost use Rattle.std.specs.Str.{bytes_eq};

use std::marker::Model;

/// How many bytes of a word are kept. The words of a banner are shorter.
const KEPT: usize = 15;

/// The first bytes of a word.
#[derive(Drop)]
pub struct Text {
    bytes: [u8; KEPT],
    len: usize,
}

impl Model for Text {
    ghost use Rattle.std.specs.Prelude.{ℕ, List, take, ◌≤◌};

    ghost Value = { List ℕ };

    ghost view = { λ t. take t.len t.bytes };

    ghost invariant = { λ t. t.len ≤ 15 };
}

impl Text {
    /// Nothing has come.
    pub fn new() -> Text
        ensures { result ≡ [] }
    {
        Text {
            bytes: [0; KEPT],
            len: 0,
        }
    }

    /// One more byte of the word. Bytes past the first ones are not kept.
    pub fn push(&mut self, byte: u8)
        ensures { self.new ≡ take 15 (self.old ++ byte ∷ []) }
    {
        if self.len < KEPT {
            self.bytes[self.len] = byte;
            self.len += 1;
        }
    }

    /// The first byte, or 0 where there is none.
    pub fn first(&self) -> u8
        ensures { result ≡ slice_index self.now 0 }
    {
        if self.len == 0 { 0 } else { self.bytes[0] }
    }

    /// Whether these are the bytes.
    pub fn is(&self, text: &[u8]) -> bool
        ensures { result ≡ bytes_eq self.now text.now }
    {
        &self.bytes[..self.len] == text
    }

    /// Whether these are the bytes but for the case of letters. The text is in lower case.
    pub fn spells(&self, text: &[u8]) -> bool
        requires { map to_ascii_lowercase text.now ≡ text.now }
        ensures { result ≡ bytes_eq (map to_ascii_lowercase self.now) text.now }
    {
        self.bytes[..self.len].eq_ignore_ascii_case(text)
    }
}
