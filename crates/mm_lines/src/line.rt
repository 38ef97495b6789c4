//! What is kept of a line.

ghost use Rattle.std.specs.Prelude.{◌≡◌, ℕ, ◌==◌, ◌<◌, ◌≤◌, List, [], ◌∷◌, ◌++◌, length, map, false, true};
ghost use Rattle.std.specs.Char.{to_ascii_lowercase};
ghost use Rattle.std.specs.Str.{bytes_eq};
ghost use Rattle.mm_defs.specs.Words.{is_blank, is_skipped, word, words};
ghost use Rattle.mm_defs.specs.Header.{spells};
ghost use Rattle.mm_lines.specs.Tokens.{token_of, ReadsNumber, ReadsInteger};
ghost use Rattle.mm_lines.specs.Lines.{IsLine};

use crate::number::{Integer, Number};
use crate::text::Text;
use std::marker::Model;

/// A word, by what the rules ask of it.
#[derive(Drop)]
pub struct Token {
    pub text: Text,
    pub number: Number,
}

/// How many words of a line are kept. No good line has more.
const WORDS: usize = 5;

/// A line so far, by what the rules ask of its words. It takes no memory.
#[derive(Drop)]
pub struct LineSoFar {
    tokens: [Token; WORDS],
    /// How many words have begun, up to one more than are kept.
    count: usize,
    /// The last word may go on.
    inside: bool,
}

impl Model for LineSoFar {
    ghost use Rattle.mm_lines.specs.KeptLines.{KeptLine};

    ghost Value = { KeptLine };

    ghost use Rattle.mm_lines.specs.Lines.{kept_of, HasPlaces};

    ghost view = { kept_of };

    ghost invariant = { HasPlaces };
}

/// Space, tab and CR.
pub fn is_blank(byte: u8) -> bool
    ensures { result ≡ is_blank byte }
{
    byte == b' ' || byte == b'\t' || byte == b'\r'
}

impl Token {
    /// A word's first byte.
    pub fn first(byte: u8) -> Token
        ensures { result ≡ token_of (byte ∷ []) }
    {
        let mut text = Text::new();
        text.push(byte);
        Token {
            text,
            number: Number::first(byte),
        }
    }

    /// One more byte of the word.
    pub fn push(&mut self, byte: u8)
        ensures { (b : ℕ) (bs : List ℕ) → self.old ≡ token_of (b ∷ bs)
            → self.new ≡ token_of ((b ∷ bs) ++ byte ∷ []) }
    {
        self.text.push(byte);
        self.number.push(byte);
    }
}

impl LineSoFar {
    /// Nothing has come.
    pub fn new() -> LineSoFar
        ensures { IsLine result [] }
    {
        LineSoFar {
            tokens: [
                Token::first(0),
                Token::first(0),
                Token::first(0),
                Token::first(0),
                Token::first(0),
            ],
            count: 0,
            inside: false,
        }
    }

    /// A new line begins.
    pub fn clear(&mut self)
        ensures { (line : List ℕ) → IsLine self.old line
            → IsLine self.new [] }
    {
        self.count = 0;
        self.inside = false;
    }

    /// One more byte comes.
    pub fn push(&mut self, byte: u8)
        ensures { (line : List ℕ) → IsLine self.old line
            → IsLine self.new (line ++ byte ∷ []) }
    {
        if is_blank(byte) {
            self.inside = false;
        } else if self.inside {
            self.go_on(byte);
        } else {
            self.begin(byte);
        }
    }

    /// A word begins.
    fn begin(&mut self, byte: u8)
        requires { is_blank byte ≡ false }
        ensures { (line : List ℕ) → self.old.inside ≡ false
            → IsLine self.old line
            → IsLine self.new (line ++ byte ∷ []) }
    {
        self.inside = true;
        if self.count < WORDS {
            self.tokens[self.count] = Token::first(byte);
            self.count += 1;
        } else {
            self.count = WORDS + 1;
        }
    }

    /// The last word goes on.
    fn go_on(&mut self, byte: u8)
        requires { is_blank byte ≡ false }
        ensures { (line : List ℕ) → self.old.inside ≡ true
            → IsLine self.old line
            → IsLine self.new (line ++ byte ∷ []) }
    {
        if self.count == 0 {
            return;
        }
        if self.count > WORDS {
            return;
        }
        self.tokens[self.count - 1].push(byte);
    }

    /// Whether it has so many words. The number is 5 at most.
    pub fn has_words(&self, count: usize) -> bool
        requires { count ≤ 5 }
        ensures { (line : List ℕ) → IsLine self.now line
            → result ≡ (length (words line) == count) }
    {
        self.count == count
    }

    /// Whether it is skipped: it has no words, or the first begins with a percent sign.
    pub fn is_skipped(&self) -> bool
        ensures { (line : List ℕ) → IsLine self.now line
            → result ≡ is_skipped (words line) }
    {
        if self.count == 0 {
            return true;
        }
        self.tokens[0].text.first() == b'%'
    }

    /// Whether a word is this text. The words are numbered from 0 to 4, and the text has 1 to 14
    /// bytes.
    pub fn is(&self, k: usize, text: &[u8]) -> bool
        requires word { k < 5 }
        requires short { length text.now < 15 }
        requires some { 0 < length text.now }
        ensures { (line : List ℕ) → IsLine self.now line
            → result ≡ bytes_eq (word (words line) k) text.now }
    {
        if self.count <= k {
            return false;
        }
        self.tokens[k].text.is(text)
    }

    /// Whether a word is this text but for the case of letters. The words are numbered from 0 to 4,
    /// and the text has 1 to 14 bytes, in lower case.
    pub fn spells(&self, k: usize, text: &[u8]) -> bool
        requires word { k < 5 }
        requires short { length text.now < 15 }
        requires some { 0 < length text.now }
        requires lower { map to_ascii_lowercase text.now ≡ text.now }
        ensures { (line : List ℕ) → IsLine self.now line
            → result ≡ spells text.now (word (words line) k) }
    {
        if self.count <= k {
            return false;
        }
        self.tokens[k].text.spells(text)
    }

    /// A word as a number, if it is one. The words are numbered from 0 to 4.
    pub fn number(&self, k: usize) -> Option<u64>
        requires { k < 5 }
        ensures { (line : List ℕ) → IsLine self.now line
            → ReadsNumber (word (words line) k) result }
    {
        if self.count <= k {
            return None;
        }
        self.tokens[k].number.unsigned()
    }

    /// A word as an integer, if it is one. The words are numbered from 0 to 4.
    pub fn integer(&self, k: usize) -> Option<Integer>
        requires { k < 5 }
        ensures { (line : List ℕ) → IsLine self.now line
            → ReadsInteger (word (words line) k) result }
    {
        if self.count <= k {
            return None;
        }
        self.tokens[k].number.signed()
    }
}
