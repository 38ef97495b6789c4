//! What is kept of a word that may be a number: not its digits, so it may have any count of them.

ghost use Rattle.std.specs.Prelude.{◌≡◌, ℕ, List, [], ◌∷◌, ◌++◌};
ghost use Rattle.mm_lines.specs.Tokens.{number_facts, next_number, ReadsNumber, ReadsInteger};

/// A word, by what the rules ask of it as a number.
#[derive(Clone, Copy, Debug, PartialEq, Eq)]
pub struct Number {
    /// It begins with a minus sign.
    pub minus: bool,
    /// There are bytes behind the sign.
    pub some: bool,
    /// All bytes behind the sign are digits.
    pub digits: bool,
    /// What the digits stand for, or the greatest number that fits; 0 where they are not digits.
    pub value: u64,
}

/// An integer, by its sign and its magnitude, or the greatest magnitude that fits.
#[derive(Clone, Copy, Debug, PartialEq, Eq)]
pub struct Integer {
    pub minus: bool,
    pub magnitude: u64,
}

impl Number {
    /// A word's first byte.
    pub fn first(byte: u8) -> Number
        ensures { result ≡ number_facts (byte ∷ []) }
    {
        let sign = Number {
            minus: byte == b'-',
            some: false,
            digits: true,
            value: 0,
        };
        if byte == b'-' || byte == b'+' {
            return sign;
        }
        let mut number = sign;
        number.take(byte);
        number
    }

    /// One more byte of the word.
    pub fn push(&mut self, byte: u8)
        ensures { (b : ℕ) (bs : List ℕ) → self.old ≡ number_facts (b ∷ bs)
            → self.new ≡ number_facts ((b ∷ bs) ++ byte ∷ []) }
    {
        self.take(byte);
    }

    /// One more byte behind the sign.
    fn take(&mut self, byte: u8)
        ensures { self.new ≡ next_number self.old byte }
    {
        self.some = true;
        if self.digits && byte.is_ascii_digit() {
            self.value = self
                .value
                .saturating_mul(10)
                .saturating_add(u64::from(byte - b'0'));
        } else {
            self.digits = false;
            self.value = 0;
        }
    }

    /// The number, if the word is one.
    pub fn unsigned(&self) -> Option<u64>
        ensures { (w : List ℕ) → self.now ≡ number_facts w → ReadsNumber w result }
    {
        if self.minus {
            return None;
        }
        if !self.some {
            return None;
        }
        if !self.digits {
            return None;
        }
        Some(self.value)
    }

    /// The integer, if the word is one.
    pub fn signed(&self) -> Option<Integer>
        ensures { (w : List ℕ) → self.now ≡ number_facts w → ReadsInteger w result }
    {
        if !self.some {
            return None;
        }
        if !self.digits {
            return None;
        }
        Some(Integer {
            minus: self.minus,
            magnitude: self.value,
        })
    }
}
