//! Lists for the calls to write, and matrices for them to read.

use crate::matrices::{LEFT, Worked};
use blocktri::{Compressed, Narrow, Wide};

/// Which of a call's lists are wanted. They are counted from 0.
#[derive(Clone, Copy)]
pub(crate) enum Wanted {
    All,
    Only(usize),
    Nothing,
}

impl Wanted {
    fn has(self, list: usize) -> bool {
        match self {
            Wanted::All => true,
            Wanted::Only(one) => one == list,
            Wanted::Nothing => false,
        }
    }

    /// How long a list is that has room for these numbers where it is wanted.
    pub(crate) fn length(self, list: usize, numbers: &[u32]) -> usize {
        if self.has(list) { numbers.len() } else { 0 }
    }
}

/// All of seven lists, each alone, and none.
pub(crate) static CHOICES: [Wanted; 9] = [
    Wanted::All,
    Wanted::Only(0),
    Wanted::Only(1),
    Wanted::Only(2),
    Wanted::Only(3),
    Wanted::Only(4),
    Wanted::Only(5),
    Wanted::Only(6),
    Wanted::Nothing,
];

/// A list for a call to write, of at most eight places.
#[derive(Clone, Copy)]
pub(crate) struct List {
    numbers: [u32; 8],
    length: usize,
}

impl List {
    pub(crate) fn new(length: usize) -> List {
        List {
            numbers: [LEFT; 8],
            length,
        }
    }

    /// The places for the call.
    pub(crate) fn places(&mut self) -> &mut [u32] {
        let length = self.length.min(8);
        &mut self.numbers[..length]
    }

    /// Whether these numbers were written, or where there are no places, nothing.
    pub(crate) fn has(&self, numbers: &[u32]) -> bool {
        for place in 0..8 {
            let number = if self.length != 0 && place < numbers.len() {
                numbers[place]
            } else {
                LEFT
            };
            if self.numbers[place] != number {
                return false;
            }
        }
        numbers.len() <= 8
    }

    /// The same where the numbers are looked for, and else whether nothing was written.
    pub(crate) fn has_if(&self, is_looked_for: bool, numbers: &[u32]) -> bool {
        if is_looked_for {
            self.has(numbers)
        } else {
            self.is_left()
        }
    }

    /// Whether nothing was written.
    pub(crate) fn is_left(&self) -> bool {
        self.has(&[])
    }
}

/// A matrix as compressed columns, or as compressed rows.
#[derive(Clone, Copy)]
pub(crate) struct Given<'a> {
    pub(crate) others: u64,
    pub(crate) starts: &'a [u32],
    pub(crate) ids: &'a [u32],
    pub(crate) by_rows: bool,
}

impl<'a> Given<'a> {
    /// A matrix of the table.
    pub(crate) fn of(worked: &Worked<'a>, by_rows: bool) -> Given<'a> {
        if by_rows {
            Given {
                others: worked.columns as u64,
                starts: worked.row_starts,
                ids: worked.row_ids,
                by_rows,
            }
        } else {
            Given {
                others: worked.rows as u64,
                starts: worked.starts,
                ids: worked.ids,
                by_rows,
            }
        }
    }

    /// With numbers of 32 bits.
    pub(crate) fn narrow(self) -> Compressed<Narrow<'a>> {
        Compressed {
            others: self.others,
            starts: Narrow { list: self.starts },
            ids: Narrow { list: self.ids },
            by_rows: self.by_rows,
        }
    }

    /// With the numbers of 64 bits that were made of its lists.
    pub(crate) fn wide<'b>(
        self,
        starts: &'b [u64; 16],
        ids: &'b [u64; 16],
    ) -> Compressed<Wide<'b>> {
        let (starts_end, ids_end) = (self.starts.len().min(16), self.ids.len().min(16));
        Compressed {
            others: self.others,
            starts: Wide {
                list: &starts[..starts_end],
            },
            ids: Wide {
                list: &ids[..ids_end],
            },
            by_rows: self.by_rows,
        }
    }
}

/// The first 16 numbers, in 64 bits.
pub(crate) fn widened(numbers: &[u32]) -> [u64; 16] {
    let mut wide = [0; 16];
    for place in 0..numbers.len().min(16) {
        wide[place] = numbers[place] as u64;
    }
    wide
}
