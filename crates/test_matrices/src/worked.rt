//! Reads what the table of matrices says of one of them. Each call that gives a list fails where
//! memory is refused, and takes work that is linear in the text.

use crate::matrices::MATRICES;
use crate::small::pattern_of;
use sp_pattern::Pattern;
use std::alloc::Global;
use std::test::Fail;
use std::thread::Threads;

/// A matrix and its answers: its lines in the table, each a word, a colon and what it lists.
#[derive(Clone, Copy)]
pub struct Worked<'a> {
    pub lines: &'a str,
}

/// Rows and columns, which count from 1.
#[derive(Drop)]
pub struct Lists {
    pub rows: Vec<u32>,
    pub cols: Vec<u32>,
}

/// All matrices of the table.
pub fn worked_matrices(alloc: Global) -> Result<Vec<Worked<'static>>, Fail> {
    let mut matrices = Vec::new(alloc);
    for lines in MATRICES.split("\n\n") {
        matrices.push(Worked { lines })?;
    }
    Ok(matrices)
}

/// The numbers of a text, which has blanks between them.
fn numbers_in(alloc: Global, text: &str) -> Result<Vec<u32>, Fail> {
    let mut numbers = Vec::new(alloc);
    for word in text.split(' ') {
        if !word.is_empty() {
            numbers.push(word.parse::<u32>()?)?;
        }
    }
    Ok(numbers)
}

/// The pairs of a text, which has commas between them. Fails where a word is no number below 2^32,
/// and where a row stands without a column.
pub fn pairs_in(alloc: Global, text: &str) -> Result<Vec<(u32, u32)>, Fail> {
    let mut pairs = Vec::new(alloc);
    for part in text.split(',') {
        let numbers = numbers_in(alloc, part)?;
        if let Some(row) = numbers.get(0) {
            let col = numbers.get(1).ok_or("a row without a column")?;
            pairs.push((*row, *col))?;
        }
    }
    Ok(pairs)
}

/// The rows and columns of a text, which has a bar between them. Fails where there is none, and where
/// a word is no number below 2^32.
pub fn lists_in(alloc: Global, text: &str) -> Result<Lists, Fail> {
    let (rows, cols) = text.split_once('|').ok_or("no bar")?;
    let rows = numbers_in(alloc, rows)?;
    let cols = numbers_in(alloc, cols)?;
    Ok(Lists { rows, cols })
}

impl<'a> Worked<'a> {
    /// What follows a word and a colon at the beginning of a line, if there is such a line.
    pub fn find(&self, word: &str) -> Option<&'a str> {
        for line in self.lines.split('\n') {
            if let Some((first, rest)) = line.split_once(':') {
                if first == word {
                    return Some(rest);
                }
            }
        }
        None
    }

    /// The same, where each matrix has such a line. Fails where there is none.
    pub fn line(&self, word: &str) -> Result<&'a str, Fail> {
        Ok(self.find(word).ok_or("a line is missing")?)
    }

    /// The name of the matrix, or an empty text where it has none.
    pub fn name(&self) -> &'a str {
        self.find("name").unwrap_or("")
    }

    /// The numbers of a line. Fails where there is no such line or a word is no number.
    pub fn numbers(&self, alloc: Global, word: &str) -> Result<Vec<u32>, Fail> {
        numbers_in(alloc, self.line(word)?)
    }

    /// The pairs of a line. Fails where there is no such line, and as [`pairs_in`].
    pub fn pairs(&self, alloc: Global, word: &str) -> Result<Vec<(u32, u32)>, Fail> {
        pairs_in(alloc, self.line(word)?)
    }

    /// The rows and columns of a line. Fails where there is no such line, and as [`lists_in`].
    pub fn lists(&self, alloc: Global, word: &str) -> Result<Lists, Fail> {
        lists_in(alloc, self.line(word)?)
    }

    /// The rank. Fails where the table has none.
    pub fn rank(&self, alloc: Global) -> Result<u32, Fail> {
        let numbers = self.numbers(alloc, "rank")?;
        Ok(*numbers.get(0).ok_or("no rank")?)
    }
}

/// Pairs as they are, or with rows for columns.
pub fn seen(
    alloc: Global,
    pairs: &[(u32, u32)],
    transposed: bool,
) -> Result<Vec<(u32, u32)>, Fail> {
    let mut seen = Vec::new(alloc);
    for (row, col) in pairs {
        seen.push(if transposed {
            (*col, *row)
        } else {
            (*row, *col)
        })?;
    }
    Ok(seen)
}

/// The matrix, or its transpose. Fails where the table has no sizes or places of it, and as
/// [`pattern_of`].
pub fn pattern_from<R: AllocGlobal + Threads + Sync>(
    rt: &R,
    worked: &Worked<'_>,
    transposed: bool,
) -> Result<Pattern, Fail> {
    let sizes = worked.pairs(rt.alloc(), "sizes")?;
    let sizes = seen(rt.alloc(), sizes.as_slice(), transposed)?;
    let (rows, cols) = *sizes.get(0).ok_or("no sizes")?;
    let places = worked.pairs(rt.alloc(), "places")?;
    let places = seen(rt.alloc(), places.as_slice(), transposed)?;
    pattern_of(rt, rows, cols, places.as_slice())
}
