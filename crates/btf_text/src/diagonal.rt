//! The text of the heaviest diagonal, or of why there is none.

ghost use Rattle.std.specs.Prelude.{◌≡◌, ◌∷◌, [], map};
ghost use Rattle.bip_defs.specs.Matrix.{AreEntries, IsEntry};
ghost use Rattle.btf_text.specs.Diagonals.{PairsAreEntries, diagonal_lines, diagonal_text, entry_line, rectangular_line, singular_lines, weighed_lines};
ghost use Rattle.btf_text.specs.Texts.{Puts};
ghost use Rattle.sp_ports.specs.Device.{Writes, seen};

use crate::TextBuf;
use crate::hall::{Hall, put_neighbours};
use crate::text::Text;
use bip_graph::Heaviest;
use itoa::Buffer;
use sp_ids::{Col, Row};
use sp_pattern::{Pattern, Weights};
use sp_ports::{Failed, Sink};

/// Appends the line of an entry: its row, its column and its weight.
fn put_entry<K: Sink>(text: &mut Text<K>, weights: &Weights, row: Row, col: Col)
    requires { IsEntry weights.now.matrix row col }
    ensures { Puts K.taken K.faults text.old text.new (entry_line weights.now (row, col) ∷ []) }
{
    let mut digits = Buffer::new();
    let word = digits.format(u64::from(row.0) + 1).as_bytes();
    let weight = weights.weight(row, col);
    text.put_line(word, &[u64::from(col.0) + 1, weight]);
}

/// Appends the lines of entries, in the order given.
pub(crate) fn put_entries<K: Sink>(text: &mut Text<K>, weights: &Weights, pairs: &[(Row, Col)])
    requires { AreEntries weights.now.matrix pairs.now }
    ensures { Puts K.taken K.faults text.old text.new (map (entry_line weights.now) pairs.now) }
{
    for pair in pairs {
        put_entry(text, weights, pair.0, pair.1);
    }
}

/// Appends a diagonal: its pairs, the prices by row and by column, and the sum of the pairs'
/// weights.
fn put_weighed<K: Sink>(
    text: &mut Text<K>,
    weights: &Weights,
    pairs: &[(Row, Col)],
    prices: (&[i128], &[i128]),
    sum: i128,
)
    requires { AreEntries weights.now.matrix pairs.now }
    ensures { Puts K.taken K.faults text.old text.new
        (weighed_lines weights.now pairs.now prices.entry.0.now prices.entry.1.now sum) }
{
    text.put_signed_line(b"diagonal", &[pairs.len() as i128, sum]);
    put_entries(text, weights, pairs);
    text.put_signed_line(b"row_prices", prices.0);
    text.put_signed_line(b"column_prices", prices.1);
    text.put_line(b"end", &[]);
}

/// Appends the rank, the rows with an entry in one of these columns, and these columns.
pub(crate) fn put_singular<K: Sink>(text: &mut Text<K>, pattern: &Pattern, rank: u32, hall: &[Col])
    ensures { Puts K.taken K.faults text.old text.new (singular_lines pattern.now rank hall.now) }
{
    text.put_line(b"singular", &[u64::from(rank)]);
    put_neighbours(text, b"rows", pattern, &Hall::new(hall));
    text.put_list(b"columns", hall);
    text.put_line(b"end", &[]);
}

/// Appends the line of a matrix that has not as many rows as columns.
pub(crate) fn put_rectangular<K: Sink>(text: &mut Text<K>, pattern: &Pattern)
    ensures { Puts K.taken K.faults text.old text.new (rectangular_line pattern.now ∷ []) }
{
    let (m, n) = (pattern.rows(), pattern.cols());
    text.put_line(b"rectangular", &[u64::from(m), u64::from(n)]);
}

/// Appends the lines of an answer.
fn put_answer<K: Sink>(text: &mut Text<K>, answer: &Heaviest, pattern: &Pattern, weights: &Weights)
    requires weights { weights.now.matrix ≡ pattern.now }
    requires entries { PairsAreEntries pattern.now answer.now }
    ensures { Puts K.taken K.faults text.old text.new (diagonal_lines weights.now answer.now) }
{
    match answer {
        Heaviest::Rectangular => put_rectangular(text, pattern),
        Heaviest::Singular { rank, hall } => {
            put_singular(text, pattern, *rank, hall.as_slice());
        }
        Heaviest::Diagonal { pairs, u, v, sum } => {
            let (u, v) = (u.as_slice(), v.as_slice());
            put_weighed(text, weights, pairs.as_slice(), (u, v), *sum);
        }
    }
}

/// Writes the heaviest diagonal of a matrix, or why it has none.
///
/// - A diagonal: its number of pairs and its sum; a line each of the row, the column and the weight
///   of a pair, in the order given; the prices by row and by column; `end`.
/// - No perfect matching: the rank; the rows with an entry in one of the columns that are given,
///   and these columns; `end`.
/// - Not as many rows as columns: one line of both.
///
/// `answer` is of this pattern: the pairs of a diagonal are entries. `Failed` comes only where a
/// write failed, and then a prefix of the text was taken. It takes no memory. Work: a search in its
/// column for each pair; and where there is no perfect matching a search among the given columns
/// for each entry, by halves if they rise, else one by one.
pub fn write_diagonal<K: Sink>(
    out: &mut K,
    buf: &mut TextBuf,
    answer: &Heaviest,
    pattern: &Pattern,
    weights: &Weights,
) -> Result<(), Failed>
    requires weights { weights.now.matrix ≡ pattern.now }
    requires entries { PairsAreEntries pattern.now answer.now }
    ensures { Writes (seen K.taken K.faults out.old out.new)
        (diagonal_text weights.now answer.now) result }
{
    let mut text = Text::start(out, buf);
    put_answer(&mut text, answer, pattern, weights);
    text.finish()
}
