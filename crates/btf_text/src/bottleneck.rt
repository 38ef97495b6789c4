//! The text of a perfect matching whose least weight is greatest, or of why there is none.

ghost use Rattle.std.specs.Prelude.{◌≡◌};
ghost use Rattle.bip_defs.specs.Matrix.{AreEntries};
ghost use Rattle.btf_text.specs.Bottlenecks.{BestPairsAreEntries, best_lines, bottleneck_lines, bottleneck_text, entries_above};
ghost use Rattle.btf_text.specs.Texts.{Puts};
ghost use Rattle.sp_ports.specs.Device.{Writes, seen};

use crate::TextBuf;
use crate::diagonal::{put_entries, put_rectangular, put_singular};
use crate::hall::{Hall, RowLookup, put_neighbours};
use crate::text::Text;
use bip_graph::Bottleneck;
use sp_ids::{Col, Row};
use sp_pattern::{Pattern, Weights};
use sp_ports::{Failed, Sink};

/// The entries of a matrix whose weight is greater than a number.
#[derive(Drop)]
struct Above<'a, 'p> {
    pattern: &'a Pattern,
    weights: &'a Weights<'p>,
    least: u64,
    ghost of: { weights.now.matrix ≡ pattern.now },
}

impl RowLookup for Above<'_, '_> {
    ghost matrix = { λ b. entries_above b.weights.now b.least };

    fn rows(&self) -> u32 {
        self.pattern.rows()
    }

    fn has_entry_in(&self, row: Row, hall: &Hall) -> bool {
        let cols = self.pattern.cols_of(row);
        for col in cols {
            if hall.has(*col) && self.weights.weight(row, *col) > self.least {
                return true;
            }
        }
        false
    }
}

/// Appends a perfect matching, the least of its weights, and the columns that show that none is
/// greater.
fn put_best<K: Sink>(text: &mut Text<K>, above: &Above, pairs: &[(Row, Col)], hall: &[Col])
    requires { AreEntries above.now.weights.now.matrix pairs.now }
    ensures { Puts K.taken K.faults text.old text.new
        (best_lines above.now.weights.now pairs.now above.now.least hall.now) }
{
    text.put_line(b"bottleneck", &[pairs.len() as u64, above.least]);
    put_entries(text, above.weights, pairs);
    put_neighbours(text, b"above_rows", above, &Hall::new(hall));
    text.put_list(b"above_columns", hall);
    text.put_line(b"end", &[]);
}

/// Appends the lines of an answer.
fn put_answer<K: Sink>(
    text: &mut Text<K>,
    answer: &Bottleneck,
    pattern: &Pattern,
    weights: &Weights,
)
    requires weights { weights.now.matrix ≡ pattern.now }
    requires entries { BestPairsAreEntries pattern.now answer.now }
    ensures { Puts K.taken K.faults text.old text.new (bottleneck_lines weights.now answer.now) }
{
    match answer {
        Bottleneck::Rectangular => put_rectangular(text, pattern),
        Bottleneck::Singular { rank, hall } => {
            put_singular(text, pattern, *rank, hall.as_slice());
        }
        Bottleneck::Best { pairs, least, hall } => {
            let above = Above {
                pattern,
                weights,
                least: *least,
            };
            put_best(text, &above, pairs.as_slice(), hall.as_slice());
        }
    }
}

/// Writes a perfect matching of a matrix whose least weight is greatest, or why it has none.
///
/// - A matching: its number of pairs and the least of their weights; a line each of the row, the
///   column and the weight of a pair, in the order given; the rows with an entry of greater weight
///   in one of the columns that are given, and these columns; `end`.
/// - No perfect matching: the rank; the rows with an entry in one of the columns that are given,
///   and these columns; `end`.
/// - Not as many rows as columns: one line of both.
///
/// `answer` is of this pattern: its pairs are entries. `Failed` comes only where a write failed,
/// and then a prefix of the text was taken. It takes no memory. Work: a search in its column for
/// each pair, and for each entry a search among the given columns, by halves if they rise, and one
/// in its column.
pub fn write_bottleneck<K: Sink>(
    out: &mut K,
    buf: &mut TextBuf,
    answer: &Bottleneck,
    pattern: &Pattern,
    weights: &Weights,
) -> Result<(), Failed>
    requires weights { weights.now.matrix ≡ pattern.now }
    requires entries { BestPairsAreEntries pattern.now answer.now }
    ensures { Writes (seen K.taken K.faults out.old out.new)
        (bottleneck_text weights.now answer.now) result }
{
    let mut text = Text::start(out, buf);
    put_answer(&mut text, answer, pattern, weights);
    text.finish()
}
