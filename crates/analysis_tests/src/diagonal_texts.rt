//! Texts of `diagonal` that no small file leads to, worked out by hand. Whole runs show the others
//! in `run_tests`.

ghost use Rattle.std.specs.Prelude.{◌≡◌, IsTrue};
ghost use Rattle.bip_defs.specs.Matrix.{AreEntries};
ghost use Rattle.btf_text.specs.Diagonals.{PairsAreEntries};
ghost use Rattle.sp_ids.specs.declared.triples.Field.TheVariants.{Integer};

use bip_graph::Heaviest;
use btf_text::{TextBuf, write_diagonal};
use sp_ids::{Col, OutOfMemory, Row, Triples};
use sp_pattern::{Pattern, Weights};
use sp_ports::SteadySink;
use std::alloc::Global;
use std::test::Fail;
use test_matrices::integers_of;

/// Whether all pairs are entries.
fn are_entries(pattern: &Pattern, pairs: &[(Row, Col)]) -> bool
    ensures { IsTrue result → AreEntries pattern.now pairs.now }
{
    for pair in pairs {
        if !pattern.has(pair.0, pair.1) {
            return false;
        }
    }
    true
}

/// Whether the pairs of a diagonal are entries.
fn has_entries(pattern: &Pattern, answer: &Heaviest) -> bool
    ensures { IsTrue result → PairsAreEntries pattern.now answer.now }
{
    match answer {
        Heaviest::Rectangular => true,
        Heaviest::Singular { .. } => true,
        Heaviest::Diagonal { pairs, .. } => are_entries(pattern, pairs.as_slice()),
    }
}

/// Whether this text is written.
fn has_text(
    alloc: Global,
    answer: &Heaviest,
    pattern: &Pattern,
    weights: &Weights,
    text: &[u8],
) -> Result<bool, OutOfMemory>
    requires { weights.now.matrix ≡ pattern.now }
{
    if !has_entries(pattern, answer) {
        return Ok(false);
    }
    let mut buf = TextBuf::new(alloc)?;
    let mut out = SteadySink::new(alloc, 1000, 7)?;
    let is_written = write_diagonal(&mut out, &mut buf, answer, pattern, weights).is_ok();
    Ok(is_written && out.bytes() == text)
}

/// Whether this text is written of the matrix with these entries.
fn has_text_of(
    alloc: Global,
    answer: &Heaviest,
    pattern: &Pattern,
    given: &Triples,
    text: &[u8],
) -> Result<bool, Fail>
    requires { given.now.field ≡ Integer }
{
    let weights = Weights::build(alloc, pattern, given)?;
    Ok(has_text(alloc, answer, pattern, &weights, text)?)
}

/// The longest prices, and prices below zero.
fn long_prices(alloc: Global) -> Result<Heaviest, OutOfMemory> {
    Ok(Heaviest::Diagonal {
        pairs: [(Row(0), Col(0)), (Row(1), Col(1))].to_vec(alloc)?,
        u: [i128::MIN, -3].to_vec(alloc)?,
        v: [i128::MAX, 10].to_vec(alloc)?,
        sum: -1,
    })
}

#[test]
fn the_longest_prices_and_prices_below_zero(rt: HostRuntime) -> Result<(), Fail> {
    // Weights are magnitudes: -7 weighs 7.
    let entries = [(1, 1, 9_223_372_036_854_775_807), (2, 2, -7)];
    let given = integers_of(rt.alloc(), 2, 2, &entries)?;
    let pattern = Pattern::build(&rt, rt.alloc(), &given)?;
    let answer = long_prices(rt.alloc())?;
    let text =
        b"diagonal 2 -1\n1 1 9223372036854775807\n2 2 7\nrow_prices -170141183460469231731687303715884105728 -3\ncolumn_prices 170141183460469231731687303715884105727 10\nend\n";
    assert!(rt; has_text_of(rt.alloc(), &answer, &pattern, &given, text)?);
    Ok(())
}

/// Two columns that do not rise.
fn falling_columns(alloc: Global) -> Result<Heaviest, OutOfMemory> {
    Ok(Heaviest::Singular {
        rank: 3,
        hall: [Col(2), Col(0)].to_vec(alloc)?,
    })
}

#[test]
fn columns_that_do_not_rise(rt: HostRuntime) -> Result<(), Fail> {
    // Rows 2 and 4 have entries in columns 1 and 3, row 1 in column 2 alone, and row 3 has none.
    let entries = [(1, 2, 1), (2, 3, 1), (4, 1, 1), (4, 3, 1)];
    let given = integers_of(rt.alloc(), 4, 4, &entries)?;
    let pattern = Pattern::build(&rt, rt.alloc(), &given)?;
    let answer = falling_columns(rt.alloc())?;
    let text = b"singular 3\nrows 2 4\ncolumns 3 1\nend\n";
    assert!(rt; has_text_of(rt.alloc(), &answer, &pattern, &given, text)?);
    Ok(())
}
