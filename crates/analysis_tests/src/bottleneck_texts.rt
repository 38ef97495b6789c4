//! The shortest text of a bottleneck. Whole runs show the others in `run_tests`.

ghost use Rattle.std.specs.Prelude.{◌≡◌};
ghost use Rattle.sp_ids.specs.declared.triples.Field.TheVariants.{Integer};

use bip_graph::Bottleneck;
use btf_text::{TextBuf, write_bottleneck};
use sp_ids::{OutOfMemory, Triples};
use sp_pattern::{Pattern, Weights};
use sp_ports::{MemSink, SteadySink};
use std::alloc::Global;
use std::test::Fail;
use test_matrices::integers_of;

// Whether the text is one line.
fn is_one_line(
    alloc: Global,
    buf: &mut TextBuf,
    pattern: &Pattern,
    weights: &Weights<'_>,
) -> Result<bool, OutOfMemory>
    requires { weights.now.matrix ≡ pattern.now }
{
    let mut out = SteadySink::new(alloc, 100, 7)?;
    let is_written = write_bottleneck(
        &mut out,
        buf,
        &Bottleneck::Rectangular,
        pattern,
        weights,
    ).is_ok();
    Ok(is_written && out.bytes() == b"rectangular 2 1\n".as_slice())
}

// Whether 10 bytes were taken where there is room for those alone.
fn is_cut_off(
    alloc: Global,
    buf: &mut TextBuf,
    pattern: &Pattern,
    weights: &Weights<'_>,
) -> Result<bool, OutOfMemory>
    requires { weights.now.matrix ≡ pattern.now }
{
    let mut out = MemSink::new(alloc, 10, 100, Vec::new(alloc))?;
    let is_written = write_bottleneck(
        &mut out,
        buf,
        &Bottleneck::Rectangular,
        pattern,
        weights,
    ).is_ok();
    Ok(!is_written && out.bytes() == b"rectangula".as_slice())
}

// Whether the text of a matrix with more rows than columns is right, whole and cut off.
fn has_texts(alloc: Global, pattern: &Pattern, given: &Triples) -> Result<bool, Fail>
    requires { given.now.field ≡ Integer }
{
    let weights = Weights::build(alloc, pattern, given)?;
    let mut buf = TextBuf::new(alloc)?;
    Ok(
        is_one_line(alloc, &mut buf, pattern, &weights)?
            && is_cut_off(alloc, &mut buf, pattern, &weights)?,
    )
}

#[test]
fn more_rows_than_columns(rt: HostRuntime) -> Result<(), Fail> {
    let given = integers_of(rt.alloc(), 2, 1, &[(1, 1, 3)])?;
    let pattern = Pattern::build(&rt, rt.alloc(), &given)?;
    assert!(rt; has_texts(rt.alloc(), &pattern, &given)?);
    Ok(())
}
