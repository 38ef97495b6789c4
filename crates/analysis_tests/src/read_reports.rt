//! Reports that are read, and bytes that are none.

use bip_graph::{Blocks, Parts};
use btf_text::{Report, read_report};
use sp_ids::{Col, Row};
use std::alloc::Global;
use std::test::Fail;
use test_matrices::are;

/// Whether the parts are those of rows 1, 3 4 and columns 1 2, 4, with nothing listed between.
fn has_the_outer_lists(parts: &Parts) -> bool {
    are(parts.hr.as_slice(), &[1])
        && are(parts.hc.as_slice(), &[1, 2])
        && are(parts.vr.as_slice(), &[3, 4])
        && are(parts.vc.as_slice(), &[4])
        && parts.sr.is_empty()
        && parts.sc.is_empty()
}

fn has_the_two_blocks(blocks: &Blocks) -> bool {
    blocks.len() == 2 && are(blocks.all_rows(), &[5, 2, 6]) && are(blocks.all_cols(), &[5, 3, 6])
}

/// Whether the pairs, the orders of rows 1 to 4 and those of columns 4 and 3 are there.
fn has_the_orders(read: &Report) -> bool {
    let pairs = [(Row(0), Col(0)), (Row(1), Col(2)), (Row(2), Col(3))];
    match &read.orders {
        Some((rows, cols)) => {
            are(rows.as_slice(), &[1, 2, 3, 4])
                && are(cols.as_slice(), &[4, 3])
                && read.pairs.as_slice() == pairs.as_slice()
        }
        None => false,
    }
}

fn has_the_sizes(read: &Report) -> bool {
    read.m == 6 && read.n == 6 && read.e == 9 && read.rank == 5
}

/// Whether a text is read, as the report with orders.
fn is_read_with_orders(alloc: Global, text: &[u8]) -> Result<bool, Fail> {
    match read_report(alloc, text)? {
        Some(read) => Ok(
            has_the_sizes(&read)
                && has_the_outer_lists(&read.parts)
                && has_the_two_blocks(&read.blocks)
                && has_the_orders(&read),
        ),
        None => Ok(false),
    }
}

#[test]
fn a_report_with_orders(rt: HostRuntime) -> Result<(), Fail> {
    // The blocks are in their own order, and the lists of the square part are left empty.
    let text =
        b"btf 1\nmatrix 6 6 9\nrank 5\nhorizontal 1 2\nrows 1\ncolumns 1 2\nsquare 3 2\nblock 1 1\nrows 5\ncolumns 5\nblock 2 2\nrows 2 6\ncolumns 3 6\nvertical 2 1\nrows 3 4\ncolumns 4\nrow_order 1 2 3 4\ncolumn_order 4 3\npairs 3\n1 1\n2 3\n3 4\nend\n";
    assert!(rt; is_read_with_orders(rt.alloc(), text)?);
    Ok(())
}

/// Whether the one column is a component by itself, and so is the last of the most rows.
fn has_the_components(read: &Report) -> bool {
    match &read.components {
        Some(components) => {
            components.horizontal.len() == 1
                && are(components.horizontal.all_cols(), &[1])
                && components.vertical.len() == 1
                && are(components.vertical.all_rows(), &[u32::MAX])
        }
        None => false,
    }
}

/// Whether a text is read, as the report with the greatest numbers.
fn is_read_with_components(alloc: Global, text: &[u8]) -> Result<bool, Fail> {
    match read_report(alloc, text)? {
        Some(read) => Ok(
            read.version == 2
                && read.m == u32::MAX
                && are(read.parts.vr.as_slice(), &[u32::MAX])
                && has_the_components(&read)
                && read.orders.is_none()
                && read.pairs.is_empty(),
        ),
        None => Ok(false),
    }
}

#[test]
fn components_and_the_greatest_numbers(rt: HostRuntime) -> Result<(), Fail> {
    let text =
        b"btf 2\nmatrix 4294967295 1 0\nrank 0\nhorizontal 0 1\nrows\ncolumns 1\nhorizontal_components 1\ncomponent 1 0 1\nrows\ncolumns 1\nsquare 0 0\nvertical 1 0\nrows 4294967295\ncolumns\nvertical_components 1\ncomponent 1 1 0\nrows 4294967295\ncolumns\npairs 0\nend\n";
    assert!(rt; is_read_with_components(rt.alloc(), text)?);
    Ok(())
}

/// Bytes that are no report.
#[rattlefmt::skip]
static OTHERS: [&[u8]; 22] = [
    // Another version, line end, spelling of a number, number past the greatest; no pairs; no end,
    // or something behind it.
    b"",
    b"btf 2\nmatrix 0 0 0\nrank 0\nhorizontal 0 0\nsquare 0 0\nvertical 0 0\npairs 0\nend\n",
    b"btf 1\r\nmatrix 0 0 0\nrank 0\nhorizontal 0 0\nsquare 0 0\nvertical 0 0\npairs 0\nend\n",
    b"btf 1\nmatrix 00 0 0\nrank 0\nhorizontal 0 0\nsquare 0 0\nvertical 0 0\npairs 0\nend\n",
    b"btf 1\nmatrix +0 0 0\nrank 0\nhorizontal 0 0\nsquare 0 0\nvertical 0 0\npairs 0\nend\n",
    b"btf 1\nmatrix  0 0 0\nrank 0\nhorizontal 0 0\nsquare 0 0\nvertical 0 0\npairs 0\nend\n",
    b"btf 1\nmatrix 0 0 4294967296\nrank 0\nhorizontal 0 0\nsquare 0 0\nvertical 0 0\npairs 0\nend\n",
    b"btf 1\nmatrix 0 0 0\nrank 0\nhorizontal 0 0\nsquare 0 0\nvertical 0 0\nend\n",
    b"btf 1\nmatrix 0 0 0\nrank 0\nhorizontal 0 0\nsquare 0 0\nvertical 0 0\npairs 0\nend",
    b"btf 1\nmatrix 0 0 0\nrank 0\nhorizontal 0 0\nsquare 0 0\nvertical 0 0\npairs 0\nend\n\n",
    // Lists that do not rise, that begin with 0, that are longer than told, or that stand where
    // both are empty.
    b"btf 1\nmatrix 9 9 9\nrank 1\nhorizontal 0 2\nrows\ncolumns 2 2\nsquare 0 0\nvertical 0 0\npairs 0\nend\n",
    b"btf 1\nmatrix 9 9 9\nrank 1\nhorizontal 0 2\nrows\ncolumns 0 2\nsquare 0 0\nvertical 0 0\npairs 0\nend\n",
    b"btf 1\nmatrix 9 9 9\nrank 1\nhorizontal 0 2\nrows\ncolumns 1 2 3\nsquare 0 0\nvertical 0 0\npairs 0\nend\n",
    b"btf 1\nmatrix 9 9 9\nrank 1\nhorizontal 0 0\nrows\ncolumns\nsquare 0 0\nvertical 0 0\npairs 0\nend\n",
    // A block with another number, more rows than told, and a column less.
    b"btf 1\nmatrix 9 9 9\nrank 1\nhorizontal 0 0\nsquare 1 1\nblock 0 1\nrows 1\ncolumns 1\nvertical 0 0\npairs 0\nend\n",
    b"btf 1\nmatrix 9 9 9\nrank 1\nhorizontal 0 0\nsquare 1 1\nblock 1 2\nrows 1 2\ncolumns 1 2\nvertical 0 0\npairs 0\nend\n",
    b"btf 1\nmatrix 9 9 9\nrank 1\nhorizontal 0 0\nsquare 2 1\nblock 1 2\nrows 1 2\ncolumns 1\nvertical 0 0\npairs 0\nend\n",
    // Pairs that do not rise by column.
    b"btf 1\nmatrix 9 9 9\nrank 1\nhorizontal 0 0\nsquare 0 0\nvertical 0 0\npairs 2\n1 2\n2 1\nend\n",
    // A component of no row and no column, one with another number, and one that is longer than
    // told.
    b"btf 2\nmatrix 1 1 0\nrank 0\nhorizontal 0 0\nhorizontal_components 1\ncomponent 1 0 0\nrows\ncolumns\nsquare 0 0\nvertical 0 0\nvertical_components 0\npairs 0\nend\n",
    b"btf 2\nmatrix 1 1 0\nrank 0\nhorizontal 0 0\nhorizontal_components 1\ncomponent 2 1 0\nrows 1\ncolumns\nsquare 0 0\nvertical 0 0\nvertical_components 0\npairs 0\nend\n",
    b"btf 2\nmatrix 1 1 0\nrank 0\nhorizontal 0 0\nhorizontal_components 1\ncomponent 1 1 0\nrows 1 2\ncolumns\nsquare 0 0\nvertical 0 0\nvertical_components 0\npairs 0\nend\n",
    // No line on the vertical ones.
    b"btf 2\nmatrix 0 0 0\nrank 0\nhorizontal 0 0\nhorizontal_components 0\nsquare 0 0\nvertical 0 0\npairs 0\nend\n",
];

fn is_no_report(alloc: Global, text: &[u8]) -> Result<bool, Fail> {
    let read = read_report(alloc, text)?;
    Ok(read.is_none())
}

#[test]
fn bytes_that_are_no_report(rt: HostRuntime) -> Result<(), Fail> {
    for text in &OTHERS {
        assert!(rt; is_no_report(rt.alloc(), text)?);
    }
    Ok(())
}
