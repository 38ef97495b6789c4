//! Patterns of small matrices and of one with many entries, the weights of entries, and the matrix
//! of a number, worked out by hand. Tables count rows and columns from 1.

ghost use Rattle.std.specs.Prelude.{◌≡◌};
ghost use Rattle.sp_ids.specs.declared.triples.Field.TheVariants.{Integer};

use sp_ids::{Col, Field, Id, Row, Triples};
use sp_pattern::{Pattern, Weights, load_matrix};
use std::alloc::Global;
use std::test::Fail;
use test_matrices::{are, integers_of, pattern_of};

// Whether the matrix has the five places of the lists below, each once.
fn has_the_places(pattern: &Pattern) -> bool {
    pattern.rows() == 4
        && pattern.cols() == 4
        && pattern.entries() == 5
        && are(pattern.rows_of(Col(0)), &[2, 4])
        && are(pattern.cols_of(Row(0)), &[2, 4])
        && pattern.has(Row(2), Col(2))
        && !pattern.has(Row(9), Col(9))
}

// One matrix: by columns; by rows; each place beside its mirror image, with the lower half by
// columns, by rows and in no order; in no order at all. In each list one place stands twice.
#[test]
fn places_in_each_order(rt: HostRuntime) -> Result<(), Fail> {
    let orders = [
        [(2, 1), (4, 1), (1, 2), (3, 3), (3, 3), (1, 4)],
        [(1, 2), (1, 4), (2, 1), (3, 3), (3, 3), (4, 1)],
        [(2, 1), (1, 2), (4, 1), (1, 4), (3, 3), (3, 3)],
        [(2, 1), (1, 2), (3, 3), (3, 3), (4, 1), (1, 4)],
        [(1, 4), (4, 1), (3, 3), (2, 1), (1, 2), (3, 3)],
        [(3, 3), (1, 4), (2, 1), (1, 2), (4, 1), (2, 1)],
    ];
    for places in orders {
        let pattern = pattern_of(&rt, 4, 4, places.as_slice())?;
        assert!(rt; has_the_places(&pattern));
    }
    Ok(())
}

// The row r has entries in the columns 513 r, 513 r + 1 and so on, modulo the size. Fails where that
// is 0.
fn far_apart(alloc: Global, size: u32, count: u32) -> Result<Triples, Fail> {
    let mut triples = Triples::new(alloc, size, size, Field::Pattern)?;
    for k in 0..count {
        push_far_apart(&mut triples, size, k)?;
    }
    Ok(triples)
}

// The entry of a number.
fn push_far_apart(triples: &mut Triples, size: u32, k: u32) -> Result<(), Fail> {
    if size == 0 {
        return Err(Fail::new("no rows"));
    }
    let row = k.wrapping_mul(513) % size;
    let col = row.wrapping_mul(513).wrapping_add(k / size) % size;
    if row >= triples.rows() || col >= triples.cols() || triples.len() >= 4294967295 {
        return Err(Fail::new("an entry is out of range, or there are too many"));
    }
    triples.push(Row(row), Col(col), 0)?;
    Ok(())
}

// Whether a place is one of these, where there are 131,072 rows and columns.
fn is_far_apart(row: u32, col: u32) -> bool {
    col.wrapping_sub(row.wrapping_mul(513)) % 131072 < 16
}

// Whether a list has sixteen rising numbers.
fn are_sixteen<I: Id>(list: &[I]) -> bool {
    let mut last: Option<u32> = None;
    for id in list {
        if let Some(before) = last {
            if before >= id.number() {
                return false;
            }
        }
        last = Some(id.number());
    }
    list.len() == 16
}

// Whether each row has its sixteen columns, in order.
fn rows_are_far_apart(pattern: &Pattern) -> bool {
    for row in 0..pattern.rows() {
        let cols = pattern.cols_of(Row(row));
        for col in cols {
            if !is_far_apart(row, col.0) {
                return false;
            }
        }
        if !are_sixteen(cols) {
            return false;
        }
    }
    true
}

// Whether each column has its sixteen rows, in order.
fn cols_are_far_apart(pattern: &Pattern) -> bool {
    for col in 0..pattern.cols() {
        let rows = pattern.rows_of(Col(col));
        for row in rows {
            if !is_far_apart(row.0, col) {
                return false;
            }
        }
        if !are_sixteen(rows) {
            return false;
        }
    }
    true
}

// So many places that lie so far apart are turned round block by block. 513 is odd, so each column
// has as many rows as each row has columns.
#[test]
fn many_places_far_apart(rt: HostRuntime) -> Result<(), Fail> {
    let triples = far_apart(rt.alloc(), 131072, 2097152)?;
    let pattern = Pattern::build(&rt, rt.alloc(), &triples)?;
    assert!(rt; pattern.rows() == 131072 && pattern.entries() == 2097152);
    assert!(rt; rows_are_far_apart(&pattern) && cols_are_far_apart(&pattern));
    Ok(())
}

#[test]
fn load_matrix_of_thirty(rt: HostRuntime) -> Result<(), Fail> {
    let pattern = load_matrix(&rt, rt.alloc(), 30, 0)?;
    assert!(rt; pattern.entries() == 85);
    Ok(())
}

// Whether the one column has the weights 7 and 8.
fn has_weights(pattern: &Pattern, weights: &Weights<'_>) -> bool
    requires { weights.now.matrix ≡ pattern.now }
{
    pattern.cols() == 1
        && weights.weights_of(Col(0)) == [7, 8].as_slice()
        && pattern.has(Row(1), Col(0))
        && weights.weight(Row(1), Col(0)) == 8
}

// Whether this row, which counts from 1, is left of the two rows of the one column.
fn has_row(pattern: &Pattern, row: u32) -> bool {
    pattern.cols() == 1 && are(pattern.rows_of(Col(0)), &[row])
}

// Whether the weights are right, and the entries above 7 are the one of row 2.
fn is_weighed(alloc: Global, pattern: &Pattern, given: &Triples) -> Result<bool, Fail>
    requires { given.now.field ≡ Integer }
{
    let weights = Weights::build(alloc, pattern, given)?;
    let above = pattern.above(alloc, &weights, 7)?;
    Ok(has_weights(pattern, &weights) && has_row(&above, 2))
}

// The place (2, 1) is given twice.
#[test]
fn weights_and_entries_above_one(rt: HostRuntime) -> Result<(), Fail> {
    let given = integers_of(rt.alloc(), 2, 1, &[(2, 1, 1), (1, 1, -7), (2, 1, -9)])?;
    let pattern = Pattern::build(&rt, rt.alloc(), &given)?;
    assert!(rt; is_weighed(rt.alloc(), &pattern, &given)?);
    Ok(())
}

// The values of the place (2, 1) add up to 0, those of (1, 1) do not.
#[test]
fn places_that_add_up_to_zero(rt: HostRuntime) -> Result<(), Fail> {
    let entries = [
        (2, 1, 9223372036854775807),
        (1, 1, 1),
        (2, 1, -9223372036854775807),
    ];
    let given = integers_of(rt.alloc(), 2, 1, &entries)?;
    let pattern = Pattern::build_nonzero(&rt, rt.alloc(), &given)?;
    assert!(rt; has_row(&pattern, 1));
    Ok(())
}
