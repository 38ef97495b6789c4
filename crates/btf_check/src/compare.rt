//! Lists of rows and columns, compared.

ghost use Rattle.std.specs.Prelude.{◌≡◌, ◌↔◌, ℕ, ◌<◌, ◌++◌, map, IfOk, IsTrue};
ghost use Rattle.bip_defs.specs.Lists.{Among, AreDistinct};
ghost use Rattle.bip_graph.specs.Decompositions.{components_of};
ghost use Rattle.btf_check.specs.ReportParts.{AreOnce};
ghost use Rattle.report_reader.specs.ReportRead.{listed_in};

use bip_graph::{Blocks, Components};
use report_reader::ListedComponents;
use sp_ids::{Col, Id, OutOfMemory, Row};
use std::alloc::Global;

/// Whether a list has each of the numbers `once`, which are below the bound, exactly once, in any
/// order.
///
/// Returns `OutOfMemory` if it cannot allocate a byte for each number below the bound. Work: a look
/// at each number of both lists, if they have one length.
pub(crate) fn are_once<N: Id>(
    alloc: Global,
    bound: u32,
    once: &[N],
    list: &[N],
) -> Result<bool, OutOfMemory>
    requires below { (x : ℕ) → Among x (map N.number once.now) → x < bound }
    requires distinct { AreDistinct (map N.number once.now) }
    ensures { IfOk result
        (λ b. IsTrue b ↔ AreOnce (map N.number once.now) (map N.number list.now)) }
{
    if list.len() != once.len() {
        return Ok(false);
    }
    let mut waiting = vec![in alloc; false; bound as usize]?;
    for at in 0..once.len() {
        waiting[once[at].number() as usize] = true;
    }
    for at in 0..list.len() {
        let number = list[at].number() as usize;
        if number >= waiting.len() || !waiting[number] {
            return Ok(false);
        }
        waiting[number] = false;
    }
    Ok(true)
}

/// Whether two lists of rows are the same.
pub(crate) fn same_rows(a: &[Row], b: &[Row]) -> bool
    ensures { IsTrue result ↔ (a.now ≡ b.now) }
{
    a == b
}

/// Whether two lists of columns are the same.
pub(crate) fn same_cols(a: &[Col], b: &[Col]) -> bool
    ensures { IsTrue result ↔ (a.now ≡ b.now) }
{
    a == b
}

/// Whether two lists of blocks are the same.
pub(crate) fn same_blocks(a: &Blocks, b: &Blocks) -> bool
    ensures { IsTrue result ↔ (a.now ≡ b.now) }
{
    if a.len() != b.len() {
        return false;
    }
    for at in 0..a.len() {
        if !same_rows(a.rows(at), b.rows(at)) || !same_cols(a.cols(at), b.cols(at)) {
            return false;
        }
    }
    true
}

/// Whether a report lists these components, in the same order.
pub(crate) fn same_components(told: &ListedComponents, own: &Components) -> bool
    ensures { IsTrue result ↔ (listed_in told.now ≡ components_of own.now) }
{
    told.horizontal.are(&own.horizontal) && told.vertical.are(&own.vertical)
}

/// Whether a list of rows is three others, one after another.
pub(crate) fn are_joined_rows(whole: &[Row], first: &[Row], second: &[Row], third: &[Row]) -> bool
    ensures { IsTrue result ↔ (whole.now ≡ first.now ++ second.now ++ third.now) }
{
    if whole.len() != first.len() + second.len() + third.len() {
        return false;
    }
    let (prefix, rest) = whole.split_at(first.len());
    let (middle, back) = rest.split_at(second.len());
    if !same_rows(prefix, first) {
        return false;
    }
    if !same_rows(middle, second) {
        return false;
    }
    same_rows(back, third)
}

/// Whether a list of columns is three others, one after another.
pub(crate) fn are_joined_cols(whole: &[Col], first: &[Col], second: &[Col], third: &[Col]) -> bool
    ensures { IsTrue result ↔ (whole.now ≡ first.now ++ second.now ++ third.now) }
{
    if whole.len() != first.len() + second.len() + third.len() {
        return false;
    }
    let (prefix, rest) = whole.split_at(first.len());
    let (middle, back) = rest.split_at(second.len());
    if !same_cols(prefix, first) {
        return false;
    }
    if !same_cols(middle, second) {
        return false;
    }
    same_cols(back, third)
}
