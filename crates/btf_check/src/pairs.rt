//! The pairs of a report.

ghost use Rattle.std.specs.Prelude.{◌≡◌, IfNone, IfOk, IfSome};
ghost use Rattle.bip_defs.specs.Lists.{IsRising};
ghost use Rattle.bip_defs.specs.Matching.{cols_of};
ghost use Rattle.bip_defs.specs.Matrix.{cols};
ghost use Rattle.btf_check.specs.Reasons.{ArePaired};

use bip_graph::Matching;
use sp_ids::{Col, OutOfMemory, Row};
use sp_pattern::Pattern;
use std::alloc::Global;

/// The matching of these pairs, unless one is no entry or two share a row.
///
/// Returns `OutOfMemory` if it cannot allocate 4 bytes a row and 4 a column. Work: one search in a
/// column for each pair.
pub(crate) fn matching_of(
    alloc: Global,
    pattern: &Pattern,
    pairs: &[(Row, Col)],
) -> Result<Option<Matching>, OutOfMemory>
    requires rising { IsRising (cols_of pairs.now) }
    ensures pairs { IfOk result (λ o. IfSome o (λ m. m.pairs ≡ pairs.now)) }
    ensures rows { IfOk result (λ o. IfSome o (λ m. m.rows ≡ pattern.now.rows)) }
    ensures cols { IfOk result (λ o. IfSome o (λ m. m.cols ≡ cols pattern.now)) }
    ensures paired { IfOk result (λ o. IfSome o (λ m. ArePaired pattern.now pairs.now)) }
    ensures unpaired { IfOk result (λ o. IfNone o (¬ ArePaired pattern.now pairs.now)) }
{
    let mut matching = Matching::empty(alloc, pattern.rows(), pattern.cols())?;
    for pair in pairs {
        let (row, col) = *pair;
        if !pattern.has(row, col) || matching.col_of(row).is_some() {
            return Ok(None);
        }
        matching.pair(row, col);
    }
    matching.is_matching();
    Ok(Some(matching))
}
