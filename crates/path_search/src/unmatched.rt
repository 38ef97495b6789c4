//! The columns where searches begin.

ghost use Rattle.std.specs.Prelude.{◌≡◌, ℕ, ◌<◌, ◌↔◌, List, length, IfOk, IsTrue};
ghost use Rattle.bip_defs.specs.Lists.{Lists};
ghost use Rattle.bip_defs.specs.Matrix.{cols};
ghost use Rattle.path_search.specs.Roots.{IsRoot};

use bip_graph::{Matching, Opposite};
use sp_ids::{Col, OutOfMemory};
use sp_pattern::Side;
use std::alloc::Global;

// Whether a column is unmatched and has entries.
fn is_root<F: Opposite, S: Side<F>>(side: &S, matching: &Matching, col: Col) -> bool
    requires sizes { (F.seen matching.now).cols ≡ cols (S.matrix side.now) }
    requires col { col < cols (S.matrix side.now) }
    ensures { IsTrue result ↔ IsRoot (S.matrix side.now) (F.seen matching.now).pairs col }
{
    match F::row_of(matching, col) {
        Some(_) => false,
        None => !side.rows_of(col).is_empty(),
    }
}

/// How many unmatched columns have entries, as the side sees them. It takes no memory. Work: one look
/// at each column.
pub fn count_roots<F: Opposite, S: Side<F>>(side: &S, matching: &Matching) -> u32
    requires { (F.seen matching.now).cols ≡ cols (S.matrix side.now) }
    ensures { (w : List ℕ) × Lists (IsRoot (S.matrix side.now) (F.seen matching.now).pairs) w
        × (result ≡ length w) }
{
    let mut count = 0;
    for col in 0..side.cols() {
        if is_root(side, matching, Col(col)) {
            count += 1;
        }
    }
    count
}

/// The unmatched columns that have entries, as the side sees them.
///
/// Returns `OutOfMemory` if it cannot allocate 4 bytes each. Work: one look at each column.
pub fn roots<F: Opposite, S: Side<F>>(
    alloc: Global,
    side: &S,
    matching: &Matching,
) -> Result<Vec<Col>, OutOfMemory>
    requires { (F.seen matching.now).cols ≡ cols (S.matrix side.now) }
    ensures { IfOk result
        (λ roots. Lists (IsRoot (S.matrix side.now) (F.seen matching.now).pairs) roots.items) }
{
    let mut roots = Vec::new(alloc);
    for number in 0..side.cols() {
        if is_root(side, matching, Col(number)) {
            roots.push(Col(number))?;
        }
    }
    Ok(roots)
}
