//! The structural rank.

ghost use Rattle.std.specs.Prelude.{IfErr, IfOk};
ghost use Rattle.bip_defs.specs.Matching.{IsRank};
ghost use Rattle.blocktri.specs.Compressed.{HasMatrix};
ghost use Rattle.sp_pattern.specs.ColumnErrors.{IsColumnsError};

use crate::compressed::Compressed;
use crate::full_diagonal::diagonal_rank;
use crate::maximum::maximum_matching;
use sp_pattern::{ColumnsError, NumberList};
use std::alloc::Global;

/// The structural rank of a matrix: the size of a maximum matching. By rows, the rank is that of the
/// transpose, so nothing is turned.
///
/// The first fault of the lists is reported. Where each place of the diagonal is an entry, the rank
/// is the lesser of the numbers of rows and columns: the call takes no memory, and looks at each
/// number twice at most.
///
/// Else, at a first look, each column takes the first of its rows that no column before it has
/// taken. Where each column that has entries finds one, or each row that has entries is taken, the
/// number of pairs is the rank, and the call takes 4 bytes a row and 4 a column, and 1 a row more
/// to count the rows.
///
/// Else a depth-first phase (Pothen and Fan 1990) goes on from there, from the side on which fewer
/// unmatched ones have entries: from columns whose numbers rise over a copy of 4 bytes a number and
/// 4 a column, from others and from the rows over the pattern. Where it matches at least three
/// quarters of those, or at most one, all further phases go on as well; else they begin anew, over
/// the pattern and at the start of Karp and Sipser (1981). Returns `OutOfMemory` if it cannot
/// allocate that. Work: beside what `pothen_fan::phase_from` and
/// `breadth_first_match::complete_from` say of theirs, at most six looks at each number over the
/// columns; else what `sp_pattern::Pattern::of_columns`, `karp_sipser::start` and
/// `breadth_first_match::complete` say.
pub fn rank<N: NumberList>(alloc: Global, matrix: &Compressed<N>) -> Result<u32, ColumnsError>
    ensures rank { IfOk result (λ k. HasMatrix matrix.now (λ a. IsRank a k)) }
    ensures refused { IfErr result
        (IsColumnsError matrix.now.others matrix.now.starts matrix.now.ids) }
{
    matrix.check()?;
    if let Some(rank) = diagonal_rank(matrix) {
        return Ok(rank);
    }
    match maximum_matching(alloc, matrix) {
        Ok(matching) => Ok(matching.size()),
        Err(_) => Err(ColumnsError::OutOfMemory),
    }
}
