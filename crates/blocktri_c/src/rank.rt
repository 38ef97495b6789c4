//! The structural rank.

ghost use Rattle.std.specs.Prelude.{◌≡◌, ◌≢◌, pos};
ghost use Rattle.bip_defs.specs.Matching.{IsRank};
ghost use Rattle.blocktri.specs.Compressed.{HasMatrix};
ghost use Rattle.blocktri_c.specs.Statuses.{TellsFault, lists_of};

use crate::compressed_lists::{narrow, wide};
use crate::statuses::{OK, status};
use blocktri::Refusal;
use std::alloc::Global;

/// `blocktri::rank` of numbers of 32 bits. The rank is written to `rank`.
#[unsafe(no_mangle)]
pub extern "C" fn proved_rank(
    alloc: Global,
    others: u32,
    starts: &[u32],
    ids: &[u32],
    by_rows: bool,
    rank: &mut u32,
    fault: &mut u64,
) -> i32
    ensures rank { result ≡ pos 0
        → HasMatrix (lists_of others starts.now ids.now by_rows) (λ a. IsRank a rank.new) }
    ensures kept { result ≢ pos 0 → rank.new ≡ rank.old }
    ensures fault { TellsFault result (Unit {0}) (lists_of others starts.now ids.now by_rows)
        fault.old fault.new }
{
    match blocktri::rank(alloc, &narrow(others, starts, ids, by_rows)) {
        Ok(found) => {
            *rank = found;
            OK
        }
        Err(error) => status(Refusal::Columns(error), fault),
    }
}

/// `blocktri::rank` of numbers of 64 bits. The rank is written to `rank`.
#[unsafe(no_mangle)]
pub extern "C" fn proved_rank_64(
    alloc: Global,
    others: u64,
    starts: &[u64],
    ids: &[u64],
    by_rows: bool,
    rank: &mut u32,
    fault: &mut u64,
) -> i32
    ensures rank { result ≡ pos 0
        → HasMatrix (lists_of others starts.now ids.now by_rows) (λ a. IsRank a rank.new) }
    ensures kept { result ≢ pos 0 → rank.new ≡ rank.old }
    ensures fault { TellsFault result (Unit {0}) (lists_of others starts.now ids.now by_rows)
        fault.old fault.new }
{
    match blocktri::rank(alloc, &wide(others, starts, ids, by_rows)) {
        Ok(found) => {
            *rank = found;
            OK
        }
        Err(error) => status(Refusal::Columns(error), fault),
    }
}
