//! The matrix that is given, from the arguments of a call.

ghost use Rattle.std.specs.Prelude.{◌≡◌};
ghost use Rattle.blocktri_c.specs.Statuses.{lists_of};

use blocktri::{Compressed, Narrow, Wide};

/// Compressed columns or rows of numbers of 32 bits.
pub fn narrow<'a>(
    others: u32,
    starts: &'a [u32],
    ids: &'a [u32],
    by_rows: bool,
) -> Compressed<Narrow<'a>>
    ensures { result ≡ lists_of others starts.now ids.now by_rows }
{
    Compressed {
        others: others as u64,
        starts: Narrow { list: starts },
        ids: Narrow { list: ids },
        by_rows,
    }
}

/// Compressed columns or rows of numbers of 64 bits.
pub fn wide<'a>(
    others: u64,
    starts: &'a [u64],
    ids: &'a [u64],
    by_rows: bool,
) -> Compressed<Wide<'a>>
    ensures { result ≡ lists_of others starts.now ids.now by_rows }
{
    Compressed {
        others,
        starts: Wide { list: starts },
        ids: Wide { list: ids },
        by_rows,
    }
}
