//! The sizes at which the search for a maximum matching goes another way. They change no answer.

ghost use Rattle.std.specs.Prelude.{◌≡◌};

use level_sharing::WORTH_THREADS;

/// The sizes at which a search goes another way. Whatever they are, the same comes out.
#[derive(Clone, Copy)]
pub struct SearchSizes {
    /// Of so many rows and columns together serial phases go on until the matching is maximum. Of
    /// more they are left to match what they find fast, and workers do the rest.
    pub serial_to_the_end: u64,

    /// So many columns of a frontier, free rows or roots with a leaf, or rows and columns of a
    /// forest together, are worth threads.
    pub worth_threads: u32,
}

/// Those at which a user's search goes another way: 6,000,000 rows and columns, of which more are
/// searched sooner by workers, and 500,000 items that are worth threads.
pub const USUAL_SIZES: SearchSizes = SearchSizes {
    serial_to_the_end: 6_000_000,
    worth_threads: WORTH_THREADS,
};

/// How many workers search, and at which sizes the search goes another way.
#[derive(Clone, Copy)]
pub struct Plan {
    pub workers: u32,
    pub sizes: SearchSizes,
}

impl Plan {
    /// So many workers, with the usual sizes.
    pub fn usual(workers: u32) -> Plan
        ensures { result.workers ≡ workers }
    {
        Plan {
            workers,
            sizes: USUAL_SIZES,
        }
    }
}
