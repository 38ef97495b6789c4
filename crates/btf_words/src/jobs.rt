//! The jobs that the words of a command line name.

ghost use Rattle.std.specs.Prelude.{◌≡◌};
ghost use Rattle.btf_words.specs.Choices.{are_least, are_listed, choice_with};

use crate::Workers;

/// How a maximum matching is searched for.
#[derive(Clone, Copy, Debug, PartialEq, Eq)]
pub enum Engine {
    /// Augmenting paths one by one, from the empty matching.
    Plain,
    /// One search from each unmatched column (Duff 1981), from the Karp-Sipser start.
    Mc21,
    /// Phases of searches from all unmatched columns (Pothen and Fan 1990), from the Karp-Sipser
    /// start.
    Pf,
    /// Phases in which alternating trees grow from all unmatched columns at once (Azad, Buluç and
    /// Pothen 2017), from the Karp-Sipser start.
    Graft,
}

/// Which engine searches for a maximum matching, and with how many workers where more than one can.
#[derive(Clone, Copy, Debug, PartialEq, Eq)]
pub enum EngineChoice {
    /// `Engine::Plain`.
    Plain,
    /// `Engine::Mc21`.
    Mc21,
    /// `Engine::Pf`.
    Pf,
    /// `Engine::Graft`.
    Graft {
        /// How many workers search at once.
        workers: Workers,
    },
}

impl EngineChoice {
    /// This engine, with so many workers where more than one can search.
    pub fn with(engine: Engine, workers: Workers) -> EngineChoice
        ensures { result ≡ choice_with engine workers }
    {
        match engine {
            Engine::Plain => EngineChoice::Plain,
            Engine::Mc21 => EngineChoice::Mc21,
            Engine::Pf => EngineChoice::Pf,
            Engine::Graft => EngineChoice::Graft { workers },
        }
    }
}

/// The version of a report's text.
#[derive(Clone, Copy, Debug, PartialEq, Eq)]
pub enum Version {
    /// Version 1, which has no connected components.
    One,
    /// Version 2, which has those of the horizontal and of the vertical part.
    Two,
}

/// Which pairs a report lists.
#[derive(Clone, Copy, Debug, PartialEq, Eq)]
pub enum ListedPairs {
    /// It lists none.
    None,
    /// Those of some maximum matching.
    Any,
    /// Those of the least maximum matching: the same for every engine.
    Least,
}

impl ListedPairs {
    /// Whether pairs are listed.
    pub fn are_listed(self) -> bool
        ensures { result ≡ are_listed self }
    {
        match self {
            ListedPairs::None => false,
            ListedPairs::Any | ListedPairs::Least => true,
        }
    }

    /// Whether they are those of the least maximum matching.
    pub fn are_least(self) -> bool
        ensures { result ≡ are_least self }
    {
        match self {
            ListedPairs::None | ListedPairs::Any => false,
            ListedPairs::Least => true,
        }
    }
}

/// What a report is to have.
#[derive(Clone, Copy, Debug, PartialEq, Eq)]
pub struct ReportOptions {
    /// The version of its text.
    pub version: Version,
    /// Whether the two orders are written.
    pub order: bool,
    /// Which pairs are written.
    pub pairs: ListedPairs,
}

/// What the program is asked to do. With `drop_zeros` a place of an integer file whose values add
/// up to 0 is no entry.
#[derive(Clone, Copy, Debug, PartialEq, Eq)]
pub enum Job {
    /// The structural rank, with the horizontal part that shows it.
    Rank {
        /// Whether places whose values add up to 0 are left out.
        drop_zeros: bool,
    },
    /// The whole structural analysis.
    Analyse {
        /// Which engine searches.
        choice: EngineChoice,
        /// What the report has.
        report: ReportOptions,
        /// Whether places whose values add up to 0 are left out.
        drop_zeros: bool,
    },
    /// The heaviest diagonal of an integer matrix.
    Diagonal {
        /// Whether places whose values add up to 0 are left out.
        drop_zeros: bool,
    },
    /// Whether a report that follows the matrix is right.
    Check {
        /// Whether places whose values add up to 0 are left out.
        drop_zeros: bool,
    },
    /// The analysis of a matrix that is made from a number.
    Load {
        /// How many rows and columns it has: 1 to 16,777,216.
        size: u32,
        /// The number that it is made from.
        seed: u64,
        /// Which engine searches.
        choice: EngineChoice,
    },
    /// The ranks and reports of a matrix under the edits that follow it.
    Edit,
    /// A diagonal of an integer matrix whose least weight is greatest.
    Bottleneck {
        /// Whether places whose values add up to 0 are left out.
        drop_zeros: bool,
    },
}

/// Why words name no job.
#[derive(Clone, Copy, Debug, PartialEq, Eq)]
pub enum WordsError {
    /// The program does not take these words.
    Usage,
    /// There was not enough memory to read them.
    OutOfMemory,
}
