//! Verdicts.

/// Whether a report is that of a matrix.
#[derive(Clone, Copy, Debug, PartialEq, Eq)]
pub enum Verdict {
    /// It is.
    Valid,
    /// It is not, and this is the first reason that applies: 1, the bytes are no report with pairs;
    /// 2, a pair is no entry, or two pairs share a row; 3, the pairs are not a maximum matching; 4,
    /// the sizes, the rank or a coarse part differ; 5, the blocks, their order or an order line
    /// differ; 6, in version 2, the connected components or their order differ.
    Invalid(u32),
}
