//! The sizes of a block triangular form.

/// What a call is to find beside the parts. What is not wanted takes no time.
#[derive(Clone, Copy, Debug, PartialEq, Eq)]
pub struct Wants {
    /// The fine blocks, with the orders of rows and columns.
    pub blocks: bool,
    /// The connected components of the outer parts.
    pub components: bool,
}

/// How many connected components each outer part has.
#[derive(Clone, Copy, Debug, PartialEq, Eq)]
pub struct ComponentCounts {
    pub horizontal: u32,
    pub vertical: u32,
}

/// The sizes of a block triangular form.
#[derive(Clone, Copy, Debug, PartialEq, Eq)]
pub struct Sizes {
    /// The structural rank.
    pub rank: u32,
    /// The rows of the horizontal part.
    pub horizontal_rows: u32,
    /// The columns of the horizontal part.
    pub horizontal_columns: u32,
    /// The rows of the square part, and its columns.
    pub square: u32,
    /// The rows of the vertical part.
    pub vertical_rows: u32,
    /// The columns of the vertical part.
    pub vertical_columns: u32,
    /// The fine blocks of the square part, where they are wanted.
    pub blocks: Option<u32>,
    /// The connected components of the outer parts, where they are wanted.
    pub components: Option<ComponentCounts>,
}
