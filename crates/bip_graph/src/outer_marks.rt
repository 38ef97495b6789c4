//! Marks of one side of an outer part.

/// What the last phase of a search for a maximum matching has marked, by the side that it searched
/// from.
#[derive(Drop)]
pub enum OuterMarks {
    /// For each row whether it is horizontal: the phases searched from the columns.
    HorizontalRows(Vec<bool>),
    /// For each column whether it is vertical: the phases searched from the rows.
    VerticalCols(Vec<bool>),
}
