//! What a take answers.

/// What became of the take of a tree.
#[derive(Clone, Copy, Debug, PartialEq, Eq)]
pub enum Taken {
    /// No seat had taken the tree, and this one has it from now on.
    Mine,
    /// The seat of this number has taken the tree before. It may be the seat that asks.
    Held(u32),
}
