//! What a seat knows, and what a board's table is told when it is opened. Both are read by proofs
//! alone.

use std::marker::Model;
use std::snapshot::Snapshot;

// What a seat knows of its board. No value of it is made.
pub struct View;

impl Model for View {
    ghost use Rattle.std.specs.Prelude.{Option, None};
    ghost use Rattle.claim_words.specs.Rule.{Known};

    ghost Value = { Option Known };

    ghost view = { λ _. None };
}

// The words with which a board is opened, and how many of them are the rows'.
#[derive(Drop)]
pub struct Opening {
    pub words: Snapshot<Vec<u64>>,
    pub rows: usize,
}
