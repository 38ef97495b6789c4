//! One worker's part: a round over all roots with a leaf.

ghost use Rattle.std.specs.Prelude.{◌≡◌, ℕ, ◌≤◌, [], ◌∷◌, ◌++◌, drop, length, take};
ghost use Rattle.bip_defs.specs.Forest.{roots_of};
ghost use Rattle.bip_defs.specs.Lists.{Among};
ghost use Rattle.tree_augment.specs.Augmented.{ExchangesItsPaths};
ghost use Rattle.tree_augment.specs.ForestBoards.{IsSoundBoardOf};
ghost use Rattle.tree_augment.specs.Rounds.{AsksFor};

use crate::walk::exchange;
use flip_words::{FlipBoard, FlipSeat, Taken};
use forest_core::Forest;
use sp_ids::{Col, Row};

// Takes the tree of a root with a leaf, and exchanges its path, unless a seat has taken it before.
fn visit(forest: &Forest, board: &FlipBoard, seat: &mut FlipSeat, root: Col, leaf: Row)
    requires board { IsSoundBoardOf forest.now board.now }
    requires seat { seat.old.board ≡ board.now }
    requires leaf { Among (root, leaf) forest.now.leaves }
    requires paths { ExchangesItsPaths forest.now board.now seat.old }
    ensures paths { ExchangesItsPaths forest.now board.now seat.new }
    ensures asked { AsksFor (root ∷ []) seat.old seat.new }
{
    match board.take(seat, root) {
        Taken::Mine => exchange(forest, board, seat, root, leaf),
        Taken::Held(_) => {}
    }
}

// Visits each of these roots.
fn visit_each(forest: &Forest, board: &FlipBoard, seat: &mut FlipSeat, part: &[(Col, Row)])
    requires board { IsSoundBoardOf forest.now board.now }
    requires seat { seat.old.board ≡ board.now }
    requires leaves { (x r : ℕ) → Among (x, r) part.now → Among (x, r) forest.now.leaves }
    requires paths { ExchangesItsPaths forest.now board.now seat.old }
    ensures paths { ExchangesItsPaths forest.now board.now seat.new }
    ensures asked { AsksFor (roots_of part.now) seat.old seat.new }
{
    for (root, leaf) in part {
        visit(forest, board, seat, *root, *leaf);
    }
}

/// Visits the roots with a leaf once round, from this place of their list on.
pub fn go_round(forest: &Forest, board: &FlipBoard, seat: &mut FlipSeat, from: usize)
    requires from { from ≤ length forest.now.leaves }
    requires board { IsSoundBoardOf forest.now board.now }
    requires seat { seat.old.board ≡ board.now }
    requires paths { ExchangesItsPaths forest.now board.now seat.old }
    ensures paths { ExchangesItsPaths forest.now board.now seat.new }
    ensures asked { AsksFor (roots_of (drop from forest.now.leaves ++ take from forest.now.leaves))
        seat.old seat.new }
{
    let (before, after) = forest.leaves().split_at(from);
    visit_each(forest, board, seat, after);
    visit_each(forest, board, seat, before);
}
