//! The rule of a board's table, and the kinds of step that its seats make.

ghost use Rattle.std.specs.Prelude.{None};
ghost use Rattle.flip_words.specs.Rule.{Kept, opener};
ghost use Rattle.flip_words.specs.Steps.{TellsLook, TellsSet, TellsTake, counting_more};
ghost use Rattle.board_seats.specs.View.{joined, newcomer};
ghost use Rattle.flip_words.specs.Listed.{followed_by, nothing};

use crate::views::{Opening, View};
use atomic_table::{Join, Play, Split, TableRule};

// Each tree is taken by one seat, once, and only that seat sets its vertices.
pub struct OneTakerEach;

impl TableRule<(), View, Opening> for OneTakerEach {
    ghost holds = { λ key s. Kept key.rows key.cols key.words.value.items s };

    ghost first = { λ key. opener key.rows key.cols key.words.value.items };
}

// An exchange of a tree's word.
pub struct Take;

impl Play<(), View> for Take {
    ghost then = { TellsTake };
}

// A store of a vertex's word.
pub struct VertexSet;

impl Play<(), View> for VertexSet {
    ghost then = { TellsSet };
}

// A load of a vertex's word.
pub struct VertexLook;

impl Play<(), View> for VertexLook {
    ghost then = { TellsLook };
}

// The seat 0 splits off a seat with the next number.
pub struct Newcomer;

impl Split<View> for Newcomer {
    ghost left = { counting_more };

    ghost right = { newcomer nothing };
}

// The seat 0 takes in the seat with the highest number.
pub struct TakesIn;

impl Join<View> for TakesIn {
    ghost both = { joined followed_by };

    ghost spent = { None };
}
