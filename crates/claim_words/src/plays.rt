//! The rule of a board's table, and the kinds of step that its seats make.

ghost use Rattle.std.specs.Prelude.{None};
ghost use Rattle.claim_words.specs.Rule.{Kept, opener};
ghost use Rattle.claim_words.specs.Steps.{TellsAll, TellsClaim, TellsRoot, TellsRow, TellsWin, counting_more};
ghost use Rattle.board_seats.specs.View.{joined, newcomer};
ghost use Rattle.claim_words.specs.Listed.{followed_by, nothing};

use crate::views::{Opening, View};
use atomic_table::{Join, Play, Split, TableRule};

// Each word goes to one seat, once.
pub struct EachWordOnce;

impl TableRule<(), View, Opening> for EachWordOnce {
    ghost holds = { λ key s. Kept key.rows key.words.value.items s };

    ghost first = { λ key. opener key.rows key.words.value.items };
}

// An exchange of a row's word.
pub struct RowExchange;

impl Play<(), View> for RowExchange {
    ghost then = { TellsClaim };
}

// An exchange of a root's word.
pub struct RootExchange;

impl Play<(), View> for RootExchange {
    ghost then = { TellsWin };
}

// A load of a row's word.
pub struct RowLoad;

impl Play<(), View> for RowLoad {
    ghost then = { TellsRow };
}

// A load of a root's word.
pub struct RootLoad;

impl Play<(), View> for RootLoad {
    ghost then = { TellsRoot };
}

// A load of the spare word by the seat 0, once no other is left.
pub struct SpareLoad;

impl Play<(), View> for SpareLoad {
    ghost then = { TellsAll };
}

// The seat 0 splits off a seat with the next number.
pub struct Newcomer;

impl Split<View> for Newcomer {
    ghost left = { counting_more };

    ghost right = { newcomer nothing };
}

// The seat 0 takes in the seat with the highest number.
pub struct TakesIn;

impl Join<View> for TakesIn {
    ghost both = { joined followed_by };

    ghost spent = { None };
}
