// The rule of the board's table of words, and its kinds of step.

use crate::marks::Mark;
use atomic_table::{Play, Split, TableRule};
use std::collections::LinkedList;

/// What a seat knows. Only contracts use it; no program makes a value of it.
pub struct SeatView {
    /// Its shares of the right to draw: 2^32 tickets each.
    pub shares: u64,
    /// The tickets that it drew, in order.
    pub drawn: LinkedList<u64>,
    /// The marks that it raised, in order.
    pub raised: LinkedList<Mark>,
    /// The marks that it looked up, in order.
    pub looked: LinkedList<Mark>,
}

// the rule over the two words
pub struct TwoWords;

impl TableRule<(), SeatView, ()> for TwoWords {
    ghost use Rattle.board.specs.Rule.{IsBoard, everything};

    ghost holds = { λ key state. IsBoard state.words state.views };

    ghost first = { λ key. everything };
}

// one maximum on the first word
pub struct Raise;

impl Play<(), SeatView> for Raise {
    ghost use Rattle.board.specs.Steps.{Raises};

    ghost then = { Raises };
}

// one load of the first word
pub struct Look;

impl Play<(), SeatView> for Look {
    ghost use Rattle.board.specs.Steps.{Looks};

    ghost then = { Looks };
}

// one addition to the second word
pub struct Draw;

impl Play<(), SeatView> for Draw {
    ghost use Rattle.board.specs.Steps.{Draws};

    ghost then = { Draws };
}

// a new seat, with one share
pub struct Deal;

impl Split<SeatView> for Deal {
    ghost use Rattle.board.specs.Rule.{less_one, one_share};

    ghost left = { less_one };

    ghost right = { λ v. one_share };
}
