// The rule of the queue, and its kinds of step.

use crossbeam_channel::protocol::{Lesson, Outcome, Protocol, Split};
use std::collections::LinkedList;

/// What a pass has put and taken, and its share of the queue. Only
/// contracts use it; no program makes a value of it.
pub struct Hand<J> {
    /// How many times its share was halved: it is 1 / 2^`halvings` of the queue.
    pub halvings: u64,
    /// The jobs that it put, in order.
    pub put: LinkedList<J>,
    /// The jobs that it took, in order.
    pub taken: LinkedList<J>,
}

/// The rule over what the queue holds and what all passes put and took.
pub struct Fair;

impl<J> Protocol<J, Hand<J>> for Fair {
    ghost use Rattle.jobs.specs.Rule.{IsFair, idle};

    ghost holds = { IsFair };

    ghost first = { idle 0 };
}

// a new pass, which has put and taken nothing, with half of the share
pub struct Apart;

impl<J> Split<Hand<J>> for Apart {
    ghost use Rattle.jobs.specs.Rule.{halved, other_half};

    ghost left = { halved };

    ghost right = { other_half };
}

// one job added at the back
pub struct Puts;

impl<J> Outcome<J, Hand<J>> for Puts {
    ghost use Rattle.jobs.specs.Steps.{IsPut};

    ghost then = { IsPut };
}

impl<J> Lesson<J, Hand<J>> for Puts {
    ghost fact = { λ v items. Unit {0} };
}

// one job taken from the front
pub struct Takes;

impl<J> Outcome<J, Hand<J>> for Takes {
    ghost use Rattle.jobs.specs.Steps.{IsTake};

    ghost then = { IsTake };
}

impl<J> Lesson<J, Hand<J>> for Takes {
    ghost use Rattle.jobs.specs.Steps.{HeldThen};

    ghost fact = { HeldThen };
}
