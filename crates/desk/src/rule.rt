// The rule of the queue of capacity one that holds the book, and its kinds of step.

use book::{Book, Entry};
use crossbeam_channel::protocol::{Join, Lesson, Outcome, Protocol, Split};
use std::collections::LinkedList;

/// What a seat heard of another one that it took in. Only contracts use it.
pub struct Heard {
    pub number: u32,
    /// The calls of that seat that the book accepted, in order.
    pub calls: LinkedList<Entry>,
    /// The book's history when that seat last put the book back, or when the desk was made.
    pub last: LinkedList<Entry>,
}

/// What a seat knows. Only contracts use it; no program makes a value of it.
pub struct SeatView {
    /// The book was not put in yet.
    pub is_new: bool,
    /// No seat has a greater number, and this one may make the next seat.
    pub is_last: bool,
    pub number: u32,
    /// The history with which the desk was made.
    pub opening: LinkedList<Entry>,
    /// The calls of this seat that the book accepted, in order.
    pub calls: LinkedList<Entry>,
    /// The book's history when this seat last put the book back, or when the desk was made.
    pub last: LinkedList<Entry>,
    /// The book, while it is out with this seat.
    pub book: Option<Book>,
    /// The seats that came home to this one, the latest first.
    pub heard: LinkedList<Heard>,
    /// Another seat took this one in.
    pub is_spent: bool,
}

/// The rule over what the queue holds and what all seats know.
pub struct OneBook;

impl Protocol<Book, SeatView> for OneBook {
    ghost use Rattle.desk.specs.Rule.{fresh, IsOneBook};

    ghost holds = { IsOneBook };

    ghost first = { fresh };
}

// the book is put in for the first time
pub struct PutFirst;

impl Outcome<Book, SeatView> for PutFirst {
    ghost use Rattle.std.specs.Prelude.{◌≡◌};
    ghost use Rattle.desk.specs.Rule.{opened};

    ghost then = { λ v x w. w ≡ opened x };
}

impl Lesson<Book, SeatView> for PutFirst {
    ghost fact = { λ v items. Unit {0} };
}

// the book is taken
pub struct Take;

impl Outcome<Book, SeatView> for Take {
    ghost use Rattle.desk.specs.Rule.{IsTaken};

    ghost then = { IsTaken };
}

impl Lesson<Book, SeatView> for Take {
    ghost fact = { λ v items. Unit {0} };
}

// the book is put back
pub struct PutBack;

impl Outcome<Book, SeatView> for PutBack {
    ghost use Rattle.std.specs.Prelude.{◌≡◌};
    ghost use Rattle.desk.specs.Rule.{returned};

    ghost then = { λ v x w. w ≡ returned v x };
}

impl Lesson<Book, SeatView> for PutBack {
    ghost fact = { λ v items. Unit {0} };
}

// the last seat gives its number to a new seat, and takes the next one
pub struct Next;

impl Split<SeatView> for Next {
    ghost use Rattle.desk.specs.Rule.{moved_on, left_behind};

    ghost left = { moved_on };

    ghost right = { left_behind };
}

// a seat takes in another one
pub struct Home;

impl Join<SeatView> for Home {
    ghost use Rattle.desk.specs.Rule.{joined, spent};

    ghost both = { joined };

    ghost spent = { spent };
}
