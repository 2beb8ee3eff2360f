//! What the workers of a side share, and what each has of its own.

use crate::pools::Pool;
use crate::work::Job;
use board::Board;
use desk::Desk;
use forms::Patterns;
use jobs::Pass;
use keys::Key;
use std::sync::Mutex;

/// What the workers of a side share.
#[derive(Clone, Copy)]
pub struct Shared<'a> {
    /// The side's book behind its lock.
    pub desk: &'a Desk,
    /// The board from which tickets are drawn.
    pub board: &'a Board,
    /// The patterns of the scripts, by which penalties are built.
    pub patterns: &'a Patterns,
    /// The side's payment key in each channel, by the channel's index. A release pays to its hash.
    pub payments: &'a [Key],
    /// The chain and its pool, to which released fillings are added.
    pub pool: &'a Mutex<Pool>,
}

/// What a worker has of its own, except its end of the queue. Keep it as long as the desk, the board and the queue are used.
#[derive(Drop)]
pub struct Hands {
    /// Its seat at the desk.
    pub seat: desk::Seat,
    /// Its seat at the board.
    pub place: board::Seat,
    /// Its pass to the queue.
    pub pass: Pass<Job>,
}
