//! The board: two words that threads share.
//!
//! One word is the top, the greatest [`Mark`] that any seat raised; the other counts the tickets that were drawn.
//! Each thread has a [`Seat`] of its own, and `raise`, `look` and `draw` are one atomic step each: a maximum, a load
//! and an addition. None of them blocks, retries or allocates. Between any two steps, the seats' tickets are the
//! numbers below the count, each once. The top is the greatest mark that any seat raised, or (0, 0) before the first
//! (`IsDrawnOnce` of `specs/Rule.antt`). The seats of a board are those that [`Board::new`] returned, and no others.
//!
//! It stands on the library `atomic_table`, and `running` raises it. It is for a node's threads: the top
//! tells them the newest round and height of the chain.
//!
//! ```text
//! let (board, mut seats) = Board::new(alloc, 2)?;
//! let mut watcher = seats.pop().ok_or("no seat")?;
//! let mut chain = seats.pop().ok_or("no seat")?;
//! board.raise(&mut chain, 0, 9);
//! board.raise(&mut chain, 1, 5);
//! assert_eq!(rt; board.look(&mut watcher), Mark { round: 1, height: 5 });
//! assert_eq!(rt; board.draw(&mut chain)?, 0);
//! assert_eq!(rt; board.draw(&mut watcher)?, 1);
//! ```
//!
//! The test `an_older_round_is_no_match` of `thread_tests` makes these calls.
#![tactic(auto)]

mod board;
mod marks;
mod rule;

pub use board::{Board, DrawError, Seat};
pub use marks::Mark;
pub use rule::SeatView;
