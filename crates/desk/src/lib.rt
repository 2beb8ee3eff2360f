//! The desk: a node's book behind a lock, for the threads that share it.
//!
//! [`Desk::new`] puts a book into a queue of capacity one, which acts as the lock: the thread that takes the book out
//! has it alone until it puts the book back. Each thread has a [`Seat`] of its own, whose number stands in the entries
//! of its calls. `call` makes any of the book's seven calls, `keep_set` keeps a set that was built outside the lock,
//! `known`, `revoked`, `commitment` and `htlc_tx` ask, and `close` returns the book. A seat whose thread has ended may come home to another one
//! (`absorb`), which from then on knows its calls.
//!
//! While the lock is free, the queue holds one book, whose history is accepted and guarded. The history begins with the
//! one that the desk was made with, followed by exactly the calls of the seats, each once and each seat's in order
//! (`IsOneBook` of `specs/Rule.antt`). Each reply is the book's own at the end of such a history, which extends the one
//! that the seat last put back, barring out-of-memory (`IsAnswered` of `specs/Answers.antt`). So no reply is made up,
//! and no entry of another seat is lost. `close` says of each seat that came home that the book has just its calls, and,
//! once all came home to the desk's last seat, that no later entry is of another. Termination of a call is not proved:
//! it may wait for another thread.
//!
//! It stands on `book`, and on the library `crossbeam_channel`. The threads of `running` and the workers of `node` call
//! one book so, and the test `keeps_penalties_by_another_seat` of `thread_tests` does:
//!
//! ```text
//! let patterns = book.patterns()?; // by which penalties are built, while the desk has the book
//! let (desk, mut seats) = Desk::new(&rt, alloc, book, 2)?;
//! assert!(rt; sign(&rt, &desk, &mut seat, 0).err() == Some(SignError::PenaltiesMissing(0)));
//! let state = desk.revoked(&rt, &mut worker, 0, 0)?;
//! let set = penalties(alloc, patterns.get(), &state)?;
//! assert!(rt; desk.keep_set(&rt, &mut worker, 0, 0, set) == Ok(()));
//! assert!(rt; sign(&rt, &desk, &mut seat, 0).is_ok());
//! let book = desk.close(&rt, &mut seat);
//! ```
#![tactic(auto)]

mod broadcasts;
mod desk;
mod rule;

pub use desk::{Desk, DeskError, Seat};
pub use rule::{Heard, SeatView};
