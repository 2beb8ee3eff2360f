//! A queue of jobs that threads share: at most 64 jobs, first in, first out.
//!
//! [`job_queue`] makes a queue with its two ends and a first pass. A [`JobSender`] puts jobs in, a [`JobTaker`] takes
//! them out, and each thread uses a [`Pass`] of its own, which takes no bytes. Ends are copied for further threads,
//! and the queue is closed once all senders are dropped. At every moment, the jobs that were put are those that were
//! taken, followed by those in the queue, in order. And the jobs that all passes put are those that the passes took
//! and those in the queue, with the same multiplicity (`IsFair` of `specs/Rule.antt`). The passes are the first one and
//! those that [`JobSender::pass`] returned, and no others. Termination of a call is not proved: `put` and `take` may
//! wait for another thread.
//!
//! It stands on the libraries `crossbeam_channel` and `atomic_table`. It is for a node's threads: those of `running` put
//! the work, and the workers of `node` take it.
//!
//! ```text
//! let (sender, taker, mut mine) = job_queue(alloc)?;
//! let mut theirs = sender.pass(&mut mine);
//! assert!(rt; sender.put(&rt, &mut mine, 7).is_ok());
//! assert!(rt; sender.put(&rt, &mut mine, 5).is_ok());
//! drop(sender);
//! assert_eq!(rt; taker.take(&rt, &mut theirs), Some(7));
//! assert_eq!(rt; taker.take(&rt, &mut theirs), Some(5));
//! assert_eq!(rt; taker.take(&rt, &mut theirs), None);
//! ```
//!
//! The test `first_in_first_out` of `thread_tests` has these lines.
#![tactic(auto)]

mod queue;
mod rule;

pub use queue::{CAPACITY, JobSender, JobTaker, Pass, job_queue};
pub use rule::Hand;
