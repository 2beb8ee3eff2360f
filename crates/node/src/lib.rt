//! The workers of a running node: threads that keep penalties and release claims beside the channels' threads.
//!
//! A [`Job`] is put where a thread finds work: a revocation came, or claims fell due. Each [`worker`] takes jobs from
//! the queue of its side, draws a ticket for each, and does it through the side's desk. For a revoked commitment it
//! asks for the one state, builds the penalty set while others call the book, and keeps it. Each due claim is released
//! in a transaction of its own, which goes to the [`Pool`]. A [`Gate`] comes before and after each job, and may stop
//! the worker.
//!
//! The main contract is that of `worker` (`IsWork` of `specs/Work.antt`). The jobs that its pass took are those that it
//! finished, and at most one that it dropped. It drew a ticket for each of them. The calls of its seat are for
//! finished jobs alone, in their order, each for one thing that a job asks for: a keep for a revoked commitment, a
//! release for a claim. So no worker signs. It is stopped only where its gate may stop it. That a job is done, that a call
//! returns and that workers run at once is not proved.
//!
//! Where memory is refused a worker tries its job again, without a bound. So it does not return while memory stays
//! refused.
//!
//! It stands on `desk`, `board`, `jobs` and `side`. `running` starts its workers. Tested in `thread_tests`.
//!
//! ```text
//! let patterns = patterns(alloc)?;
//! let (desk, board, patterns, payments, pool) = (&desk, &board, &patterns, &payments, &pool);
//! let shared = Shared { desk, board, patterns, payments, pool };
//! assert!(rt; sender.put(&rt, &mut pass, Job::Keep { channel: 0, number: 0 }).is_ok());
//! drop(sender);
//! let done = worker(&rt, alloc, &shared, &taker, &mut hands, &gate);
//! assert_eq!(rt; done.jobs, 1);
//! ```
#![tactic(auto)]

mod gates;
mod hands;
mod keeping;
mod pools;
mod releasing;
mod work;
mod workers;

pub use gates::Gate;
pub use hands::{Hands, Shared};
pub use pools::Pool;
pub use work::Job;
pub use workers::{Done, worker};
