//! The running node: threads of two sides that play a scenario over one book a side.
//!
//! [`run_node`] opens the channels of a scenario and starts the threads. A channel has a thread, which makes its updates, signs, takes messages and closes for both sides. Each
//! side has a watcher, which reads blocks, and workers, which keep penalties and release claims. One thread plays what happens on the chain, where a close broadcasts the side's
//! newest commitment. All of them share a side's book through its desk, and the chain and its pool through a lock. A [`Report`] has the two books once all threads have ended.
//!
//! The main contract is that of `run_node` (`IsReport` of `specs/Reports.antt`), for whatever the threads do in whatever order. Each book goes on from the one that was opened for
//! its side. Each call in it was accepted, and no signature follows a revocation without the penalties kept between the two. Each claim in it is an accepted one. A channel's
//! updates, signatures, deliveries and closes are played in order, each with the reply of the book that is left, and counted once, as played or as refused; each that is played is
//! an entry of its thread's. All other later entries are keeps and releases, each release of one claim to its side's key; what a fixed transaction pays, by which a claim may be
//! spent, is not said. That is known since the seats of all threads come home to those that close the desks. Of each event the report tells why it was refused as one of the chain,
//! if it was: a broadcast or a close by what the side's book had, a reorganisation as some chain refuses it.
//!
//! Not proved: that a call returns, that threads run at once, that a signature waits for its penalties, that what is kept and released is what jobs ask for, that all jobs are
//! done, that watchers read the blocks, that blocks are made or replaced, and that what is broadcast or released reaches the pool.
//!
//! Where memory is refused a worker tries its job again, and a thread that puts a job puts it again, without a bound. So `run_node` does not return while memory stays refused
//! there. Elsewhere a thread gives up, and the answer is that memory ran out.
//!
//! `world` opens the books, `node` has the workers, `side` reads blocks, and `mempool` mines them. `node_words` prints a report.
//!
//! ```text
//! let report = run_node(&rt, alloc, &scenario, 4, &Open)?;
//! println!(rt; "{}", report.height)?;
//! ```
//!
//! Tested in `running_tests`.
#![tactic(auto)]

mod acts;
mod all_threads;
mod beginning;
mod chain_thread;
mod channel_thread;
mod counts;
mod endpoints;
mod progress;
mod returned;
mod runs;
mod shared;
mod shared_chain;
mod side_threads;
mod watching;
mod working;

pub use counts::Counts;
pub use runs::{Report, run_node};
