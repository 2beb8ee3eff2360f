//! The world of two sides on one chain, and the Enforcement theorem over every run of it.
//!
//! [`World::new`] grants the funding outputs of channels and opens them in both sides' books, and [`World::play`]
//! plays events: offers, fulfils, fails, fees, signatures, deliveries, kept penalties, broadcasts, blocks, looks,
//! takes, releases, reorganisations and closes. What `play` ensures is the theorem of `specs/Theorem.antt`. It is a
//! run of the relation `WorldSteps`, with one case for each event. At each moment of it both books are guarded, and
//! each claim of a side is an accepted one. What is kept is exactly what can be claimed. An input that fits an
//! accepted claim passes and runs clean once it is due, and what was released fits. Nobody else takes what a revoked
//! commitment lets a side claim, except as `safety` lists. The commitment with which a side closed a channel stays its
//! newest. The two sides agree, and each takes the oldest message on its way to it, except a signature in a channel
//! that it closed.
//!
//! Messages and blocks both pass through here. `side` reads blocks, makes batches and penalty sets, and turns messages
//! into calls of each side's `book`. `scenario` has the events, `publish` the broadcasts, and `mempool` mines them on
//! the `chain`. `safety` has the law of what others can take. `enforce_words` prints the outcome of each event.
//!
//! ```rust
//! let mut world = World::new(alloc, &scenario.seeds, scenario.channels.values())?;
//! for outcome in world.play(scenario.events.values())? {
//!     println!(rt; "{outcome}")?;
//! }
//! ```
//!
//! The test `plays_on_after_a_refusal` of `world_tests` plays five events.
#![tactic(auto)]

mod batches;
mod beginning;
pub mod claimed;
mod delivering;
pub mod errors;
mod keeping;
pub mod laws;
mod limits;
mod looking;
mod nodes;
pub mod openings;
mod outcomes;
mod parts;
mod publishing;
mod releasing;
mod taken_apart;
mod worlds;

pub use claimed::check_claimed;
pub use outcomes::Outcome;
pub use scenario::{Event, Scenario, Seeds};
pub use taken_apart::BooksAndChain;
pub use worlds::World;
