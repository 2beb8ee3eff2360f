//! Scenarios: what two sides of channels and their chain do, read from JSON (RFC 8259).
//!
//! A [`Scenario`] has the two sides' [`Seeds`], what they propose for each channel, and the events. Each [`Event`] is
//! what a side does or what happens on the chain. [`Scenario::read`] reads a text. Its refusals come in this order:
//! invalid JSON, a value of another shape, more of something than the limits allow, and the first channel on whose
//! terms the two sides can't agree. The type of a [`Scenario`] keeps what was tested.
//!
//! `texts` reads the shapes that it is made of. `world` opens its channels and plays its events, and `enforce_words`
//! reads it from standard input.
//!
//! ```rust
//! let scenario = Scenario::read(alloc, text)?;
//! for event in scenario.events.values() {
//!     play(event);
//! }
//! ```
//!
//! The test `reads_a_scenario` of `book_tests` reads one.
#![tactic(auto)]

mod errors;
mod events;
mod limits;
mod plain;
mod reading;
mod scenarios;
mod seeds;

pub use errors::ScenarioError;
pub use events::Event;
pub use limits::{MAX_BLOCKS, MAX_CHANNELS, MAX_EVENTS};
pub use plain::PlainScenario;
pub use scenarios::Scenario;
pub use seeds::Seeds;
