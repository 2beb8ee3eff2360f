//! How the two sides of a scenario open its channels.
//!
//! A side has a signer for each channel, whose seed is a hash of the side's seed and the channel's index.
//! [`funding_output`] is the output that funds a channel, `None` exactly if the capacity is above 21,000,000
//! bitcoins. [`open_both`] is how each side opens the channel once the output stands at an outpoint, `None` exactly
//! if the two can't agree on the terms. By [`crate::laws::openings_agree`], the commitments spend that output, the
//! two channels are the two ends of one, and the books take the openings.
//!
//! `scenario` has the seeds, `terms` the proposed terms, and `chain` grants the funding output. `book` takes an
//! opening, and `world` begins with both.
//!
//! ```rust
//! let output = funding_output(alloc, &SEEDS, 0, &terms).expect(rt, "memory");
//! let outpoint = chain.grant(output.expect(rt, "an output")).expect(rt, "memory");
//! let both = open_both(alloc, &SEEDS, 0, outpoint, &terms).expect(rt, "memory");
//! ```
//!
//! The test `opens_the_first_channel` of `world_tests` makes these calls.

mod funding;
mod opening;
mod sides;
mod signers;

pub use funding::funding_output;
pub use opening::open_both;
pub use sides::Both;
