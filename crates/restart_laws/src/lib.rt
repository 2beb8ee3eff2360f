//! What holds of a side of a channel over its whole life: laws over definitions, and no code that runs. A side may be put back to an older state of its own, while its honest peer went on. Where it takes that peer's hello and is not
//! behind, it goes on as if what it lost had been lost on the way. And an HTLC whose fulfilment a side ever gave is never failed by it, whatever is cut, and wherever the side starts again.
//!
//! `channel` has the states, what goes out again after a cut, and the agreement of two honest peers.
#![tactic(auto)]

pub mod laws;
