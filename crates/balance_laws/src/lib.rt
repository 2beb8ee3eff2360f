//! What a node has of a channel, whatever its peers send and whatever blocks hold: laws over definitions, and no code that runs. While the channel stands open, the node's newest commitment passes the next block. Once a
//! commitment closed the channel, the outputs that the node can claim are worth what it counts on, or the whole capacity if the commitment is revoked, less deductions that are said exactly. And it is known of each of them
//! what became of it.
//!
//! `safety` says who closes a channel and what becomes of each output, and `worth_laws` what the outputs are worth.
#![tactic(auto)]

pub mod laws;
