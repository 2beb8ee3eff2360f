//! That a node with a book keeps the rules under which [`safety::laws::one_against_everybody`] speaks, and that its balance is there: laws over histories of calls, and no code that runs. What a book's history leaves of a channel is its
//! holding: the state, what was released there, and with which commitment it was closed. Whatever the peers send, and whatever the node does in its other channels, a holding of which the history takes care keeps the rules of
//! `safety`. Whatever blocks hold too, what `balance_laws` says of a channel holds of it.
//!
//! `book` has the calls and what they leave, `channel` the numbers and secrets of a channel's state, `safety` the rules and what follows from them on a chain, and `balance_laws` what a node has there.
#![tactic(auto)]

pub mod laws;
