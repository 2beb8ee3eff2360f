//! Tests of transactions and of what a channel's sides agree on: `tx`, `sighash`, `keys`, `terms` and `updates`.
//!
//! They are a crate of their own, so that each library is proved without them. They include the examples in the
//! libraries' documentation.
#![tactic(auto)]

#[cfg(test)]
mod agreements;
#[cfg(test)]
mod fixtures;
#[cfg(test)]
mod ledgers;
#[cfg(test)]
mod names;
#[cfg(test)]
mod signers;
#[cfg(test)]
mod tokens;
#[cfg(test)]
mod transactions;
