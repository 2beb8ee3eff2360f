//! Tests of the program `enforce`: the texts and statuses of `enforce_words::run_words`.
//!
//! They are in a crate of their own, so that the library is proved without them.
#![tactic(auto)]

#[cfg(test)]
mod calls;
#[cfg(test)]
mod fixtures;
#[cfg(test)]
mod readers;
#[cfg(test)]
mod refused;
#[cfg(test)]
mod rows;
#[cfg(test)]
mod scenarios;
