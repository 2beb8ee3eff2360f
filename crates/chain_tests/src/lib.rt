//! Tests of the simulated chain, of what waits for its blocks, and of what is said of an input: `chain`, `mempool` and
//! `judge`.
//!
//! They are a crate of their own, so that each library is proved without them. They include the examples in the
//! libraries' documentation.
#![tactic(auto)]

#[cfg(test)]
mod calls;
#[cfg(test)]
mod fixtures;
#[cfg(test)]
mod offers;
#[cfg(test)]
mod programs;
#[cfg(test)]
mod rows;
#[cfg(test)]
mod shown;
#[cfg(test)]
mod steps;
#[cfg(test)]
mod verdicts;
#[cfg(test)]
mod waiting;
