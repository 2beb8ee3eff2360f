//! Tests of what threads share: `board`, `jobs`, `desk` and `node`. They are of what no clause says: that calls and workers return, find the memory that is there, and run at once.
//!
//! They are in a crate of their own, so that each library is
//! proved without them.
//!
//! `sign_at_desk` stands in `docs/LIBRARY.md` word for word.
#![tactic(auto)]

#[cfg(test)]
mod boards;
#[cfg(test)]
mod books;
#[cfg(test)]
mod channels;
#[cfg(test)]
mod desks;
#[cfg(test)]
mod gates;
#[cfg(test)]
mod keeping;
#[cfg(test)]
mod numbers;
#[cfg(test)]
mod queues;
#[cfg(test)]
mod threads;
#[cfg(test)]
mod workers;
