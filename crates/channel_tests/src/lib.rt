//! Tests of a channel's calls and of what they stand on: `commit`, `channel`, `penalty` and `publish`.
//!
//! They stand apart so that each library is proved without them. The examples of the libraries' pages are among them.
#![tactic(auto)]

#[cfg(test)]
mod broadcasts;
#[cfg(test)]
mod commitments;
#[cfg(test)]
mod cuts;
#[cfg(test)]
mod fixtures;
#[cfg(test)]
mod opening;
#[cfg(test)]
mod penalty_sets;
#[cfg(test)]
mod two_sides;
