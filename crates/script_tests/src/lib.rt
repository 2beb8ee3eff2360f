//! Tests of the libraries under the scripts, and of those that read and run scripts: `lists`, `digest`, `secrets`,
//! `script`, `machine` and `facts`.
//!
//! They are a crate of their own, so that each library is proved without them. They include the examples in the
//! libraries' documentation.
#![tactic(auto)]

#[cfg(test)]
mod collections;
#[cfg(test)]
mod fixtures;
#[cfg(test)]
mod hashes;
#[cfg(test)]
mod names;
#[cfg(test)]
mod runs;
#[cfg(test)]
mod scripts;
#[cfg(test)]
mod stated;
#[cfg(test)]
mod stores;
