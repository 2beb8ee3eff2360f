//! Tests of the libraries `world` and `side`.
//!
//! They are in a crate of their own, so that the libraries are not proved
//! again when a test changes.
#![tactic(auto)]

#[cfg(test)]
mod beginnings;
#[cfg(test)]
mod claimed_inputs;
#[cfg(test)]
mod opened_sides;
#[cfg(test)]
mod plays;
#[cfg(test)]
mod refused_batches;
#[cfg(test)]
mod takers;
#[cfg(test)]
mod worlds;
