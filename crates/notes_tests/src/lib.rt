//! Tests of the notes of the program `enforce`: what `enforce_notes::notes_of` says about scripts and scenarios.
//!
//! They are in a crate of their own, so that the library is proved without them.
#![tactic(auto)]

#[cfg(test)]
mod courses;
#[cfg(test)]
mod fixtures;
#[cfg(test)]
mod looks;
#[cfg(test)]
mod places;
#[cfg(test)]
mod played;
#[cfg(test)]
mod readers;
#[cfg(test)]
mod refusals;
#[cfg(test)]
mod risks;
#[cfg(test)]
mod scripts;
