//! Tests of the libraries that list the ways through a script and that make, name and fill claims: `paths`, `claim`,
//! `forms` and `filling`.
//!
//! They stand apart so that each library is proved without them. The examples of the libraries' pages are among them.
#![tactic(auto)]

#[cfg(test)]
mod accepted_claims;
#[cfg(test)]
mod filled_claims;
#[cfg(test)]
mod fixtures;
#[cfg(test)]
mod listings;
#[cfg(test)]
mod names;
#[cfg(test)]
mod outputs;
#[cfg(test)]
mod patterns;
#[cfg(test)]
mod shapes;
#[cfg(test)]
mod wanted;
