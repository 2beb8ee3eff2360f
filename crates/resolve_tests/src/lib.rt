//! Tests of what is due on the chain and of the watch, the sights and the reader that find it: `resolve`, `watch`, `sights` and `side`.
//!
//! They stand apart so that each library is proved without them. The examples of the libraries' pages are among them.
#![tactic(auto)]

#[cfg(test)]
mod fixtures;
#[cfg(test)]
mod knowledge;
#[cfg(test)]
mod lookouts;
#[cfg(test)]
mod preimages;
#[cfg(test)]
mod readers;
#[cfg(test)]
mod told;
#[cfg(test)]
mod watches;
