//! Tests of the libraries `running` and `node_words`: of what no clause says, that a run ends, that its jobs are done, that its threads run at once, and what is printed.
//!
//! They stand apart so that the libraries are proved without them.
#![tactic(auto)]

#[cfg(test)]
mod broadcasts;
#[cfg(test)]
mod cheaters;
#[cfg(test)]
mod closes;
#[cfg(test)]
mod gates;
#[cfg(test)]
mod reports;
#[cfg(test)]
mod scenarios;
#[cfg(test)]
mod schedules;
#[cfg(test)]
mod words;
