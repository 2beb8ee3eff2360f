//! Worked calls of the crates that a node calls, as tests.
//!
//! A script is listed, a claim accepted and filled, and a channel and a book go a few steps. A history is kept in a
//! file, and two nodes open a channel on a chain and close it.
//!
//! Each block of code of `docs/LIBRARY.md` stands here word for word, but the one on threads, which `thread_tests` has.
//!
//! The calls are of `paths`, `claim`, `filling`, `channel`, `book`, `book_dump`, `least`, `side` and `publish`, and `book_peers` makes the peers.
#![tactic(auto)]

#[cfg(test)]
mod books;
#[cfg(test)]
mod channels;
#[cfg(test)]
mod claims;
#[cfg(test)]
mod listings;
#[cfg(test)]
mod nodes;
#[cfg(test)]
mod openings;
#[cfg(test)]
mod reactions;
#[cfg(test)]
mod stores;
