//! Two nodes with a book each, for programs that play with books.
//!
//! For each channel of its book, a node has a second channel that takes the same steps. From it come the penalties
//! that the book keeps. What one node sends is queued until the other receives it. No clause says what a step does.
//!
//! `parties` has the terms, and `book` the two books. The program `plays` plays them, line by line.
//!
//! ```rust
//! let mut peers = Peers::new(alloc);
//! peers.open(alloc, 1)?;
//! peers.act(Side::A, 0, Act::Update(offer(1_000_000, 500)))?;
//! peers.act(Side::B, 0, Act::Deliver)?;
//! ```
//!
//! The part `== book` of `plays` plays so.
#![tactic(auto)]

mod nodes;
mod openings;
mod peers;
mod releases;

pub use nodes::{Node, SEAT};
pub use openings::{Opened, open_side, open_side_with};
pub use peers::{Act, PREIMAGE, Peers, Reply, offer};
