//! The jobs of workers.

use side::DueClaim;
use std::collections::VecDeque;

/// A job of a worker.
#[derive(Drop)]
pub enum Job {
    /// Keep the penalties of the peer's revoked commitment of a number.
    Keep {
        /// The index of the channel.
        channel: u64,
        number: u64,
    },
    /// Release each of these claims in a transaction of its own.
    Claims(VecDeque<DueClaim>),
}
