//! The outcomes of events.

use crate::errors::EventError;
use std::fmt;

/// The outcome of an event.
#[derive(Debug, Drop)]
pub enum Outcome {
    /// It happened.
    Done,
    /// This number of claims became jobs.
    Looked { claims: u64 },
    /// The chain has this height, and the new blocks have `txs` transactions.
    Mined { height: u64, txs: u64 },
    /// The event was refused, and nothing changed.
    Refused(EventError),
}

impl fmt::Display for Outcome {
    fn fmt<W: fmt::Write>(&self, f: &mut fmt::Formatter<W>) -> fmt::Result {
        match self {
            Outcome::Done => write!(f, "ok"),
            Outcome::Looked { claims } => write!(f, "ok claims {claims}"),
            Outcome::Mined { height, txs } => write!(f, "ok height {height} txs {txs}"),
            Outcome::Refused(error) => write!(f, "refused {error}"),
        }
    }
}
