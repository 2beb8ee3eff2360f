//! Steps of two peers.

use terms::Side;
use updates::{ChannelError, OwnUpdate};

/// What one of two peers does.
#[derive(Clone, Copy, Debug, PartialEq, Eq, Drop)]
pub enum Action {
    /// Makes an update.
    Own(OwnUpdate),
    /// Signs its peer's next commitment.
    Sign,
    /// Receives the oldest parcel that is on its way to it, and sends the answer: to a hello, what its peer lacks.
    Deliver,
}

/// A step of two peers.
#[derive(Clone, Copy, Debug, PartialEq, Eq, Drop)]
pub enum PairStep {
    /// One of them acts.
    Turn { side: Side, action: Action },
    /// Their connection is cut and made again: all that is on its way is lost, each side forgets, and says its hello.
    Cut,
}

/// The outcome of a step.
#[derive(Clone, Copy, Debug, PartialEq, Eq, Drop)]
pub enum Outcome {
    Done,
    /// Nothing changed.
    Refused(ChannelError),
    /// No parcel was on its way to the side. Nothing changed.
    NoMessage,
    /// The side's connection was cut, and its peer's hello has not come. Nothing changed.
    NotConnected,
    /// The hello says that the side lost what it knew. Nothing changed.
    Behind,
}
