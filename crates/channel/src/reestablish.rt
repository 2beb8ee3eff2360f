//! What a side says first on a new connection, and what its peer then gives again.

use crate::messages::Message;

/// What a side says first on a new connection (BOLT 2, `channel_reestablish`, with `option_static_remotekey`). The point that BOLT 2 has beside it is left out,
/// since no receiver looks at it.
#[derive(Clone, Copy, Debug, PartialEq, Eq, Drop)]
pub struct Reestablish {
    /// The number of the commitment whose signature the side expects next (`next_commitment_number`).
    pub next_commitment: u64,
    /// The number of the commitment whose revocation it expects next (`next_revocation_number`).
    pub next_revocation: u64,
    /// The last secret that came, or 32 zeros (`your_last_per_commitment_secret`).
    pub last_secret: [u8; 32],
}

/// What a side does about its peer's [`Reestablish`].
#[derive(Debug, Drop)]
pub enum Again {
    /// It gives these messages, which the peer lacks, in the order in which they first went out. Often there are none.
    Send(Vec<Message>),
    /// It lost what it knew: the peer has the secret of its newest commitment. It must not broadcast that, and waits for the peer to close.
    Behind,
}

/// What is on its way to a side: on each connection a hello, and then messages.
#[derive(Debug, Drop)]
pub enum Parcel {
    Hello(Reestablish),
    Sent(Message),
}
