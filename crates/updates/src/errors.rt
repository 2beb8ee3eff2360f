//! Why a channel refuses an update or a message.

ghost use Rattle.std.specs.Prelude.{◌≡◌};
ghost use Rattle.updates.specs.declared.errors.ChannelError.TheVariants.{NoMemory};

use std::alloc::AllocError;
use thiserror::Error;

/// Why a channel refuses an update or a message (BOLT 2).
#[derive(Clone, Copy, Debug, PartialEq, Eq, Drop, Error)]
pub enum ChannelError {
    /// Memory ran out.
    #[error("NoMemory")]
    NoMemory,
    /// The HTLC's amount is 0.
    #[error("AmountZero")]
    AmountZero,
    /// The HTLC's amount is below the minimum of the side that it is offered to.
    #[error("BelowMinimum")]
    BelowMinimum,
    /// The expiry is not a block height: it is 500,000,000 or above (BIP 65).
    #[error("ExpiryTooLarge")]
    ExpiryTooLarge,
    /// The HTLC does not have the next id of its side.
    #[error("WrongId")]
    WrongId,
    /// 483 HTLCs of this direction are live already.
    #[error("TooManyHtlcs")]
    TooManyHtlcs,
    /// The side's balance is too low for the HTLC.
    #[error("OverBalance")]
    OverBalance,
    /// The peer has no HTLC with this id that passed all stages and that nobody removed.
    #[error("UnknownHtlc")]
    UnknownHtlc,
    /// The preimage's SHA-256 is not the HTLC's hash.
    #[error("WrongPreimage")]
    WrongPreimage,
    /// A signature would cover no new update.
    #[error("NoUpdates")]
    NoUpdates,
    /// A token is not that of the commitment.
    #[error("BadSignature")]
    BadSignature,
    /// The secret is not that of the revoked commitment.
    #[error("WrongSecret")]
    WrongSecret,
    /// The message or the call is not due.
    #[error("NotYourTurn")]
    NotYourTurn,
    /// The side did not open the channel.
    #[error("NotOpener")]
    NotOpener,
    /// The peer expects a message that it had, so it lost what it knew.
    #[error("PeerBehind")]
    PeerBehind,
    /// The peer has a signature that this side does not know of.
    #[error("NeverSigned")]
    NeverSigned,
    /// This side fulfilled the HTLC before its connection was cut, so its preimage is out.
    #[error("AlreadyFulfilled")]
    AlreadyFulfilled,
}

impl ChannelError {
    ghost use Rattle.std.specs.Prelude.{◌≡◌};
    ghost use Rattle.updates.specs.Refusals.{refusal_number};

    /// The refusal's number; 0 is out of memory.
    pub fn number(&self) -> u8
        ensures { result ≡ refusal_number self.now }
    {
        match self {
            ChannelError::NoMemory => 0,
            ChannelError::AmountZero => 1,
            ChannelError::BelowMinimum => 2,
            ChannelError::ExpiryTooLarge => 3,
            ChannelError::WrongId => 4,
            ChannelError::TooManyHtlcs => 5,
            ChannelError::OverBalance => 6,
            ChannelError::UnknownHtlc => 7,
            ChannelError::WrongPreimage => 8,
            ChannelError::NoUpdates => 9,
            ChannelError::BadSignature => 10,
            ChannelError::WrongSecret => 11,
            ChannelError::NotYourTurn => 12,
            ChannelError::NotOpener => 13,
            ChannelError::PeerBehind => 14,
            ChannelError::NeverSigned => 15,
            ChannelError::AlreadyFulfilled => 16,
        }
    }
}

impl From<AllocError> for ChannelError {
    ghost from_gives = { λ _ e. e ≡ NoMemory };

    fn from(_error: AllocError) -> ChannelError {
        ChannelError::NoMemory
    }
}
