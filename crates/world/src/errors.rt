//! Why an event is refused.

ghost use Rattle.std.specs.Prelude.{◌≡◌};
ghost use Rattle.world.specs.declared.errors.EventError.TheVariants.{NoMemory};
ghost use Rattle.world.specs.declared.errors.WorldError.TheVariants.{NoMemory as world_memory};

use book::Reply;
use book::errors::{CloseError, KeepError, ReleaseError, SignError, StepError};
use filling::FillError;
use mempool::ReorgError;
use side::BatchError;
use std::alloc::{AllocError, AllocFailed};
use thiserror::Error;
use updates::ChannelError;

/// Why an event is refused.
#[derive(Debug, Drop, Error)]
pub enum EventError {
    /// Memory ran out.
    #[error("NoMemory")]
    NoMemory,
    /// There is no channel with this index.
    #[error("NoSuchChannel")]
    NoSuchChannel,
    /// No message is on its way to the side.
    #[error("NoMessage")]
    NoMessage,
    /// The side does not have this transaction. Or a reorganisation is to drop more transactions than the replaced blocks have.
    #[error("NoSuchTx")]
    NoSuchTx,
    /// The side has fewer jobs than requested, or took fewer claims. Or a release asks for none, or for more than 4,000.
    #[error("NoJob")]
    NoJob,
    /// The claims of a release are not all of one channel.
    #[error("MixedChannels")]
    MixedChannels,
    /// The claims of a release are worth more than 21,000,000 bitcoins.
    #[error("OverValue")]
    OverValue,
    /// This number of blocks can't be replaced.
    #[error("TooDeep")]
    TooDeep,
    /// The channel refuses the update or the message.
    #[error("{0}")]
    Channel(ChannelError),
    /// The book refuses to sign.
    #[error("{0}")]
    Sign(SignError),
    /// The book refuses to keep.
    #[error("{0}")]
    Keep(KeepError),
    /// The claims of a release are not filled.
    #[error("{0}")]
    Fill(FillError),
    /// The side closed the channel: it takes no signature there, signs nothing, and makes no update of its own but a fulfil.
    #[error("ChannelClosed")]
    ChannelClosed,
}

impl EventError {
    ghost use Rattle.std.specs.Prelude.{◌≡◌, true, Some, is_some};
    ghost use Rattle.book.specs.Dispatch.{reply_form};
    ghost use Rattle.world.specs.Refusing.{by_step, by_sign, by_keep, by_release, by_close, by_batch, by_reorg, refusal_in};

    /// The refusal of a step or of a revocation.
    pub(crate) fn of_step(error: StepError) -> EventError
        ensures { result ≡ by_step error }
    {
        match error {
            StepError::Refused(refusal) => match refusal {
                ChannelError::NoMemory => EventError::NoMemory,
                _ => EventError::Channel(refusal),
            },
            StepError::NoSuchChannel => EventError::NoSuchChannel,
            StepError::ChannelClosed => EventError::ChannelClosed,
        }
    }

    /// The refusal of a signature.
    pub(crate) fn of_sign(error: SignError) -> EventError
        ensures { result ≡ by_sign error }
    {
        match error {
            SignError::NoMemory => EventError::NoMemory,
            SignError::NoSuchChannel => EventError::NoSuchChannel,
            SignError::ChannelClosed => EventError::ChannelClosed,
            _ => EventError::Sign(error),
        }
    }

    /// The refusal to keep penalties.
    pub(crate) fn of_keep(error: KeepError) -> EventError
        ensures { result ≡ by_keep error }
    {
        match error {
            KeepError::NoMemory => EventError::NoMemory,
            KeepError::NoSuchChannel => EventError::NoSuchChannel,
            _ => EventError::Keep(error),
        }
    }

    /// The refusal of a reorganisation.
    pub(crate) fn of_reorg(error: ReorgError) -> EventError
        ensures { result ≡ by_reorg error }
    {
        match error {
            ReorgError::NoMemory => EventError::NoMemory,
            ReorgError::TooDeep => EventError::TooDeep,
            ReorgError::NoSuchTx => EventError::NoSuchTx,
        }
    }

    /// The refusal of a release.
    pub(crate) fn of_release(error: ReleaseError) -> EventError
        ensures { result ≡ by_release error }
    {
        match error {
            ReleaseError::Unfilled(refusal) => match refusal {
                FillError::NoMemory => EventError::NoMemory,
                _ => EventError::Fill(refusal),
            },
            ReleaseError::NoSuchChannel => EventError::NoSuchChannel,
        }
    }

    /// The refusal to close a channel.
    pub(crate) fn of_close(error: CloseError) -> EventError
        ensures { result ≡ by_close error }
    {
        match error {
            CloseError::NoMemory => EventError::NoMemory,
            CloseError::NoSuchChannel => EventError::NoSuchChannel,
        }
    }

    /// The refusal to release claims together.
    pub(crate) fn of_batch(error: BatchError) -> EventError
        ensures { result ≡ by_batch error }
    {
        match error {
            BatchError::MixedChannels => EventError::MixedChannels,
            BatchError::OverValue => EventError::OverValue,
        }
    }

    /// The refusal in a book's reply.
    pub(crate) fn of_reply(reply: Reply) -> EventError
        requires { is_some (refusal_in (reply_form reply)) ≡ true }
        ensures { refusal_in (reply_form reply) ≡ Some result }
    {
        match reply {
            Reply::Stepped(Err(error)) => EventError::of_step(error),
            Reply::Signed(Err(error)) => EventError::of_sign(error),
            Reply::Revoked(Err(error)) => EventError::of_step(error),
            Reply::Kept(Err(error)) => EventError::of_keep(error),
            Reply::Released(Err(error)) => EventError::of_release(error),
            Reply::Closed(Err(error)) => EventError::of_close(error),
            _ => unreachable!(),
        }
    }
}

impl From<AllocError> for EventError {
    ghost from_gives = { λ _ e. e ≡ NoMemory };

    fn from(_error: AllocError) -> EventError {
        EventError::NoMemory
    }
}

impl<T: Drop> From<AllocFailed<T>> for EventError {
    ghost from_gives = { λ _ e. e ≡ NoMemory };

    fn from(_error: AllocFailed<T>) -> EventError {
        EventError::NoMemory
    }
}

/// Why a world does not begin. `OverLimit` is tested before `BadTerms`.
#[derive(Debug, Drop, Error)]
pub enum WorldError {
    /// Memory ran out.
    #[error("NoMemory")]
    NoMemory,
    /// The first channel on whose terms the two sides can't agree, by its index.
    #[error("BadTerms {0}")]
    BadTerms(usize),
    /// There are more than 8 channels.
    #[error("OverLimit")]
    OverLimit,
}

impl WorldError {
    ghost use Rattle.world.specs.Beginning.{world_error_number};

    /// The number of the refusal; 0 is out of memory.
    pub fn number(&self) -> u8
        ensures { result ≡ world_error_number self.now }
    {
        match self {
            WorldError::NoMemory => 0,
            WorldError::BadTerms(_) => 1,
            WorldError::OverLimit => 2,
        }
    }
}

impl From<AllocError> for WorldError {
    ghost from_gives = { λ _ e. e ≡ world_memory };

    fn from(_error: AllocError) -> WorldError {
        WorldError::NoMemory
    }
}
