//! Why a book refuses a call.

ghost use Rattle.std.specs.Prelude.{◌≡◌};
ghost use Rattle.updates.specs.declared.errors.ChannelError.TheVariants as channels;
ghost use Rattle.filling.specs.declared.errors.FillError.TheVariants as fills;
ghost use Rattle.book.specs.declared.errors.OpenError.TheVariants as opens;
ghost use Rattle.book.specs.declared.errors.StepError.TheVariants as steps;
ghost use Rattle.book.specs.declared.errors.SignError.TheVariants as signs;
ghost use Rattle.book.specs.declared.errors.KeepError.TheVariants as keeps;
ghost use Rattle.book.specs.declared.errors.ReleaseError.TheVariants as releases;
ghost use Rattle.book.specs.declared.errors.ReleaseAgainError.TheVariants as again;
ghost use Rattle.book.specs.declared.errors.CloseError.TheVariants as closes;
ghost use Rattle.book.specs.declared.errors.KnowError.TheVariants as knows;

use filling::FillError;
use std::alloc::AllocError;
use thiserror::Error;
use updates::ChannelError;

/// Why a channel is not opened.
#[derive(Clone, Copy, Debug, PartialEq, Eq, Drop, Error)]
pub enum OpenError {
    /// Memory ran out.
    #[error("NoMemory")]
    NoMemory,
    /// The book has 65,536 channels.
    #[error("BookFull")]
    BookFull,
    /// A channel of the book has the same funding output.
    #[error("SameFunding")]
    SameFunding,
    /// The token is not the peer's on this side's commitment 0.
    #[error("BadSignature")]
    BadSignature,
}

/// Why a step, or a revocation, is refused.
#[derive(Clone, Copy, Debug, PartialEq, Eq, Drop, Error)]
pub enum StepError {
    /// The channel refuses it, or memory ran out.
    #[error("{0}")]
    Refused(ChannelError),
    /// The book has no channel with this index.
    #[error("NoSuchChannel")]
    NoSuchChannel,
    /// This side closed the channel, and the step is a `commitment_signed`, or an update of its own other than a fulfil.
    #[error("ChannelClosed")]
    ChannelClosed,
}

/// Why the book does not sign the peer's next commitment.
#[derive(Clone, Copy, Debug, PartialEq, Eq, Drop, Error)]
pub enum SignError {
    /// Memory ran out.
    #[error("NoMemory")]
    NoMemory,
    /// The lowest number of a revoked commitment of the peer whose penalties are not kept.
    #[error("PenaltiesMissing {0}")]
    PenaltiesMissing(u64),
    /// An earlier signature awaits its revocation, or the last commitment number is signed.
    #[error("AwaitingRevocation")]
    AwaitingRevocation,
    /// The signature would cover no new update.
    #[error("NoUpdates")]
    NoUpdates,
    /// The book has no channel with this index.
    #[error("NoSuchChannel")]
    NoSuchChannel,
    /// This side closed the channel.
    #[error("ChannelClosed")]
    ChannelClosed,
}

/// Why penalties are not kept.
#[derive(Clone, Copy, Debug, PartialEq, Eq, Drop, Error)]
pub enum KeepError {
    /// Memory ran out.
    #[error("NoMemory")]
    NoMemory,
    /// The peer's commitment of this number is not revoked.
    #[error("NotRevoked")]
    NotRevoked,
    /// The claims are not the penalty set of this commitment.
    #[error("OtherState")]
    OtherState,
    /// Its penalties are kept already.
    #[error("AlreadyKept")]
    AlreadyKept,
    /// The book has no channel with this index.
    #[error("NoSuchChannel")]
    NoSuchChannel,
}

/// Why claims are not filled and released.
#[derive(Debug, Drop, Error)]
pub enum ReleaseError {
    /// The filling is refused, or memory ran out.
    #[error("{0}")]
    Unfilled(FillError),
    /// The book has no channel with this index.
    #[error("NoSuchChannel")]
    NoSuchChannel,
}

/// Why what is left of a release is not released again.
#[derive(Debug, Drop, Error)]
pub enum ReleaseAgainError {
    /// Its release is refused, or memory ran out.
    #[error("{0}")]
    Refused(ReleaseError),
    /// The history has no entry with this index.
    #[error("NoSuchEntry")]
    NoSuchEntry,
    /// The entry is no release.
    #[error("NotARelease")]
    NotARelease,
    /// There are more than 4,000 outputs.
    #[error("TooManyOutputs")]
    TooManyOutputs,
    /// The output of each of its claims was spent.
    #[error("NothingLeft")]
    NothingLeft,
}

/// Why a channel is not closed.
#[derive(Clone, Copy, Debug, PartialEq, Eq, Drop, Error)]
pub enum CloseError {
    /// Memory ran out.
    #[error("NoMemory")]
    NoMemory,
    /// The book has no channel with this index.
    #[error("NoSuchChannel")]
    NoSuchChannel,
}

/// Why the book does not tell what is known of a channel.
#[derive(Clone, Copy, Debug, PartialEq, Eq, Drop, Error)]
pub enum KnowError {
    /// Memory ran out.
    #[error("NoMemory")]
    NoMemory,
    /// The book has no channel with this index.
    #[error("NoSuchChannel")]
    NoSuchChannel,
}

impl OpenError {
    ghost use Rattle.book.specs.Refusals.{open_error_number};

    /// The number of the refusal; 0 is out of memory.
    pub fn number(&self) -> u8
        ensures { result ≡ open_error_number self.now }
    {
        match self {
            OpenError::NoMemory => 0,
            OpenError::BookFull => 1,
            OpenError::SameFunding => 2,
            OpenError::BadSignature => 3,
        }
    }
}

impl StepError {
    ghost use Rattle.book.specs.Refusals.{step_error_number};

    /// The number of the refusal; 0 is out of memory.
    pub fn number(&self) -> u8
        ensures { result ≡ step_error_number self.now }
    {
        match self {
            StepError::Refused(refusal) => refusal.number(),
            StepError::NoSuchChannel => 9,
            StepError::ChannelClosed => 19,
        }
    }
}

impl SignError {
    ghost use Rattle.book.specs.Refusals.{sign_error_number};

    /// The number of the refusal; 0 is out of memory.
    pub fn number(&self) -> u8
        ensures { result ≡ sign_error_number self.now }
    {
        match self {
            SignError::NoMemory => 0,
            SignError::PenaltiesMissing(_) => 1,
            SignError::AwaitingRevocation => 2,
            SignError::NoUpdates => 3,
            SignError::NoSuchChannel => 9,
            SignError::ChannelClosed => 19,
        }
    }
}

impl KeepError {
    ghost use Rattle.book.specs.Refusals.{keep_error_number};

    /// The number of the refusal; 0 is out of memory.
    pub fn number(&self) -> u8
        ensures { result ≡ keep_error_number self.now }
    {
        match self {
            KeepError::NoMemory => 0,
            KeepError::NotRevoked => 1,
            KeepError::OtherState => 2,
            KeepError::AlreadyKept => 3,
            KeepError::NoSuchChannel => 9,
        }
    }
}

impl ReleaseError {
    ghost use Rattle.book.specs.Refusals.{release_error_number};

    /// The number of the refusal; 0 is out of memory.
    pub fn number(&self) -> u8
        ensures { result ≡ release_error_number self.now }
    {
        match self {
            ReleaseError::Unfilled(refusal) => refusal.number(),
            ReleaseError::NoSuchChannel => 9,
        }
    }
}

impl ReleaseAgainError {
    ghost use Rattle.book.specs.Refusals.{release_again_error_number};

    /// The number of the refusal; 0 is out of memory.
    pub fn number(&self) -> u8
        ensures { result ≡ release_again_error_number self.now }
    {
        match self {
            ReleaseAgainError::Refused(refusal) => refusal.number(),
            ReleaseAgainError::NoSuchEntry => 20,
            ReleaseAgainError::NotARelease => 21,
            ReleaseAgainError::TooManyOutputs => 22,
            ReleaseAgainError::NothingLeft => 23,
        }
    }
}

impl CloseError {
    ghost use Rattle.book.specs.Refusals.{close_error_number};

    /// The number of the refusal; 0 is out of memory.
    pub fn number(&self) -> u8
        ensures { result ≡ close_error_number self.now }
    {
        match self {
            CloseError::NoMemory => 0,
            CloseError::NoSuchChannel => 9,
        }
    }
}

impl KnowError {
    ghost use Rattle.book.specs.Refusals.{know_error_number};

    /// The number of the refusal; 0 is out of memory.
    pub fn number(&self) -> u8
        ensures { result ≡ know_error_number self.now }
    {
        match self {
            KnowError::NoMemory => 0,
            KnowError::NoSuchChannel => 9,
        }
    }
}

impl From<AllocError> for OpenError {
    ghost from_gives = { λ _ e. e ≡ opens.NoMemory };

    fn from(_error: AllocError) -> OpenError {
        OpenError::NoMemory
    }
}

impl From<AllocError> for StepError {
    ghost from_gives = { λ _ e. e ≡ steps.Refused channels.NoMemory };

    fn from(_error: AllocError) -> StepError {
        StepError::Refused(ChannelError::NoMemory)
    }
}

impl From<ChannelError> for StepError {
    ghost from_gives = { λ refusal e. e ≡ steps.Refused refusal };

    fn from(refusal: ChannelError) -> StepError {
        StepError::Refused(refusal)
    }
}

impl From<AllocError> for SignError {
    ghost from_gives = { λ _ e. e ≡ signs.NoMemory };

    fn from(_error: AllocError) -> SignError {
        SignError::NoMemory
    }
}

impl From<AllocError> for KeepError {
    ghost from_gives = { λ _ e. e ≡ keeps.NoMemory };

    fn from(_error: AllocError) -> KeepError {
        KeepError::NoMemory
    }
}

impl From<AllocError> for ReleaseError {
    ghost from_gives = { λ _ e. e ≡ releases.Unfilled fills.NoMemory };

    fn from(_error: AllocError) -> ReleaseError {
        ReleaseError::Unfilled(FillError::NoMemory)
    }
}

impl From<FillError> for ReleaseError {
    ghost from_gives = { λ refusal e. e ≡ releases.Unfilled refusal };

    fn from(refusal: FillError) -> ReleaseError {
        ReleaseError::Unfilled(refusal)
    }
}

impl From<AllocError> for ReleaseAgainError {
    ghost from_gives = { λ _ e. e ≡ again.Refused (releases.Unfilled fills.NoMemory) };

    fn from(_error: AllocError) -> ReleaseAgainError {
        ReleaseAgainError::Refused(ReleaseError::Unfilled(FillError::NoMemory))
    }
}

impl From<AllocError> for CloseError {
    ghost from_gives = { λ _ e. e ≡ closes.NoMemory };

    fn from(_error: AllocError) -> CloseError {
        CloseError::NoMemory
    }
}

impl From<AllocError> for KnowError {
    ghost from_gives = { λ _ e. e ≡ knows.NoMemory };

    fn from(_error: AllocError) -> KnowError {
        KnowError::NoMemory
    }
}
