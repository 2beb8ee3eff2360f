// Why no spend is made.

ghost use Rattle.std.specs.Prelude.{◌≡◌};
ghost use Rattle.spend.specs.Refusals.{plan_error_number, plan_error_text, plan_error};
ghost use Rattle.spend.specs.declared.errors.PlanError.TheVariants.{NoMemory};

use filling::SpendError;
use std::alloc::AllocError;

/// Why no spend is made. Checked in this order; memory may run out at any time. The numbers 11 and 12 are those of input that can't be read.
#[derive(Clone, Copy)]
pub enum PlanError {
    /// Memory ran out.
    NoMemory,
    /// Invalid JSON.
    NotJson,
    /// The value does not have the shape, an object has a name twice, or there is no output, more than 4,000, or a destination of more than 10,000 bytes.
    BadShape,
    /// A claim is not accepted, or its script is refused by `parse` or `check`.
    BadClaim,
    /// A claim has a fixed transaction.
    FixedTransaction,
    /// Two claims spend the same output.
    SameOutpoint,
    /// The path of a claim asks for the length, the hash or the bytes of a signature.
    MeasuredSignature,
    /// No preimage is given for the hash of a slot.
    NoPreimage,
    /// The outputs are worth more than 2,100,000,000,000,000 satoshis together.
    ValueTooLarge,
    /// The outputs are worth no more than the fee.
    NothingLeft,
    /// What the fee leaves is too little for nodes to relay.
    Dust,
    /// The destination is no program that wallets have an address for, or one that anyone can spend from.
    BadDestination,
    /// The feerate is above the limit.
    TooHighFeerate,
    /// The feerate is below the limit.
    TooLowFeerate,
}

impl PlanError {
    /// The number of the refusal; 0 is out of memory.
    pub fn number(&self) -> u8
        ensures { result ≡ plan_error_number self.now }
    {
        match self {
            PlanError::NoMemory => 0,
            PlanError::NotJson => 1,
            PlanError::BadShape => 2,
            PlanError::BadClaim => 3,
            PlanError::FixedTransaction => 4,
            PlanError::SameOutpoint => 5,
            PlanError::MeasuredSignature => 6,
            PlanError::NoPreimage => 7,
            PlanError::ValueTooLarge => 8,
            PlanError::NothingLeft => 9,
            PlanError::Dust => 10,
            PlanError::BadDestination => 13,
            PlanError::TooHighFeerate => 14,
            PlanError::TooLowFeerate => 15,
        }
    }

    /// The name of the refusal, as it is printed.
    pub fn text(&self) -> &'static str
        ensures { result.now ≡ plan_error_text self.now }
    {
        match self {
            PlanError::NoMemory => "NoMemory",
            PlanError::NotJson => "NotJson",
            PlanError::BadShape => "BadShape",
            PlanError::BadClaim => "BadClaim",
            PlanError::FixedTransaction => "FixedTransaction",
            PlanError::SameOutpoint => "SameOutpoint",
            PlanError::MeasuredSignature => "MeasuredSignature",
            PlanError::NoPreimage => "NoPreimage",
            PlanError::ValueTooLarge => "ValueTooLarge",
            PlanError::NothingLeft => "NothingLeft",
            PlanError::Dust => "Dust",
            PlanError::BadDestination => "BadDestination",
            PlanError::TooHighFeerate => "TooHighFeerate",
            PlanError::TooLowFeerate => "TooLowFeerate",
        }
    }
}

impl From<AllocError> for PlanError {
    ghost from_gives = { λ _ e. e ≡ NoMemory };

    fn from(_error: AllocError) -> PlanError {
        PlanError::NoMemory
    }
}

impl From<SpendError> for PlanError {
    ghost from_gives = { λ error e. e ≡ plan_error error };

    fn from(error: SpendError) -> PlanError {
        match error {
            SpendError::NoMemory => PlanError::NoMemory,
            SpendError::FixedTransaction => PlanError::FixedTransaction,
            SpendError::SameOutpoint => PlanError::SameOutpoint,
            SpendError::OutputsExceed => PlanError::NothingLeft,
            SpendError::MeasuredSignature => PlanError::MeasuredSignature,
            SpendError::NoPreimage => PlanError::NoPreimage,
        }
    }
}
