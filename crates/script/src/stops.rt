// Why a run of a script stops before a clean end.

ghost use Rattle.std.specs.Prelude.{◌≡◌};
ghost use Rattle.script.specs.Refusals.{stop_number};

use thiserror::Error;

/// The check of an opcode that failed.
#[derive(Clone, Copy, PartialEq, Eq, Debug, Error)]
pub enum Kind {
    /// EQUALVERIFY of two items that differ.
    #[error("Verify")]
    Verify,
    /// An element is not a number: it is too long, or not minimally encoded.
    #[error("Number")]
    Number,
    /// The number of keys is negative or above 20.
    #[error("KeyCount")]
    KeyCount,
    /// The number of signatures is negative or above the number of keys.
    #[error("SigCount")]
    SigCount,
    /// A signature is neither empty nor a token.
    #[error("TokenForm")]
    TokenForm,
    /// A key is not 33 bytes that begin with 02 or 03.
    #[error("KeyForm")]
    KeyForm,
    /// The extra item of CHECKMULTISIG is not empty (BIP 147).
    #[error("Extra")]
    Extra,
    /// CHECKLOCKTIMEVERIFY fails (BIP 65).
    #[error("LockTime")]
    LockTime,
    /// CHECKSEQUENCEVERIFY fails (BIP 112).
    #[error("Sequence")]
    Sequence,
}

/// Why a run stops before a clean end.
#[derive(Clone, Copy, PartialEq, Eq, Debug, Error)]
pub enum Cause {
    /// The stack has too few elements for the opcode.
    #[error("MissingOperand")]
    MissingOperand,
    /// A check of the opcode fails.
    #[error("FailedCheck {0}")]
    FailedCheck(Kind),
    /// An ELSE or ENDIF without its IF, a second ELSE of one IF, or an IF that is still open at the end.
    #[error("OpenBranch")]
    OpenBranch,
    /// More than 201 opcodes are counted.
    #[error("TooManyOps")]
    TooManyOps,
    /// More than 1,000 elements are on the stack after an opcode.
    #[error("StackTooTall")]
    StackTooTall,
    /// An item of the witness has more than 520 bytes.
    #[error("ItemTooLong")]
    ItemTooLong,
    /// The run ends with a number of elements other than one.
    #[error("NotOneValue")]
    NotOneValue,
    /// The run ends with one element, and it is false.
    #[error("FalseEnd")]
    FalseEnd,
}

impl Cause {
    /// The refusal's number, from 1.
    pub fn number(&self) -> u8
        ensures { result ≡ stop_number self.now }
    {
        match self {
            Cause::MissingOperand => 1,
            Cause::FailedCheck(_) => 2,
            Cause::OpenBranch => 3,
            Cause::TooManyOps => 4,
            Cause::StackTooTall => 5,
            Cause::ItemTooLong => 6,
            Cause::NotOneValue => 7,
            Cause::FalseEnd => 8,
        }
    }
}
