// Sentences: why a run stops.

use script::{Cause, Kind};

/// Why a run stops, in words.
pub fn cause_sentence(cause: Cause) -> &'static str {
    match cause {
        Cause::MissingOperand => "the stack has too few entries",
        Cause::FailedCheck(Kind::Verify) => "the two entries on top differ",
        Cause::FailedCheck(Kind::Number) =>
            "an entry is no number: it is too long, or not minimally encoded",
        Cause::FailedCheck(Kind::KeyCount) => "the number of keys is negative or above 20",
        Cause::FailedCheck(Kind::SigCount) =>
            "the number of signatures is negative or above that of the keys",
        Cause::FailedCheck(Kind::TokenForm) =>
            "a signature is neither empty nor a token of 66 bytes",
        Cause::FailedCheck(Kind::KeyForm) => "a key is not 33 bytes that begin with 02 or 03",
        Cause::FailedCheck(Kind::Extra) => "the extra item of CHECKMULTISIG is not empty",
        Cause::FailedCheck(Kind::LockTime) =>
            "the lock on top is negative, of the other kind or above the transaction's lock time, or the input is final",
        Cause::FailedCheck(Kind::Sequence) =>
            "the version is below 2, the input's sequence is disabled, or the relative lock on top is negative, of the other kind or above it",
        Cause::OpenBranch => "an IF, ELSE or ENDIF stands alone",
        Cause::TooManyOps => "more than 201 opcodes are counted",
        Cause::StackTooTall => "more than 1,000 entries would stand on the stack",
        Cause::ItemTooLong => "an item of the witness has more than 520 bytes",
        Cause::NotOneValue => "the run ends with another number of entries than one",
        Cause::FalseEnd =>
            "the run ends with a false entry, as after a signature that is not the key's over the digest",
    }
}
