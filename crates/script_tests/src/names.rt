//! The printed names of causes, refusals and stops.

use crate::fixtures::is_printed;
use machine::Stop;
use script::{Cause, Kind, ParseError};
use secrets::StoreError;

const CAUSES: [(Cause, &str); 16] = [
    (Cause::MissingOperand, "MissingOperand"),
    (Cause::FailedCheck(Kind::Verify), "FailedCheck Verify"),
    (Cause::FailedCheck(Kind::Number), "FailedCheck Number"),
    (Cause::FailedCheck(Kind::KeyCount), "FailedCheck KeyCount"),
    (Cause::FailedCheck(Kind::SigCount), "FailedCheck SigCount"),
    (Cause::FailedCheck(Kind::TokenForm), "FailedCheck TokenForm"),
    (Cause::FailedCheck(Kind::KeyForm), "FailedCheck KeyForm"),
    (Cause::FailedCheck(Kind::Extra), "FailedCheck Extra"),
    (Cause::FailedCheck(Kind::LockTime), "FailedCheck LockTime"),
    (Cause::FailedCheck(Kind::Sequence), "FailedCheck Sequence"),
    (Cause::OpenBranch, "OpenBranch"),
    (Cause::TooManyOps, "TooManyOps"),
    (Cause::StackTooTall, "StackTooTall"),
    (Cause::ItemTooLong, "ItemTooLong"),
    (Cause::NotOneValue, "NotOneValue"),
    (Cause::FalseEnd, "FalseEnd"),
];

const PARSE_ERRORS: [(ParseError, &str); 4] = [
    (ParseError::NoMemory, "NoMemory"),
    (ParseError::BadOpcode(70), "BadOpcode 70"),
    (ParseError::Truncated(9_999), "Truncated 9999"),
    (ParseError::TooLong, "TooLong"),
];

const STOPS: [(Stop, &str); 3] = [
    (Stop::NoMemory, "NoMemory"),
    (Stop::At(Cause::FalseEnd, 1234), "FalseEnd 1234"),
    (
        Stop::At(Cause::FailedCheck(Kind::Verify), 0),
        "FailedCheck Verify 0",
    ),
];

const STORE_ERRORS: [(StoreError, &str, u8); 2] = [
    (StoreError::OutOfTurn, "OutOfTurn", 1),
    (StoreError::NotOfThisSeed, "NotOfThisSeed", 2),
];

#[test]
fn prints_every_name(rt: HostRuntime) {
    let alloc = rt.alloc();
    for (cause, name) in &CAUSES {
        assert!(rt; is_printed(alloc, cause, name));
    }
    for (refusal, name) in &PARSE_ERRORS {
        assert!(rt; is_printed(alloc, refusal, name));
    }
    for (stop, name) in &STOPS {
        assert!(rt; is_printed(alloc, stop, name));
    }
    for (refusal, name, number) in &STORE_ERRORS {
        assert!(rt; is_printed(alloc, refusal, name) && refusal.number() == *number);
    }
}
