//! The printed names and the numbers of refusals.

use crate::fixtures::{is_printed, key_bytes};
use claim::AcceptError;
use facts::{Fact, KeySource, Stated};
use filling::FillError;
use lists::ByteString;
use paths::{CheckError, InstanceError, PatternError};
use std::alloc::Global;
use std::process::Abort;

const CHECK_ERRORS: [(CheckError, &str, u8); 6] = [
    (CheckError::NoMemory, "NoMemory", 0),
    (CheckError::OpenBranch, "OpenBranch", 1),
    (CheckError::TooManyOps, "TooManyOps", 2),
    (CheckError::Undecided(1203), "Undecided 1203", 3),
    (CheckError::TooManyPaths, "TooManyPaths", 4),
    (CheckError::TooTall, "TooTall", 5),
];

const PATTERN_ERRORS: [(PatternError, &str, u8); 3] = [
    (
        PatternError::Check(CheckError::Undecided(1)),
        "Undecided 1",
        3,
    ),
    (PatternError::TooLong, "TooLong", 6),
    (PatternError::BadOpcode, "BadOpcode", 7),
];

const INSTANCE_ERRORS: [(InstanceError, &str, u8); 2] = [
    (InstanceError::NoMemory, "NoMemory", 0),
    (InstanceError::WrongHoles, "WrongHoles", 1),
];

#[test]
fn prints_every_refusal_of_scripts(rt: HostRuntime) {
    let alloc = rt.alloc();
    for (refusal, text, number) in &CHECK_ERRORS {
        assert!(rt; is_printed(alloc, refusal, text) && refusal.number() == *number);
    }
    for (refusal, text, number) in &PATTERN_ERRORS {
        assert!(rt; is_printed(alloc, refusal, text) && refusal.number() == *number);
    }
    for (refusal, text, number) in &INSTANCE_ERRORS {
        assert!(rt; is_printed(alloc, refusal, text) && refusal.number() == *number);
    }
}

const ACCEPT_ERRORS: [(AcceptError, &str, u8); 7] = [
    (AcceptError::NoMemory, "NoMemory", 0),
    (AcceptError::NoSuchPath, "NoSuchPath", 1),
    (AcceptError::WrongArity, "WrongArity", 2),
    (
        AcceptError::Unmet(Stated {
            fact: Fact::Token(1, KeySource::Slot(0)),
            holds: false,
        }),
        "Unmet token 1 slot 0 no",
        3,
    ),
    (AcceptError::Contradiction, "Contradiction", 4),
    (AcceptError::WrongProgram, "WrongProgram", 5),
    (AcceptError::WrongShell, "WrongShell", 6),
];

// The refusal where the slots do not show that slot 4 is a token of a key.
fn unmet(rt: &impl Abort, alloc: Global) -> AcceptError {
    let bytes = ByteString::from_slice(alloc, &key_bytes(0x11)).expect(rt, "memory");
    AcceptError::Unmet(Stated {
        fact: Fact::Token(4, KeySource::Const(bytes)),
        holds: true,
    })
}

const FILL_ERRORS: [(FillError, &str); 6] = [
    (FillError::NoMemory, "NoMemory"),
    (FillError::NoRight, "NoRight"),
    (FillError::NoPreimage, "NoPreimage"),
    (FillError::OutputsExceed, "OutputsExceed"),
    (FillError::MixedShells, "MixedShells"),
    (FillError::SameOutpoint, "SameOutpoint"),
];

#[test]
fn prints_every_refusal_of_claims(rt: HostRuntime) {
    let alloc = rt.alloc();
    for (refusal, text, number) in &ACCEPT_ERRORS {
        assert!(rt; is_printed(alloc, refusal, text) && refusal.number() == *number);
    }
    let text =
        "Unmet token 4 021111111111111111111111111111111111111111111111111111111111111111 yes";
    let refusal = unmet(&rt, alloc);
    assert!(rt; is_printed(alloc, &refusal, text) && refusal.number() == 3);
    for (refusal, text) in &FILL_ERRORS {
        assert!(rt; is_printed(alloc, refusal, text));
    }
}
