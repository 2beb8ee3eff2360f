//! Tables of steps for every chain, however it is stored.

use crate::fixtures::{KEY, KEY_PROGRAM, KEY_SCRIPT, TO_LOCAL, TO_LOCAL_PROGRAM, TRUE};
use crate::steps::{Source, Step, play_all};
use chain::{ChainError, Index, Scan};
use script::{Cause, Kind};

// A lock time of 500 is reached in block 501, not in block 500.
const LOCK_TIME_500: [Step; 7] = [
    Step::Grant(1000),
    Step::Make(2, &[(Source::Granted(0), 0)], &[900], 500),
    Step::Raise(499),
    Step::Refuse(&[0], 0, ChainError::NotFinal),
    Step::Raise(500),
    Step::Connect(&[0], 501),
    Step::Hold(1, 900, 100),
];

// Times up to 0x20ffffff count as reached, those above never, unless every input is final.
const TIMES: [Step; 13] = [
    Step::Grant(10),
    Step::Make(2, &[(Source::Granted(0), 0)], &[1], 553648127),
    Step::Make(2, &[(Source::Granted(0), 0)], &[1], 553648128),
    Step::Make(2, &[(Source::Granted(0), 0xffffffff)], &[1], 553648128),
    Step::Make(2, &[(Source::Granted(0), 0)], &[1], 500000000),
    Step::Make(2, &[(Source::Granted(0), 0)], &[1], 499999999),
    Step::Check(0, 0, Ok(())),
    Step::Check(1, 0, Err(ChainError::NotFinal)),
    Step::Check(2, 0, Ok(())),
    Step::Check(3, 0, Ok(())),
    Step::Check(4, 0, Err(ChainError::NotFinal)),
    Step::Raise(30),
    Step::Check(1, 0, Err(ChainError::NotFinal)),
];

// A coin of height 100 and an age of 144: too young in block 243, old enough in 244. Version 1 is never too young, but its script refuses it.
const AGE_144: [Step; 12] = [
    Step::Raise(100),
    Step::GrantTo(5000, &TO_LOCAL_PROGRAM),
    Step::Make(2, &[(Source::Granted(0), 144)], &[4000], 0),
    Step::Sign(0, &TO_LOCAL, 5000, &[&[], &TO_LOCAL]),
    Step::Make(1, &[(Source::Granted(0), 144)], &[4000], 0),
    Step::Sign(1, &TO_LOCAL, 5000, &[&[], &TO_LOCAL]),
    Step::Raise(242),
    Step::Refuse(&[0], 0, ChainError::TooYoung),
    VERSION_1_REFUSED,
    Step::Raise(243),
    VERSION_1_REFUSED,
    Step::Connect(&[0], 244),
];

// CHECKSEQUENCEVERIFY, the script's fifth opcode, requires version 2 (BIP 112).
const VERSION_1_REFUSED: Step = Step::Refuse(
    &[1],
    0,
    ChainError::Script(Cause::FailedCheck(Kind::Sequence), 4),
);

// The rules of BIP 68: the version, bit 31, bit 22, and the low 16 bits.
const RELATIVE_LOCKS: [Step; 13] = [
    Step::Grant(10),
    Step::Make(1, &[(Source::Granted(0), 144)], &[1], 0),
    Step::Make(2, &[(Source::Granted(0), 0x80000090)], &[1], 0),
    Step::Make(2, &[(Source::Granted(0), 0x400000)], &[1], 0),
    Step::Make(2, &[(Source::Granted(0), 0x10001)], &[1], 0),
    Step::Make(3, &[(Source::Granted(0), 2)], &[1], 0),
    Step::Check(0, 0, Ok(())),
    Step::Check(1, 0, Ok(())),
    Step::Check(2, 0, Err(ChainError::TooYoung)),
    Step::Check(3, 0, Ok(())),
    Step::Check(4, 0, Err(ChainError::TooYoung)),
    Step::Raise(1),
    Step::Check(4, 0, Ok(())),
];

// Outputs created and spent within a block: in order, but not in the reverse order, and not twice.
const WITHIN_A_BLOCK: [Step; 11] = [
    Step::Grant(1000),
    Step::Make(2, &[(Source::Granted(0), 0)], &[600, 300], 0),
    Step::Make(2, &[(Source::Made(0, 1), 0)], &[250], 0),
    Step::Make(2, &[(Source::Made(0, 1), 0)], &[240], 0),
    Step::Refuse(&[1, 0], 0, ChainError::Unknown),
    Step::Refuse(&[0, 1, 2], 2, ChainError::Spent),
    Step::Refuse(&[0, 0], 1, ChainError::Twice),
    Step::Hold(1, 1000, 0),
    Step::Connect(&[0, 1], 1),
    Step::Refuse(&[2], 0, ChainError::Spent),
    Step::Hold(2, 850, 150),
];

// Outputs and inputs that do not exist.
const UNKNOWN_OUTPUTS: [Step; 8] = [
    Step::Grant(1000),
    Step::Make(2, &[(Source::Granted(0), 0)], &[600, 300], 0),
    Step::Make(
        2,
        &[(Source::Made(0, 2), 0), (Source::Made(0, 1), 0)],
        &[1],
        0,
    ),
    Step::Connect(&[0], 1),
    Step::Check(1, 0, Err(ChainError::Unknown)),
    Step::Check(1, 1, Ok(())),
    Step::Check(0, 0, Err(ChainError::Spent)),
    Step::Check(0, 1, Err(ChainError::Unknown)),
];

// Refusals of the transaction as a whole, and of a grant.
const WHOLE_REFUSALS: [Step; 9] = [
    Step::RefuseGrant(&TRUE),
    Step::Grant(1000),
    Step::Make(
        2,
        &[(Source::Granted(0), 0), (Source::Granted(0), 0)],
        &[1],
        0,
    ),
    Step::Make(2, &[(Source::Granted(0), 0)], &[600, 401], 0),
    Step::Make(2, &[(Source::Granted(0), 0)], &[600, 400], 0),
    Step::Refuse(&[0], 0, ChainError::Twice),
    Step::Refuse(&[1], 0, ChainError::OutputsExceed),
    Step::Connect(&[2], 1),
    Step::Hold(2, 1000, 0),
];

// An output to a key hash, spent with the key and its token, and the refusals of other witnesses.
const KEY_HASH: [Step; 9] = [
    Step::GrantTo(7000, &KEY_PROGRAM),
    Step::Make(2, &[(Source::Granted(0), 0)], &[6000], 0),
    Step::Check(0, 0, Err(ChainError::BadProgram)),
    Step::Witness(0, &[&[], &[1]]),
    Step::Check(
        0,
        0,
        Err(ChainError::Script(Cause::FailedCheck(Kind::Verify), 3)),
    ),
    Step::Sign(0, &KEY_SCRIPT, 7000, &[&KEY, &KEY]),
    Step::Check(0, 0, Err(ChainError::BadProgram)),
    Step::Sign(0, &KEY_SCRIPT, 7000, &[&KEY]),
    Step::Connect(&[0], 1),
];

// Witnesses that do not have the program's form, and a script that stops.
const SCRIPT_HASH: [Step; 8] = [
    Step::Grant(1000),
    Step::Make(2, &[(Source::Granted(0), 0)], &[1], 0),
    Step::Witness(0, &[&[1], &TRUE]),
    Step::Check(0, 0, Err(ChainError::Script(Cause::NotOneValue, 1))),
    Step::Witness(0, &[&[0x52]]),
    Step::Check(0, 0, Err(ChainError::BadProgram)),
    Step::Witness(0, &[]),
    Step::Check(0, 0, Err(ChainError::BadProgram)),
];

// Blocks that are taken off, and the outputs that are then unspent.
const REORGANISED: [Step; 12] = [
    Step::Grant(1000),
    Step::Make(2, &[(Source::Granted(0), 0)], &[600, 300], 0),
    Step::Make(2, &[(Source::Made(0, 1), 0)], &[250], 0),
    Step::Connect(&[0], 1),
    Step::Connect(&[1], 2),
    Step::Deep(3),
    Step::Disconnect(2, &[0, 1]),
    Step::Hold(1, 1000, 0),
    Step::Check(0, 0, Ok(())),
    Step::Check(1, 0, Err(ChainError::Unknown)),
    Step::Connect(&[0, 1], 1),
    Step::Hold(2, 850, 150),
];

// How many blocks may be taken off.
const DEPTHS: [Step; 11] = [
    Step::Raise(8),
    Step::Deep(7),
    Step::Disconnect(6, &[]),
    Step::Deep(1),
    Step::Raise(3),
    Step::Grant(5),
    Step::Raise(4),
    Step::Deep(2),
    Step::Disconnect(1, &[]),
    Step::Disconnect(0, &[]),
    Step::Hold(1, 5, 0),
];

// The tables, each for a new chain.
const TABLES: [&[Step]; 11] = [
    &LOCK_TIME_500,
    &TIMES,
    &AGE_144,
    &RELATIVE_LOCKS,
    &WITHIN_A_BLOCK,
    &UNKNOWN_OUTPUTS,
    &WHOLE_REFUSALS,
    &KEY_HASH,
    &SCRIPT_HASH,
    &REORGANISED,
    &DEPTHS,
];

#[test]
fn scan_answers(rt: HostRuntime) {
    for table in &TABLES {
        let mut chain = Scan::new(rt.alloc()).expect(&rt, "memory");
        play_all(&rt, rt.alloc(), &mut chain, table);
    }
}

#[test]
fn index_answers(rt: HostRuntime) {
    for table in &TABLES {
        let mut chain = Index::new(rt.alloc()).expect(&rt, "memory");
        play_all(&rt, rt.alloc(), &mut chain, table);
    }
}
