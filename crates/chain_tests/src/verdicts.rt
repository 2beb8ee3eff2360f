//! What is said of an input: the way that its witness takes, the opcode at which its script stops, or why no script runs.
//! The function in the documentation of `judge` is called.

use crate::fixtures::{
    GRANTED, KEY, KEY_PROGRAM, KEY_SCRIPT, TO_LOCAL, TO_LOCAL_PROGRAM, TRUE, TRUE_PROGRAM, output,
    push_item, transaction,
};
use judge::{Verdict, judge};
use lists::ByteString;
use script::{Cause, Kind};
use sighash::{SighashCache, Token, digest_of};
use std::alloc::{AllocError, Global};
use std::process::Abort;
use tx::{Tx, TxOut, Witness};

// 0 CHECKMULTISIG, which the listing leaves undecided, since the witness has the number of signatures; then a byte that is no opcode. Each
// program is 00 20 and the SHA-256 of the script.
const UNLISTED: [u8; 2] = [0x00, 0xae];

const UNLISTED_PROGRAM: [u8; 34] = [
    0x00, 0x20, 0x18, 0x9d, 0x48, 0x83, 0x52, 0x90, 0x28, 0xb6, 0xae, 0xe9, 0x13, 0xd0, 0xe1, 0x7e,
    0xcb, 0x98, 0x94, 0x2e, 0x4d, 0x12, 0x24, 0xda, 0x8e, 0xf1, 0x4a, 0xf9, 0x9a, 0x69, 0x1b, 0xf4,
    0xb0, 0x03,
];

const NO_OPCODE: [u8; 1] = [0xff];

const NO_OPCODE_PROGRAM: [u8; 34] = [
    0x00, 0x20, 0xa8, 0x10, 0x0a, 0xe6, 0xaa, 0x19, 0x40, 0xd0, 0xb6, 0x63, 0xbb, 0x31, 0xcd, 0x46,
    0x61, 0x42, 0xeb, 0xbd, 0xbd, 0x51, 0x87, 0x13, 0x1b, 0x92, 0xd9, 0x38, 0x18, 0x98, 0x78, 0x32,
    0xeb, 0x89,
];

// The key of TO_LOCAL that revokes. The other one is KEY.
const REVOCATION_KEY: [u8; 33] = [
    0x02, 0x11, 0x11, 0x11, 0x11, 0x11, 0x11, 0x11, 0x11, 0x11, 0x11, 0x11, 0x11, 0x11, 0x11, 0x11,
    0x11, 0x11, 0x11, 0x11, 0x11, 0x11, 0x11, 0x11, 0x11, 0x11, 0x11, 0x11, 0x11, 0x11, 0x11, 0x11,
    0x11,
];

// The satoshis of each output.
const VALUE: u64 = 1000;

// An item of a witness: these bytes, or the signature by this key for the script that runs.
#[derive(Clone, Copy)]
enum Item {
    Bytes(&'static [u8]),
    Signature(&'static [u8; 33]),
}

// What is said: the number of a fault; a cause, the opcode, and the stack before it, the top first; or the counted opcodes, the greatest
// height and the path.
#[derive(Clone, Copy)]
enum Wanted {
    Refused(u8),
    Stopped(Cause, usize, &'static [&'static [u8]]),
    Clean(usize, usize, Option<usize>),
}

// A program, the script that runs, the sequence of the input, its witness, and what is said.
type Row = (&'static [u8], &'static [u8], u32, &'static [Item], Wanted);

// Programs and witnesses that give no script (BIP 141, "Witness program").
const REFUSALS: [Row; 5] = [
    (&TRUE, &TRUE, 0, &[Item::Bytes(&TRUE)], Wanted::Refused(1)),
    (
        &KEY_PROGRAM,
        &KEY_SCRIPT,
        0,
        &[Item::Bytes(&KEY)],
        Wanted::Refused(2),
    ),
    (&TRUE_PROGRAM, &TRUE, 0, &[], Wanted::Refused(3)),
    (
        &TRUE_PROGRAM,
        &TRUE,
        0,
        &[Item::Bytes(&KEY)],
        Wanted::Refused(4),
    ),
    (
        &NO_OPCODE_PROGRAM,
        &NO_OPCODE,
        0,
        &[Item::Bytes(&NO_OPCODE)],
        Wanted::Refused(5),
    ),
];

// Runs that stop: at the first opcode, at a lock that is one block short, at a signature that is none, and at the end.
const STOPS: [Row; 5] = [
    (
        &TO_LOCAL_PROGRAM,
        &TO_LOCAL,
        144,
        &[Item::Bytes(&TO_LOCAL)],
        Wanted::Stopped(Cause::MissingOperand, 0, &[]),
    ),
    (
        &TO_LOCAL_PROGRAM,
        &TO_LOCAL,
        143,
        &[Item::Bytes(&[7]), Item::Bytes(&[]), Item::Bytes(&TO_LOCAL)],
        Wanted::Stopped(
            Cause::FailedCheck(Kind::Sequence),
            4,
            &[&[0x90, 0x00], &[7]],
        ),
    ),
    (
        &TO_LOCAL_PROGRAM,
        &TO_LOCAL,
        144,
        &[Item::Bytes(&[7]), Item::Bytes(&[]), Item::Bytes(&TO_LOCAL)],
        Wanted::Stopped(Cause::FailedCheck(Kind::TokenForm), 8, &[&KEY, &[7]]),
    ),
    (
        &TO_LOCAL_PROGRAM,
        &TO_LOCAL,
        144,
        &[
            Item::Signature(&REVOCATION_KEY),
            Item::Bytes(&[]),
            Item::Bytes(&TO_LOCAL),
        ],
        Wanted::Stopped(Cause::FalseEnd, 9, &[&[]]),
    ),
    (
        &TRUE_PROGRAM,
        &TRUE,
        0,
        &[Item::Bytes(&[7]), Item::Bytes(&TRUE)],
        Wanted::Stopped(Cause::NotOneValue, 1, &[&[1], &[7]]),
    ),
];

// Runs that are clean: both paths of an output to its owner, a key's hash, a script without a check, and one that is not listed.
const CLEAN: [Row; 5] = [
    (
        &TO_LOCAL_PROGRAM,
        &TO_LOCAL,
        0,
        &[
            Item::Signature(&REVOCATION_KEY),
            Item::Bytes(&[1]),
            Item::Bytes(&TO_LOCAL),
        ],
        Wanted::Clean(6, 2, Some(0)),
    ),
    (
        &TO_LOCAL_PROGRAM,
        &TO_LOCAL,
        144,
        &[
            Item::Signature(&KEY),
            Item::Bytes(&[]),
            Item::Bytes(&TO_LOCAL),
        ],
        Wanted::Clean(6, 2, Some(1)),
    ),
    (
        &KEY_PROGRAM,
        &KEY_SCRIPT,
        0,
        &[Item::Signature(&KEY), Item::Bytes(&KEY)],
        Wanted::Clean(4, 4, Some(0)),
    ),
    (
        &TRUE_PROGRAM,
        &TRUE,
        0,
        &[Item::Bytes(&TRUE)],
        Wanted::Clean(0, 1, Some(0)),
    ),
    (
        &UNLISTED_PROGRAM,
        &UNLISTED,
        0,
        &[Item::Bytes(&[]), Item::Bytes(&[]), Item::Bytes(&UNLISTED)],
        Wanted::Clean(1, 3, None),
    ),
];

// The example in the documentation of `judge`: what is said of the first input, if it spends this output.
fn first_verdict(alloc: Global, tx: &Tx, output: &TxOut) -> Result<Option<Verdict>, AllocError> {
    match tx.inputs().first() {
        Some(input) => {
            let cache = SighashCache::new(tx);
            Ok(Some(judge(alloc, tx, &cache, 0, input, output)?))
        }
        None => Ok(None),
    }
}

// The witness of these items, whose signatures are over this digest.
fn witness_of(rt: &impl Abort, alloc: Global, items: &[Item], digest: &[u8; 32]) -> Witness {
    let mut witness = Witness::new(alloc);
    for item in items {
        match item {
            Item::Bytes(bytes) => push_item(rt, alloc, &mut witness, bytes),
            Item::Signature(key) => {
                push_item(rt, alloc, &mut witness, Token::new(key, digest).bytes());
            }
        }
    }
    witness
}

// Whether a stack has these elements, its top first.
fn are_elements(stack: &[ByteString], wanted: &[&[u8]]) -> bool {
    stack.len() == wanted.len()
        && stack
            .iter()
            .rev()
            .zip(wanted)
            .all(|(element, wanted)| element.bytes() == *wanted)
}

// Whether this is said, of an input whose signatures are over this digest.
fn is_said(verdict: &Verdict, wanted: &Wanted, digest: &[u8; 32]) -> bool {
    match (verdict, wanted) {
        (Verdict::Refused(fault), Wanted::Refused(number)) => fault.number() == *number,
        (Verdict::Stopped(stopped), Wanted::Stopped(cause, index, elements)) => {
            stopped.cause == *cause
                && stopped.index == *index
                && stopped.digest == *digest
                && match &stopped.stack {
                    Some(stack) => are_elements(stack.values(), elements),
                    None => false,
                }
        }
        (Verdict::Clean(clean), Wanted::Clean(counted, height, path)) => {
            clean.run.counted == *counted
                && clean.run.height == *height
                && clean.path == *path
                && clean.digest == *digest
        }
        _ => false,
    }
}

fn tell(rt: &impl Abort, alloc: Global, row: &Row) {
    let (program, code, sequence, items, wanted) = row;
    let mut tx = transaction(rt, alloc, 2, &[(GRANTED[0], *sequence)], &[900], 0);
    let digest = digest_of(&tx, 0, code, VALUE).expect(rt, "an input");
    assert!(rt; !tx.inputs().is_empty());
    tx.set_witness(0, witness_of(rt, alloc, items, &digest));
    let verdict = first_verdict(alloc, &tx, &output(rt, alloc, VALUE, program));
    let verdict = verdict.expect(rt, "memory").expect(rt, "an input");
    assert!(rt; is_said(&verdict, wanted, &digest));
}

#[test]
fn names_the_fault(rt: HostRuntime) {
    for row in &REFUSALS {
        tell(&rt, rt.alloc(), row);
    }
}

#[test]
fn names_the_opcode_and_the_stack(rt: HostRuntime) {
    for row in &STOPS {
        tell(&rt, rt.alloc(), row);
    }
}

#[test]
fn names_the_path(rt: HostRuntime) {
    for row in &CLEAN {
        tell(&rt, rt.alloc(), row);
    }
}
