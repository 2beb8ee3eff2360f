// What a witness program and a witness give to run, or why they give nothing (BIP 141, "Witness program").

use crate::fixtures::{KEY, KEY_PROGRAM, KEY_SCRIPT, TRUE, TRUE_PROGRAM};
use chain::{ProgramFault, given_of};
use lists::ByteString;
use std::alloc::Global;
use std::process::Abort;

// The program of the script 51 with version 1 in place of 0.
const VERSION_1: [u8; 34] = [
    0x51, 0x20, 0x4a, 0xe8, 0x15, 0x72, 0xf0, 0x6e, 0x1b, 0x88, 0xfd, 0x5c, 0xed, 0x7a, 0x1a, 0x00,
    0x09, 0x45, 0x43, 0x2e, 0x83, 0xe1, 0x55, 0x1e, 0x6f, 0x72, 0x1e, 0xe9, 0xc0, 0x0b, 0x8c, 0xc3,
    0x32, 0x60,
];

// A program, a witness, the first item first, and the script and number of items that they give.
const ROWS: [(&[u8], &[&[u8]], Result<(&[u8], usize), ProgramFault>); 12] = [
    // of a key's hash: the script of the hash, on both items
    (&KEY_PROGRAM, &[&[0x07], &KEY], Ok((&KEY_SCRIPT, 2))),
    (&KEY_PROGRAM, &[], Err(ProgramFault::NotTwoItems)),
    (&KEY_PROGRAM, &[&KEY], Err(ProgramFault::NotTwoItems)),
    (
        &KEY_PROGRAM,
        &[&[0x07], &[0x09], &KEY],
        Err(ProgramFault::NotTwoItems),
    ),
    // of a script's hash: the last item, on those before it
    (&TRUE_PROGRAM, &[&TRUE], Ok((&TRUE, 0))),
    (&TRUE_PROGRAM, &[&[0x07], &[0x09], &TRUE], Ok((&TRUE, 2))),
    (&TRUE_PROGRAM, &[], Err(ProgramFault::NoScript)),
    (
        &TRUE_PROGRAM,
        &[&TRUE, &[0x07]],
        Err(ProgramFault::OtherScript),
    ),
    // another program: one byte, two bytes, version 1, and the script of a key's hash
    (&TRUE, &[&TRUE], Err(ProgramFault::OtherProgram)),
    (&[0x00, 0x00], &[&TRUE], Err(ProgramFault::OtherProgram)),
    (&VERSION_1, &[&TRUE], Err(ProgramFault::OtherProgram)),
    (
        &KEY_SCRIPT,
        &[&[0x07], &KEY],
        Err(ProgramFault::OtherProgram),
    ),
];

fn witness_of(rt: &impl Abort, alloc: Global, items: &[&[u8]]) -> Vec<ByteString> {
    let mut witness = Vec::new(alloc);
    for item in items {
        let item = ByteString::from_slice(alloc, item).expect(rt, "memory");
        witness.push(item).expect(rt, "memory");
    }
    witness
}

// Whether the items are the first ones of the witness.
fn are_first(items: &[ByteString], witness: &[&[u8]]) -> bool {
    items
        .iter()
        .zip(witness)
        .all(|(item, given)| item.bytes() == *given)
}

#[test]
fn gives_the_script_and_its_items(rt: HostRuntime) {
    for (program, items, wanted) in &ROWS {
        let witness = witness_of(&rt, rt.alloc(), items);
        let given = given_of(rt.alloc(), program, witness.as_slice()).expect(&rt, "memory");
        match given {
            Ok(given) => {
                let shown = Ok((given.script(), given.items().len()));
                assert!(rt; shown == *wanted && are_first(given.items(), items));
            }
            Err(fault) => assert!(rt; Err(fault) == *wanted),
        }
    }
}
