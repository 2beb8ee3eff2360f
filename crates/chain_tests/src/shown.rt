//! Values from outside sources, the blocks of a chain, and printed text.

use crate::fixtures::{GRANTED, KEY_PROGRAM, is_printed, output};
use chain::{BlockError, ChainError, Coins, Scan};
use script::{Cause, Kind};
use std::alloc::Global;
use std::process::Abort;
use tx::OutPoint;

// Grants an output, which must have this outpoint, and adds an empty block.
fn grant(rt: &impl Abort, alloc: Global, chain: &mut Scan, wanted: &OutPoint) {
    let outpoint = chain.grant(output(rt, alloc, 1, &KEY_PROGRAM));
    assert!(rt; outpoint == Ok(*wanted));
    chain.connect(Vec::new(alloc)).expect(rt, "a block");
}

// Grants are numbered over the whole chain, and stay in the block that was the newest.
#[test]
fn grants_have_their_ids(rt: HostRuntime) {
    let mut chain = Scan::new(rt.alloc()).expect(&rt, "memory");
    for outpoint in &GRANTED {
        grant(&rt, rt.alloc(), &mut chain, outpoint);
    }
    assert!(rt; chain.blocks().len() == 3);
    for (block, count) in chain.blocks().iter().zip(&[1usize, 1, 0]) {
        assert!(rt; block.granted().len() == *count && block.transactions().is_empty());
    }
}

const REFUSALS: [(ChainError, &str, u8); 10] = [
    (ChainError::NoMemory, "NoMemory 7", 0),
    (ChainError::Spent, "Spent 7", 1),
    (ChainError::Unknown, "Unknown 7", 2),
    (ChainError::NotFinal, "NotFinal 7", 3),
    (ChainError::TooYoung, "TooYoung 7", 4),
    (
        ChainError::Script(Cause::FailedCheck(Kind::Extra), 4),
        "Script FailedCheck Extra 4 7",
        5,
    ),
    (ChainError::BadProgram, "BadProgram 7", 6),
    (ChainError::OutputsExceed, "OutputsExceed 7", 7),
    (ChainError::Twice, "Twice 7", 8),
    (ChainError::TooDeep, "TooDeep 7", 9),
];

#[test]
fn prints_its_refusals(rt: HostRuntime) {
    for (refusal, text, number) in &REFUSALS {
        let error = BlockError {
            index: 7,
            refusal: *refusal,
        };
        assert!(rt; is_printed(rt.alloc(), &error, text) && refusal.number() == *number);
    }
}
