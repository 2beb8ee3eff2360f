// The chain's test of an input that spends a claimed output of one key.

use chain::{ChainError, Coins, Index, Scan};
use claim::{Claim, Key, Place, Shell, Slot, accept};
use filling::fill;
use keys::{Base, Signer};
use lists::ByteString;
use paths::{Checked, check};
use script::Script;
use sighash::programs::script_hash_program;
use std::alloc::Global;
use std::process::Abort;
use tx::{MAX_OUTPUTS, Tx, TxOut};
use world::check_claimed;

// A push of the key, and CHECKSIG.
fn code_of(key: &Key) -> [u8; 35] {
    let mut code = [0xac; 35];
    code[0] = 0x21;
    code[1..34].copy_from_slice(&key.bytes);
    code
}

// Grants an output of 1,000 satoshis to the script, and returns its place.
fn granted<C: Coins>(rt: &impl Abort, alloc: Global, chain: &mut C, code: &[u8]) -> Place {
    let program = script_hash_program(alloc, code).expect(rt, "memory");
    let copy = program.copy().expect(rt, "memory");
    let output = TxOut::new(1000, copy).expect(rt, "an output");
    let outpoint = chain.grant(output).expect(rt, "granted");
    Place {
        outpoint,
        value: 1000,
        program,
    }
}

// The ways to spend by the script.
fn checked(rt: &impl Abort, alloc: Global, code: &[u8]) -> Checked {
    let script = Script::parse(alloc, code).expect(rt, "a script");
    check(alloc, script).expect(rt, "paths")
}

// The key's claim on such an output.
fn claim_on<C: Coins>(rt: &impl Abort, alloc: Global, chain: &mut C, key: &Key) -> Claim {
    let code = code_of(key);
    let mut slots = Vec::new(alloc);
    slots.push(Slot::Sig(*key)).expect(rt, "memory");
    let place = granted(rt, alloc, chain, &code);
    let accepted = accept(
        alloc,
        checked(rt, alloc, &code),
        0,
        slots,
        place,
        Shell::Open,
    );
    accepted.expect(rt, "accepted")
}

// The transaction that spends it into one output.
fn filled(rt: &impl Abort, alloc: Global, claim: &Claim, signer: &Signer) -> Tx {
    let output = TxOut::new(900, ByteString::new(alloc)).expect(rt, "an output");
    let mut outputs = Vec::new(alloc);
    outputs.push(output).expect(rt, "memory");
    assert!(rt; outputs.len() <= MAX_OUTPUTS);
    let filled = fill(alloc, &[claim], outputs, signer, &[]).expect(rt, "filled");
    filled.into_tx()
}

// Whether the next block takes the transaction.
fn connects<C: Coins>(rt: &impl Abort, alloc: Global, chain: &mut C, tx: &Tx) -> bool {
    let mut block = Vec::new(alloc);
    let copy = tx.copy().expect(rt, "memory");
    block.push(copy).expect(rt, "memory");
    chain.connect(block).is_ok()
}

// A claim's filling passes; an input index out of range does not. The next block takes the filling, and no later block does.
fn passes<C: Coins>(rt: &impl Abort, alloc: Global, chain: &mut C, claim: &Claim, tx: &Tx) -> bool {
    check_claimed(chain, claim, tx, 0) == Ok(())
        && check_claimed(chain, claim, tx, 1) == Err(ChainError::Unknown)
        && connects(rt, alloc, chain, tx)
        && check_claimed(chain, claim, tx, 0) == Err(ChainError::Spent)
}

fn passes_a_filling<C: Coins>(rt: &impl Abort, alloc: Global, chain: &mut C) -> bool {
    let signer = Signer::new(alloc, &[1; 32]);
    let claim = claim_on(rt, alloc, chain, &signer.base(Base::Payment));
    let tx = filled(rt, alloc, &claim, &signer);
    passes(rt, alloc, chain, &claim, &tx)
}

#[test]
fn passes_a_filling_on_an_index(rt: HostRuntime) {
    let mut chain = Index::new(rt.alloc()).expect(&rt, "memory");
    assert!(rt; passes_a_filling(&rt, rt.alloc(), &mut chain));
}

#[test]
fn passes_a_filling_on_a_scan(rt: HostRuntime) {
    let mut chain = Scan::new(rt.alloc()).expect(&rt, "memory");
    assert!(rt; passes_a_filling(&rt, rt.alloc(), &mut chain));
}
