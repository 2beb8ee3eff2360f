//! A filled claim, and one that is ready to be signed. The program `closing` fills claims of every kind and several together, with each refusal, and `timing` fills many.

use crate::fixtures::{checked_parts, claimed, key_slots};
use claim::Claim;
use digest::hash160;
use filling::{Filled, UnsignedSpend, fill, unsigned_spend};
use keys::{Base, Key, Signer};
use lists::ByteString;
use sighash::programs::key_hash_program;
use std::alloc::Global;
use std::process::Abort;
use tx::{MAX_OUTPUTS, TxOut};

// A claim on an output to the hash of a key: DUP HASH160 hash EQUALVERIFY CHECKSIG
fn claim(rt: &impl Abort, alloc: Global, key: &Key) -> Claim {
    let hash = hash160(&key.bytes);
    let slots = key_slots(rt, alloc, key);
    let program = key_hash_program(alloc, &key.bytes).expect(rt, "memory");
    let code: [(&[u8], usize); 3] = [(&[0x76, 0xa9, 0x14], 1), (&hash, 1), (&[0x88, 0xac], 1)];
    let checked = checked_parts(rt, alloc, &code);
    claimed(rt, alloc, checked, 0, slots, program)
}

// The claim, filled with one output.
fn filled(rt: &impl Abort, alloc: Global, claim: &Claim, signer: &Signer) -> Filled {
    let output = TxOut::new(900, ByteString::new(alloc)).expect(rt, "an output");
    let outputs = vec![in alloc; output].expect(rt, "memory");
    assert!(rt; outputs.len() <= MAX_OUTPUTS);
    fill(alloc, &[claim], outputs, signer, &[]).expect(rt, "filled")
}

// Whether a filling has one input, which spends one place.
fn fills_one(filled: &Filled) -> bool {
    filled.tx().inputs().len() == 1 && filled.places().len() == 1
}

// The example of the page of `filling`.
fn fills(rt: &impl Abort, alloc: Global, claim: &Claim, signer: &Signer) -> bool {
    let filled = filled(rt, alloc, claim, signer);
    fills_one(&filled) && filled.into_tx().has_witness()
}

#[test]
fn fills_a_claim(rt: HostRuntime) {
    let signer = Signer::new(rt.alloc(), &[1; 32]);
    let claim = claim(&rt, rt.alloc(), &signer.base(Base::Payment));
    assert!(rt; fills(&rt, rt.alloc(), &claim, &signer));
}

// The claim, with one output, ready to be signed.
fn unsigned(rt: &impl Abort, alloc: Global, claim: &Claim) -> UnsignedSpend {
    let output = TxOut::new(900, ByteString::new(alloc)).expect(rt, "an output");
    let outputs = vec![in alloc; output].expect(rt, "memory");
    assert!(rt; outputs.len() <= MAX_OUTPUTS);
    unsigned_spend(alloc, &[claim], outputs, &[]).expect(rt, "a spend")
}

// The example of the page of `filling`: whether one signature is missing, of this key, in the first item of the first input.
fn lacks_one(rt: &impl Abort, alloc: Global, claim: &Claim, key: &Key) -> bool {
    let spend = unsigned(rt, alloc, claim);
    match spend.signatures.values() {
        [missing] => missing.input == 0 && missing.item == 0 && missing.key == *key,
        _ => false,
    }
}

#[test]
fn lacks_a_signature(rt: HostRuntime) {
    let key = Signer::new(rt.alloc(), &[1; 32]).base(Base::Payment);
    let claim = claim(&rt, rt.alloc(), &key);
    assert!(rt; lacks_one(&rt, rt.alloc(), &claim, &key));
}
