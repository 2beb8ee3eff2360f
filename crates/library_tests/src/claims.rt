//! Claims that are accepted and filled.

use crate::listings::list;
use anyhow::Result;
use claim::{Claim, OutPoint, Place, Shell, Slot, accept};
use filling::{FillError, fill};
use keys::{Base, Key, Signer};
use lists::ByteString;
use sighash::programs::script_hash_program;
use std::alloc::Global;
use std::process::Abort;
use tx::{Tx, TxOut};

/// The script `KEY CHECKSIG`.
fn script_of(key: &Key) -> [u8; 35] {
    let mut bytes = [0xac; 35];
    bytes[0] = 33;
    bytes[1..34].copy_from_slice(&key.bytes);
    bytes
}

/// An output of 10,000 satoshis with this script's program.
fn place_of(rt: &impl Abort, alloc: Global, script: &[u8]) -> Place {
    Place {
        outpoint: OutPoint {
            txid: [7; 32],
            index: 1,
        },
        value: 10_000,
        program: script_hash_program(alloc, script).expect(rt, "memory"),
    }
}

/// Claims the output at a place by the script's first path, whose one slot is a signature of the key.
fn claim_by(alloc: Global, script: &[u8], key: &Key, place: Place) -> Result<Claim> {
    let mut slots = Vec::new(alloc);
    slots.push(Slot::Sig(*key))?;
    let checked = list(alloc, script)?;
    Ok(accept(alloc, checked, 0, slots, place, Shell::Open)?)
}

fn claim_of(rt: &impl Abort, alloc: Global, key: &Key) -> Claim {
    let script = script_of(key);
    let place = place_of(rt, alloc, &script);
    claim_by(alloc, &script, key, place).expect(rt, "a claim")
}

/// Spends the output of a claim: all of its value but the fee goes to this output.
fn spend(alloc: Global, claim: &Claim, signer: &Signer, output: TxOut) -> Result<Tx, FillError> {
    let mut outputs = Vec::new(alloc);
    outputs.push(output)?;
    let filled = fill(alloc, &[claim], outputs, signer, &[])?;
    Ok(filled.into_tx())
}

// An output that anyone may take.
fn output(rt: &impl Abort, alloc: Global, value: u64) -> TxOut {
    let program = ByteString::from_slice(alloc, &[0x51]).expect(rt, "memory");
    TxOut::new(value, program).expect(rt, "an output")
}

// What comes of a claim of the signer with the seed 01..01, which the signer of a seed spends by an output of a value.
#[derive(Clone, Copy)]
enum Row {
    Spent(u8, u64),
    OutputsExceed(u8, u64),
    NoRight(u8, u64),
}

// More than the claim is worth is refused, and so is the key of another signer.
const ROWS: [Row; 3] = [
    Row::Spent(1, 9_000),
    Row::OutputsExceed(1, 10_001),
    Row::NoRight(2, 9_000),
];

// Why a claim is not spent by the signer of a seed, and an output of this value.
fn refusal(
    rt: &impl Abort,
    alloc: Global,
    claim: &Claim,
    seed: u8,
    value: u64,
) -> Option<FillError> {
    let signer = Signer::new(alloc, &[seed; 32]);
    spend(alloc, claim, &signer, output(rt, alloc, value)).err()
}

fn holds(rt: &impl Abort, alloc: Global, claim: &Claim, row: Row) -> bool {
    match row {
        Row::Spent(seed, value) => refusal(rt, alloc, claim, seed, value).is_none(),
        Row::OutputsExceed(seed, value) => {
            matches!(
                refusal(rt, alloc, claim, seed, value),
                Some(FillError::OutputsExceed)
            )
        }
        Row::NoRight(seed, value) => {
            matches!(
                refusal(rt, alloc, claim, seed, value),
                Some(FillError::NoRight)
            )
        }
    }
}

#[test]
fn claims_and_spends(rt: HostRuntime) {
    let key = Signer::new(rt.alloc(), &[1; 32]).base(Base::Payment);
    let claim = claim_of(&rt, rt.alloc(), &key);
    for row in ROWS {
        assert!(rt; holds(&rt, rt.alloc(), &claim, row));
    }
}
