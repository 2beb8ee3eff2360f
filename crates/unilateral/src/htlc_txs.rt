// One's own HTLC transactions in channels without anchors.

ghost use Rattle.std.specs.Prelude.{◌≡◌, ◌≤◌, ◌∷◌, [], IfOk};
ghost use Rattle.tx.specs.declared.limits.TheConstants.{MAX_VALUE as max_value};
ghost use Rattle.commit.specs.Commitments.{spending};
ghost use Rattle.commit.specs.Keys.{bytes_of};
ghost use Rattle.commit.specs.Signing.{input_of};
ghost use Rattle.unilateral.specs.HtlcTransactions.{lock_time_of, htlc_tx_on, digest_on};

use claim::Place;
use commit::{CommitmentKeys, Direction, htlc_fee};
use forms::{Expiry, Patterns};
use penalty::claiming::to_local_script;
use sighash::digest_of;
use sighash::programs::script_hash_program;
use std::alloc::{AllocError, Global};
use tx::{Inputs, OutPoint, Outputs, Tx, TxIn, TxOut, Witness};

/// The version of HTLC transactions.
const VERSION: u32 = 2;

// An unsigned transaction with one input and one output.
fn spending(
    alloc: Global,
    outpoint: OutPoint,
    output: TxOut,
    lock_time: u32,
) -> Result<Tx, AllocError>
    ensures { IfOk result (λ t. t ≡ spending outpoint 0 (output ∷ []) lock_time) }
{
    let mut outputs = Outputs::new(alloc);
    outputs.push_within_limit(output)?;
    let mut inputs = Inputs::new(alloc);
    inputs.push_within_limit(TxIn {
        outpoint,
        sequence: 0,
        witness: Witness::new(alloc),
    })?;
    match Tx::new(VERSION, inputs, outputs, lock_time) {
        Ok(tx) => Ok(tx),
        Err(_) => unreachable!(),
    }
}

// The lock time of an HTLC transaction.
fn lock_time(direction: Direction, expiry: Expiry) -> u32
    ensures { result ≡ lock_time_of direction expiry.height }
{
    match direction {
        Direction::Offered => expiry.height,
        Direction::Received => 0,
    }
}

/// The unsigned HTLC transaction of the HTLC's output at a place. The only error is that memory ran out.
#[tactic(auto, unfolding(crate::specs::HtlcTransactions::htlc_tx_on))]
pub(crate) fn htlc_tx_on(
    alloc: Global,
    patterns: &Patterns,
    keys: &CommitmentKeys,
    delay_blocks: u16,
    feerate_per_kw: u32,
    direction: Direction,
    expiry: Expiry,
    place: &Place,
) -> Result<Tx, AllocError>
    requires { place.now.value ≤ max_value }
    ensures { IfOk result (λ t. t ≡ htlc_tx_on (bytes_of keys.now) delay_blocks feerate_per_kw
        direction expiry.height place.now) }
{
    let script = to_local_script(alloc, patterns, keys, delay_blocks)?;
    let program = script_hash_program(alloc, script.script().bytes())?;
    let value = place
        .value
        .saturating_sub(htlc_fee(direction, feerate_per_kw));
    let output = match TxOut::new(value, program) {
        Ok(output) => output,
        Err(_) => unreachable!(),
    };
    spending(alloc, place.outpoint, output, lock_time(direction, expiry))
}

/// The digest of a transaction for its only input, which spends the output at a place with this script.
#[tactic(auto, unfolding(crate::specs::HtlcTransactions::digest_on))]
pub(crate) fn digest_on(tx: &Tx, place: &Place, script: &[u8]) -> [u8; 32]
    requires { tx.now.inputs ≡ input_of place.now.outpoint 0 ∷ [] }
    ensures { result ≡ digest_on tx.now place.now script.now }
{
    match digest_of(tx, 0, script, place.value) {
        Ok(digest) => digest,
        Err(_) => unreachable!(),
    }
}
