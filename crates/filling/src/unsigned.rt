// The transaction of claims, without witnesses.

ghost use Rattle.std.specs.Prelude.{◌≡◌, ◌≤◌, ◌<◌, map, false, length, IfOk};
ghost use Rattle.tx.specs.declared.limits.TheConstants.{MAX_INPUTS as max_inputs, MAX_OUTPUTS as max_outputs};
ghost use Rattle.claim.specs.Claims.{lock_time_of};
ghost use Rattle.filling.specs.Filling.{unsigned_input, greatest_of, open_transaction, transaction_for};
ghost use Rattle.filling.specs.Refusals.{are_mixed};
ghost use Rattle.filling.specs.Standing.{IsUnsigned};

use claim::{Claim, Shell};
use script::limits::LOCKTIME_THRESHOLD;
use std::alloc::{AllocError, Global};
use tx::{Inputs, Outputs, Tx, TxIn, TxOut, Witness};

// The inputs of claims, without witnesses.
fn unsigned_inputs(alloc: Global, claims: &[&Claim]) -> Result<Inputs, AllocError>
    requires { length claims.now ≤ max_inputs }
    ensures { IfOk result (λ xs. xs ≡ map unsigned_input (map (λ c. c.now) claims.now)) }
{
    let mut inputs = Inputs::new(alloc);
    for claim in claims {
        inputs.push_within_limit(TxIn {
            outpoint: claim.outpoint(),
            sequence: claim.sequence(),
            witness: Witness::new(alloc),
        })?;
    }
    Ok(inputs)
}

// The greatest lock time that a claim needs.
fn greatest_lock_time(claims: &[&Claim]) -> u32
    ensures value { result ≡ greatest_of (map lock_time_of (map (λ c. c.now) claims.now)) }
    ensures below { result < LOCKTIME_THRESHOLD }
{
    let mut greatest = 0;
    for claim in claims {
        let height = claim.needs_height();
        if greatest < height {
            greatest = height;
        }
    }
    greatest as u32
}

/// The transaction of open claims.
pub(crate) fn open_transaction(
    alloc: Global,
    claims: &[&Claim],
    outputs: Vec<TxOut>,
) -> Result<Tx, AllocError>
    requires some { 1 ≤ length claims.now }
    requires inputs { length claims.now ≤ max_inputs }
    requires outputs { length outputs.items ≤ max_outputs }
    ensures value { IfOk result (λ t. t ≡ open_transaction
        (map (λ c. c.now) claims.now) outputs.items) }
    ensures below { IfOk result (λ t. t.lock_time < LOCKTIME_THRESHOLD) }
{
    let inputs = unsigned_inputs(alloc, claims)?;
    let outputs = Outputs::from_vec(outputs).unwrap();
    Ok(Tx::new(2, inputs, outputs, greatest_lock_time(claims)).unwrap())
}

/// The transaction of claims. A claim with a fixed transaction is alone.
pub(crate) fn unsigned(
    alloc: Global,
    claims: &[&Claim],
    outputs: Vec<TxOut>,
) -> Result<Tx, AllocError>
    requires some { 1 ≤ length claims.now }
    requires inputs { length claims.now ≤ max_inputs }
    requires outputs { length outputs.items ≤ max_outputs }
    requires unmixed { are_mixed (map (λ c. c.now) claims.now) ≡ false }
    ensures value { IfOk result (λ t. t ≡ transaction_for
        (map (λ c. c.now) claims.now) outputs.items) }
    ensures unsigned { IfOk result (IsUnsigned (map (λ c. c.now) claims.now)) }
{
    if claims.len() > 1 {
        return open_transaction(alloc, claims, outputs);
    }
    let claim = claims[0];
    match claim.shell() {
        Shell::Open => open_transaction(alloc, claims, outputs),
        Shell::Fixed(fixed) => {
            // The proof learns from the path that the fixed transaction stands round the claim.
            let _ = claim.path();
            let mut tx = fixed.copy()?;
            tx.strip_witnesses();
            Ok(tx)
        }
    }
}
