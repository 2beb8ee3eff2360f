//! Checks of a transaction for a block, each in its order.

ghost use Rattle.std.specs.Prelude.{◌≡◌, ◌≤◌, ◌*◌, ◌||◌, length, Some, None, slice_get, sum_by, IfOk};
ghost use Rattle.std.specs.List.{list_any};
ghost use Rattle.tx.specs.Spelling.{transaction_id};
ghost use Rattle.tx.specs.Fields.{AreInputs, AreOutputs, same_outpoint};
ghost use Rattle.tx.specs.declared.limits.TheConstants.{MAX_OUTPUTS as max_outputs};
ghost use Rattle.chain.specs.Blocks.{Standing, height_of, value_at, paid_in, paid_out};
ghost use Rattle.chain.specs.Refusals.{Answers};
ghost use Rattle.chain.specs.Storing.{found_coin};
ghost use Rattle.chain.specs.Checks.{coin_refusal, input_refusal, indexed_refusal, inputs_refusal, names_twice, transaction_refusal};

use crate::blocks::Confirmed;
use crate::errors::ChainError;
use crate::locks::{is_final, is_old_enough};
use crate::program::run_program;
use crate::store::{Found, Store};
use sighash::SighashCache;
use std::alloc::Global;
use tx::{OutPoint, Tx, TxIn, TxOut};

/// Whether two outpoints are equal.
pub(crate) fn same_outpoint(o: &OutPoint, p: &OutPoint) -> bool
    ensures { result ≡ same_outpoint o.now p.now }
{
    o.txid == p.txid && o.index == p.index
}

/// Whether an input spends the outpoint.
pub(crate) fn some_input_names(inputs: &[TxIn], outpoint: &OutPoint) -> bool
    ensures { result ≡ list_any (λ i. same_outpoint i.outpoint outpoint.now) inputs.now }
{
    for input in inputs {
        if same_outpoint(&input.outpoint, outpoint) {
            return true;
        }
    }
    false
}

/// Whether two inputs spend the same outpoint.
fn names_twice(inputs: &[TxIn]) -> bool
    ensures { result ≡ names_twice inputs.now }
{
    for (i, input) in inputs.iter().enumerate() {
        if some_input_names(&inputs[i + 1..], &input.outpoint) {
            return true;
        }
    }
    false
}

/// Whether an input may spend this output in a block of this height: the output's value in satoshis, or the first refusal.
fn check_coin(
    alloc: Global,
    height: u64,
    tx: &Tx,
    cache: &SighashCache<'_>,
    index: usize,
    input: &TxIn,
    found: &Found<'_>,
) -> Result<(), ChainError>
    requires cached { cache.now ≡ tx.now }
    requires indexed { slice_get tx.now.inputs index ≡ Some input.now }
    ensures { Answers (coin_refusal height tx.now input.now (Some (found_coin found.now))) result }
{
    if found.spent {
        return Err(ChainError::Spent);
    }
    if !is_final(height, tx) {
        return Err(ChainError::NotFinal);
    }
    if !is_old_enough(height, tx.version(), input.sequence, found.height) {
        return Err(ChainError::TooYoung);
    }
    run_program(alloc, tx, cache, index, input, found.output)?;
    Ok(())
}

/// Checks the input at this index for a block of this height: the value in satoshis of the output that it spends, or the first refusal.
fn check_indexed<S: Store>(
    store: &S,
    height: u64,
    tx: &Tx,
    cache: &SighashCache<'_>,
    index: usize,
    input: &TxIn,
) -> Result<u64, ChainError>
    requires cached { cache.now ≡ tx.now }
    requires indexed { slice_get tx.now.inputs index ≡ Some input.now }
    ensures answers { Answers (input_refusal (S.standing store.now).blocks height tx.now input.now)
        result }
    ensures value { IfOk result (λ v. v ≡ value_at
        (S.standing store.now).blocks input.now.outpoint) }
    ensures limit { IfOk result (λ v. v ≤ 2100000000000000) }
{
    let Some(found) = store.find(&input.outpoint) else {
        return Err(ChainError::Unknown);
    };
    check_coin(store.allocator(), height, tx, cache, index, input, &found)?;
    Ok(found.output.value())
}

/// Checks the input at this index for the next block.
pub(crate) fn check_input<S: Store>(store: &S, tx: &Tx, index: usize) -> Result<(), ChainError>
    ensures { Answers (indexed_refusal (S.standing store.now).blocks
        (length (S.standing store.now).blocks) tx.now (slice_get tx.now.inputs index)) result }
{
    let Some(input) = tx.inputs().get(index) else {
        return Err(ChainError::Unknown);
    };
    let height = store.blocks().len() as u64;
    let cache = SighashCache::new(tx);
    check_indexed(store, height, tx, &cache, index, input)?;
    Ok(())
}

/// Checks inputs in their order: the sum of their values in satoshis, or the first refusal.
fn check_inputs<S: Store>(
    store: &S,
    height: u64,
    tx: &Tx,
    cache: &SighashCache<'_>,
) -> Result<u64, ChainError>
    requires { cache.now ≡ tx.now }
    ensures answers { Answers (inputs_refusal
        (S.standing store.now).blocks height tx.now tx.now.inputs) result }
    ensures value { IfOk result (λ v. v ≡ paid_in (S.standing store.now).blocks tx.now.inputs) }
{
    let inputs = tx.inputs();
    let mut paid = 0u64;
    for (index, input) in inputs.iter().enumerate() {
        paid += check_indexed(store, height, tx, cache, index, input)?;
    }
    Ok(paid)
}

/// The sum of the values of outputs in satoshis.
pub(crate) fn paid_out(outputs: &[TxOut]) -> u64
    requires { length outputs.now ≤ max_outputs }
    ensures { result ≡ paid_out outputs.now }
{
    let mut paid = 0u64;
    for output in outputs {
        paid += output.value();
    }
    paid
}

/// Checks a transaction that is to be added to the newest block.
#[tactic(auto, unfolding(crate::specs::Checks::transaction_refusal))]
pub(crate) fn check_transaction<S: Store>(
    store: &S,
    confirmed: &Confirmed,
) -> Result<(), ChainError>
    ensures { Answers (transaction_refusal (S.standing store.now).blocks confirmed.now) result }
{
    let tx = confirmed.tx();
    if names_twice(tx.inputs()) || store.has_id(confirmed.id()) {
        return Err(ChainError::Twice);
    }
    let height = store.blocks().len() as u64 - 1;
    let cache = SighashCache::new(tx);
    let paid = check_inputs(store, height, tx, &cache)?;
    if paid_out(tx.outputs()) > paid {
        return Err(ChainError::OutputsExceed);
    }
    Ok(())
}
