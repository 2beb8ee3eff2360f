//! Sums over a chain.

ghost use Rattle.std.specs.Prelude.{◌≡◌, ℕ, ◌++◌, ◌≤◌, ◌%◌, ◌^◌, length, map, sum, IfOk, OnOk};
ghost use Rattle.std.specs.List.{flat_map};
ghost use Rattle.tx.specs.declared.limits.TheConstants.{MAX_VALUE as max_value, MAX_INPUTS as max_inputs};
ghost use Rattle.chain.specs.Blocks.{created_by, fee_of, fees_of, paid_in, value_at};
ghost use Rattle.chain.specs.Totals.{IsUnspent, unspent_value, unspent_values};
ghost use Rattle.chain.specs.Scanning.{grants_from};

use crate::blocks::Confirmed;
use crate::checking::paid_out;
use crate::connecting::grant_outpoint;
use crate::store::Store;
use std::alloc::AllocError;
use tx::{OutPoint, TxIn, TxOut};

/// The unspent outputs: those that no input on the chain spends.
#[derive(Clone, Copy, Debug, PartialEq, Eq)]
pub struct Unspent {
    /// Their number.
    pub count: u64,
    /// The sum of their values in satoshis.
    pub value: u128,
}

/// The sum of amounts.
fn sum_of(amounts: &[u64]) -> u128
    ensures { result ≡ sum amounts.now }
{
    let mut sum = 0u128;
    for amount in amounts {
        sum += u128::from(*amount);
    }
    sum
}

/// The value in satoshis of the output at an outpoint, or 0 if there is none.
fn value_at<S: Store>(store: &S, outpoint: &OutPoint) -> u64
    ensures value { result ≡ value_at (S.standing store.now).blocks outpoint.now }
    ensures limit { result ≤ max_value }
{
    match store.find(outpoint) {
        Some(found) => found.output.value(),
        None => 0,
    }
}

/// The sum of the values that inputs spend, in satoshis.
fn paid_in<S: Store>(store: &S, inputs: &[TxIn]) -> u64
    requires { length inputs.now ≤ max_inputs }
    ensures { result ≡ paid_in (S.standing store.now).blocks inputs.now }
{
    let mut paid = 0u64;
    for input in inputs {
        paid += value_at(store, &input.outpoint);
    }
    paid
}

/// Adds the fees of transactions in satoshis.
fn push_fees<S: Store>(
    store: &S,
    transactions: &[Confirmed],
    fees: &mut Vec<u64>,
) -> Result<(), AllocError>
    ensures { IfOk result (λ _. fees.new.items ≡ fees.old.items ++ map
        (fee_of (S.standing store.now).blocks) transactions.now) }
{
    for confirmed in transactions {
        let tx = confirmed.tx();
        let paid = paid_in(store, tx.inputs());
        fees.push(paid.saturating_sub(paid_out(tx.outputs())))?;
    }
    Ok(())
}

/// The sum of the fees of all transactions, in satoshis.
pub(crate) fn sum_fees<S: Store>(store: &S) -> Result<u128, AllocError>
    ensures { IfOk result (λ f. f ≡ fees_of (S.standing store.now).blocks) }
{
    let mut fees = Vec::new(store.allocator());
    for block in store.blocks() {
        push_fees(store, block.transactions(), &mut fees)?;
    }
    Ok(sum_of(&fees))
}

/// Adds a value, unless an input spends its outpoint.
fn push_unless_named<S: Store>(
    store: &S,
    outpoint: &OutPoint,
    value: u64,
    values: &mut Vec<u64>,
) -> Result<(), AllocError>
    ensures { OnOk result (values.new.items ≡ values.old.items ++ unspent_value
        (S.standing store.now).blocks outpoint.now value) }
{
    if store.is_named(outpoint) {
        return Ok(());
    }
    values.push(value)?;
    Ok(())
}

/// Adds the values of a transaction's unspent outputs.
fn push_outputs<S: Store>(
    store: &S,
    confirmed: &Confirmed,
    values: &mut Vec<u64>,
) -> Result<(), AllocError>
    ensures { (height : ℕ) → OnOk result
        (values.new.items ≡ values.old.items ++ unspent_values (S.standing store.now).blocks
        (created_by height confirmed.now)) }
{
    let outputs = confirmed.tx().outputs();
    for (index, output) in outputs.iter().enumerate() {
        let outpoint = OutPoint {
            txid: *confirmed.id(),
            index: index as u32,
        };
        push_unless_named(store, &outpoint, output.value(), values)?;
    }
    Ok(())
}

/// Adds the values of the unspent outputs of transactions.
fn push_transactions<S: Store>(
    store: &S,
    transactions: &[Confirmed],
    values: &mut Vec<u64>,
) -> Result<(), AllocError>
    ensures { (height : ℕ) → OnOk result
        (values.new.items ≡ values.old.items ++ unspent_values (S.standing store.now).blocks
        (flat_map (created_by height) transactions.now)) }
{
    for confirmed in transactions {
        push_outputs(store, confirmed, values)?;
    }
    Ok(())
}

/// Adds the values of the unspent granted outputs, after this number of earlier grants.
fn push_grants<S: Store>(
    store: &S,
    granted: &[TxOut],
    before: u64,
    values: &mut Vec<u64>,
) -> Result<(), AllocError>
    ensures { (height g : ℕ) → before ≡ g % 2 ^ 64
        → OnOk result (values.new.items ≡ values.old.items ++ unspent_values
        (S.standing store.now).blocks (grants_from height g granted.now)) }
{
    for (index, output) in granted.iter().enumerate() {
        let outpoint = grant_outpoint(before.wrapping_add(index as u64));
        push_unless_named(store, &outpoint, output.value(), values)?;
    }
    Ok(())
}

/// The number and value of the unspent outputs.
pub(crate) fn sum_unspent<S: Store>(store: &S) -> Result<Unspent, AllocError>
    ensures { IfOk result (IsUnspent (S.standing store.now).blocks) }
{
    let mut values = Vec::new(store.allocator());
    let mut grants = 0u64;
    let blocks = store.blocks();
    for block in blocks {
        push_transactions(store, block.transactions(), &mut values)?;
        push_grants(store, block.granted(), grants, &mut values)?;
        grants = grants.wrapping_add(block.granted().len() as u64);
    }
    Ok(Unspent {
        count: values.len() as u64,
        value: sum_of(&values),
    })
}
