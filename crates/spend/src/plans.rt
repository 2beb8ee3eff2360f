//! The spend that is planned for what is asked.

ghost use Rattle.std.specs.Prelude.{◌≡◌, ◌≤◌, ◌<◌, ◌^◌, map, length, IfOk, IfSome};
ghost use Rattle.tx.specs.declared.limits.TheConstants.{MAX_INPUTS as max_inputs, MAX_VALUE as max_value, MAX_BYTES as max_bytes};
ghost use Rattle.filling.specs.Refusals.{total_claimed};
ghost use Rattle.spend.specs.Asking.{IsWithin};
ghost use Rattle.spend.specs.Dust.{dust_threshold};
ghost use Rattle.spend.specs.Planning.{paying, given_refusal, asked_fee, Spends, Weighs, Leaves, Pays, Plans};

use crate::asking::Asked;
use crate::destinations::is_destination;
use crate::dust::dust_threshold;
use crate::errors::PlanError;
use crate::weights::{fee_sat, greatest_weight};
use claim::Claim;
use filling::{UnsignedSpend, total_claimed, unsigned_spend};
use lists::ByteString;
use std::alloc::{AllocError, Global};
use tx::{MAX_VALUE, TxOut};

/// An unsigned spend, with the weight that it has at most once it is signed, and its fee.
#[derive(Drop)]
pub struct Plan {
    pub spend: UnsignedSpend,
    /// In weight units.
    pub weight: u128,
    pub fee_sat: u128,
}

// References to the claims. The only error is that memory ran out.
fn lent(alloc: Global, claims: &[Claim]) -> Result<Vec<&Claim>, AllocError>
    ensures { IfOk result (λ v. map (λ c. c.now) v.items ≡ claims.now) }
{
    let mut lent = Vec::new(alloc);
    for claim in claims {
        lent.push(claim)?;
    }
    Ok(lent)
}

// The one output of the spend.
fn paying(alloc: Global, value_sat: u64, destination: &ByteString) -> Result<Vec<TxOut>, AllocError>
    requires value { value_sat ≤ max_value }
    requires script { length destination.now ≤ max_bytes }
    ensures { IfOk result (λ v. v.items ≡ paying value_sat destination.now) }
{
    let output = TxOut::new(value_sat, destination.copy()?).unwrap();
    let mut outputs = Vec::new(alloc);
    outputs.push(output)?;
    Ok(outputs)
}

// The spend that pays a value.
fn spend_paying(
    alloc: Global,
    claims: &[&Claim],
    asked: &Asked,
    value_sat: u64,
) -> Result<UnsignedSpend, PlanError>
    requires lent { map (λ c. c.now) claims.now ≡ asked.now.claims }
    requires some { 1 ≤ length claims.now }
    requires inputs { length claims.now ≤ max_inputs }
    requires script { length asked.now.destination ≤ max_bytes }
    requires value { value_sat ≤ max_value }
    ensures { Spends result asked.now value_sat }
{
    let outputs = paying(alloc, value_sat, &asked.destination)?;
    match unsigned_spend(alloc, claims, outputs, asked.preimages.values()) {
        Ok(spend) => Ok(spend),
        Err(error) => Err(PlanError::from(error)),
    }
}

// The weight that the spend has at most.
fn asked_weight(alloc: Global, claims: &[&Claim], asked: &Asked) -> Result<u128, PlanError>
    requires lent { map (λ c. c.now) claims.now ≡ asked.now.claims }
    requires some { 1 ≤ length claims.now }
    requires inputs { length claims.now ≤ max_inputs }
    requires script { length asked.now.destination ≤ max_bytes }
    ensures value { Weighs result asked.now }
    ensures bound { IfOk result (λ w. w < 2 ^ 80) }
{
    let spend = spend_paying(alloc, claims, asked, 0)?;
    Ok(greatest_weight(alloc, &spend)?)
}

// What a fee leaves of a total, if it is at least the threshold.
fn left(total: u128, fee: u128, threshold: u64) -> Result<u64, PlanError>
    ensures value { Leaves result total fee threshold }
    ensures bound { IfOk result (λ n. n ≤ max_value) }
{
    if total > u128::from(MAX_VALUE) {
        return Err(PlanError::ValueTooLarge);
    }
    if total <= fee {
        return Err(PlanError::NothingLeft);
    }
    if total - fee < u128::from(threshold) {
        return Err(PlanError::Dust);
    }
    Ok((total - fee) as u64)
}

// Why the destination or the feerate is refused, if one is.
fn given_refusal(asked: &Asked) -> Option<PlanError>
    ensures { result ≡ given_refusal asked.now }
{
    if !is_destination(asked.destination.bytes()) {
        return Some(PlanError::BadDestination);
    }
    if asked.feerate_per_kw > asked.most_feerate_per_kw {
        return Some(PlanError::TooHighFeerate);
    }
    if asked.feerate_per_kw < asked.least_feerate_per_kw {
        return Some(PlanError::TooLowFeerate);
    }
    None
}

// What the fee leaves of what is claimed, if the destination and the feerate are taken.
fn payment(claims: &[&Claim], asked: &Asked, fee: u128) -> Result<u64, PlanError>
    requires lent { map (λ c. c.now) claims.now ≡ asked.now.claims }
    requires script { length asked.now.destination ≤ max_bytes }
    ensures value { Pays result asked.now fee }
    ensures bound { IfOk result (λ n. n ≤ max_value) }
{
    let threshold = dust_threshold(asked.destination.bytes());
    let value_sat = left(total_claimed(claims), fee, threshold)?;
    match given_refusal(asked) {
        Some(error) => Err(error),
        None => Ok(value_sat),
    }
}

/// The fee of what is asked; `None` where its spend is refused before it has a weight, or where memory ran out.
pub fn asked_fee(alloc: Global, asked: &Asked) -> Option<u128>
    requires { IsWithin asked.now }
    ensures { IfSome result (λ n. n ≡ asked_fee asked.now) }
{
    let Ok(claims) = lent(alloc, asked.claims.values()) else {
        return None;
    };
    match asked_weight(alloc, &claims, asked) {
        Ok(weight) => Some(fee_sat(asked.feerate_per_kw, weight)),
        Err(_) => None,
    }
}

/// The spend of what is asked, which pays all but the fee. Refused with the first that holds of `FixedTransaction`, `SameOutpoint`, `MeasuredSignature`, `NoPreimage`,
/// `ValueTooLarge`, `NothingLeft`, `Dust`, `BadDestination`, `TooHighFeerate` and `TooLowFeerate`. `NoMemory` may come at any time.
pub fn plan_of(alloc: Global, asked: &Asked) -> Result<Plan, PlanError>
    requires { IsWithin asked.now }
    ensures { Plans result asked.now }
{
    let claims = lent(alloc, asked.claims.values())?;
    let weight = asked_weight(alloc, &claims, asked)?;
    let fee = fee_sat(asked.feerate_per_kw, weight);
    let value_sat = payment(&claims, asked, fee)?;
    let spend = spend_paying(alloc, &claims, asked, value_sat)?;
    Ok(Plan {
        spend,
        weight,
        fee_sat: fee,
    })
}
