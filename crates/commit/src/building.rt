//! Commitments of views.

ghost use Rattle.std.specs.Prelude.{◌≡◌, nat_lt, IfOk};
ghost use Rattle.std.specs.List.{list_any};
ghost use Rattle.tx.specs.declared.limits.TheConstants.{MAX_VALUE as max_value};
ghost use Rattle.terms.specs.Agreement.{party};
ghost use Rattle.commit.specs.Amounts.{amounts_of};
ghost use Rattle.commit.specs.Keys.{bytes_of};
ghost use Rattle.commit.specs.Outputs.{outputs_of};
ghost use Rattle.commit.specs.Order.{in_order};
ghost use Rattle.commit.specs.Commitments.{commitment_of};
ghost use Rattle.commit.specs.Building.{Gives, refusal_of};

use crate::amounts::commitment_amounts;
use crate::commitments::Commitment;
use crate::derived::{CommitmentKeys, commitment_keys};
use crate::errors::BuildError;
use crate::ordering::put_in_order;
use crate::outputs::{CommitmentOutput, collect_outputs};
use keys::Key;
use lists::List;
use std::alloc::{AllocError, Global};
use terms::{Side, Terms, View, mask, obscure};
use tx::{MAX_OUTPUTS, MAX_VALUE};

// Whether the value of an output is above 21,000,000 bitcoins.
fn has_large_value(outputs: &[CommitmentOutput]) -> bool
    ensures { result ≡ list_any (λ o. nat_lt max_value o.value) outputs.now }
{
    outputs.iter().any(|output| output.value > MAX_VALUE)
}

// Why outputs make no transaction.
#[tactic(auto, unfolding(crate::specs::Building::refusal_of))]
fn refusal(outputs: &[CommitmentOutput]) -> Option<BuildError>
    ensures { result ≡ refusal_of outputs.now }
{
    if outputs.len() > MAX_OUTPUTS {
        return Some(BuildError::TooManyOutputs);
    }
    if has_large_value(outputs) {
        return Some(BuildError::ValueTooLarge);
    }
    None
}

// The outputs of the owner's commitment, sorted.
fn outputs_in_order(
    alloc: Global,
    terms: &Terms,
    view: &View,
    owner: Side,
    keys: &CommitmentKeys,
) -> Result<Vec<CommitmentOutput>, AllocError>
    ensures { IfOk result (λ v. v.items ≡ in_order
        (outputs_of (party owner terms.now).delay_blocks (bytes_of keys.now)
        (amounts_of terms.now view.now owner))) }
{
    let amounts = commitment_amounts(alloc, terms, view, owner)?;
    let mut outputs = collect_outputs(alloc, terms.party(owner).delay_blocks, keys, &amounts)?;
    put_in_order(&mut outputs)?;
    Ok(outputs)
}

/// The owner's commitment of a view (BOLT 3, "Commitment Transaction"), with its number and the owner's per-commitment point for it. Only the low 48
/// bits of the number count.
///
/// TooManyOutputs if there are more than 4,000 outputs, else ValueTooLarge if one is above 21,000,000 bitcoins. A view that shares out the capacity of
/// the terms, with at most 966 HTLCs, is not refused.
pub fn build(
    alloc: Global,
    terms: &Terms,
    view: &View,
    owner: Side,
    n: u64,
    point: &Key,
) -> Result<Commitment, BuildError>
    ensures { Gives (commitment_of terms.now view.now owner n point.now.bytes) result }
{
    let keys = commitment_keys(terms, owner, point);
    let outputs = outputs_in_order(alloc, terms, view, owner, &keys)?;
    if let Some(refusal) = refusal(outputs.as_slice()) {
        return Err(refusal);
    }
    let built = Commitment::new(
        alloc,
        terms.funding,
        obscure(mask(terms), n),
        keys,
        terms.party(owner).delay_blocks,
        view.feerate_per_kw,
        List::from_vec(outputs),
    )?;
    Ok(built)
}
