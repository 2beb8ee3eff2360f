//! What a revoked commitment lets its owner's peer claim of a transaction.

ghost use Rattle.std.specs.Prelude.{◌≡◌, ◌++◌, [], length, IfOk, OnOk, List as Values};
ghost use Rattle.std.specs.List.{cons_option};
ghost use Rattle.tx.specs.Parts.{Output};
ghost use Rattle.tx.specs.Spelling.{transaction_id};
ghost use Rattle.penalty.specs.Claimable.{Claimable, place_in};
ghost use Rattle.penalty.specs.Sets.{AreClaimsOn};
ghost use Rattle.revoked.specs.Programs.{output_with};
ghost use Rattle.revoked.specs.Reading.{claim_at, unless_found, claimed_in, others_in};

use crate::claiming::claim_on;
use crate::commitments::Revoked;
use anchor_forms::ChannelPatterns;
use claim::{Claim, Place};
use lists::List;
use std::alloc::{AllocError, Global};
use tx::hashing::txid;
use tx::{OutPoint, Tx, TxOut};

/// What was found in a transaction.
#[derive(Drop)]
pub struct Found {
    /// The claims, in the order of the outputs.
    pub claims: List<Claim>,
    /// The indices of the other outputs, in their order.
    pub others: List<u32>,
}

// Appends the claim on an output that stands at an outpoint, if its program is the commitment's.
fn push_claim(
    alloc: Global,
    patterns: &ChannelPatterns,
    revoked: &Revoked,
    outpoint: OutPoint,
    output: &TxOut,
    claims: &mut Vec<Claim>,
) -> Result<(), AllocError>
    ensures { OnOk result ((done : Values Claimable) → AreClaimsOn done claims.old.items
        → AreClaimsOn (done ++ cons_option (claim_at revoked.now (record {
          outpoint = outpoint;
          value = output.now.value;
          program = output.now.script;
        })) []) claims.new.items) }
{
    match revoked.output_with(output.script().bytes()) {
        None => Ok(()),
        Some(known) => {
            let place = Place {
                outpoint,
                value: output.value(),
                program: output.script().copy()?,
            };
            claims.push(claim_on(alloc, patterns, revoked, &known, place)?)?;
            Ok(())
        }
    }
}

// The claims on the outputs of a transaction.
fn claims_on_outputs(
    alloc: Global,
    patterns: &ChannelPatterns,
    revoked: &Revoked,
    tx: &Tx,
) -> Result<List<Claim>, AllocError>
    ensures { IfOk result (AreClaimsOn (claimed_in revoked.now tx.now)) }
{
    let id = txid(tx);
    let mut claims = Vec::new(alloc);
    let outputs = tx.outputs();
    for (index, output) in outputs.iter().enumerate() {
        let outpoint = OutPoint {
            txid: id,
            index: index as u32,
        };
        push_claim(alloc, patterns, revoked, outpoint, output, &mut claims)?;
    }
    Ok(List::from_vec(claims))
}

// Appends the index of an output, if its program is not the commitment's.
fn push_other(
    revoked: &Revoked,
    index: u32,
    output: &TxOut,
    others: &mut Vec<u32>,
) -> Result<(), AllocError>
    ensures { OnOk result (others.new.items ≡ others.old.items ++ cons_option
        (unless_found (output_with revoked.now output.now.script) index) []) }
{
    match revoked.output_with(output.script().bytes()) {
        Some(_) => Ok(()),
        None => {
            others.push(index)?;
            Ok(())
        }
    }
}

// The indices of the outputs of a transaction whose programs are not the commitment's.
fn other_outputs(alloc: Global, revoked: &Revoked, tx: &Tx) -> Result<List<u32>, AllocError>
    ensures { IfOk result (λ os. os ≡ others_in revoked.now tx.now) }
{
    let mut others = Vec::new(alloc);
    let outputs = tx.outputs();
    for (index, output) in outputs.iter().enumerate() {
        push_other(revoked, index as u32, output, &mut others)?;
    }
    Ok(List::from_vec(others))
}

/// All that a revoked commitment lets its owner's peer claim of a transaction: an accepted claim on each output whose program is one of the commitment's, and the
/// indices of the other outputs. The transaction may be the commitment, one of its HTLC transactions, whose output has the script of to_local, or any other. Each
/// output is looked up in a table, so the time grows with the outputs and with the logarithm of the number of HTLCs. The only error is that memory ran out.
pub fn claims_in(
    alloc: Global,
    patterns: &ChannelPatterns,
    revoked: &Revoked,
    tx: &Tx,
) -> Result<Found, AllocError>
    ensures claims { IfOk result (λ f. AreClaimsOn (claimed_in revoked.now tx.now) f.claims) }
    ensures others { IfOk result (λ f. f.others ≡ others_in revoked.now tx.now) }
{
    let others = other_outputs(alloc, revoked, tx)?;
    let claims = claims_on_outputs(alloc, patterns, revoked, tx)?;
    Ok(Found { claims, others })
}
