//! What an unrevoked commitment lets one claim of a transaction.

ghost use Rattle.std.specs.Prelude.{◌≡◌, ◌≤◌, ◌++◌, [], ◌∷◌, true, map, IfOk, OnOk, List as Values};
ghost use Rattle.std.specs.List.{cons_option};
ghost use Rattle.tx.specs.declared.limits.TheConstants.{MAX_VALUE as max_value};
ghost use Rattle.penalty.specs.Claimable.{Claimable};
ghost use Rattle.penalty.specs.Sets.{AreClaimsOn};
ghost use Rattle.revoked.specs.Deadlines.{is_offered_with};
ghost use Rattle.revoked.specs.Programs.{output_with, known_program};
ghost use Rattle.unilateral.specs.Claims.{has_fixed_htlc_txs, second_stage_in, with_expiries, with_expiry, has_expiry, expiries_of, claims_of, claims_on};
ghost use Rattle.unilateral.specs.Kinds.{is_second_stage};
ghost use Rattle.unilateral.specs.Reading.{claims_at, unless_claimed, claimed_in, others_in};

use crate::claiming::{delayed_in, direct_in, second_stage_in, to_remote_in};
use crate::closes::{Close, Whose, has_second_stage, is_direct};
use claim::{Claim, Place};
use lists::List;
use resolve::KnownPreimages;
use revoked::{ChannelPatterns, Direction, Expiry, Found, Revoked, RevokedHtlc, RevokedOutput};
use std::alloc::{AllocError, Global};
use tx::hashing::txid;
use tx::{OutPoint, Tx, TxOut};

// Whether an expiry is among these.
fn has_expiry(expiries: &[Expiry], expiry: Expiry) -> bool
    ensures { result ≡ has_expiry expiries.now expiry }
{
    expiries.iter().any(|other| other.height == expiry.height)
}

// Whether an HTLC is offered, and has this hash.
fn is_offered_with(hash: &[u8], htlc: &RevokedHtlc) -> bool
    ensures { result ≡ is_offered_with hash.now htlc.now }
{
    match htlc.direction {
        Direction::Offered => htlc.hash.as_slice() == hash,
        Direction::Received => false,
    }
}

// Appends the expiry of an offered HTLC with this hash, unless it is there.
fn push_expiry(
    hash: &[u8],
    htlc: &RevokedHtlc,
    expiries: &mut Vec<Expiry>,
) -> Result<(), AllocError>
    ensures { OnOk result (expiries.new.items ≡ with_expiry hash.now expiries.old.items htlc.now) }
{
    if is_offered_with(hash, htlc) && !has_expiry(expiries.as_slice(), htlc.expiry) {
        expiries.push(htlc.expiry)?;
    }
    Ok(())
}

// Appends the expiries of offered HTLCs with this hash, each unless it is there.
fn push_expiries(
    hash: &[u8],
    htlcs: &[RevokedHtlc],
    expiries: &mut Vec<Expiry>,
) -> Result<(), AllocError>
    ensures { OnOk result (expiries.new.items ≡ with_expiries hash.now expiries.old.items htlcs.now) }
{
    for htlc in htlcs {
        push_expiry(hash, htlc, expiries)?;
    }
    Ok(())
}

// The expiries that an HTLC's output may have, each once.
fn expiries_of(
    alloc: Global,
    htlcs: &[RevokedHtlc],
    htlc: &RevokedHtlc,
) -> Result<Vec<Expiry>, AllocError>
    ensures { IfOk result (λ v. v.items ≡ expiries_of htlc.now.direction htlcs.now htlc.now) }
{
    let mut expiries = Vec::new(alloc);
    expiries.push(htlc.expiry)?;
    match htlc.direction {
        Direction::Offered => push_expiries(htlc.hash.as_slice(), htlcs, &mut expiries)?,
        Direction::Received => {}
    }
    Ok(expiries)
}

// Appends the claims on an HTLC's output by HTLC transactions with these expiries.
fn push_second_stages(
    alloc: Global,
    patterns: &ChannelPatterns,
    commitment: &Revoked,
    feerate_per_kw: u32,
    htlc: &RevokedHtlc,
    expiries: &[Expiry],
    place: &Place,
    claims: &mut Vec<Claim>,
) -> Result<(), AllocError>
    requires fixed { has_fixed_htlc_txs commitment.now.channel_type ≡ true }
    requires allowed { is_second_stage commitment.now.keys htlc.now.direction htlc.now.hash ≡ true }
    requires value { place.now.value ≤ max_value }
    requires program { place.now.program
        ≡ known_program commitment.now (RevokedOutput.ToHtlc htlc.now) }
    ensures { OnOk result ((done : Values Claimable) → AreClaimsOn done claims.old.items
        → AreClaimsOn (done ++ map (second_stage_in commitment.now feerate_per_kw htlc.now
        place.now) expiries.now) claims.new.items) }
{
    for expiry in expiries {
        let at = place.copy()?;
        let claim = second_stage_in(
            alloc,
            patterns,
            commitment,
            feerate_per_kw,
            htlc,
            *expiry,
            at,
        )?;
        claims.push(claim)?;
    }
    Ok(())
}

// Appends what an HTLC of one's own commitment lets one claim.
fn push_own_htlc(
    alloc: Global,
    patterns: &ChannelPatterns,
    commitment: &Revoked,
    feerate_per_kw: u32,
    htlc: &RevokedHtlc,
    place: &Place,
    claims: &mut Vec<Claim>,
) -> Result<(), AllocError>
    requires fixed { has_fixed_htlc_txs commitment.now.channel_type ≡ true }
    requires allowed { is_second_stage commitment.now.keys htlc.now.direction htlc.now.hash ≡ true }
    requires value { place.now.value ≤ max_value }
    requires program { place.now.program
        ≡ known_program commitment.now (RevokedOutput.ToHtlc htlc.now) }
    ensures { OnOk result ((done : Values Claimable) → AreClaimsOn done claims.old.items
        → AreClaimsOn (done ++ map (second_stage_in commitment.now feerate_per_kw htlc.now
        place.now) (expiries_of htlc.now.direction commitment.now.htlcs htlc.now)) claims.new.items) }
{
    let expiries = expiries_of(alloc, commitment.htlcs(), htlc)?;
    push_second_stages(
        alloc,
        patterns,
        commitment,
        feerate_per_kw,
        htlc,
        expiries.as_slice(),
        place,
        claims,
    )
}

// Appends what an output of one's own commitment lets one claim.
fn push_ours(
    alloc: Global,
    patterns: &ChannelPatterns,
    preimages: &KnownPreimages,
    feerate_per_kw: u32,
    commitment: &Revoked,
    output: &RevokedOutput,
    place: Place,
    claims: &mut Vec<Claim>,
) -> Result<(), AllocError>
    requires value { place.value ≤ max_value }
    requires program { place.program ≡ known_program commitment.now output.now }
    ensures { OnOk result ((done : Values Claimable) → AreClaimsOn done claims.old.items
        → AreClaimsOn (done ++ claims_of Whose.Ours preimages.now feerate_per_kw commitment.now
        output.now place) claims.new.items) }
{
    match output {
        RevokedOutput::ToLocal => {
            claims.push(delayed_in(alloc, patterns, commitment, place)?)?;
            Ok(())
        }
        RevokedOutput::ToRemote => Ok(()),
        RevokedOutput::ToHtlc(htlc) => {
            if has_second_stage(preimages, commitment, htlc) {
                push_own_htlc(
                    alloc,
                    patterns,
                    commitment,
                    feerate_per_kw,
                    htlc,
                    &place,
                    claims,
                )?;
            }
            Ok(())
        }
    }
}

// Appends what an output of the peer's commitment lets one claim.
fn push_theirs(
    alloc: Global,
    patterns: &ChannelPatterns,
    preimages: &KnownPreimages,
    feerate_per_kw: u32,
    commitment: &Revoked,
    output: &RevokedOutput,
    place: Place,
    claims: &mut Vec<Claim>,
) -> Result<(), AllocError>
    requires { place.program ≡ known_program commitment.now output.now }
    ensures { OnOk result ((done : Values Claimable) → AreClaimsOn done claims.old.items
        → AreClaimsOn (done ++ claims_of Whose.Theirs preimages.now feerate_per_kw commitment.now
        output.now place) claims.new.items) }
{
    match output {
        RevokedOutput::ToLocal => Ok(()),
        RevokedOutput::ToRemote => {
            claims.push(to_remote_in(alloc, patterns, commitment, place)?)?;
            Ok(())
        }
        RevokedOutput::ToHtlc(htlc) => {
            if is_direct(preimages, commitment, htlc) {
                claims.push(direct_in(alloc, patterns, commitment, htlc, place)?)?;
            }
            Ok(())
        }
    }
}

// Appends what an output of the commitment lets one claim.
fn push_known(
    alloc: Global,
    patterns: &ChannelPatterns,
    close: &Close,
    output: &RevokedOutput,
    place: Place,
    claims: &mut Vec<Claim>,
) -> Result<(), AllocError>
    requires value { place.value ≤ max_value }
    requires program { place.program ≡ known_program close.now.commitment output.now }
    ensures { OnOk result ((done : Values Claimable) → AreClaimsOn done claims.old.items
        → AreClaimsOn (done ++ claims_on close.now output.now place) claims.new.items) }
{
    let preimages = &close.preimages;
    let commitment = &close.commitment;
    let feerate_per_kw = close.feerate_per_kw;
    match close.whose {
        Whose::Ours => push_ours(
            alloc,
            patterns,
            preimages,
            feerate_per_kw,
            commitment,
            output,
            place,
            claims,
        ),
        Whose::Theirs => push_theirs(
            alloc,
            patterns,
            preimages,
            feerate_per_kw,
            commitment,
            output,
            place,
            claims,
        ),
    }
}

// Appends the claims on an output that stands at an outpoint, if its program is the commitment's.
fn push_claims(
    alloc: Global,
    patterns: &ChannelPatterns,
    close: &Close,
    outpoint: OutPoint,
    output: &TxOut,
    claims: &mut Vec<Claim>,
) -> Result<(), AllocError>
    ensures { OnOk result ((done : Values Claimable) → AreClaimsOn done claims.old.items
        → AreClaimsOn (done ++ claims_at close.now (record {
          outpoint = outpoint;
          value = output.now.value;
          program = output.now.script;
        })) claims.new.items) }
{
    match close.commitment.output_with(output.script().bytes()) {
        None => Ok(()),
        Some(known) => {
            let place = Place {
                outpoint,
                value: output.value(),
                program: output.script().copy()?,
            };
            push_known(alloc, patterns, close, &known, place, claims)
        }
    }
}

// The claims on the outputs of a transaction.
fn claims_on_outputs(
    alloc: Global,
    patterns: &ChannelPatterns,
    close: &Close,
    tx: &Tx,
) -> Result<List<Claim>, AllocError>
    ensures { IfOk result (AreClaimsOn (claimed_in close.now tx.now)) }
{
    let id = txid(tx);
    let mut claims = Vec::new(alloc);
    let outputs = tx.outputs();
    for (index, output) in outputs.iter().enumerate() {
        let outpoint = OutPoint {
            txid: id,
            index: index as u32,
        };
        push_claims(alloc, patterns, close, outpoint, output, &mut claims)?;
    }
    Ok(List::from_vec(claims))
}

// Appends the index of an output, if nothing is claimed there.
fn push_other(
    close: &Close,
    index: u32,
    output: &TxOut,
    others: &mut Vec<u32>,
) -> Result<(), AllocError>
    ensures { OnOk result (others.new.items ≡ others.old.items ++ cons_option
        (unless_claimed close.now (output_with close.now.commitment output.now.script) index) []) }
{
    if let Some(known) = close.commitment.output_with(output.script().bytes()) {
        if close.claims(&known) {
            return Ok(());
        }
    }
    others.push(index)?;
    Ok(())
}

// The indices of the outputs of a transaction on which nothing is claimed.
fn other_outputs(alloc: Global, close: &Close, tx: &Tx) -> Result<List<u32>, AllocError>
    ensures { IfOk result (λ os. os ≡ others_in close.now tx.now) }
{
    let mut others = Vec::new(alloc);
    let outputs = tx.outputs();
    for (index, output) in outputs.iter().enumerate() {
        push_other(close, index as u32, output, &mut others)?;
    }
    Ok(List::from_vec(others))
}

/// All that an unrevoked commitment lets one claim of a transaction: accepted claims on each output whose program is one of the commitment's and that one can take, in the order of the
/// outputs, and the indices of the other outputs. The transaction may be the commitment, one's own HTLC transaction, whose output has the script of to_local, or any other.
///
/// - Of one's own commitment: to_local after the delay, and without anchors each HTLC by its HTLC transaction. Of offered HTLCs with one hash there is a claim for each expiry, since
///   their script does not have it: the peer's signature is over one of these transactions.
/// - Of the peer's: to_remote without anchors, each HTLC that the peer offered and whose preimage is known, and each HTLC that the peer received, from its expiry on.
///
/// Each output is looked up in a table. The only error is that memory ran out.
pub fn claims_in(
    alloc: Global,
    patterns: &ChannelPatterns,
    close: &Close,
    tx: &Tx,
) -> Result<Found, AllocError>
    ensures claims { IfOk result (λ f. AreClaimsOn (claimed_in close.now tx.now) f.claims) }
    ensures others { IfOk result (λ f. f.others ≡ others_in close.now tx.now) }
{
    let others = other_outputs(alloc, close, tx)?;
    let claims = claims_on_outputs(alloc, patterns, close, tx)?;
    Ok(Found { claims, others })
}
