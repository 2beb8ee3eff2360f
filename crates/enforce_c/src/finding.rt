// What a commitment of rows that the caller gives lets one claim of a transaction, revoked or not.

ghost use Rattle.std.specs.Prelude.{◌≡◌, None, Some, Ok, map, IfOk, MatchResult};
ghost use Rattle.std.specs.List.{AllByRecursion};
ghost use Rattle.tx.specs.Reading.{Gives};
ghost use Rattle.penalty.specs.Sets.{AreClaimsOn};
ghost use Rattle.enforce_c.specs.Spent.{UnlessMemory, preimages_in};
ghost use Rattle.enforce_c.specs.ClaimLists.{claim_lists, IsReady};
ghost use Rattle.enforce_c.specs.Commitments.{commitment_fault, IsCommitmentOf};
ghost use Rattle.enforce_c.specs.Found.{transaction_of, claimed_by, others_by, kind_of, found_row, row_of_claim, name_kind, other_row, rows_in, IsFoundIn, IsFoundInBytes, IsNotRead, IsFound};

use crate::claim_lists::ClaimLists;
use crate::claim_rows::{ClaimRow, SlotRow};
use crate::commitment_rows::{
    Commitment, FoundRow, HtlcRow, OUTPUT_OFFERED, OUTPUT_OWN_ANCHOR, OUTPUT_PEERS_ANCHOR,
    OUTPUT_RECEIVED, OUTPUT_TO_LOCAL, OUTPUT_TO_REMOTE, OUTPUT_UNKNOWN, OtherRow, Question,
};
use crate::commitments_of_c::{channel_type_of, funding_of, htlcs_of, keys_of, whose_of};
use crate::spend_rows::PreimageRow;
use crate::spending::preimages_of;
use crate::statuses::Refusal;
use claim::Claim;
use paths::laws::{listed_paths_are_sound, scripts_are_satisfied_exactly};
use revoked::laws::nothing_is_left_out;
use std::alloc::{AllocError, Global};
use std::marker::Model;
use tx::{DecodeError, Tx, decode, decode_stripped};
use unilateral::{
    ChannelPatterns, Close, Direction, Found, FundingKeys, KnownPreimages, OutputName, Revoked,
    RevokedOutput, channel_patterns, from_height, name_of,
};

/// Rows of claims, which output each is on, rows of slots, the other outputs, and the bytes that rows refer to. A contract sees it as these lists.
#[derive(Drop)]
pub struct Finding {
    pub(crate) claims: Vec<ClaimRow>,
    pub(crate) found: Vec<FoundRow>,
    pub(crate) slots: Vec<SlotRow>,
    pub(crate) others: Vec<OtherRow>,
    pub(crate) bytes: Vec<u8>,
}

impl Model for Finding {
    ghost use Rattle.enforce_c.specs.Found.{FoundLists};

    ghost Value = { FoundLists };

    ghost view = { λ f. record {
      claims = f.claims.items;
      found = f.found.items;
      slots = f.slots.items;
      others = f.others.items;
      bytes = f.bytes.items;
    } };
}

// The kind of an output.
fn kind_of(output: &RevokedOutput) -> u32
    ensures { result ≡ kind_of output.now }
{
    match output {
        RevokedOutput::ToLocal => OUTPUT_TO_LOCAL,
        RevokedOutput::ToRemote => OUTPUT_TO_REMOTE,
        RevokedOutput::ToHtlc(htlc) => match htlc.direction {
            Direction::Offered => OUTPUT_OFFERED,
            Direction::Received => OUTPUT_RECEIVED,
        },
    }
}

// The row of an output, by the first block that can have a transaction with the claim, and the first in which the other side can take it.
fn found_row(kind: u32, from_height: u64, deadline_height: Option<u64>) -> FoundRow
    ensures { result ≡ found_row kind from_height deadline_height }
{
    FoundRow {
        kind,
        has_deadline: deadline_height.is_some(),
        from_height,
        deadline_height: deadline_height.unwrap_or(0),
    }
}

// Of a claim, which output it is on.
fn row_of_claim(close: &Close, confirmed_height: u32, claim: &Claim) -> FoundRow
    ensures { result ≡ row_of_claim close.now confirmed_height claim.now }
{
    let from = from_height(claim, confirmed_height);
    match close.commitment.output_with(claim.place().program.bytes()) {
        Some(output) => found_row(
            kind_of(&output),
            from,
            close.deadline_height(&output, confirmed_height),
        ),
        None => found_row(OUTPUT_UNKNOWN, from, None),
    }
}

// Of each claim, which output it is on.
fn rows_of_claims(
    alloc: Global,
    close: &Close,
    confirmed_height: u32,
    claims: &[Claim],
) -> Result<Vec<FoundRow>, AllocError>
    ensures { IfOk result (λ v. v.items ≡ map (row_of_claim close.now confirmed_height) claims.now) }
{
    let mut rows = Vec::new(alloc);
    for claim in claims {
        rows.push(row_of_claim(close, confirmed_height, claim))?;
    }
    Ok(rows)
}

// The kind of an output without a claim.
fn name_kind(name: OutputName) -> u32
    ensures { result ≡ name_kind name }
{
    match name {
        OutputName::Unknown => OUTPUT_UNKNOWN,
        OutputName::ToLocal => OUTPUT_TO_LOCAL,
        OutputName::ToRemote => OUTPUT_TO_REMOTE,
        OutputName::Offered => OUTPUT_OFFERED,
        OutputName::Received => OUTPUT_RECEIVED,
        OutputName::OurAnchor => OUTPUT_OWN_ANCHOR,
        OutputName::PeersAnchor => OUTPUT_PEERS_ANCHOR,
    }
}

// The row of the output at an index.
fn other_row(
    commitment: &Revoked,
    funding_keys: Option<FundingKeys>,
    tx: &Tx,
    index: u32,
) -> OtherRow
    ensures { result ≡ other_row commitment.now funding_keys tx.now index }
{
    let kind = match tx.outputs().get(index as usize) {
        Some(output) => name_kind(name_of(commitment, funding_keys, output.script().bytes())),
        None => OUTPUT_UNKNOWN,
    };
    OtherRow { index, kind }
}

// The rows of the other outputs.
fn rows_of_others(
    alloc: Global,
    commitment: &Revoked,
    funding_keys: Option<FundingKeys>,
    tx: &Tx,
    others: &[u32],
) -> Result<Vec<OtherRow>, AllocError>
    ensures { IfOk result (λ v. v.items ≡ map (other_row commitment.now funding_keys tx.now) others.now) }
{
    let mut rows = Vec::new(alloc);
    for index in others {
        rows.push(other_row(commitment, funding_keys, tx, *index))?;
    }
    Ok(rows)
}

// The transaction that bytes spell, with witnesses or without.
#[tactic(auto, using(crate::proofs::FoundClaims::read_marked, crate::proofs::FoundClaims::read_stripped, crate::proofs::FoundClaims::not_read))]
fn transaction_of(alloc: Global, bytes: &[u8]) -> Result<Tx, DecodeError>
    ensures { Gives (λ t. t) result (transaction_of bytes.now) }
{
    match decode(alloc, bytes) {
        Ok(tx) => Ok(tx),
        Err(error) => match error {
            DecodeError::BadMarker => decode_stripped(alloc, bytes),
            other => Err(other),
        },
    }
}

// A commitment that rows name, and the keys of its channel's funding output, if they are told.
#[derive(Drop)]
struct Known {
    commitment: Revoked,
    funding_keys: Option<FundingKeys>,
}

// The commitment that rows name. Checked in this order: the type of the channel, each key, each HTLC.
#[tactic(auto, using(crate::proofs::FoundClaims::no_type, crate::proofs::FoundClaims::no_key, crate::proofs::FoundClaims::no_funding, crate::proofs::FoundClaims::no_htlc, crate::proofs::FoundClaims::is_commitment))]
fn named(
    alloc: Global,
    patterns: &ChannelPatterns,
    commitment: &Commitment,
    htlcs: &[HtlcRow],
) -> Result<Known, Refusal>
    ensures { MatchResult result (λ n. IsCommitmentOf commitment.now htlcs.now n.commitment n.funding_keys)
        (λ e. UnlessMemory e (commitment_fault commitment.now htlcs.now ≡ Some e)) }
{
    let channel_type = channel_type_of(commitment.channel_type)?;
    let keys = keys_of(commitment)?;
    let funding_keys = funding_of(commitment)?;
    let htlcs = htlcs_of(alloc, htlcs)?;
    let delay_blocks = commitment.delay_blocks;
    Ok(Known {
        commitment: Revoked::new(alloc, patterns, channel_type, keys, delay_blocks, htlcs)?,
        funding_keys,
    })
}

// The preimages of rows, each hashed once.
fn known_preimages(alloc: Global, rows: &[PreimageRow]) -> Result<KnownPreimages, AllocError>
    ensures { IfOk result (λ p. p ≡ preimages_in rows.now) }
{
    let mut preimages = KnownPreimages::from_vec(preimages_of(alloc, rows)?);
    preimages.index()?;
    Ok(preimages)
}

// What the question asks of a close.
fn claims_by(
    alloc: Global,
    patterns: &ChannelPatterns,
    question: Question,
    close: &Close,
    tx: &Tx,
) -> Result<Found, AllocError>
    ensures claims { IfOk result (λ f. AreClaimsOn (claimed_by question close.now tx.now) f.claims) }
    ensures others { IfOk result (λ f. f.others ≡ others_by question close.now tx.now) }
{
    match question {
        Question::OfRevoked => revoked::claims_in(alloc, patterns, &close.commitment, tx),
        Question::OfClose => unilateral::claims_in(alloc, patterns, close, tx),
    }
}

// The rows of what is found.
fn finding_of(
    alloc: Global,
    close: &Close,
    funding_keys: Option<FundingKeys>,
    confirmed_height: u32,
    tx: &Tx,
    found: &Found,
) -> Result<Finding, AllocError>
    ensures lists { IfOk result (λ f. rows_in f ≡ claim_lists found.now.claims) }
    ensures ready { IfOk result (λ f. AllByRecursion IsReady found.now.claims) }
    ensures found { IfOk result (λ f. f.found ≡ map (row_of_claim close.now confirmed_height) found.now.claims) }
    ensures others { IfOk result (λ f. f.others ≡ map (other_row close.now.commitment funding_keys tx.now) found.now.others) }
{
    let claims = found.claims.values();
    let rows = rows_of_claims(alloc, close, confirmed_height, claims)?;
    let others = rows_of_others(
        alloc,
        &close.commitment,
        funding_keys,
        tx,
        found.others.values(),
    )?;
    let ClaimLists {
        claims,
        slots,
        bytes,
    } = ClaimLists::of(alloc, claims)?;
    Ok(Finding {
        claims,
        found: rows,
        slots,
        others,
        bytes,
    })
}

// What a close lets one claim of a transaction.
fn found_in(
    alloc: Global,
    patterns: &ChannelPatterns,
    question: Question,
    close: &Close,
    funding_keys: Option<FundingKeys>,
    confirmed_height: u32,
    tx: &Tx,
) -> Result<Finding, AllocError>
    ensures { IfOk result (IsFoundIn question close.now funding_keys tx.now confirmed_height) }
{
    // The proof learns that the claims' scripts are listed whole, and that each claim on a revoked commitment is on an output of the transaction.
    listed_paths_are_sound();
    scripts_are_satisfied_exactly();
    nothing_is_left_out();
    let found = claims_by(alloc, patterns, question, close, tx)?;
    finding_of(alloc, close, funding_keys, confirmed_height, tx, &found)
}

// The same transaction, or why there is none.
#[tactic(auto, using(crate::proofs::FoundClaims::not_seen))]
fn read(alloc: Global, bytes: &[u8]) -> Result<Tx, Refusal>
    ensures { MatchResult result (λ t. transaction_of bytes.now ≡ Ok t) (λ e. UnlessMemory e (IsNotRead bytes.now e)) }
{
    match transaction_of(alloc, bytes) {
        Ok(tx) => Ok(tx),
        Err(error) => Err(Refusal::Decode(error)),
    }
}

// What a close lets one claim of the transaction with these bytes.
#[tactic(auto, using(crate::proofs::FoundClaims::is_seen))]
fn found_in_bytes(
    alloc: Global,
    patterns: &ChannelPatterns,
    question: Question,
    close: &Close,
    funding_keys: Option<FundingKeys>,
    confirmed_height: u32,
    bytes: &[u8],
) -> Result<Finding, Refusal>
    ensures { MatchResult result (IsFoundInBytes question close.now funding_keys bytes.now confirmed_height) (λ e. UnlessMemory e (IsNotRead bytes.now e)) }
{
    let tx = read(alloc, bytes)?;
    Ok(found_in(
        alloc,
        patterns,
        question,
        close,
        funding_keys,
        confirmed_height,
        &tx,
    )?)
}

// The same of the commitment that rows name, by the patterns of channels.
#[tactic(auto, using(crate::proofs::FoundClaims::no_close, crate::proofs::FoundClaims::not_named, crate::proofs::FoundClaims::by_commitment))]
fn found_by(
    alloc: Global,
    patterns: &ChannelPatterns,
    question: Question,
    whose: u32,
    commitment: &Commitment,
    htlcs: &[HtlcRow],
    feerate_per_kw: u32,
    preimages: KnownPreimages,
    tx: &[u8],
    confirmed_height: u32,
) -> Result<Finding, Refusal>
    ensures { IsFound (record {
      question = question;
      whose = whose;
      commitment = commitment.now;
      htlcs = htlcs.now;
      feerate_per_kw = feerate_per_kw;
      preimages = preimages;
      tx = tx.now;
      confirmed_height = confirmed_height;
    }) result }
{
    let whose = whose_of(whose)?;
    let Known {
        commitment,
        funding_keys,
    } = named(alloc, patterns, commitment, htlcs)?;
    let close = Close {
        commitment,
        whose,
        feerate_per_kw,
        preimages,
    };
    found_in_bytes(
        alloc,
        patterns,
        question,
        &close,
        funding_keys,
        confirmed_height,
        tx,
    )
}

/// What the commitment of rows lets one claim of a transaction. Checked in this order: whose commitment it is, the type of the channel, each key, each HTLC, the transaction.
pub(crate) fn found(
    alloc: Global,
    question: Question,
    whose: u32,
    commitment: &Commitment,
    htlcs: &[HtlcRow],
    feerate_per_kw: u32,
    preimages: &[PreimageRow],
    tx: &[u8],
    confirmed_height: u32,
) -> Result<Finding, Refusal>
    ensures { IsFound (record {
      question = question;
      whose = whose;
      commitment = commitment.now;
      htlcs = htlcs.now;
      feerate_per_kw = feerate_per_kw;
      preimages = preimages_in preimages.now;
      tx = tx.now;
      confirmed_height = confirmed_height;
    }) result }
{
    let preimages = known_preimages(alloc, preimages)?;
    let patterns = channel_patterns(alloc)?;
    found_by(
        alloc,
        &patterns,
        question,
        whose,
        commitment,
        htlcs,
        feerate_per_kw,
        preimages,
        tx,
        confirmed_height,
    )
}
