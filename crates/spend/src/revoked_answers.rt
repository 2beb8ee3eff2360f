//! What a revoked commitment lets its owner's peer claim of a transaction, and until when.

ghost use Rattle.std.specs.Prelude.{IfOk};
ghost use Rattle.spend.specs.RevokedAnswers.{IsFoundIn, IsRevokedAnswer};

use crate::revoked_requests::{Commitment, RevokedRequest};
use claim::Claim;
use lists::List;
use page::Page;
use page::Piece::{Count, Text};
use revoked::{
    ChannelPatterns, ChannelType, Direction, Found, Revoked, RevokedOutput, channel_patterns,
    claims_in,
};
use std::alloc::{AllocError, Global};
use texts::WriteValue;
use tx::Tx;
use unilateral::{FundingKeys, OutputName, Whose, names_at};

/// A revoked commitment, and what was found of it in a transaction.
#[derive(Drop)]
pub struct RevokedAnswer {
    pub revoked: Revoked,
    pub found: Found,
    /// The names of the outputs without a claim.
    pub names: List<OutputName>,
    /// The height of the block that has the transaction, or of the next one.
    pub confirmed_height: u32,
}

// What is found of a commitment in a transaction.
fn found_in(
    alloc: Global,
    patterns: &ChannelPatterns,
    revoked: Revoked,
    funding_keys: Option<FundingKeys>,
    transaction: &Tx,
    confirmed_height: u32,
) -> Result<RevokedAnswer, AllocError>
    ensures { IfOk result (IsFoundIn revoked funding_keys transaction.now confirmed_height) }
{
    let found = claims_in(alloc, patterns, &revoked, transaction)?;
    let others = found.others.values();
    let names = names_at(alloc, &revoked, funding_keys, transaction, others)?;
    Ok(RevokedAnswer {
        revoked,
        found,
        names,
        confirmed_height,
    })
}

// The answer to a request, by the patterns of scripts.
fn answer_by(
    alloc: Global,
    patterns: &ChannelPatterns,
    request: RevokedRequest,
) -> Result<RevokedAnswer, AllocError>
    ensures { IfOk result (IsRevokedAnswer request) }
{
    let RevokedRequest {
        commitment,
        htlcs,
        transaction,
        confirmed_height,
    } = request;
    let Commitment {
        channel_type,
        keys,
        delay_blocks,
        funding_keys,
    } = commitment;
    let htlcs = htlcs.into_vec();
    let revoked = Revoked::new(alloc, patterns, channel_type, keys, delay_blocks, htlcs)?;
    found_in(
        alloc,
        patterns,
        revoked,
        funding_keys,
        &transaction,
        confirmed_height,
    )
}

/// All that the commitment of a request lets its owner's peer claim of the transaction: a claim on each output of it, and the indices and the names of the others. The only error is that memory ran out.
pub fn answer_of(alloc: Global, request: RevokedRequest) -> Result<RevokedAnswer, AllocError>
    ensures { IfOk result (IsRevokedAnswer request) }
{
    let patterns = channel_patterns(alloc)?;
    answer_by(alloc, &patterns, request)
}

/// Writes an answer: a line with a JSON object.
pub fn tell_answer(line: &mut Page, answer: &RevokedAnswer) {
    line.push("{\"claims\":[");
    for claim in answer.found.claims.values() {
        tell_claim(line, answer, claim);
    }
    line.push("],\"others\":[");
    let channel_type = answer.revoked.channel_type();
    let others = answer.found.others.values();
    tell_others(
        line,
        others,
        answer.names.values(),
        channel_type,
        Whose::Theirs,
    );
    line.push("]}\n");
}

/// Writes the outputs without a claim, elements of an array: the index and the name of each, and why one's own has none.
pub fn tell_others(
    line: &mut Page,
    indices: &[u32],
    names: &[OutputName],
    channel_type: ChannelType,
    whose: Whose,
) {
    for (place, index) in indices.iter().enumerate() {
        let name = match names.get(place) {
            Some(name) => *name,
            None => OutputName::Unknown,
        };
        line.element(
            "{\"index\":%,\"name\":\"%\"",
            &[Count(u64::from(*index)), Text(text_of(name))],
        );
        if let Some(reason) = reason_of(name, channel_type, whose) {
            line.write(",\"reason\":\"%\"", &[Text(reason)]);
        }
        line.push("}");
    }
}

// Why there is no claim on an output that can be one's own (BOLT 3): a script of a channel with anchors, or an HTLC transaction there, which pays no fee.
fn reason_of(name: OutputName, channel_type: ChannelType, whose: Whose) -> Option<&'static str> {
    match (name, channel_type, whose) {
        (OutputName::ToRemote, ChannelType::Anchors, Whose::Theirs) => Some(
            "its script has CHECKSIGVERIFY, which no claim has: a wallet takes it by wsh(and_v(v:pk(KEY),older(1)))",
        ),
        (OutputName::Offered | OutputName::Received, ChannelType::Anchors, Whose::Ours) => Some(
            "its HTLC transaction pays no fee, so it needs an input of your own, which no claim has",
        ),
        _ => None,
    }
}

// The name of an output without a claim, as it is written.
fn text_of(name: OutputName) -> &'static str {
    match name {
        OutputName::ToLocal => "to_local",
        OutputName::ToRemote => "to_remote",
        OutputName::OurAnchor => "own_anchor",
        OutputName::PeersAnchor => "peer_anchor",
        OutputName::Offered => "offered",
        OutputName::Received => "received",
        OutputName::Unknown => "unknown",
    }
}

// Writes a claim, an element of an array: which output it is on, the first block in which the owner can take that, and the claim as an output of a request for a spend.
fn tell_claim(line: &mut Page, answer: &RevokedAnswer, claim: &Claim) {
    let Some(output) = answer.revoked.output_with(claim.place().program.bytes()) else {
        line.fail();
        return;
    };
    line.element(
        "{\"kind\":\"%\",\"owner_height\":",
        &[Text(kind_of(&output))],
    );
    match answer
        .revoked
        .owner_height(&output, answer.confirmed_height)
    {
        Some(height) => line.show(&height),
        None => line.push("null"),
    }
    line.push(",\"output\":");
    match claim.write_value(line.alloc()) {
        Ok(value) => line.show(&value),
        Err(_) => line.fail(),
    }
    line.push("}");
}

/// The name of an output of a commitment.
pub fn kind_of(output: &RevokedOutput) -> &'static str {
    match output {
        RevokedOutput::ToLocal => "to_local",
        RevokedOutput::ToRemote => "to_remote",
        RevokedOutput::ToHtlc(htlc) => match htlc.direction {
            Direction::Offered => "offered",
            Direction::Received => "received",
        },
    }
}
