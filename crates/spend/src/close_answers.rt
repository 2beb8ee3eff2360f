//! What an unrevoked commitment lets one claim of a transaction, from when, and until when.

ghost use Rattle.std.specs.Prelude.{◌≡◌, IfOk};
ghost use Rattle.spend.specs.CloseAnswers.{IsFoundIn, IsCloseAnswer};

use crate::close_requests::CloseRequest;
use crate::revoked_answers::{kind_of, tell_others};
use crate::revoked_requests::Commitment;
use claim::Claim;
use lists::List;
use page::Page;
use page::Piece::Text;
use std::alloc::{AllocError, Global};
use texts::WriteValue;
use tx::Tx;
use unilateral::{
    ChannelPatterns, Close, Found, FundingKeys, KnownPreimages, OutputName, Revoked,
    channel_patterns, claims_in, from_height, names_at,
};

/// An unrevoked commitment, and what was found of it in a transaction.
#[derive(Drop)]
pub struct CloseAnswer {
    pub close: Close,
    pub found: Found,
    /// The names of the outputs without a claim.
    pub names: List<OutputName>,
    /// The height of the block that has the transaction, if it is in one.
    pub confirmed_height: Option<u32>,
}

// The preimages that are known, each hashed once.
fn known_of(preimages: List<[u8; 32]>) -> Result<KnownPreimages, AllocError>
    ensures { IfOk result (λ k. k ≡ preimages) }
{
    let mut known = KnownPreimages::from_vec(preimages.into_vec());
    known.index()?;
    Ok(known)
}

// What is found of a commitment in a transaction.
fn found_in(
    alloc: Global,
    patterns: &ChannelPatterns,
    close: Close,
    funding_keys: Option<FundingKeys>,
    transaction: &Tx,
    confirmed_height: Option<u32>,
) -> Result<CloseAnswer, AllocError>
    ensures { IfOk result (IsFoundIn close funding_keys transaction.now confirmed_height) }
{
    let found = claims_in(alloc, patterns, &close, transaction)?;
    let others = found.others.values();
    let names = names_at(alloc, &close.commitment, funding_keys, transaction, others)?;
    Ok(CloseAnswer {
        close,
        found,
        names,
        confirmed_height,
    })
}

// The answer to a request, by the patterns of scripts.
fn answer_by(
    alloc: Global,
    patterns: &ChannelPatterns,
    request: CloseRequest,
) -> Result<CloseAnswer, AllocError>
    ensures { IfOk result (IsCloseAnswer request) }
{
    let CloseRequest {
        commitment,
        whose,
        feerate_per_kw,
        htlcs,
        preimages,
        transaction,
        confirmed_height,
    } = request;
    let Commitment {
        channel_type,
        keys,
        delay_blocks,
        funding_keys,
    } = commitment;
    let preimages = known_of(preimages)?;
    let htlcs = htlcs.into_vec();
    let commitment = Revoked::new(alloc, patterns, channel_type, keys, delay_blocks, htlcs)?;
    let close = Close {
        commitment,
        whose,
        feerate_per_kw,
        preimages,
    };
    found_in(
        alloc,
        patterns,
        close,
        funding_keys,
        &transaction,
        confirmed_height,
    )
}

/// All that the commitment of a request lets one claim of the transaction, and the indices and the names of the other outputs. The only error is that memory ran out.
pub fn close_answer_of(alloc: Global, request: CloseRequest) -> Result<CloseAnswer, AllocError>
    ensures { IfOk result (IsCloseAnswer request) }
{
    let patterns = channel_patterns(alloc)?;
    answer_by(alloc, &patterns, request)
}

/// Writes an answer: a line with a JSON object.
pub fn tell_close(line: &mut Page, answer: &CloseAnswer) {
    line.push("{\"claims\":[");
    for claim in answer.found.claims.values() {
        tell_claim(line, answer, claim);
    }
    line.push("],\"others\":[");
    let others = answer.found.others.values();
    let channel_type = answer.close.commitment.channel_type();
    let whose = answer.close.whose;
    tell_others(line, others, answer.names.values(), channel_type, whose);
    line.push("]}\n");
}

// Writes a height, or null.
fn tell_height(line: &mut Page, height: Option<u64>) {
    match height {
        Some(height) => line.show(&height),
        None => line.push("null"),
    }
}

// Writes a claim, an element of an array: which output it is on, the first block that can have it, the first in which the other side can take the output, and the claim as an output of
// a request for a spend.
fn tell_claim(line: &mut Page, answer: &CloseAnswer, claim: &Claim) {
    let Some(output) = answer
        .close
        .commitment
        .output_with(claim.place().program.bytes())
    else {
        line.fail();
        return;
    };
    line.element(
        "{\"kind\":\"%\",\"from_height\":",
        &[Text(kind_of(&output))],
    );
    match answer.confirmed_height {
        Some(height) => {
            tell_height(line, Some(from_height(claim, height)));
            line.push(",\"deadline_height\":");
            tell_height(line, answer.close.deadline_height(&output, height));
        }
        None => line.push("null,\"deadline_height\":null"),
    }
    line.push(",\"output\":");
    match claim.write_value(line.alloc()) {
        Ok(value) => line.show(&value),
        Err(_) => line.fail(),
    }
    line.push("}");
}
