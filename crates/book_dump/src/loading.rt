//! Turns the plain forms of a dump into calls. Claims are accepted anew, never trusted.

ghost use Rattle.std.specs.Prelude.{◌≡◌};
ghost use Rattle.plain_claims.specs.Claims.{claims_of};
ghost use Rattle.book_dump.specs.Openings.{batch_of};
ghost use Rattle.book_dump.specs.Loading.{Answers, Takes, shaped, with_claims, release_of, step_of, call_of, entry_of};

use crate::errors::EntryError;
use crate::openings::opening_of;
use book::{Batch, Call, Entry, Step};
use claim::Claim;
use lists::List;
use plain_claims::ClaimError;
use std::alloc::Global;
use texts::{PlainCall, PlainClaim, PlainEntry, PlainStep};
use tx::TxOut;

// Accepts plain claims anew, in order: `BadClaim` where one is refused.
fn claims_of(alloc: Global, plains: List<PlainClaim>) -> Result<List<Claim>, EntryError>
    ensures { Takes result (claims_of plains) }
{
    match plain_claims::claims_of(alloc, plains) {
        Ok(claims) => Ok(claims),
        Err(error) => match error {
            ClaimError::NoMemory => Err(EntryError::NoMemory),
            ClaimError::BadClaim => Err(EntryError::BadClaim),
        },
    }
}

fn step_of(plain: PlainStep) -> Step
    ensures { result ≡ step_of plain }
{
    match plain {
        PlainStep::Own(update) => Step::Own(update),
        PlainStep::Receive(step) => Step::Peer(step),
    }
}

fn keep_of(
    alloc: Global,
    channel: u64,
    number: u64,
    claims: List<PlainClaim>,
) -> Result<Call, EntryError>
    ensures { Answers result (with_claims (claims_of claims)
        (λ cs. Ok (Call.Keep channel number cs))) }
{
    match claims_of(alloc, claims) {
        Ok(claims) => Ok(Call::Keep {
            channel,
            number,
            claims,
        }),
        Err(error) => Err(error),
    }
}

// A batch, if one transaction can take this number of claims and outputs.
fn batch_of(claims: List<Claim>, outputs: List<TxOut>, preimages: List<[u8; 32]>) -> Option<Batch>
    ensures { result ≡ batch_of claims outputs preimages }
{
    Batch::new(claims, outputs, preimages)
}

fn release_of(
    alloc: Global,
    channel: u64,
    claims: List<PlainClaim>,
    outputs: List<TxOut>,
    preimages: List<[u8; 32]>,
) -> Result<Call, EntryError>
    ensures { Answers result (with_claims (claims_of claims)
        (release_of channel outputs preimages)) }
{
    match claims_of(alloc, claims) {
        Ok(claims) => match batch_of(claims, outputs, preimages) {
            Some(batch) => Ok(Call::Release { channel, batch }),
            None => Err(EntryError::BadShape),
        },
        Err(error) => Err(error),
    }
}

/// The call that a plain one stands for. `BadClaim` where one of its claims is not accepted. Else `BadShape` where the sides can't agree on an
/// opening's terms, or a release has no claim or more than 4,000 claims or outputs.
#[tactic(auto, unfolding(crate::specs::Loading::call_of))]
pub fn call_of(alloc: Global, plain: PlainCall) -> Result<Call, EntryError>
    ensures { Answers result (call_of plain) }
{
    match plain {
        PlainCall::Open(plain) => match opening_of(alloc, &plain) {
            Some(opening) => Ok(Call::Open(opening)),
            None => Err(EntryError::BadShape),
        },
        PlainCall::Step { channel, step } => Ok(Call::Step {
            channel,
            step: step_of(step),
        }),
        PlainCall::Sign { channel } => Ok(Call::Sign { channel }),
        PlainCall::Revoke {
            channel,
            revocation,
        } => Ok(Call::Revoke {
            channel,
            revocation,
        }),
        PlainCall::Keep {
            channel,
            number,
            claims,
        } => keep_of(alloc, channel, number, claims),
        PlainCall::Release {
            channel,
            claims,
            outputs,
            preimages,
        } => release_of(alloc, channel, claims, outputs, preimages),
        PlainCall::Close { channel } => Ok(Call::Close { channel }),
    }
}

/// The entry that a plain one stands for: its call, with the same seat.
#[tactic(auto, unfolding(crate::specs::Loading::entry_of))]
pub fn entry_of(alloc: Global, plain: PlainEntry) -> Result<Entry, EntryError>
    ensures { Answers result (entry_of plain) }
{
    let PlainEntry { call, seat } = plain;
    match call_of(alloc, call) {
        Ok(call) => Ok(Entry { seat, call }),
        Err(error) => Err(error),
    }
}
