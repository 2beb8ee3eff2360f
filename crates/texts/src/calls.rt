//! The calls of a book and the dump of its history, as read from JSON.

ghost use Rattle.std.specs.Prelude.{◌≡◌, length};
ghost use Rattle.json_value.specs.View.{view};
ghost use Rattle.texts.specs.Values.{Gives};
ghost use Rattle.texts.specs.Calls.{opening_of, open_of, step_call_of, sign_of, revoke_of, keep_of, are_within, release_of, close_of, is_fee, changes_fee, has_fee, any_fee, has_close, any_close, is_version};

use crate::allocating::{ReadValue, read_item, read_member};
use crate::claims::PlainClaim;
use crate::errors::ShapeError;
use crate::steps::PlainStep;
use crate::values::{FromValue, array_of, item, member, object_of, tag_of};
use json_value::Value;
use keys::Key;
use lists::List;
use sighash::Token;
use std::alloc::Global;
use terms::{BaseKeys, ProposedTerms, Side};
use tx::{MAX_INPUTS, MAX_OUTPUTS, OutPoint, TxOut};
use updates::{OwnUpdate, PeerStep, Revocation, Update};

/// How a side opens a channel, as read from JSON: the proposed terms, this side's seed, and what its peer sent before the channel was opened.
#[derive(Clone, Copy, Debug)]
pub struct PlainOpening {
    pub terms: ProposedTerms,
    pub funding: OutPoint,
    /// Which side of the channel this is.
    pub side: Side,
    /// The seed of this side's signer.
    pub seed: [u8; 32],
    /// The peer's base keys.
    pub bases: BaseKeys,
    /// The peer's per-commitment point for number 0.
    pub first_point: Key,
    /// The peer's per-commitment point for number 1.
    pub next_point: Key,
    /// The peer's token on this side's commitment 0.
    pub token: Token,
}

/// A call of a book as read from JSON. Channels are named by their index in the order in which they were opened.
#[derive(Debug, Drop)]
pub enum PlainCall {
    Open(PlainOpening),
    Step {
        channel: u64,
        step: PlainStep,
    },
    Sign {
        channel: u64,
    },
    Revoke {
        channel: u64,
        revocation: Revocation,
    },
    Keep {
        channel: u64,
        /// The number of the peer's revoked commitment.
        number: u64,
        claims: List<PlainClaim>,
    },
    /// At least one claim, and no more claims and outputs than a transaction may have.
    Release {
        channel: u64,
        claims: List<PlainClaim>,
        outputs: List<TxOut>,
        preimages: List<[u8; 32]>,
    },
    Close {
        channel: u64,
    },
}

/// An entry of a history as read from JSON.
#[derive(Debug, Drop)]
pub struct PlainEntry {
    pub call: PlainCall,
    /// The number of the seat that made the call.
    pub seat: u32,
}

/// The dump of a book as read from JSON, of version 1, 2 or 3, with the oldest entry first.
#[derive(Debug, Drop)]
pub struct PlainDump {
    pub history: List<PlainEntry>,
}

impl<const N: usize> ReadValue for [u8; N] {
    ghost use Rattle.texts.specs.Values.{bytes_of_len};

    ghost reads = { bytes_of_len N };

    fn read_value(_alloc: Global, value: &Value) -> Result<[u8; N], ShapeError> {
        <[u8; N] as FromValue>::from_value(value).ok_or(ShapeError::BadShape)
    }
}

/// An array of `open`, the terms, the funding outpoint, the side, the seed, the peer's five base keys, its two points, and its token. Terms on which the two
/// sides cannot agree are refused.
impl FromValue for PlainOpening {
    ghost use Rattle.texts.specs.Calls.{opening_of};

    ghost reads = { opening_of };

    #[tactic(auto, unfolding(crate::specs::Calls::opening_of))]
    fn from_value(value: &Value) -> Option<PlainOpening> {
        let form = array_of(value, 8)?;
        let terms: ProposedTerms = item(form, 1)?;
        let funding = item(form, 2)?;
        let side = item(form, 3)?;
        let seed = item(form, 4)?;
        let bases = item(form, 5)?;
        let points: (Key, Key) = item(form, 6)?;
        let token = item(form, 7)?;
        if !terms.can_agree() {
            return None;
        }
        Some(PlainOpening {
            terms,
            funding,
            side,
            seed,
            bases,
            first_point: points.0,
            next_point: points.1,
            token,
        })
    }
}

#[tactic(auto, unfolding(crate::specs::Calls::open_of))]
fn open_of(value: &Value) -> Option<PlainCall>
    ensures { result ≡ open_of (view value.now) }
{
    Some(PlainCall::Open(PlainOpening::from_value(value)?))
}

#[tactic(auto, unfolding(crate::specs::Calls::step_call_of))]
fn step_call_of(alloc: Global, value: &Value) -> Result<PlainCall, ShapeError>
    ensures { Gives (λ c. c) result (step_call_of (view value.now)) }
{
    let channel = item(value, 1).ok_or(ShapeError::BadShape)?;
    let step = PlainStep::read_value(alloc, value)?;
    Ok(PlainCall::Step { channel, step })
}

#[tactic(auto, unfolding(crate::specs::Calls::sign_of))]
fn sign_of(value: &Value) -> Option<PlainCall>
    ensures { result ≡ sign_of (view value.now) }
{
    let form = array_of(value, 2)?;
    Some(PlainCall::Sign {
        channel: item(form, 1)?,
    })
}

#[tactic(auto, unfolding(crate::specs::Calls::revoke_of))]
fn revoke_of(value: &Value) -> Option<PlainCall>
    ensures { result ≡ revoke_of (view value.now) }
{
    let form = array_of(value, 3)?;
    Some(PlainCall::Revoke {
        channel: item(form, 1)?,
        revocation: item(form, 2)?,
    })
}

#[tactic(auto, unfolding(crate::specs::Calls::keep_of))]
fn keep_of(alloc: Global, value: &Value) -> Result<PlainCall, ShapeError>
    ensures { Gives (λ c. c) result (keep_of (view value.now)) }
{
    let form = array_of(value, 4).ok_or(ShapeError::BadShape)?;
    let channel = item(form, 1).ok_or(ShapeError::BadShape)?;
    let number = item(form, 2).ok_or(ShapeError::BadShape)?;
    Ok(PlainCall::Keep {
        channel,
        number,
        claims: read_item(alloc, form, 3)?,
    })
}

// Whether there is a claim, and one transaction can take this number of claims and outputs.
fn are_within(claims: usize, outputs: usize) -> bool
    ensures { result ≡ are_within claims outputs }
{
    claims > 0 && claims <= MAX_INPUTS && outputs <= MAX_OUTPUTS
}

#[tactic(auto, unfolding(crate::specs::Calls::release_of))]
fn release_of(alloc: Global, value: &Value) -> Result<PlainCall, ShapeError>
    ensures { Gives (λ c. c) result (release_of (view value.now)) }
{
    let form = array_of(value, 5).ok_or(ShapeError::BadShape)?;
    let channel = item(form, 1).ok_or(ShapeError::BadShape)?;
    let claims: List<PlainClaim> = read_item(alloc, form, 2)?;
    let outputs: List<TxOut> = read_item(alloc, form, 3)?;
    let preimages = read_item(alloc, form, 4)?;
    if !are_within(claims.len(), outputs.len()) {
        return Err(ShapeError::BadShape);
    }
    Ok(PlainCall::Release {
        channel,
        claims,
        outputs,
        preimages,
    })
}

#[tactic(auto, unfolding(crate::specs::Calls::close_of))]
fn close_of(value: &Value) -> Option<PlainCall>
    ensures { result ≡ close_of (view value.now) }
{
    let form = array_of(value, 2)?;
    Some(PlainCall::Close {
        channel: item(form, 1)?,
    })
}

/// An array whose first item is the call's name.
impl ReadValue for PlainCall {
    ghost use Rattle.texts.specs.Calls.{call_of};

    ghost reads = { call_of };

    #[tactic(auto, unfolding(crate::specs::Calls::call_of, crate::specs::Calls::call_named))]
    fn read_value(alloc: Global, value: &Value) -> Result<PlainCall, ShapeError> {
        let name = tag_of(value).ok_or(ShapeError::BadShape)?;
        if name == "open" {
            open_of(value).ok_or(ShapeError::BadShape)
        } else if name == "step" {
            step_call_of(alloc, value)
        } else if name == "sign" {
            sign_of(value).ok_or(ShapeError::BadShape)
        } else if name == "revoke" {
            revoke_of(value).ok_or(ShapeError::BadShape)
        } else if name == "keep" {
            keep_of(alloc, value)
        } else if name == "release" {
            release_of(alloc, value)
        } else if name == "close" {
            close_of(value).ok_or(ShapeError::BadShape)
        } else {
            Err(ShapeError::BadShape)
        }
    }
}

/// An object of two members: `call` and `seat`.
impl ReadValue for PlainEntry {
    ghost use Rattle.texts.specs.Calls.{entry_of};

    ghost reads = { entry_of };

    #[tactic(auto, unfolding(crate::specs::Calls::entry_of))]
    fn read_value(alloc: Global, value: &Value) -> Result<PlainEntry, ShapeError> {
        let form = object_of(value, 2).ok_or(ShapeError::BadShape)?;
        let call = read_member(alloc, form, "call")?;
        let seat = member(form, "seat").ok_or(ShapeError::BadShape)?;
        Ok(PlainEntry { call, seat })
    }
}

// Whether the update changes the feerate.
fn is_fee(update: &Update) -> bool
    ensures { result ≡ is_fee update.now }
{
    matches!(update, Update::Fee { .. })
}

// Whether the step changes the feerate.
fn changes_fee(step: &PlainStep) -> bool
    ensures { result ≡ changes_fee step.now }
{
    match step {
        PlainStep::Own(OwnUpdate::SetFee { .. }) => true,
        PlainStep::Own(_) => false,
        PlainStep::Receive(PeerStep::Update(update)) => is_fee(update),
        PlainStep::Receive(PeerStep::CommitmentSigned(_)) => false,
    }
}

// Whether the entry's call changes the feerate.
fn has_fee(entry: &PlainEntry) -> bool
    ensures { result ≡ has_fee entry.now.call }
{
    match &entry.call {
        PlainCall::Step { step, .. } => changes_fee(step),
        _ => false,
    }
}

// Whether a call of the entries changes the feerate.
fn any_fee(history: &[PlainEntry]) -> bool
    ensures { result ≡ any_fee history.now }
{
    history.iter().any(|entry| has_fee(entry))
}

// Whether the entry's call closes a channel.
fn has_close(entry: &PlainEntry) -> bool
    ensures { result ≡ has_close entry.now.call }
{
    matches!(&entry.call, PlainCall::Close { .. })
}

// Whether a call of the entries closes a channel.
fn any_close(history: &[PlainEntry]) -> bool
    ensures { result ≡ any_close history.now }
{
    history.iter().any(|entry| has_close(entry))
}

// Whether a dump of the version has these entries.
fn is_version(version: u64, history: &[PlainEntry]) -> bool
    ensures { result ≡ is_version version history.now }
{
    if any_close(history) {
        version == 3
    } else {
        version == 2 || (version == 1 && !any_fee(history))
    }
}

/// An object of two members: `history` and `version`, which is 1, 2 or 3. In version 3 a call closes a channel, and in versions 1 and 2 none does. In version 1 no
/// call changes the feerate.
impl ReadValue for PlainDump {
    ghost use Rattle.texts.specs.Calls.{dump_of};

    ghost reads = { dump_of };

    #[tactic(auto, unfolding(crate::specs::Calls::dump_of))]
    fn read_value(alloc: Global, value: &Value) -> Result<PlainDump, ShapeError> {
        let form = object_of(value, 2).ok_or(ShapeError::BadShape)?;
        let version = member(form, "version").ok_or(ShapeError::BadShape)?;
        let history: List<PlainEntry> = read_member(alloc, form, "history")?;
        if !is_version(version, history.values()) {
            return Err(ShapeError::BadShape);
        }
        Ok(PlainDump { history })
    }
}
