//! Messages and steps of a channel, as read from JSON.

ghost use Rattle.std.specs.Prelude.{◌≡◌};
ghost use Rattle.json_value.specs.View.{view};
ghost use Rattle.texts.specs.Values.{Gives};
ghost use Rattle.texts.specs.Steps.{signature_in, revocation_in, own_offer_of, own_fulfil_of, own_fail_of, own_fee_of, own_named, receive_of};

use crate::allocating::{ReadValue, read_item};
use crate::errors::ShapeError;
use crate::values::{FromValue, array_of, item, name_at, tag_of};
use json_value::Value;
use sighash::Token;
use std::alloc::Global;
use updates::{OwnUpdate, PeerStep, Revocation, Tokens, Update};

/// A step of a channel as read from JSON.
#[derive(Debug, Drop)]
pub enum PlainStep {
    /// An update of this side.
    Own(OwnUpdate),
    /// A message of the peer.
    Receive(PeerStep),
}

impl ReadValue for Token {
    ghost use Rattle.texts.specs.Keys.{token_bytes_of};

    ghost reads = { token_bytes_of };

    fn read_value(_alloc: Global, value: &Value) -> Result<Token, ShapeError> {
        Token::from_value(value).ok_or(ShapeError::BadShape)
    }
}

#[tactic(auto, unfolding(crate::specs::Steps::signature_in))]
fn signature_in(alloc: Global, value: &Value) -> Result<Tokens, ShapeError>
    ensures { Gives (λ s. s) result (signature_in (view value.now)) }
{
    let form = array_of(value, 3).ok_or(ShapeError::BadShape)?;
    let commitment = item(form, 1).ok_or(ShapeError::BadShape)?;
    Ok(Tokens {
        commitment,
        htlcs: read_item(alloc, form, 2)?,
    })
}

#[tactic(auto, unfolding(crate::specs::Steps::revocation_in))]
fn revocation_in(value: &Value) -> Option<Revocation>
    ensures { result ≡ revocation_in (view value.now) }
{
    let form = array_of(value, 3)?;
    Some(Revocation {
        secret: item(form, 1)?,
        next_point: item(form, 2)?,
    })
}

/// An array of `revoke`, the secret and the point.
impl FromValue for Revocation {
    ghost use Rattle.texts.specs.Steps.{revocation_of};

    ghost reads = { revocation_of };

    #[tactic(auto, unfolding(crate::specs::Steps::revocation_of))]
    fn from_value(value: &Value) -> Option<Revocation> {
        if tag_of(value)? == "revoke" {
            revocation_in(value)
        } else {
            None
        }
    }
}

/// An array of `signed`, the token on the commitment and the array of those on its HTLC transactions; or an update.
impl ReadValue for PeerStep {
    ghost use Rattle.texts.specs.Steps.{received_of};

    ghost reads = { received_of };

    #[tactic(auto, unfolding(crate::specs::Steps::received_of, crate::specs::Steps::received_named))]
    fn read_value(alloc: Global, value: &Value) -> Result<PeerStep, ShapeError> {
        if tag_of(value).ok_or(ShapeError::BadShape)? == "signed" {
            Ok(PeerStep::CommitmentSigned(signature_in(alloc, value)?))
        } else {
            let update = Update::from_value(value).ok_or(ShapeError::BadShape)?;
            Ok(PeerStep::Update(update))
        }
    }
}

#[tactic(auto, unfolding(crate::specs::Steps::own_offer_of))]
fn own_offer_of(value: &Value) -> Option<OwnUpdate>
    ensures { result ≡ own_offer_of (view value.now) }
{
    let form = array_of(value, 6)?;
    Some(OwnUpdate::Offer {
        amount_msat: item(form, 3)?,
        hash: item(form, 4)?,
        expiry_height: item(form, 5)?,
    })
}

#[tactic(auto, unfolding(crate::specs::Steps::own_fulfil_of))]
fn own_fulfil_of(value: &Value) -> Option<OwnUpdate>
    ensures { result ≡ own_fulfil_of (view value.now) }
{
    let form = array_of(value, 5)?;
    Some(OwnUpdate::Fulfil {
        id: item(form, 3)?,
        preimage: item(form, 4)?,
    })
}

#[tactic(auto, unfolding(crate::specs::Steps::own_fail_of))]
fn own_fail_of(value: &Value) -> Option<OwnUpdate>
    ensures { result ≡ own_fail_of (view value.now) }
{
    let form = array_of(value, 4)?;
    Some(OwnUpdate::Fail { id: item(form, 3)? })
}

#[tactic(auto, unfolding(crate::specs::Steps::own_fee_of))]
fn own_fee_of(value: &Value) -> Option<OwnUpdate>
    ensures { result ≡ own_fee_of (view value.now) }
{
    let form = array_of(value, 4)?;
    Some(OwnUpdate::SetFee {
        feerate_per_kw: item(form, 3)?,
    })
}

/// Reads an update of one's own by its name. Its fields stand from the fourth item of the array on.
#[tactic(auto, unfolding(crate::specs::Steps::own_named))]
pub fn own_named(name: &str, value: &Value) -> Option<OwnUpdate>
    ensures { result ≡ own_named name.now (view value.now) }
{
    if name == "offer" {
        own_offer_of(value)
    } else if name == "fulfil" {
        own_fulfil_of(value)
    } else if name == "fail" {
        own_fail_of(value)
    } else if name == "fee" {
        own_fee_of(value)
    } else {
        None
    }
}

#[tactic(auto, unfolding(crate::specs::Steps::receive_of))]
fn receive_of(alloc: Global, value: &Value) -> Result<PlainStep, ShapeError>
    ensures { Gives (λ s. s) result (receive_of (view value.now)) }
{
    let form = array_of(value, 4).ok_or(ShapeError::BadShape)?;
    Ok(PlainStep::Receive(read_item(alloc, form, 3)?))
}

/// An array of `step`, the channel and the step's name: `offer`, `fulfil`, `fail` or `fee` and its fields, or `receive` and a message.
impl ReadValue for PlainStep {
    ghost use Rattle.texts.specs.Steps.{step_of};

    ghost reads = { step_of };

    #[tactic(auto, unfolding(crate::specs::Steps::step_of, crate::specs::Steps::step_named))]
    fn read_value(alloc: Global, value: &Value) -> Result<PlainStep, ShapeError> {
        let name = name_at(value, 2).ok_or(ShapeError::BadShape)?;
        if name == "receive" {
            receive_of(alloc, value)
        } else {
            let update = own_named(name, value).ok_or(ShapeError::BadShape)?;
            Ok(PlainStep::Own(update))
        }
    }
}
