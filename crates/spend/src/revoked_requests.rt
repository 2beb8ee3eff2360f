// What the JSON object about a revoked commitment asks.

ghost use Rattle.std.specs.Prelude.{◌≡◌, codes};
ghost use Rattle.json_value.specs.View.{view, items_view};
ghost use Rattle.texts.specs.Values.{Gives, each_of, list_of, member_of};
ghost use Rattle.spend.specs.RevokedRequests.{channel_type_of, keys_of, keys_of_funding, funding_keys_of, commitment_of, direction_of, expiry_of, htlc_of, transaction_in, transaction_of};

use json_value::Value;
use lists::List;
use revoked::{ChannelType, CommitmentKeys, Direction, Expiry, RevokedHtlc};
use std::alloc::Global;
use texts::{FromValue, ReadValue, ShapeError, bytes_of, member, object_of};
use tx::{DecodeError, Tx, decode, decode_stripped};
use unilateral::FundingKeys;

/// A commitment without its HTLCs.
#[derive(Clone, Copy)]
pub struct Commitment {
    /// The type of the channel.
    pub channel_type: ChannelType,
    /// The keys of the commitment.
    pub keys: CommitmentKeys,
    /// The delay of to_local and of HTLC transactions' outputs, in blocks.
    pub delay_blocks: u16,
    /// The keys of the funding output, if anchors are to be named.
    pub funding_keys: Option<FundingKeys>,
}

/// A revoked commitment, and a transaction that may have outputs of it.
#[derive(Drop)]
pub struct RevokedRequest {
    pub commitment: Commitment,
    /// The HTLCs of the commitment.
    pub htlcs: List<RevokedHtlc>,
    /// The transaction that was seen.
    pub transaction: Tx,
    /// The height of the block that has it, or of the next one.
    pub confirmed_height: u32,
}

/// Reads the type of the channel of a request (BOLT 9, without `option_`).
pub fn member_channel_type(form: &Value) -> Option<ChannelType>
    ensures { result ≡ member_of (codes "channel_type") channel_type_of (view form.now) }
{
    let name = form.member("channel_type")?.as_str()?;
    if name == "static_remotekey" {
        Some(ChannelType::StaticRemoteKey)
    } else if name == "anchors" {
        Some(ChannelType::Anchors)
    } else {
        None
    }
}

/// Reads the keys of the commitment of a request, an object of five members.
#[tactic(auto, unfolding(crate::specs::RevokedRequests::keys_of))]
pub fn member_keys(form: &Value) -> Option<CommitmentKeys>
    ensures { result ≡ member_of (codes "keys") keys_of (view form.now) }
{
    let form = object_of(form.member("keys")?, 5)?;
    Some(CommitmentKeys {
        revocation: member(form, "revocation")?,
        delayed: member(form, "delayed")?,
        local_htlc: member(form, "local_htlc")?,
        remote_htlc: member(form, "remote_htlc")?,
        remote: member(form, "remote")?,
    })
}

// Reads the keys of the funding output, an object of two members.
#[tactic(auto, unfolding(crate::specs::RevokedRequests::keys_of_funding))]
fn keys_of_funding(value: &Value) -> Option<FundingKeys>
    ensures { result ≡ keys_of_funding (view value.now) }
{
    let form = object_of(value, 2)?;
    Some(FundingKeys {
        ours: member(form, "own")?,
        peers: member(form, "peer")?,
    })
}

/// Reads the keys of the funding output of a request, or null.
pub fn member_funding_keys(form: &Value) -> Option<Option<FundingKeys>>
    ensures { result ≡ member_of (codes "funding_keys") funding_keys_of (view form.now) }
{
    let value = form.member("funding_keys")?;
    if value.is_null() {
        return Some(None);
    }
    match keys_of_funding(value) {
        Some(keys) => Some(Some(keys)),
        None => None,
    }
}

/// Reads a commitment without its HTLCs: four members of a request.
#[tactic(auto, unfolding(crate::specs::RevokedRequests::commitment_of))]
pub fn commitment_of(form: &Value) -> Option<Commitment>
    ensures { result ≡ commitment_of (view form.now) }
{
    Some(Commitment {
        channel_type: member_channel_type(form)?,
        keys: member_keys(form)?,
        delay_blocks: member(form, "delay_blocks")?,
        funding_keys: member_funding_keys(form)?,
    })
}

// Reads a direction, as the owner of the commitment sees it.
fn direction_of(value: &Value) -> Option<Direction>
    ensures { result ≡ direction_of (view value.now) }
{
    let name = value.as_str()?;
    if name == "offered" {
        Some(Direction::Offered)
    } else if name == "received" {
        Some(Direction::Received)
    } else {
        None
    }
}

// Reads a height.
#[tactic(auto, using(crate::proofs::Expiries::expiry_read, crate::proofs::Expiries::no_expiry))]
fn expiry_of(value: &Value) -> Option<Expiry>
    ensures { result ≡ expiry_of (view value.now) }
{
    let height = u32::from_value(value)?;
    match Expiry::new(height) {
        Some(expiry) => Some(expiry),
        None => None,
    }
}

/// Reads an HTLC, an object of three members.
#[tactic(auto, unfolding(crate::specs::RevokedRequests::htlc_of))]
pub fn htlc_of(value: &Value) -> Option<RevokedHtlc>
    ensures { result ≡ htlc_of (view value.now) }
{
    let form = object_of(value, 3)?;
    Some(RevokedHtlc {
        direction: direction_of(form.member("direction")?)?,
        hash: member(form, "hash")?,
        expiry: expiry_of(form.member("expiry_height")?)?,
    })
}

// Reads HTLCs, in order.
fn each_htlc(alloc: Global, values: &[Value]) -> Result<Vec<RevokedHtlc>, ShapeError>
    ensures { Gives (λ xs. xs.items) result (each_of htlc_of (items_view values.now)) }
{
    let mut htlcs = Vec::new(alloc);
    for value in values {
        htlcs.push(htlc_of(value).ok_or(ShapeError::BadShape)?)?;
    }
    Ok(htlcs)
}

// The transaction that bytes are, with or without witnesses.
fn transaction_in(alloc: Global, bytes: &[u8]) -> Result<Tx, ShapeError>
    ensures { Gives (λ t. t) result (transaction_in bytes.now) }
{
    match decode(alloc, bytes) {
        Ok(tx) => return Ok(tx),
        Err(DecodeError::NoMemory) => return Err(ShapeError::NoMemory),
        Err(_) => {}
    }
    match decode_stripped(alloc, bytes) {
        Ok(tx) => Ok(tx),
        Err(DecodeError::NoMemory) => Err(ShapeError::NoMemory),
        Err(_) => Err(ShapeError::BadShape),
    }
}

/// Reads the HTLCs of a request.
pub fn member_htlcs(alloc: Global, form: &Value) -> Result<List<RevokedHtlc>, ShapeError>
    ensures { Gives (λ xs. xs) result
        (member_of (codes "htlcs") (list_of htlc_of) (view form.now)) }
{
    let Some(value) = form.member("htlcs") else {
        return Err(ShapeError::BadShape);
    };
    let Some(values) = value.as_array() else {
        return Err(ShapeError::BadShape);
    };
    Ok(List::from_vec(each_htlc(alloc, values)?))
}

/// Reads the transaction of a request, in hexadecimal.
pub fn member_transaction(alloc: Global, form: &Value) -> Result<Tx, ShapeError>
    ensures { Gives (λ t. t) result
        (member_of (codes "transaction") transaction_of (view form.now)) }
{
    let Some(value) = form.member("transaction") else {
        return Err(ShapeError::BadShape);
    };
    let bytes = bytes_of(alloc, value)?;
    transaction_in(alloc, &bytes)
}

/// An object of seven members: `channel_type`, `confirmed_height`, `delay_blocks`, `funding_keys`, `htlcs`, `keys` and `transaction`.
impl ReadValue for RevokedRequest {
    ghost use Rattle.spend.specs.RevokedRequests.{revoked_request_of};

    ghost reads = { revoked_request_of };

    #[tactic(auto, unfolding(crate::specs::RevokedRequests::revoked_request_of))]
    fn read_value(alloc: Global, value: &Value) -> Result<RevokedRequest, ShapeError> {
        let Some(form) = object_of(value, 7) else {
            return Err(ShapeError::BadShape);
        };
        let Some(commitment) = commitment_of(form) else {
            return Err(ShapeError::BadShape);
        };
        let Some(confirmed_height) = member::<u32>(form, "confirmed_height") else {
            return Err(ShapeError::BadShape);
        };
        Ok(RevokedRequest {
            commitment,
            htlcs: member_htlcs(alloc, form)?,
            transaction: member_transaction(alloc, form)?,
            confirmed_height,
        })
    }
}
