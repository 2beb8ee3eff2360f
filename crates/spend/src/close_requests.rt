// What the JSON object about an unrevoked commitment asks.

ghost use Rattle.std.specs.Prelude.{◌≡◌, codes};
ghost use Rattle.json_value.specs.View.{view};
ghost use Rattle.texts.specs.Values.{Gives, member_of, list_of, bytes_of_len};
ghost use Rattle.spend.specs.CloseRequests.{whose_of, height_of};

use crate::revoked_requests::{Commitment, commitment_of, member_htlcs, member_transaction};
use json_value::Value;
use lists::List;
use revoked::RevokedHtlc;
use std::alloc::Global;
use texts::{FromValue, ReadValue, ShapeError, member, object_of, read_member};
use tx::Tx;
use unilateral::Whose;

/// A commitment that closed a channel, and a transaction that may have outputs of it.
#[derive(Drop)]
pub struct CloseRequest {
    pub commitment: Commitment,
    /// Whose commitment it is.
    pub whose: Whose,
    /// The commitment's feerate.
    pub feerate_per_kw: u32,
    /// The HTLCs of the commitment.
    pub htlcs: List<RevokedHtlc>,
    /// The preimages that are known.
    pub preimages: List<[u8; 32]>,
    /// The transaction that was seen.
    pub transaction: Tx,
    /// The height of the block that has it, if it is in one.
    pub confirmed_height: Option<u32>,
}

/// Reads whose commitment a request is about.
pub fn member_whose(form: &Value) -> Option<Whose>
    ensures { result ≡ member_of (codes "whose") whose_of (view form.now) }
{
    let name = form.member("whose")?.as_str()?;
    if name == "own" {
        Some(Whose::Ours)
    } else if name == "peer" {
        Some(Whose::Theirs)
    } else {
        None
    }
}

/// Reads the height of a request's block, or null.
pub fn member_height(form: &Value) -> Option<Option<u32>>
    ensures { result ≡ member_of (codes "confirmed_height") height_of (view form.now) }
{
    let value = form.member("confirmed_height")?;
    if value.is_null() {
        return Some(None);
    }
    match u32::from_value(value) {
        Some(height) => Some(Some(height)),
        None => None,
    }
}

/// An object of ten members: `channel_type`, `confirmed_height`, `delay_blocks`, `feerate_per_kw`, `funding_keys`, `htlcs`, `keys`, `preimages`, `transaction` and `whose`.
impl ReadValue for CloseRequest {
    ghost use Rattle.spend.specs.CloseRequests.{close_request_of};

    ghost reads = { close_request_of };

    #[tactic(auto, unfolding(crate::specs::CloseRequests::close_request_of))]
    fn read_value(alloc: Global, value: &Value) -> Result<CloseRequest, ShapeError> {
        let Some(form) = object_of(value, 10) else {
            return Err(ShapeError::BadShape);
        };
        let Some(commitment) = commitment_of(form) else {
            return Err(ShapeError::BadShape);
        };
        let Some(whose) = member_whose(form) else {
            return Err(ShapeError::BadShape);
        };
        let Some(feerate_per_kw) = member::<u32>(form, "feerate_per_kw") else {
            return Err(ShapeError::BadShape);
        };
        let Some(confirmed_height) = member_height(form) else {
            return Err(ShapeError::BadShape);
        };
        Ok(CloseRequest {
            commitment,
            whose,
            feerate_per_kw,
            htlcs: member_htlcs(alloc, form)?,
            preimages: read_member(alloc, form, "preimages")?,
            transaction: member_transaction(alloc, form)?,
            confirmed_height,
        })
    }
}
