// What the JSON object asks for.

ghost use Rattle.std.specs.Prelude.{◌≡◌, ◌≤◌, option_map, codes};
ghost use Rattle.json_value.specs.View.{view};
ghost use Rattle.serde_json.specs.Find.{get};
ghost use Rattle.texts.specs.Values.{Gives, member_of, list_of};
ghost use Rattle.spend.specs.Outputs.{output_of};
ghost use Rattle.spend.specs.Limits.{count_of, limit_or, form_of};

use crate::outputs::outputs_of;
use json_value::Value;
use lists::{ByteString, List};
use std::alloc::Global;
use texts::{FromValue, PlainClaim, ReadValue, ShapeError, member, object_of, read_member};

/// The least feerate that is taken where a request has no other limit: one satoshi for a virtual byte, the least that nodes before Bitcoin Core 29.1 pass on by default, where fees are rounded down (BOLT 3).
const LEAST_FEERATE_PER_KW: u32 = 253;

/// The greatest feerate that is taken where a request has no other limit: 1,000 satoshis for a virtual byte.
pub const MOST_FEERATE_PER_KW: u32 = 250_000;

/// What the JSON object asks for, as it was read. Nothing of it is tested yet.
#[derive(Drop)]
pub struct Request {
    /// The outputs to spend, each as a claim.
    pub claims: List<PlainClaim>,
    /// The preimages for slots of hashes.
    pub preimages: List<[u8; 32]>,
    /// The script of the output that is paid.
    pub destination: ByteString,
    /// Satoshis for each 1,000 units of weight.
    pub feerate_per_kw: u32,
    /// The least feerate that is taken.
    pub least_feerate_per_kw: u32,
    /// The greatest feerate that is taken.
    pub most_feerate_per_kw: u32,
}

// How many members have a name.
fn count_of(form: &Value, name: &str) -> usize
    ensures value { result ≡ count_of (get name.now (view form.now)) }
    ensures bound { result ≤ 1 }
{
    match form.member(name) {
        Some(_) => 1,
        None => 0,
    }
}

// A limit, or what holds without it.
fn limit_or(without: u32, form: &Value, name: &str) -> Option<u32>
    ensures { result ≡ limit_or without (get name.now (view form.now)) }
{
    match form.member(name) {
        Some(value) => u32::from_value(value),
        None => Some(without),
    }
}

// An object of four members and of the limits of the feerate, which may be left out.
fn form_of(value: &Value) -> Option<&Value>
    ensures { option_map (λ v. view v.now) result ≡ form_of (view value.now) }
{
    let least = count_of(value, "least_feerate_per_kw");
    let most = count_of(value, "most_feerate_per_kw");
    object_of(value, 4 + least + most)
}

// Reads the outputs.
fn claims_of(alloc: Global, form: &Value) -> Result<List<PlainClaim>, ShapeError>
    ensures { Gives (λ c. c) result
        (member_of (codes "outputs") (list_of output_of) (view form.now)) }
{
    let Some(outputs) = form.member("outputs") else {
        return Err(ShapeError::BadShape);
    };
    let Some(values) = outputs.as_array() else {
        return Err(ShapeError::BadShape);
    };
    Ok(List::from_vec(outputs_of(alloc, values)?))
}

/// An object of the members `destination`, `feerate_per_kw`, `outputs` and `preimages`, and at will `least_feerate_per_kw` and `most_feerate_per_kw`.
impl ReadValue for Request {
    ghost use Rattle.spend.specs.Requests.{request_of};

    ghost reads = { request_of };

    #[tactic(auto, unfolding(crate::specs::Requests::request_of))]
    fn read_value(alloc: Global, value: &Value) -> Result<Request, ShapeError> {
        let Some(form) = form_of(value) else {
            return Err(ShapeError::BadShape);
        };
        let Some(least_feerate_per_kw) = limit_or(
            LEAST_FEERATE_PER_KW,
            form,
            "least_feerate_per_kw",
        ) else {
            return Err(ShapeError::BadShape);
        };
        let Some(most_feerate_per_kw) = limit_or(MOST_FEERATE_PER_KW, form, "most_feerate_per_kw")
        else {
            return Err(ShapeError::BadShape);
        };
        let Some(feerate_per_kw) = member::<u32>(form, "feerate_per_kw") else {
            return Err(ShapeError::BadShape);
        };
        Ok(Request {
            destination: read_member(alloc, form, "destination")?,
            preimages: read_member(alloc, form, "preimages")?,
            claims: claims_of(alloc, form)?,
            feerate_per_kw,
            least_feerate_per_kw,
            most_feerate_per_kw,
        })
    }
}
