//! What is asked for: outputs to spend, whose claims are accepted anew.

ghost use Rattle.std.specs.Prelude.{◌≡◌, true, length, ok_or, MatchBool, IfOk};
ghost use Rattle.json_names.specs.Repeats.{RepeatsMember};
ghost use Rattle.json_value.specs.View.{view};
ghost use Rattle.spend.specs.declared.errors.PlanError.TheVariants.{NotJson, BadClaim};
ghost use Rattle.spend.specs.Asking.{Answers, value_in, shaped, twice_in, read_in, request_in, is_within, IsWithin, asked_with, asked_in};
ghost use Rattle.plain_claims.specs.Claims.{claims_of};

use crate::errors::PlanError;
use crate::requests::Request;
use claim::Claim;
use json_names::first_repeated_member;
use json_value::{ReadError, Value};
use lists::{ByteString, List};
use plain_claims::ClaimError;
use std::alloc::{AllocError, Global};
use texts::{PlainClaim, ReadValue, ShapeError};
use tx::{MAX_BYTES, MAX_INPUTS};

/// What is asked for.
#[derive(Drop)]
pub struct Asked {
    /// Claims on the outputs to spend.
    pub claims: List<Claim>,
    /// The preimages for slots of hashes.
    pub preimages: List<[u8; 32]>,
    /// The script of the output that is paid.
    pub destination: ByteString,
    /// Satoshis for each 1,000 units of weight.
    pub feerate_per_kw: u32,
    /// The least feerate that is taken.
    pub least_feerate_per_kw: u32,
    /// The greatest feerate that is taken.
    pub most_feerate_per_kw: u32,
}

// Parses bytes as a JSON value.
fn value_in(alloc: Global, bytes: &[u8]) -> Result<Value, PlanError>
    ensures { Answers view result (ok_or (value_in bytes.now) NotJson) }
{
    match Value::from_slice(alloc, bytes) {
        Ok(value) => Ok(value),
        Err(ReadError::NoMemory) => Err(PlanError::NoMemory),
        Err(ReadError::NotJson) => Err(PlanError::NotJson),
    }
}

// Reads a value of a shape: `BadShape` where it does not have it.
fn shaped<T: ReadValue + Drop>(alloc: Global, value: &Value) -> Result<T, PlanError>
    ensures { Answers (λ r. r) result (shaped T.reads (view value.now)) }
{
    match T::read_value(alloc, value) {
        Ok(read) => Ok(read),
        Err(error) => match error {
            ShapeError::NoMemory => Err(PlanError::NoMemory),
            ShapeError::BadShape => Err(PlanError::BadShape),
        },
    }
}

// Whether one transaction can take this number of outputs, and pay this script.
fn is_within(request: &Request) -> bool
    ensures { result ≡ is_within (length request.now.claims) (length request.now.destination) }
{
    let count = request.claims.len();
    count > 0 && count <= MAX_INPUTS && request.destination.len() <= MAX_BYTES
}

// Whether some object has a name twice. The only error is that memory ran out.
fn repeats(alloc: Global, bytes: &[u8]) -> Result<bool, AllocError>
    ensures { IfOk result
        (λ b. MatchBool b (RepeatsMember bytes.now) (¬ RepeatsMember bytes.now)) }
{
    match first_repeated_member(alloc, bytes)? {
        Some(_) => Ok(true),
        None => Ok(false),
    }
}

/// What bytes spell, if they are valid JSON of a shape. `BadShape` is also where some object has a name twice.
pub fn read_in<T: ReadValue + Drop>(alloc: Global, bytes: &[u8]) -> Result<T, PlanError>
    ensures once { ¬ RepeatsMember bytes.now → Answers (λ r. r) result (read_in T.reads bytes.now) }
    ensures twice { RepeatsMember bytes.now → Answers (λ r. r) result (twice_in bytes.now) }
{
    let repeats = repeats(alloc, bytes)?;
    let value = value_in(alloc, bytes)?;
    if repeats {
        return Err(PlanError::BadShape);
    }
    shaped(alloc, &value)
}

// Reads a request that is within the limits, and in which no object has a name twice.
fn request_in(alloc: Global, bytes: &[u8]) -> Result<Request, PlanError>
    ensures once { ¬ RepeatsMember bytes.now → Answers (λ r. r) result (request_in bytes.now) }
    ensures twice { RepeatsMember bytes.now → Answers (λ r. r) result (twice_in bytes.now) }
    ensures within { IfOk result (λ r. is_within (length r.claims) (length r.destination) ≡ true) }
{
    let request: Request = read_in(alloc, bytes)?;
    if !is_within(&request) {
        return Err(PlanError::BadShape);
    }
    Ok(request)
}

// Accepts the claims anew.
#[tactic(auto, using(crate::proofs::Counts::same_count))]
fn accepted(alloc: Global, plains: List<PlainClaim>) -> Result<List<Claim>, PlanError>
    ensures value { Answers (λ claims. claims) result (ok_or (claims_of plains) BadClaim) }
    ensures count { IfOk result (λ claims. length claims ≡ length plains) }
{
    match plain_claims::claims_of(alloc, plains) {
        Ok(claims) => Ok(claims),
        Err(error) => match error {
            ClaimError::NoMemory => Err(PlanError::NoMemory),
            ClaimError::BadClaim => Err(PlanError::BadClaim),
        },
    }
}

// Accepts the claims of a request anew.
fn asked_with(alloc: Global, request: Request) -> Result<Asked, PlanError>
    requires { is_within (length request.claims) (length request.destination) ≡ true }
    ensures value { Answers (λ a. a) result (asked_with request) }
    ensures within { IfOk result (λ a. IsWithin a) }
{
    let Request {
        claims,
        preimages,
        destination,
        feerate_per_kw,
        least_feerate_per_kw,
        most_feerate_per_kw,
    } = request;
    Ok(Asked {
        claims: accepted(alloc, claims)?,
        preimages,
        destination,
        feerate_per_kw,
        least_feerate_per_kw,
        most_feerate_per_kw,
    })
}

/// What bytes ask for. Refused with the first that holds of `NotJson`, `BadShape` and `BadClaim`. `BadShape` is also for no output, for more than 4,000, for a
/// destination of more than 10,000 bytes, and where some object has a name twice.
#[tactic(auto, unfolding(crate::specs::Asking::asked_in))]
pub fn asked_in(alloc: Global, bytes: &[u8]) -> Result<Asked, PlanError>
    ensures once { ¬ RepeatsMember bytes.now → Answers (λ a. a) result (asked_in bytes.now) }
    ensures twice { RepeatsMember bytes.now → Answers (λ a. a) result (twice_in bytes.now) }
    ensures within { IfOk result (λ a. IsWithin a) }
{
    let request = request_in(alloc, bytes)?;
    asked_with(alloc, request)
}
