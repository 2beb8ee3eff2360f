// Turns plain claims into claims, which are accepted anew and never trusted.

ghost use Rattle.std.specs.Prelude.{◌≡◌};
ghost use Rattle.claim.specs.Opcodes.{ops_of};
ghost use Rattle.plain_claims.specs.Claims.{Takes, checked_of, claim_of, claims_of};

use crate::errors::ClaimError;
use claim::{AcceptError, Claim, accept};
use lists::List;
use paths::{CheckError, Checked, check};
use script::{ParseError, Script};
use std::alloc::Global;
use texts::PlainClaim;

// Parses a script.
fn script_of(alloc: Global, bytes: &[u8]) -> Result<Script, ClaimError>
    ensures { Takes result (ops_of bytes.now) }
{
    match Script::parse(alloc, bytes) {
        Ok(script) => Ok(script),
        Err(error) => match error {
            ParseError::NoMemory => Err(ClaimError::NoMemory),
            _ => Err(ClaimError::BadClaim),
        },
    }
}

// Parses a script and lists its paths.
#[tactic(auto, using(crate::proofs::Taking::none_spelt, crate::proofs::Taking::none_listed, crate::proofs::Taking::is_listed))]
fn checked_of(alloc: Global, bytes: &[u8]) -> Result<Checked, ClaimError>
    ensures { Takes result (checked_of bytes.now) }
{
    let script = script_of(alloc, bytes)?;
    match check(alloc, script) {
        Ok(checked) => Ok(checked),
        Err(error) => match error {
            CheckError::NoMemory => Err(ClaimError::NoMemory),
            _ => Err(ClaimError::BadClaim),
        },
    }
}

/// Reads and checks the script of a plain claim, and accepts the claim anew.
/// `BadClaim` where one of these is refused for another reason than memory.
pub fn claim_of(alloc: Global, plain: PlainClaim) -> Result<Claim, ClaimError>
    ensures { Takes result (claim_of plain) }
{
    let PlainClaim {
        script,
        path,
        slots,
        place,
        shell,
    } = plain;
    let checked = checked_of(alloc, script.bytes())?;
    match accept(alloc, checked, path, slots.into_vec(), place, shell) {
        Ok(claim) => Ok(claim),
        Err(error) => match error {
            AcceptError::NoMemory => Err(ClaimError::NoMemory),
            _ => Err(ClaimError::BadClaim),
        },
    }
}

/// Accepts plain claims anew, in order: `BadClaim` where one is refused.
pub fn claims_of(alloc: Global, plains: List<PlainClaim>) -> Result<List<Claim>, ClaimError>
    ensures { Takes result (claims_of plains) }
{
    let mut claims = Vec::new(alloc);
    for plain in plains.into_vec() {
        claims.push(claim_of(alloc, plain)?)?;
    }
    // They may be kept for long.
    claims.shrink_to_fit();
    Ok(List::from_vec(claims))
}
