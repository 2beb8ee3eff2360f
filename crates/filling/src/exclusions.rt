// What excludes claims and outputs from one transaction.

ghost use Rattle.std.specs.Prelude.{◌≡◌, map, IfOk, length};
ghost use Rattle.tx.specs.Spelling.{outpoint as spelt_outpoint};
ghost use Rattle.filling.specs.Refusals.{is_fixed, has_fixed, are_mixed, has_repeat, share_outpoint, total_claimed, do_exceed};

use claim::{Claim, OutPoint, Shell};
use std::alloc::{AllocError, Global};
use std::collections::BTreeSet;
use tx::{TxOut, total_value};

// Whether the shell is a fixed transaction.
fn is_fixed(shell: &Shell) -> bool
    ensures { result ≡ is_fixed shell.now }
{
    match shell {
        Shell::Open => false,
        Shell::Fixed(_) => true,
    }
}

/// Whether a claim has a fixed transaction.
pub(crate) fn has_fixed(claims: &[&Claim]) -> bool
    ensures { result ≡ has_fixed (map (λ c. c.now) claims.now) }
{
    for claim in claims {
        if is_fixed(claim.shell()) {
            return true;
        }
    }
    false
}

/// Whether a claim with a fixed transaction is not alone.
pub(crate) fn are_mixed(claims: &[&Claim]) -> bool
    ensures { result ≡ are_mixed (map (λ c. c.now) claims.now) }
{
    claims.len() > 1 && has_fixed(claims)
}

// The bytes of an outpoint (BIP 144): the txid, and the index in four bytes, little-endian.
#[tactic(auto, unfolding(tx::specs::Spelling::outpoint, tx::specs::Spelling::number))]
fn outpoint_bytes(outpoint: &OutPoint) -> [u8; 36]
    ensures { result ≡ spelt_outpoint outpoint.now }
{
    let mut bytes = [0; 36];
    bytes[..32].copy_from_slice(&outpoint.txid);
    bytes[32..].copy_from_slice(&outpoint.index.to_le_bytes());
    bytes
}

/// Whether two claims spend the same outpoint. The time is O(n log n) for n claims.
pub(crate) fn share_outpoint(alloc: Global, claims: &[&Claim]) -> Result<bool, AllocError>
    ensures { IfOk result (λ b. b ≡ share_outpoint (map (λ c. c.now) claims.now)) }
{
    let mut seen = BTreeSet::new(alloc);
    for claim in claims {
        let bytes = outpoint_bytes(&claim.outpoint());
        if seen.contains(&bytes) {
            return Ok(true);
        }
        seen.insert(bytes)?;
    }
    Ok(false)
}

/// The satoshis of the claimed outputs together. The sum never overflows.
pub fn total_claimed(claims: &[&Claim]) -> u128
    ensures { result ≡ total_claimed (map (λ c. c.now) claims.now) }
{
    let mut total = 0;
    for claim in claims {
        total += u128::from(claim.place().value);
    }
    total
}

/// Whether the outputs of open claims are worth more than the claimed outputs.
pub(crate) fn do_exceed(claims: &[&Claim], outputs: &[TxOut]) -> bool
    ensures { result ≡ do_exceed (map (λ c. c.now) claims.now) outputs.now }
{
    !has_fixed(claims) && total_claimed(claims) < total_value(outputs)
}
