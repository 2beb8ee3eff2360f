// What this side can claim where a commitment of the peer closes the channel.

ghost use Rattle.std.specs.Prelude.{◌≡◌, ◌++◌, [], map, IfOk, OnOk};
ghost use Rattle.std.specs.List.{cons_option, filter_map};
ghost use Rattle.sha2.specs.Sha256.{sha256};
ghost use Rattle.trace.specs.Claims.{local_claim, remote_claim, htlc_way, htlc_claim, claims_of};

use commit::{Amounts, Direction, satoshis};
use digest::sha256;
use std::alloc::{AllocError, Global};
use terms::Htlc;

/// Which commitment of the peer closes the channel.
#[derive(Clone, Copy, Drop)]
pub enum Close {
    /// One that is not revoked.
    Newest,
    /// A revoked one, whose owner has to wait this many blocks for its own outputs.
    Revoked(u16),
}

/// Which output of the commitment is claimed.
#[derive(Clone, Copy, Drop)]
pub enum OutputName {
    /// The peer's own balance.
    ToLocal,
    /// This side's balance.
    ToRemote,
    /// This side's HTLC of this id.
    Offered(u64),
    /// The peer's HTLC of this id.
    Received(u64),
}

/// By what it is claimed (BOLT 5).
#[derive(Clone, Copy, Drop)]
pub enum Way {
    /// By this side's key alone.
    Payment,
    /// By the preimage, which the book knows.
    Preimage,
    /// By the lock time at which the HTLC expires.
    Timeout(u32),
    /// By the secret of the revoked commitment.
    Penalty,
}

/// How long nobody else can take the output.
#[derive(Clone, Copy, Drop)]
pub enum Alone {
    /// As long as it stands.
    Always,
    /// Until the output is this many blocks old.
    Blocks(u16),
    /// Up to the block of this height: the peer's HTLC-timeout transaction has this lock time.
    Until(u32),
    /// While the peer lacks the preimage.
    NoPreimage,
}

/// An output that this side can claim.
#[derive(Clone, Copy, Drop)]
pub struct Claimable {
    pub output: OutputName,
    /// Satoshis.
    pub value: u64,
    pub way: Way,
    pub alone: Alone,
}

/// The hashes of preimages. The only error is that memory ran out.
pub fn hashes_of(alloc: Global, preimages: &[[u8; 32]]) -> Result<Vec<[u8; 32]>, AllocError>
    ensures { IfOk result (λ v. v.items ≡ map sha256 preimages.now) }
{
    let mut hashes = Vec::new(alloc);
    for preimage in preimages {
        hashes.push(sha256(preimage))?;
    }
    Ok(hashes)
}

// The claim on the peer's own balance, which is open where the commitment is revoked.
fn local_claim(close: Close, to_local: Option<u64>) -> Option<Claimable>
    ensures { result ≡ local_claim close to_local }
{
    match close {
        Close::Newest => None,
        Close::Revoked(delay_blocks) => match to_local {
            None => None,
            Some(value) => Some(Claimable {
                output: OutputName::ToLocal,
                value,
                way: Way::Penalty,
                alone: Alone::Blocks(delay_blocks),
            }),
        },
    }
}

// The claim on this side's balance.
fn remote_claim(to_remote: Option<u64>) -> Option<Claimable>
    ensures { result ≡ remote_claim to_remote }
{
    match to_remote {
        None => None,
        Some(value) => Some(Claimable {
            output: OutputName::ToRemote,
            value,
            way: Way::Payment,
            alone: Alone::Always,
        }),
    }
}

// By what an HTLC is claimed, where it can be: the peer's by its preimage, this side's once it expired.
fn htlc_way(close: Close, hashes: &[[u8; 32]], direction: Direction, htlc: &Htlc) -> Option<Way>
    ensures { result ≡ htlc_way close hashes.now direction htlc.now }
{
    match close {
        Close::Revoked(_) => Some(Way::Penalty),
        Close::Newest => match direction {
            Direction::Received => Some(Way::Timeout(htlc.expiry_height)),
            Direction::Offered => {
                if hashes.contains(&htlc.hash) {
                    Some(Way::Preimage)
                } else {
                    None
                }
            }
        },
    }
}

// The claim on an HTLC, whose direction is the peer's.
fn htlc_claim(
    close: Close,
    hashes: &[[u8; 32]],
    direction: Direction,
    htlc: &Htlc,
) -> Option<Claimable>
    ensures { result ≡ htlc_claim close hashes.now direction htlc.now }
{
    let way = match htlc_way(close, hashes, direction, htlc) {
        Some(way) => way,
        None => return None,
    };
    let (output, alone) = match direction {
        Direction::Offered => (
            OutputName::Received(htlc.id),
            Alone::Until(htlc.expiry_height),
        ),
        Direction::Received => (OutputName::Offered(htlc.id), Alone::NoPreimage),
    };
    Some(Claimable {
        output,
        value: satoshis(htlc.amount_msat),
        way,
        alone,
    })
}

// Puts a claim at the end, where there is one.
fn push_some(claims: &mut Vec<Claimable>, claim: Option<Claimable>) -> Result<(), AllocError>
    ensures { OnOk result (claims.new.items ≡ claims.old.items ++ cons_option claim []) }
{
    if let Some(claim) = claim {
        claims.push(claim)?;
    }
    Ok(())
}

// Puts the claims on HTLCs at the end.
fn push_htlcs(
    claims: &mut Vec<Claimable>,
    close: Close,
    hashes: &[[u8; 32]],
    direction: Direction,
    htlcs: &[Htlc],
) -> Result<(), AllocError>
    ensures { OnOk result (claims.new.items ≡ claims.old.items
        ++ filter_map (htlc_claim close hashes.now direction) htlcs.now) }
{
    for htlc in htlcs {
        push_some(claims, htlc_claim(close, hashes, direction, htlc))?;
    }
    Ok(())
}

/// The outputs that this side can claim where a commitment of the peer with these amounts closes the channel, and preimages of these hashes are known: the peer's balance,
/// this side's, the HTLCs that the peer offered, and this side's own. The only error is that memory ran out.
pub fn claims_of(
    alloc: Global,
    close: Close,
    hashes: &[[u8; 32]],
    amounts: &Amounts,
) -> Result<Vec<Claimable>, AllocError>
    ensures { IfOk result (λ v. v.items ≡ claims_of close hashes.now amounts.now) }
{
    let mut claims = Vec::new(alloc);
    push_some(&mut claims, local_claim(close, amounts.to_local))?;
    push_some(&mut claims, remote_claim(amounts.to_remote))?;
    let (offered, received) = (amounts.offered.values(), amounts.received.values());
    push_htlcs(&mut claims, close, hashes, Direction::Offered, offered)?;
    push_htlcs(&mut claims, close, hashes, Direction::Received, received)?;
    Ok(claims)
}
