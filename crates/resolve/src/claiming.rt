// The claims that are due other than penalties.

ghost use Rattle.std.specs.Prelude.{◌≡◌, ◌<◌, IfOk};
ghost use Rattle.script.specs.declared.limits.TheConstants.{LOCKTIME_THRESHOLD as locktime_threshold};
ghost use Rattle.script.specs.Token.{token_of};
ghost use Rattle.sighash.specs.Programs.{script_hash_program};
ghost use Rattle.commit.specs.Outputs.{to_local_script as to_local_script_of, htlc_script as htlc_script_of};
ghost use Rattle.commit.specs.Keys.{bytes_of};
ghost use Rattle.commit.specs.Commitments.{htlc_tx_of};
ghost use Rattle.commit.specs.Signing.{htlc_digest};
ghost use Rattle.penalty.specs.Sets.{IsClaimOn};
ghost use Rattle.resolve.specs.Due.{can_time_out, can_pay, is_owners, is_peers, delayed_on, direct_on, second_stage_on};
ghost use Rattle.resolve.specs.Kinds.{direct_kind_of, second_stage_kind_of, IsDirect, IsSecondStage, IsHtlcPlace};

use crate::known_preimages::KnownPreimages;
use claim::{Claim, Place, Shell};
use commit::{Commitment, CommitmentKeys, Direction, HtlcOutput};
use digest::{hash160, ripemd160};
use forms::{ClaimKind, Patterns};
use penalty::claiming::{claim_of, htlc_script, to_local_script};
use sighash::Token;
use std::alloc::{AllocError, Global};
use terms::Htlc;
use tx::Tx;

// Whether a timeout of an HTLC under these keys is accepted.
fn can_time_out(keys: &CommitmentKeys) -> bool
    ensures { result ≡ can_time_out (bytes_of keys.now) }
{
    hash160(&keys.revocation.bytes) != hash160(&[])
}

// Whether a preimage is accepted for an HTLC under these keys.
fn can_pay(keys: &CommitmentKeys, htlc: &Htlc) -> bool
    ensures { result ≡ can_pay (bytes_of keys.now) htlc.now }
{
    hash160(&keys.revocation.bytes) != ripemd160(&htlc.hash)
}

/// Whether the owner of a commitment may claim an HTLC of it.
pub(crate) fn is_owners(
    known: &KnownPreimages,
    keys: &CommitmentKeys,
    direction: Direction,
    htlc: &Htlc,
) -> bool
    ensures { result ≡ is_owners known.now (bytes_of keys.now) direction htlc.now }
{
    match direction {
        Direction::Offered => can_time_out(keys),
        Direction::Received => known.has(&htlc.hash) && can_pay(keys, htlc),
    }
}

/// Whether the owner's peer may claim an HTLC.
pub(crate) fn is_peers(
    known: &KnownPreimages,
    keys: &CommitmentKeys,
    direction: Direction,
    htlc: &Htlc,
) -> bool
    ensures { result ≡ is_peers known.now (bytes_of keys.now) direction htlc.now }
{
    match direction {
        Direction::Offered => known.has(&htlc.hash) && can_pay(keys, htlc),
        Direction::Received => can_time_out(keys),
    }
}

/// The owner's claim on an output of the form of to_local. The only error is that memory ran out.
pub(crate) fn delayed_on(
    alloc: Global,
    patterns: &Patterns,
    commitment: &Commitment,
    place: Place,
) -> Result<Claim, AllocError>
    requires { place.program ≡ script_hash_program
        (to_local_script_of commitment.now.delay_blocks commitment.now.keys) }
    ensures { IfOk result (IsClaimOn (delayed_on commitment.now place)) }
{
    let keys = commitment.keys();
    let checked = to_local_script(alloc, patterns, keys, commitment.delay_blocks())?;
    let kind = ClaimKind::Delayed {
        delayed: keys.delayed,
    };
    claim_of(alloc, &kind, checked, place, Shell::Open)
}

// The kind of the peer's claim on an HTLC.
fn direct_kind(keys: &CommitmentKeys, direction: Direction, htlc: &Htlc) -> ClaimKind
    ensures { result ≡ direct_kind_of keys.now direction htlc.now }
{
    let remote = keys.remote_htlc;
    match direction {
        Direction::Offered => ClaimKind::DirectPreimage {
            payment_hash: htlc.hash,
            remote,
        },
        Direction::Received => ClaimKind::DirectTimeout { remote },
    }
}

/// The claim of the owner's peer on an HTLC's output. The only error is that memory ran out.
pub(crate) fn direct_on(
    alloc: Global,
    patterns: &Patterns,
    commitment: &Commitment,
    direction: Direction,
    htlc: &Htlc,
    place: Place,
) -> Result<Claim, AllocError>
    requires open { IsDirect commitment.now.keys direction htlc.now }
    requires height { htlc.now.expiry_height < locktime_threshold }
    requires program { place.program ≡ script_hash_program
        (htlc_script_of commitment.now.keys direction htlc.now) }
    ensures { IfOk result (IsClaimOn (direct_on commitment.now direction htlc.now place)) }
{
    let keys = commitment.keys();
    let checked = htlc_script(alloc, patterns, keys, direction, htlc)?;
    let kind = direct_kind(keys, direction, htlc);
    claim_of(alloc, &kind, checked, place, Shell::Open)
}

// The kind of the owner's claim on an HTLC, with the peer's token.
fn second_stage_kind(
    keys: &CommitmentKeys,
    direction: Direction,
    htlc: &Htlc,
    remote_token: Token,
) -> ClaimKind
    ensures { result ≡ second_stage_kind_of keys.now direction htlc.now remote_token }
{
    let local = keys.local_htlc;
    match direction {
        Direction::Offered => ClaimKind::HtlcTimeout {
            local,
            remote_token,
        },
        Direction::Received => ClaimKind::HtlcSuccess {
            payment_hash: htlc.hash,
            local,
            remote_token,
        },
    }
}

/// The owner's claim on an HTLC's output by its HTLC transaction, with the peer's token on it. The only error is that memory ran out.
pub(crate) fn second_stage_on(
    alloc: Global,
    patterns: &Patterns,
    commitment: &Commitment,
    htlc: &HtlcOutput,
    token: Token,
    tx: Tx,
    place: Place,
) -> Result<Claim, AllocError>
    requires open { IsSecondStage commitment.now.keys htlc.now.direction htlc.now.htlc }
    requires height { htlc.now.htlc.expiry_height < locktime_threshold }
    requires token { token ≡ token_of commitment.now.keys.remote_htlc
        (htlc_digest commitment.now htlc.now) }
    requires tx { tx ≡ htlc_tx_of commitment.now htlc.now }
    requires place { IsHtlcPlace commitment.now htlc.now place }
    ensures { IfOk result (IsClaimOn (second_stage_on commitment.now htlc.now place)) }
{
    let keys = commitment.keys();
    let checked = htlc_script(alloc, patterns, keys, htlc.direction, &htlc.htlc)?;
    let kind = second_stage_kind(keys, htlc.direction, &htlc.htlc, token);
    claim_of(alloc, &kind, checked, place, Shell::Fixed(tx))
}
