// Claims on the outputs of an unrevoked commitment.

ghost use Rattle.std.specs.Prelude.{◌≡◌, ◌≤◌, true, IfOk};
ghost use Rattle.tx.specs.declared.limits.TheConstants.{MAX_VALUE as max_value};
ghost use Rattle.script.specs.Spelling.{spelling};
ghost use Rattle.sighash.specs.Programs.{script_hash_program};
ghost use Rattle.claim.specs.declared.parts.Shell.TheVariants.{Open};
ghost use Rattle.forms.specs.Claims.{path_taken_by};
ghost use Rattle.forms.specs.Fillings.{fillings_of};
ghost use Rattle.forms.specs.Forms.{to_local_form};
ghost use Rattle.commit.specs.Keys.{bytes_of};
ghost use Rattle.penalty.specs.Claimable.{claimable_with};
ghost use Rattle.penalty.specs.Sets.{IsClaimOn};
ghost use Rattle.revoked.specs.Programs.{htlc_program, known_program, claim_on_to_remote};
ghost use Rattle.unilateral.specs.Claims.{has_fixed_htlc_txs, delayed_on, direct_on, second_stage_on, second_stage_in};
ghost use Rattle.unilateral.specs.Kinds.{direct_kind_of, second_stage_kind_of, is_direct, is_second_stage, IsOpenTo};

use crate::htlc_txs::{digest_on, htlc_tx_on};
use anchor_forms::{ChannelPatterns, ChannelType};
use claim::{Claim, Place, Shell, accept};
use commit::{CommitmentKeys, Direction};
use forms::{ClaimKind, Expiry, Patterns, accepted_slots};
use paths::Checked;
use penalty::claiming::{claim_of, to_local_script};
use revoked::{Revoked, RevokedHtlc, RevokedOutput, claim_on_to_remote, htlc_script};
use sighash::Token;
use std::alloc::{AllocError, Global};

/// The claim on to_local, or on the output of one's own HTLC transaction, by the delayed key. The only error is that memory ran out.
pub(crate) fn delayed_on(
    alloc: Global,
    patterns: &Patterns,
    keys: &CommitmentKeys,
    delay_blocks: u16,
    place: Place,
) -> Result<Claim, AllocError>
    requires { place.program ≡ script_hash_program (spelling
        (to_local_form keys.now.revocation.bytes delay_blocks keys.now.delayed.bytes).ops) }
    ensures { IfOk result (IsClaimOn (delayed_on (bytes_of keys.now) delay_blocks place)) }
{
    let delayed = keys.delayed;
    let checked = to_local_script(alloc, patterns, keys, delay_blocks)?;
    claim_of(
        alloc,
        &ClaimKind::Delayed { delayed },
        checked,
        place,
        Shell::Open,
    )
}

// The claim of a kind on an output of its form, in any transaction.
fn open_claim(
    alloc: Global,
    kind: &ClaimKind,
    checked: Checked,
    place: Place,
) -> Result<Claim, AllocError>
    requires { IsOpenTo kind.now checked place }
    ensures { IfOk result (IsClaimOn (claimable_with place checked (path_taken_by kind.now)
        (fillings_of kind.now) Open)) }
{
    let slots = accepted_slots(alloc, kind)?;
    match accept(alloc, checked, kind.path(), slots, place, Shell::Open) {
        Ok(claim) => Ok(claim),
        Err(_) => unreachable!(),
    }
}

// The kind of the claim on an HTLC by the key of the owner's peer.
fn direct_kind(keys: &CommitmentKeys, htlc: &RevokedHtlc) -> ClaimKind
    ensures { result ≡ direct_kind_of keys.now htlc.now.direction htlc.now.hash }
{
    let remote = keys.remote_htlc;
    match htlc.direction {
        Direction::Offered => ClaimKind::DirectPreimage {
            payment_hash: htlc.hash,
            remote,
        },
        Direction::Received => ClaimKind::DirectTimeout { remote },
    }
}

/// The claim on an HTLC of the peer's commitment. The only error is that memory ran out.
pub(crate) fn direct_on(
    alloc: Global,
    patterns: &ChannelPatterns,
    channel_type: ChannelType,
    keys: &CommitmentKeys,
    htlc: &RevokedHtlc,
    place: Place,
) -> Result<Claim, AllocError>
    requires allowed { is_direct (bytes_of keys.now) htlc.now.direction htlc.now.hash ≡ true }
    requires program { place.program ≡ htlc_program channel_type (bytes_of keys.now) htlc.now }
    ensures { IfOk result (IsClaimOn (direct_on channel_type (bytes_of keys.now) htlc.now place)) }
{
    let checked = htlc_script(alloc, patterns, channel_type, keys, htlc)?;
    let kind = direct_kind(keys, htlc);
    open_claim(alloc, &kind, checked, place)
}

// The kind of the owner's claim on an HTLC, with the peer's token.
fn second_stage_kind(keys: &CommitmentKeys, htlc: &RevokedHtlc, remote_token: Token) -> ClaimKind
    ensures { result ≡ second_stage_kind_of keys.now htlc.now.direction htlc.now.hash remote_token }
{
    let local = keys.local_htlc;
    match htlc.direction {
        Direction::Offered => ClaimKind::HtlcTimeout {
            local,
            remote_token,
        },
        Direction::Received => ClaimKind::HtlcSuccess {
            payment_hash: htlc.hash,
            local,
            remote_token,
        },
    }
}

/// The claim on an HTLC of one's own commitment by its HTLC transaction with this expiry, with the peer's token on it. The only error is that memory ran out.
pub(crate) fn second_stage_on(
    alloc: Global,
    patterns: &ChannelPatterns,
    channel_type: ChannelType,
    keys: &CommitmentKeys,
    delay_blocks: u16,
    feerate_per_kw: u32,
    htlc: &RevokedHtlc,
    expiry: Expiry,
    place: Place,
) -> Result<Claim, AllocError>
    requires fixed { has_fixed_htlc_txs channel_type ≡ true }
    requires allowed { is_second_stage (bytes_of keys.now) htlc.now.direction htlc.now.hash ≡ true }
    requires value { place.value ≤ max_value }
    requires program { place.program ≡ htlc_program channel_type (bytes_of keys.now) htlc.now }
    ensures { IfOk result (IsClaimOn (second_stage_on channel_type (bytes_of keys.now)
        delay_blocks feerate_per_kw htlc.now place expiry)) }
{
    let checked = htlc_script(alloc, patterns, channel_type, keys, htlc)?;
    let tx = htlc_tx_on(
        alloc,
        &patterns.forms,
        keys,
        delay_blocks,
        feerate_per_kw,
        htlc.direction,
        expiry,
        &place,
    )?;
    let digest = digest_on(&tx, &place, checked.script().bytes());
    let token = Token::new(&keys.remote_htlc.bytes, &digest);
    let kind = second_stage_kind(keys, htlc, token);
    claim_of(alloc, &kind, checked, place, Shell::Fixed(tx))
}

/// The same of a commitment that is one's own.
pub(crate) fn delayed_in(
    alloc: Global,
    patterns: &ChannelPatterns,
    commitment: &Revoked,
    place: Place,
) -> Result<Claim, AllocError>
    requires { place.program ≡ known_program commitment.now RevokedOutput.ToLocal }
    ensures { IfOk result (IsClaimOn (delayed_on commitment.now.keys commitment.now.delay_blocks place)) }
{
    let keys = commitment.keys();
    delayed_on(
        alloc,
        &patterns.forms,
        keys,
        commitment.delay_blocks(),
        place,
    )
}

/// The claim on to_remote of the peer's commitment. The only error is that memory ran out.
pub(crate) fn to_remote_in(
    alloc: Global,
    patterns: &ChannelPatterns,
    commitment: &Revoked,
    place: Place,
) -> Result<Claim, AllocError>
    requires { place.program ≡ known_program commitment.now RevokedOutput.ToRemote }
    ensures { IfOk result (IsClaimOn (claim_on_to_remote commitment.now.keys place)) }
{
    let keys = commitment.keys();
    claim_on_to_remote(alloc, &patterns.forms, keys, place)
}

/// The claim on an HTLC of a commitment that is the peer's. The only error is that memory ran out.
pub(crate) fn direct_in(
    alloc: Global,
    patterns: &ChannelPatterns,
    commitment: &Revoked,
    htlc: &RevokedHtlc,
    place: Place,
) -> Result<Claim, AllocError>
    requires allowed { is_direct commitment.now.keys htlc.now.direction htlc.now.hash ≡ true }
    requires program { place.program ≡ known_program commitment.now (RevokedOutput.ToHtlc htlc.now) }
    ensures { IfOk result (IsClaimOn (direct_on commitment.now.channel_type commitment.now.keys htlc.now place)) }
{
    let keys = commitment.keys();
    direct_on(
        alloc,
        patterns,
        commitment.channel_type(),
        keys,
        htlc,
        place,
    )
}

/// The claim on an HTLC of a commitment that is one's own, by its HTLC transaction with this expiry. The only error is that memory ran out.
pub(crate) fn second_stage_in(
    alloc: Global,
    patterns: &ChannelPatterns,
    commitment: &Revoked,
    feerate_per_kw: u32,
    htlc: &RevokedHtlc,
    expiry: Expiry,
    place: Place,
) -> Result<Claim, AllocError>
    requires fixed { has_fixed_htlc_txs commitment.now.channel_type ≡ true }
    requires allowed { is_second_stage commitment.now.keys htlc.now.direction htlc.now.hash ≡ true }
    requires value { place.value ≤ max_value }
    requires program { place.program ≡ known_program commitment.now (RevokedOutput.ToHtlc htlc.now) }
    ensures { IfOk result (IsClaimOn (second_stage_in commitment.now feerate_per_kw htlc.now place expiry)) }
{
    let keys = commitment.keys();
    second_stage_on(
        alloc,
        patterns,
        commitment.channel_type(),
        keys,
        commitment.delay_blocks(),
        feerate_per_kw,
        htlc,
        expiry,
        place,
    )
}
