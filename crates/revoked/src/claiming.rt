// Claims on the outputs of a revoked commitment.

ghost use Rattle.std.specs.Prelude.{◌≡◌, IfOk};
ghost use Rattle.script.specs.Spelling.{spelling};
ghost use Rattle.sighash.specs.Programs.{script_hash_program, key_hash_program};
ghost use Rattle.forms.specs.Forms.{to_local_form};
ghost use Rattle.commit.specs.Keys.{bytes_of};
ghost use Rattle.penalty.specs.Sets.{IsClaimOn};
ghost use Rattle.revoked.specs.Programs.{htlc_program, known_program, claim_on_to_local, claim_on_to_remote, claim_on_htlc, claim_on};

use crate::commitments::Revoked;
use crate::outputs::{RevokedHtlc, RevokedOutput};
use crate::scripts::htlc_script;
use anchor_forms::{ChannelPatterns, ChannelType, htlc_penalty};
use claim::{Claim, Place, Shell};
use commit::CommitmentKeys;
use forms::{ClaimKind, Patterns, key_hash};
use penalty::claiming::{claim_of, to_local_script};
use std::alloc::{AllocError, Global};

// The claim on to_local, or on the output of an HTLC transaction, by the revocation key.
fn claim_on_to_local(
    alloc: Global,
    patterns: &Patterns,
    keys: &CommitmentKeys,
    delay_blocks: u16,
    place: Place,
) -> Result<Claim, AllocError>
    requires { place.program ≡ script_hash_program (spelling
        (to_local_form keys.now.revocation.bytes delay_blocks keys.now.delayed.bytes).ops) }
    ensures { IfOk result (IsClaimOn (claim_on_to_local (bytes_of keys.now) delay_blocks place)) }
{
    let revocation = keys.revocation;
    let checked = to_local_script(alloc, patterns, keys, delay_blocks)?;
    claim_of(
        alloc,
        &ClaimKind::Penalty { revocation },
        checked,
        place,
        Shell::Open,
    )
}

/// The claim on to_remote, by the payment key of the owner's peer. The only error is that memory ran out.
pub fn claim_on_to_remote(
    alloc: Global,
    patterns: &Patterns,
    keys: &CommitmentKeys,
    place: Place,
) -> Result<Claim, AllocError>
    requires { place.program ≡ key_hash_program keys.now.remote.bytes }
    ensures { IfOk result (IsClaimOn (claim_on_to_remote (bytes_of keys.now) place)) }
{
    let key = keys.remote;
    let checked = key_hash(alloc, patterns, &key)?;
    claim_of(
        alloc,
        &ClaimKind::KeyHash { key },
        checked,
        place,
        Shell::Open,
    )
}

// The claim on an HTLC's output, by the revocation key.
fn claim_on_htlc(
    alloc: Global,
    patterns: &ChannelPatterns,
    channel_type: ChannelType,
    keys: &CommitmentKeys,
    htlc: &RevokedHtlc,
    place: Place,
) -> Result<Claim, AllocError>
    requires { place.program ≡ htlc_program channel_type (bytes_of keys.now) htlc.now }
    ensures { IfOk result (IsClaimOn (claim_on_htlc channel_type
        (bytes_of keys.now) htlc.now place)) }
{
    let checked = htlc_script(alloc, patterns, channel_type, keys, htlc)?;
    htlc_penalty(alloc, &keys.revocation, checked, place)
}

/// The claim on an output of the commitment. The only error is that memory ran out.
pub(crate) fn claim_on(
    alloc: Global,
    patterns: &ChannelPatterns,
    revoked: &Revoked,
    output: &RevokedOutput,
    place: Place,
) -> Result<Claim, AllocError>
    requires { place.program ≡ known_program revoked.now output.now }
    ensures { IfOk result (IsClaimOn (claim_on revoked.now output.now place)) }
{
    let keys = revoked.keys();
    match output {
        RevokedOutput::ToLocal => {
            claim_on_to_local(alloc, &patterns.forms, keys, revoked.delay_blocks(), place)
        }
        RevokedOutput::ToRemote => claim_on_to_remote(alloc, &patterns.forms, keys, place),
        RevokedOutput::ToHtlc(htlc) => {
            claim_on_htlc(alloc, patterns, revoked.channel_type(), keys, htlc, place)
        }
    }
}
