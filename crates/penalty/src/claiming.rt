//! Claims on the outputs of a commitment.

ghost use Rattle.std.specs.Prelude.{◌≡◌, ◌<◌, true, IfOk};
ghost use Rattle.script.specs.declared.limits.TheConstants.{LOCKTIME_THRESHOLD as locktime_threshold};
ghost use Rattle.script.specs.Spelling.{spelling};
ghost use Rattle.claim.specs.Judgement.{is_program, bare_shell};
ghost use Rattle.sighash.specs.Programs.{script_hash_program, key_hash_program};
ghost use Rattle.commit.specs.Outputs.{to_local_script as to_local_script_of, htlc_script as htlc_script_of};
ghost use Rattle.forms.specs.Claims.{Claims, path_taken_by};
ghost use Rattle.forms.specs.Fillings.{fillings_of};
ghost use Rattle.forms.specs.Forms.{to_local_form};
ghost use Rattle.commit.specs.Keys.{bytes_of};
ghost use Rattle.penalty.specs.Claimable.{htlc_form, penalty_on, payment_on, htlc_penalty_on};
ghost use Rattle.penalty.specs.Sets.{IsClaimOn};
ghost use Rattle.penalty.specs.Outputs.{HasWay};

use claim::{Claim, Place, Shell, accept};
use commit::{Commitment, CommitmentKeys, Direction};
use forms::{
    ClaimKind, Expiry, HtlcKeys, Patterns, accepted_slots, key_hash, offered, received, to_local,
};
use paths::Checked;
use std::alloc::{AllocError, Global};
use terms::Htlc;

/// The claim of a kind on an output of its form, with this transaction round it. The only error is that memory ran out.
pub fn claim_of(
    alloc: Global,
    kind: &ClaimKind,
    checked: Checked,
    place: Place,
    shell: Shell,
) -> Result<Claim, AllocError>
    requires form { Claims kind.now checked (path_taken_by kind.now) place (bare_shell shell) }
    requires way { HasWay checked (path_taken_by kind.now) place (bare_shell shell) }
    requires program { is_program (spelling checked.ops) place.program ≡ true }
    ensures { IfOk result (IsClaimOn (record {
      place = place;
      form = checked;
      path = path_taken_by
          kind.now;
      slots = fillings_of kind.now;
      shell = bare_shell shell;
    })) }
{
    let slots = accepted_slots(alloc, kind)?;
    match accept(alloc, checked, kind.path(), slots, place, shell) {
        Ok(claim) => Ok(claim),
        Err(_) => unreachable!(),
    }
}

/// The script of to_local. The only error is that memory ran out.
pub fn to_local_script(
    alloc: Global,
    patterns: &Patterns,
    keys: &CommitmentKeys,
    delay_blocks: u16,
) -> Result<Checked, AllocError>
    ensures { IfOk result (λ s. s ≡ to_local_form keys.now.revocation.bytes delay_blocks
        keys.now.delayed.bytes) }
{
    to_local(
        alloc,
        patterns,
        &keys.revocation,
        delay_blocks,
        &keys.delayed,
    )
}

/// The penalty on an output of the form of to_local.
pub(crate) fn penalty_on(
    alloc: Global,
    patterns: &Patterns,
    commitment: &Commitment,
    place: Place,
) -> Result<Claim, AllocError>
    requires { place.program ≡ script_hash_program
        (to_local_script_of commitment.now.delay_blocks commitment.now.keys) }
    ensures { IfOk result (IsClaimOn (penalty_on commitment.now place)) }
{
    let keys = commitment.keys();
    let revocation = keys.revocation;
    let checked = to_local_script(alloc, patterns, keys, commitment.delay_blocks())?;
    claim_of(
        alloc,
        &ClaimKind::Penalty { revocation },
        checked,
        place,
        Shell::Open,
    )
}

/// The claim on to_remote. The only error is that memory ran out.
pub fn payment_on(
    alloc: Global,
    patterns: &Patterns,
    commitment: &Commitment,
    place: Place,
) -> Result<Claim, AllocError>
    requires { place.program ≡ key_hash_program commitment.now.keys.remote }
    ensures { IfOk result (IsClaimOn (payment_on commitment.now place)) }
{
    let key = commitment.keys().remote;
    let checked = key_hash(alloc, patterns, &key)?;
    claim_of(
        alloc,
        &ClaimKind::KeyHash { key },
        checked,
        place,
        Shell::Open,
    )
}

/// The script of an HTLC's output. The only error is that memory ran out.
pub fn htlc_script(
    alloc: Global,
    patterns: &Patterns,
    keys: &CommitmentKeys,
    direction: Direction,
    htlc: &Htlc,
) -> Result<Checked, AllocError>
    requires { htlc.now.expiry_height < locktime_threshold }
    ensures { IfOk result (λ s. s ≡ htlc_form (bytes_of keys.now) direction htlc.now) }
{
    let htlc_keys = HtlcKeys {
        revocation: keys.revocation,
        remote: keys.remote_htlc,
        local: keys.local_htlc,
    };
    match direction {
        Direction::Offered => offered(alloc, patterns, &htlc_keys, &htlc.hash),
        Direction::Received => {
            let expiry = Expiry {
                height: htlc.expiry_height,
            };
            received(alloc, patterns, &htlc_keys, &htlc.hash, expiry)
        }
    }
}

/// The penalty on an HTLC's output.
pub(crate) fn htlc_penalty_on(
    alloc: Global,
    patterns: &Patterns,
    commitment: &Commitment,
    direction: Direction,
    htlc: &Htlc,
    place: Place,
) -> Result<Claim, AllocError>
    requires height { htlc.now.expiry_height < locktime_threshold }
    requires program { place.program ≡ script_hash_program
        (htlc_script_of commitment.now.keys direction htlc.now) }
    ensures { IfOk result (IsClaimOn (htlc_penalty_on commitment.now direction htlc.now place)) }
{
    let keys = commitment.keys();
    let revocation = keys.revocation;
    let checked = htlc_script(alloc, patterns, keys, direction, htlc)?;
    claim_of(
        alloc,
        &ClaimKind::HtlcPenalty { revocation },
        checked,
        place,
        Shell::Open,
    )
}
