// Penalties on the outputs of HTLCs.

ghost use Rattle.std.specs.Prelude.{◌≡◌, true, IfOk};
ghost use Rattle.script.specs.Spelling.{spelling};
ghost use Rattle.claim.specs.Judgement.{is_program};
ghost use Rattle.anchor_forms.specs.Penalties.{IsPenaltyForm, IsPenaltyOn};

use claim::{Claim, Place, Shell, accept};
use forms::{ClaimKind, accepted_slots};
use keys::Key;
use paths::Checked;
use std::alloc::{AllocError, Global};

/// The claim on an HTLC's output by the revocation key, in any transaction: its script's first path, which has no lock in either type of channel. The only error is
/// that memory ran out.
pub fn htlc_penalty(
    alloc: Global,
    revocation: &Key,
    checked: Checked,
    place: Place,
) -> Result<Claim, AllocError>
    requires form { IsPenaltyForm revocation.now.bytes checked }
    requires program { is_program (spelling checked.ops) place.program ≡ true }
    ensures { IfOk result (IsPenaltyOn revocation.now.bytes checked place) }
{
    let kind = ClaimKind::HtlcPenalty {
        revocation: *revocation,
    };
    let slots = accepted_slots(alloc, &kind)?;
    match accept(alloc, checked, 0, slots, place, Shell::Open) {
        Ok(claim) => Ok(claim),
        Err(_) => unreachable!(),
    }
}
