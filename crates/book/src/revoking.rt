// Builds the state of a revoked commitment of the peer.

ghost use Rattle.std.specs.Prelude.{◌≡◌, ◌<◌, None, length, IfOk};
ghost use Rattle.terms.specs.Sides.{other};
ghost use Rattle.penalty.specs.Paying.{refusal_of};
ghost use Rattle.penalty.specs.States.{HasParts};
ghost use Rattle.book.specs.Revoked.{IsStateAt};

use channel::{Channel, CommitmentState};
use penalty::RevokedState;
use std::alloc::AllocError;

// The state of a commitment of the peer and the secret
// that revokes it. The only error is that memory ran out.
fn revoked_by(
    channel: &Channel,
    commitment: &CommitmentState,
    secret: [u8; 32],
) -> Result<RevokedState, AllocError>
    requires { refusal_of channel.now.held.terms commitment.now.view ≡ None }
    ensures { IfOk result (HasParts channel.now.held.terms commitment.now.view
        (other channel.now.held.side) commitment.now.number secret) }
{
    let view = commitment.view.copy()?;
    let owner = channel.side().other();
    match RevokedState::new(*channel.terms(), view, owner, commitment.number, secret) {
        Ok(state) => Ok(state),
        Err(_) => unreachable!(),
    }
}

/// The state of the peer's revoked commitment of this number. The only error is that memory ran out.
pub(crate) fn state_at(channel: &Channel, number: u64) -> Result<RevokedState, AllocError>
    requires { number < length channel.now.secrets }
    ensures { IfOk result (IsStateAt channel.now number) }
{
    let _newest = channel.peer_number();
    let commitment = &channel.peers_commitments()[number as usize];
    match channel.peers_secret(number) {
        Some(secret) => revoked_by(channel, commitment, secret),
        None => unreachable!(),
    }
}
