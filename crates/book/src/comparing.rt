// Whether a revoked state is that of a given commitment of the peer.

ghost use Rattle.std.specs.Prelude.{◌≡◌, ◌↔◌, IsTrue};
ghost use Rattle.penalty.specs.States.{HasParts};
ghost use Rattle.book.specs.Revoked.{IsStateAt};

use channel::{Channel, CommitmentState};
use penalty::RevokedState;
use terms::{Share, Side, Terms, View};

fn is_same_share(a: &Share, b: &Share) -> bool
    ensures { IsTrue result ↔ (a.now ≡ b.now) }
{
    a.balance_msat == b.balance_msat && a.offered.values() == b.offered.values()
}

fn is_same_view(a: &View, b: &View) -> bool
    ensures { IsTrue result ↔ (a.now ≡ b.now) }
{
    is_same_share(&a.a, &b.a) && is_same_share(&a.b, &b.b) && a.feerate_per_kw == b.feerate_per_kw
}

fn are_same_terms(a: &Terms, b: &Terms) -> bool
    ensures { IsTrue result ↔ (a.now ≡ b.now) }
{
    *a == *b
}

// Whether a state has the parts of a commitment and of the secret that revokes it.
fn has_parts(
    state: &RevokedState,
    terms: &Terms,
    owner: Side,
    commitment: &CommitmentState,
    secret: &[u8; 32],
) -> bool
    ensures { IsTrue result ↔ HasParts terms.now commitment.now.view owner commitment.now.number
        secret.now state.now }
{
    state.number == commitment.number
        && state.owner == owner
        && state.secret == *secret
        && are_same_terms(&state.terms, terms)
        && is_same_view(&state.view, &commitment.view)
}

/// Whether a state is the peer's commitment of a number,
/// with the secret that revokes it. Builds no commitment.
pub(crate) fn is_state_at(channel: &Channel, number: u64, state: &RevokedState) -> bool
    ensures { IsTrue result ↔ IsStateAt channel.now number state.now }
{
    let commitments = channel.peers_commitments();
    let commitment = match commitments.get(number as usize) {
        Some(commitment) => commitment,
        None => return false,
    };
    let secret = match channel.peers_secret(number) {
        Some(secret) => secret,
        None => return false,
    };
    let owner = channel.side().other();
    has_parts(state, channel.terms(), owner, commitment, &secret)
}
