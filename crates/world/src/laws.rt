//! The Enforcement theorem, as laws over the definitions alone.

ghost use Rattle.world.specs.Agreeing.{FundingsAreSpent, OpeningsArePaired, OpeningsAreTaken};
ghost use Rattle.world.specs.Pairing.{DeliveriesAreTaken};
ghost use Rattle.world.specs.Theorem.{StepsKeep, WorldsHold};

use book::laws::{
    accepted_is_called, kept_are_exact, releases_fit, signing_is_guarded,
    what_is_closed_stays_closed,
};
use channel::laws::{peers_agree, sides_are_sound};
use safety::laws::{
    claims_spend, delayed_claims_wait, due_places, inputs_have_passed, nothing_escapes, taken,
    what_commitments_spend, what_is_recorded, who_takes,
};

/// The books of two honest sides agree. Let each channel of one side, the same channel of the other, and the messages between them be what steps of two honest peers make of a new
/// channel. Then each side takes the oldest message on its way to it, except a signature in a channel that it closed. So no delivery is refused for what is in its message.
pub fn deliveries_are_taken()
    ensures { DeliveriesAreTaken }
{
    peers_agree();
}

/// Each event keeps the invariant of a world: the histories of both books are those of calls, and the books agree, with the messages on their way. What was released are fillings of
/// these histories. Each claim of a side is on what a recorded commitment lets the side claim. Each transaction on the chain, in the pool and among those released comes from a side.
/// That both sides are whole after the event, and that the chain's transactions passed its tests, their own types say.
pub fn steps_keep()
    ensures { StepsKeep }
{}

/// The Enforcement theorem at a moment, in any world that events lead to. Each call in both books was accepted. No signature follows a revocation without the penalties kept
/// between the two. What is kept is exactly the accepted claims on all that is claimable. Every claim of a side is an accepted one. An input that fits an accepted claim passes and
/// runs clean once it is due. Whoever makes the next block, nothing in it takes what a revoked commitment lets its owner's peer claim, except as `nothing_escapes` of `safety`
/// says. On the chain, what takes such an output is a filling of that peer's, the HTLC's own transaction, or after the delay a filling of the owner's of an output in to_local's form;
/// or named byte strings collide. The two seeds of the channel have to differ. What was released are fillings of the two histories, whose inputs fit their claims. The two sides
/// hold the two ends of each channel. The commitment with which a side closed a channel is its newest, and not revoked to its peer. No delivery is refused for its message, but for a
/// signature in a channel that the side closed.
pub fn worlds_hold()
    ensures { WorldsHold }
{
    // By these laws the proof knows what holds for histories, for claims, for what a revoked commitment pays, for what takes it, and for books that agree.
    accepted_is_called();
    signing_is_guarded();
    kept_are_exact();
    releases_fit();
    what_is_closed_stays_closed();
    claims_spend();
    nothing_escapes();
    inputs_have_passed();
    what_is_recorded();
    due_places();
    delayed_claims_wait();
    what_commitments_spend();
    who_takes();
    taken();
    peers_agree();
    sides_are_sound();
    deliveries_are_taken();
}

/// Both sides open the same channel. Its commitments spend its funding output, and the two books hold its two ends, with no message on its way. Neither book refuses its opening, if
/// the channels before it stand on the first grants of a chain.
pub fn openings_agree()
    ensures spent { FundingsAreSpent }
    ensures paired { OpeningsArePaired }
    ensures taken { OpeningsAreTaken }
{}
