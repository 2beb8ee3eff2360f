//! Laws over the definitions alone.

ghost use Rattle.worth_laws.specs.Bounds.{AllAreBounded, DeductionsAreBounded, LittleIsTakenOff, LittleOfAllIsTakenOff};
ghost use Rattle.worth_laws.specs.Counted.{CountedAreDue, CountedAreWorth, FeesAreBounded};
ghost use Rattle.worth_laws.specs.Least.{WhicheverCloses};
ghost use Rattle.worth_laws.specs.Left.{LeftIsPlaced};
ghost use Rattle.worth_laws.specs.Placed.{SharesArePlaced};
ghost use Rattle.worth_laws.specs.Shares.{AllIsTheCapacity, SharesAreWorth};

use channel::laws::sides_are_sound;
use commit::laws::there_is_one_order;

/// The outputs of a commitment on which a side counts are worth what it counts on, less its deductions: of its own commitment or its peer's, whichever HTLCs that were offered to it are known. All outputs
/// together are worth the capacity, less the deductions of both sides, where balances and HTLCs share it out.
pub fn shares_are_worth()
    ensures shares { SharesAreWorth }
    ensures all { AllIsTheCapacity }
{
    there_is_one_order();
}

/// The outputs of a commitment on which a side counts are worth what its amounts say of that side, and all outputs what these pay out. So the number is there before any script is made, and before the outputs are
/// sorted.
pub fn shares_are_placed()
    ensures { SharesArePlaced }
{
    there_is_one_order();
}

/// The claims on a commitment, once each HTLC transaction stands, are worth what its amounts say: on a side's own, of the HTLCs on which it counts, and on one that its peer revoked, of all.
pub fn left_is_placed()
    ensures { LeftIsPlaced }
{
    there_is_one_order();
}

/// Each deduction is at most what the greatest feerate and dust limit make of it. So the outputs on which a side counts are worth what it counts on, less that much at most; and all outputs are worth the
/// capacity, less as much for both sides.
pub fn deductions_are_bounded()
    ensures each { DeductionsAreBounded }
    ensures both { AllAreBounded }
    ensures sum { LittleIsTakenOff }
    ensures all { LittleOfAllIsTakenOff }
{
    shares_are_worth();
}

/// What a side claims of a commitment that closed its channel is one claim for each output on which it counts. Whichever of its own HTLC transactions stand, the claims are worth, with the fees of these, what it
/// counts on, less its deductions. These fees are at most those of all HTLC transactions that stand, and those at most the fee of HTLC-success for each HTLC with an output. And each claim is due: on its peer's commitment
/// these are all that is due, and on its own each HTLC's is due at either stage. Two named byte strings with one hash are the exception.
pub fn counted_are_worth()
    ensures worth { CountedAreWorth }
    ensures fees { FeesAreBounded }
    ensures due { CountedAreDue }
{
    there_is_one_order();
    shares_are_worth();
}

/// Whichever commitment closes a channel, whatever messages came before: one that the peer revoked, the peer's newest, the one after it, or the side's own newest. What it gives the side is what the side counts on, or
/// the capacity if it was revoked, less deductions that are said exactly, and have a bound where its feerate and its owner's dust limit have one; the claims on it are worth that, with the fees of HTLC transactions that stand. And
/// whichever of these stand, the claims alone are worth at least a number that can be read before.
pub fn whichever_closes()
    ensures { WhicheverCloses }
{
    there_is_one_order();
    shares_are_worth();
    deductions_are_bounded();
    sides_are_sound();
}
