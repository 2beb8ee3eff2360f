//! Laws over the definitions alone.

ghost use Rattle.balance_laws.specs.Balances.{AllBalancesAreThere, BalancesAreThere, ClosersMayClose};
ghost use Rattle.balance_laws.specs.Knowing.{MoreIsNotLess};
ghost use Rattle.balance_laws.specs.Own.{LivedKeepOwnRules, OwnAreResolved};
ghost use Rattle.balance_laws.specs.OwnBreaks.{OwnBreaks};
ghost use Rattle.balance_laws.specs.Times.{NothingIsLate};
ghost use Rattle.safety.specs.Breaks.{Breaks};

use channel::laws::sides_are_sound;
use commit::laws::there_is_one_order;
use safety::laws::one_against_everybody;
use worth_laws::laws::{shares_are_worth, whichever_closes};

/// The balance of a node against everybody, on a channel that it has not closed itself. On a chain that has the funding output, and on which each token of the node's keys is one that it gave out, one of these
/// holds. The funding output is unspent, and the node's newest commitment passes the next block. Or one of the peer's commitments closed the channel: a revoked one, its newest or the one after it. Then the outputs that the node
/// can claim are worth the whole capacity, or what the node counts on, less deductions that are said exactly; and what could be read before at the least. Each of them is unspent, or the node took it. Or its owner
/// took it after the delay, or it is an HTLC that was paid or that is late. Otherwise two named byte strings collide. And whatever may close a channel on a chain is one of those of which the least is taken.
pub fn balances_are_there()
    ensures there { BalancesAreThere }
    ensures closers { ClosersMayClose }
{
    there_is_one_order();
    shares_are_worth();
    whichever_closes();
    one_against_everybody();
}

/// What a node has of its own newest commitment, wherever it stands on such a chain, if besides no input shows a token of its revocation key, and the HTLC base keys of the two sides are two: to_local and each HTLC on which
/// the node counts, by its own HTLC transaction or, where that stands, by the output of that. With the fees of those that stand they are worth all that the node counts on, less its deductions. Each is unspent, or a
/// transaction that the node released took it; or it is an HTLC that the node had offered, and whoever took it showed the preimage; or one that was offered to the node, and the block is above the expiry. Otherwise two
/// named byte strings collide. Its own newest commitment is at the point of its seed, whatever messages came.
pub fn own_are_resolved()
    ensures own { OwnAreResolved }
    ensures rules { LivedKeepOwnRules }
{
    there_is_one_order();
    shares_are_worth();
    whichever_closes();
    sides_are_sound();
}

/// So the balance of a node is there on each of its channels, whichever commitment closed it, its own too.
pub fn all_balances_are_there()
    ensures { AllBalancesAreThere }
{
    there_is_one_order();
    shares_are_worth();
    whichever_closes();
    one_against_everybody();
}

/// Where whatever took an output stands below its deadline, nothing is late. A penalty is unspent, or a transaction that the node released took it. Any other claim is so too, or it is an HTLC that the node had offered, and
/// whoever took it showed the preimage. The deadline of a penalty on an output in to_local's form is the height of its coin with the delay, and that of an HTLC which was offered to the node is one above its expiry.
/// Nothing is asked of who took it.
pub fn nothing_is_late()
    ensures peers { NothingIsLate Breaks }
    ensures own { NothingIsLate OwnBreaks }
{}

/// A preimage that a side learns makes nothing less: the outputs on which it counts are worth no less, nor is the least of what a channel gives.
pub fn more_is_not_less()
    ensures { MoreIsNotLess }
{}
