//! Laws over the definitions alone.

ghost use Rattle.book.specs.Accepted.{AcceptedMeans};
ghost use Rattle.book.specs.Growing.{ChannelsGrow};
ghost use Rattle.book.specs.Guarding.{AcceptedIsGuarded, GuardedMeans, KeptAreExact};
ghost use Rattle.book.specs.Closing.{ClosedStaysNewest, ClosesAgain, ClosedStaysClosed};
ghost use Rattle.book.specs.Lived.{ChannelsAreLived, FundingsAreApart, OffersAreAskedFor, BasesAreOwn};
ghost use Rattle.book.specs.Penalties.{PenaltySetsAreExact};
ghost use Rattle.book.specs.Releasing.{KeptAreFillable, ReleasesFit};
ghost use Rattle.book.specs.Signers.{RightsAreTested, RefusalsAreFound};

use channel::laws::sides_are_sound;
use filling::laws::fillings_fit;

/// A book's calls lead exactly to the histories in which each entry is accepted after those before it. Any other history has a first entry that is refused: all entries before it are
/// accepted, and together with it they are not.
pub fn accepted_is_called()
    ensures { AcceptedMeans }
{}

/// What each channel that a history leaves has. Calls and messages lead to its state, whatever the peers sent, and no other channel is on its funding output. Each HTLC that its own updates offer was asked for by a
/// call of the history in the channel. The base keys of its side are those of its seed.
pub fn what_channels_have()
    ensures lived { ChannelsAreLived }
    ensures apart { FundingsAreApart }
    ensures asked { OffersAreAskedFor }
    ensures bases { BasesAreOwn }
{}

/// What a book records of a channel stays, whatever calls it gets. After one more entry the channel is still there, with its terms and its side. Each recorded commitment of either side, and each secret that the peer
/// gave, stands at its number as before.
pub fn channels_grow()
    ensures { ChannelsGrow }
{}

/// The signing gate holds for all calls, and for all messages of the peer. Between each revocation that came in a channel and the channel's next signature, the penalties for the revoked
/// commitment were kept. They are accepted claims on exactly what that commitment lets the side claim.
pub fn signing_is_guarded()
    ensures guarded { AcceptedIsGuarded }
    ensures between { GuardedMeans }
{
    // By this law the proof knows that the peer's commitments can pay what they are for.
    sides_are_sound();
}

/// The commitment with which a side closed a channel stays its newest one, over all accepted histories and whatever its peer sends, and closing the channel again answers its number. So its secret is not
/// given out while it may stand on the chain. Entry by entry: after a close, no accepted call signs in the channel, takes a signature there, or makes an update of the side's own other than a fulfil.
pub fn what_is_closed_stays_closed()
    ensures newest { ClosedStaysNewest }
    ensures again { ClosesAgain }
    ensures later { ClosedStaysClosed }
{}

/// A book's test of its signers' rights accepts exactly the keys that they may sign for.
pub fn rights_are_tested()
    ensures { RightsAreTested }
{}

/// The definition's first refusal of a filling is the one that `fill` returns, barring out-of-memory. It has none exactly if nothing refuses the claims.
pub fn refusals_are_found()
    ensures { RefusalsAreFound }
{}

/// Accepted claims on exactly what a revoked commitment lets its owner's peer claim, in order, are its penalty set. No other claims are.
pub fn penalty_sets_are_exact()
    ensures { PenaltySetsAreExact }
{}

/// After any history of accepted calls and claims, each set that it keeps is accepted claims on exactly what the peer's revoked commitment lets the side claim, whatever came after it.
pub fn kept_are_exact()
    ensures { KeptAreExact }
{
    // By this law the proof knows that the peer's commitments can pay what they are for.
    sides_are_sound();
}

/// After any history, no slot of the claims in a channel's kept sets lacks a right or a preimage. This holds for one claim and for several together, so a release of kept claims is never
/// refused with `NoRight`.
pub fn kept_are_fillable()
    ensures { KeptAreFillable }
{}

/// After any history of accepted calls and claims, each input of a release's filling fits its claim. So it spends the claim's output, whenever it is due.
pub fn releases_fit()
    ensures { ReleasesFit }
{
    // By this law the proof knows that claims which nothing refuses are filled by inputs that fit them.
    fillings_fit();
}
