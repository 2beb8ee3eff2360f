//! Laws over the definitions alone.

ghost use Rattle.channel.specs.Agreeing.{PeersAgree, SidesAreSound};
ghost use Rattle.channel.specs.Learning.{SidesLearn, SidesAreLimited, SidesOfferOwn};
ghost use Rattle.channel.specs.Recording.{SidesRecord, SidesNumber};
ghost use Rattle.channel.specs.Resending.{NothingNewGoesOut, GoesOutInOrder, SignsOnce};
ghost use Rattle.channel.specs.Connections.{PeersStillAgree, BehindIsTold};
ghost use Rattle.channel.specs.Standing.{PlaysAgree};

/// Two honest peers agree over every interleaving of their steps. No message that arrives is refused, so no update and
/// no signature is. The commitments that one accepted are the first ones that the other signed. In every view no balance is below 0, and
/// balances and HTLCs sum to 1000 times the capacity.
pub fn peers_agree()
    ensures reached { PeersAgree }
{}

/// Whatever a peer sends, in every view of a side's state no balance is below 0, and balances and HTLCs sum to 1000 times the capacity. The
/// commitments that the state records stand by number and have these views, and the last one of each side is that side's newest.
pub fn sides_are_sound()
    ensures sound { SidesAreSound }
    ensures recorded { SidesRecord }
    ensures numbered { SidesNumber }
{}

/// What a side has of its peer's commitments, whatever the peer sends. The peer revealed one secret for each of them before its newest, that of the commitment's point. No number of either side goes past
/// [`LAST_NUMBER`](crate::LAST_NUMBER). Each HTLC that the side offers in one of them is one that its own updates offer.
pub fn what_is_signed()
    ensures revealed { SidesLearn }
    ensures limited { SidesAreLimited }
    ensures offered { SidesOfferOwn }
{}

/// Two honest peers agree, whatever becomes of their connection and of their memory. A cut loses all that is on its way, and so after a delivery any last part of
/// a queue. A side starts again from any state since which it gave nothing out. At each moment no message, update, signature or hello that arrives is refused, nobody
/// is told to be behind, and the commitments that one accepted are the first ones that the other signed. A side that is put back to an older state is told to be
/// behind exactly where its newest commitment is revoked to its peer.
pub fn peers_still_agree()
    ensures agreed { PeersStillAgree }
    ensures played { PlaysAgree }
    ensures told { BehindIsTold }
{}

/// Whatever the hello, a side gives nothing again that did not go out before. The signature and the revocation stand in the order in which they first went out, and
/// so do the updates and the signature that covers them. For each number one commitment is ever signed, whatever is cut, and wherever the side starts again since it gave
/// nothing out.
pub fn nothing_new_goes_out()
    ensures old { NothingNewGoesOut }
    ensures ordered { GoesOutInOrder }
    ensures once { SignsOnce }
{}
