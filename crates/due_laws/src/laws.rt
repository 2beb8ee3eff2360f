//! Laws over the definitions alone.

ghost use Rattle.due_laws.specs.Books.{BookDuesAreRecorded, BooksHaveDues};
ghost use Rattle.due_laws.specs.Coins.{SightsAreCoins};
ghost use Rattle.due_laws.specs.Counting.{DuesAreCounted};
ghost use Rattle.due_laws.specs.Filling.{DuesAreFillable};
ghost use Rattle.due_laws.specs.Passing.{FillingsPass};
ghost use Rattle.due_laws.specs.Recorded.{DuesAreRecorded};
ghost use Rattle.due_laws.specs.Telling.{CountedAreTold};
ghost use Rattle.due_laws.specs.Verdicts.{ClosersAreJudged};

use book::laws::what_channels_have;
use book_laws::laws::books_keep_rules;
use channel::laws::{sides_are_sound, what_is_signed};
use claim::laws::accepted_claims_spend;
use filling::laws::fillings_fit;
use penalty::laws::peer_can_fill;
use safety::laws::{coins_have_heights, due_places, inputs_have_passed};
use watch::laws::revoked_are_found;
use worth_laws::laws::counted_are_worth;

/// The verdict on each commitment that may close a channel is the right one, by what the node's book tells of the channel. It is Ours, Theirs, TheirsNext, or Revoked with its number, whether or not the commitment is signed.
/// Where the node's own newest commitment has the same transaction, it is Ours. And what is due by the right verdict is exactly what the node counts on there. Each claim that is counted is due, whichever HTLC transactions
/// stand, and nothing else is. Otherwise two named byte strings collide.
pub fn what_is_due_is_counted()
    ensures judged { ClosersAreJudged }
    ensures counted { DuesAreCounted }
{
    revoked_are_found();
    counted_are_worth();
}

/// The channel's signer can fill each claim that is due by a verdict, with the preimages that are known. It may sign for the key of each slot, and has the preimage of each hash. The base keys have to be those of its seed.
pub fn dues_are_fillable()
    ensures { DuesAreFillable }
{
    peer_can_fill();
    due_places();
}

/// Each claim that is due by a verdict is on what a recorded commitment of the channel gives the node. So whoever releases just what is due releases what is its own.
pub fn dues_are_recorded()
    ensures { DuesAreRecorded }
{
    due_places();
}

/// The transaction that fills due claims passes all tests of the next block, as a whole. Their outputs have to stand there unspent, and the block is above their ages and lock times. The claims are on different outputs; they
/// are one with a fixed transaction, or open ones alone; and what is paid is at most what they are worth. The one exception: what is hashed for its id collides with what is hashed for that of a transaction on the chain.
pub fn fillings_pass()
    ensures { FillingsPass }
{
    accepted_claims_spend();
    fillings_fit();
    dues_are_fillable();
}

/// What is due to a node with a book is in hand in a channel, over every history of its calls that takes care of it, whatever the node does in other channels and whatever the peers send. The verdict on whatever may close the
/// channel is the right one, and what is due by it is exactly what the node counts on. The channel's signer can fill each of these claims with the preimages that are known, and a transaction that fills some of them passes the
/// next block as a whole.
pub fn books_have_dues()
    ensures { BooksHaveDues }
{
    what_channels_have();
    books_keep_rules();
    what_is_due_is_counted();
    dues_are_fillable();
    fillings_pass();
}

/// What is due in a channel by what its book tells, with any preimages, is on what a recorded commitment of the channel gives the node, over every history of calls. So a node that releases just what is due takes the care that
/// is asked of its releases.
pub fn book_dues_are_recorded()
    ensures { BookDuesAreRecorded }
{
    what_channels_have();
    what_is_signed();
    sides_are_sound();
    due_places();
}

/// Nothing that a node counts on stands after a close without being told. Where what is due is in hand and a commitment closed the channel, each output that the node counts on is among the claims that are told, whichever HTLC
/// transactions stand.
pub fn counted_are_told()
    ensures { CountedAreTold }
{}

/// What `sights` read of an output is what the chain says of its coin, on a chain that passed its tests. The output is one of a close or of a second stage. It was made at the height of its coin, and was taken
/// exactly if the coin is spent. The ids of the chain's grants must differ from one another and from those of its transactions.
pub fn sights_are_coins()
    ensures { SightsAreCoins }
{
    inputs_have_passed();
    coins_have_heights();
}
