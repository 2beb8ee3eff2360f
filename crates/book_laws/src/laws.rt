//! Laws over the definitions alone.

ghost use Rattle.book_laws.specs.Awaiting.{AwaitingMissNone};
ghost use Rattle.book_laws.specs.Books.{BooksHaveBalances};
ghost use Rattle.book_laws.specs.Holdings.{HoldingsAreComplete};
ghost use Rattle.book_laws.specs.Keeping.{BooksKeepRules, CareGoesOn, ClaimablesAreRecorded, KeptAreRecorded, BooksStand};
ghost use Rattle.book_laws.specs.Received.{OwnAreMadeOfThem, PeersTokensCame};

use balance_laws::laws::{all_balances_are_there, balances_are_there, own_are_resolved};
use book::laws::{
    accepted_is_called, channels_grow, kept_are_exact, what_channels_have,
    what_is_closed_stays_closed,
};
use channel::laws::{sides_are_sound, what_is_signed};
use safety::laws::{due_places, one_against_everybody, what_commitments_have, what_is_recorded};

/// Each release of a history stands in the holding of its channel.
pub fn holdings_are_complete()
    ensures { HoldingsAreComplete }
{}

/// A channel of a book keeps the rules, over every history of its calls that takes care of it, whatever the node does in other channels and whatever the peers send. What is asked of the history: each claim that it releases in
/// this channel is on what a recorded commitment of the channel gives the node; each HTLC that it offers there expires above 0; and values are of their types. What a revoked commitment lets the node claim is on such a
/// commitment, and so is each claim of a penalty set that the channel keeps.
pub fn books_keep_rules()
    ensures rules { BooksKeepRules }
    ensures revoked { ClaimablesAreRecorded }
    ensures kept { KeptAreRecorded }
{
    accepted_is_called();
    what_channels_have();
    sides_are_sound();
    what_is_signed();
    kept_are_exact();
    what_is_closed_stays_closed();
    what_is_recorded();
    what_commitments_have();
    due_places();
}

/// Care goes on: a history that took care of a channel, with one more accepted call that takes care of it, took care of it. What the call releases in the channel has to be on what a recorded commitment gives the node.
pub fn care_goes_on()
    ensures { CareGoesOn }
{
    channels_grow();
}

/// A channel that awaits the peer's revocation misses no penalties, over every history of calls, whatever the peers send. So the signature that awaits it may go out again: all penalties were kept before it was given, and
/// nothing was revoked since.
pub fn awaiting_miss_none()
    ensures { AwaitingMissNone }
{
    accepted_is_called();
}

/// One node against everybody, for a channel of a book. On a chain that is a ledger of its outputs, and on which each token of a key of the node's in the inputs that name them is one that it gave out, the channel stands as
/// `one_against_everybody` of `safety` says.
pub fn books_stand()
    ensures { BooksStand }
{
    books_keep_rules();
    one_against_everybody();
}

/// The peer's tokens that came in for the own commitments of a channel, in the call that opened it and in each `commitment_signed`, are just the peer's tokens on them, over every history of calls: the book compares what it is
/// sent. What closes the channel by an own commitment, and what takes the output of each of its HTLCs with both keys, is made of these tokens and of tokens of the node's own keys.
pub fn peers_tokens_came()
    ensures came { PeersTokensCame }
    ensures made { OwnAreMadeOfThem }
{
    accepted_is_called();
    what_channels_have();
    sides_are_sound();
}

/// The balance of a node with a book is there on a channel, over every history of its calls, whatever the peers send, whatever blocks hold, and whatever became of its other channels. What is asked of the history is that
/// the node took care of what it releases and offers in this channel. Of the chain it is that it is a ledger of the channel's outputs, and that in the inputs which name such outputs each token of a key of the node's is one
/// that it gave out. Of the channel it is that its funding output is what the terms say. Where the node closed the channel itself two things more are asked: in those inputs stands no token of the revocation key of the newest
/// own commitment, and the HTLC base keys of the channel's sides are two. The tokens that came in for its own commitments are the peer's.
pub fn books_have_balances()
    ensures { BooksHaveBalances }
{
    what_channels_have();
    books_keep_rules();
    own_are_resolved();
    balances_are_there();
    all_balances_are_there();
    peers_tokens_came();
}
