//! Two books that share a channel: what is kept before it is sent, the gate before signatures, and the close.

use crate::channels::resent;
use crate::openings::SEAT;
use crate::stores::{Store, begin, persist, restart};
use anyhow::Result;
use book::errors::{SignError, StepError};
use book::{Book, Step};
use book_dump::Dump;
use book_peers::{offer, open_side};
use channel::Message;
use least::{KnownPreimages, at_least_sat};
use penalty::penalties;
use std::alloc::Global;
use std::fs;
use std::fs::OpenOptions;
use std::io::Write;
use std::process::Abort;
use terms::Side;
use updates::{PeerStep, Update};

/// A new book with one channel.
pub fn opened(rt: &impl Abort, alloc: Global, side: Side) -> Book {
    let opening = open_side(alloc, 0, side).expect(rt, "an opening").opening;
    let mut book = Book::new(alloc);
    assert!(rt; book.open(SEAT, opening) == Ok(0));
    book
}

/// Signs the peer's next commitment: the message comes back once the history with the signature is kept.
fn sign(alloc: Global, book: &mut Book, store: &mut Store) -> Result<Message> {
    let message = book.sign(SEAT, 0)?;
    persist(alloc, book, store)?;
    Ok(message)
}

/// Builds and keeps the penalties for the peer's revoked commitment of a number.
fn keep_penalties(alloc: Global, book: &mut Book, number: u64) -> Result<()> {
    let state = book.revoked(0, number)?;
    let patterns = book.patterns()?;
    let set = penalties(alloc, patterns.get(), &state)?;
    book.keep_set(SEAT, 0, number, set)?;
    Ok(())
}

/// Closes the channel: the number of the commitment that is to be broadcast, once the history with the close is kept.
fn close(alloc: Global, book: &mut Book, store: &mut Store) -> Result<u64> {
    let number = book.close(SEAT, 0)?;
    persist(alloc, book, store)?;
    Ok(number)
}

/// Takes a message of the peer; the answer is to be sent once it is kept.
fn take(book: &mut Book, message: Message) -> Result<Option<Message>, StepError> {
    match message {
        Message::Step(step) => book.step(SEAT, 0, Step::Peer(step)),
        Message::RevokeAndAck(revocation) => {
            let _number = book.revoke(SEAT, 0, revocation)?;
            Ok(None)
        }
    }
}

/// The feerate that a message of the peer sets, if it sets one.
fn feerate_in(message: &Message) -> Option<u32> {
    match message {
        Message::Step(PeerStep::Update(Update::Fee { feerate_per_kw })) => Some(*feerate_per_kw),
        _ => None,
    }
}

/// A copy of a book, loaded from its dump.
fn copied(alloc: Global, book: &Book) -> Result<Book> {
    let text = book.dump(alloc)?;
    Ok(Book::load(alloc, text.as_str())?)
}

/// The least that the node has of a channel of its book, in satoshis, whichever commitment closes it. `None` if there is no such channel.
fn least_in(alloc: Global, book: &Book, channel: u64) -> Result<Option<u64>> {
    let Some(open) = book.channel(channel) else {
        return Ok(None);
    };
    let preimages = Vec::from_slice(alloc, book.preimages(channel))?;
    let mut known = KnownPreimages::from_vec(preimages);
    known.index()?;
    Ok(Some(at_least_sat(alloc, open, &known)?))
}

// A's book offers an HTLC.
fn offered(rt: &impl Abort, a: &mut Book, expiry_height: u32) -> Message {
    let step = Step::Own(offer(1_000_000, expiry_height));
    let sent = a.step(SEAT, 0, step).expect(rt, "an offer");
    sent.expect(rt, "a message")
}

/// What a book answers to a message.
pub fn answer(rt: &impl Abort, book: &mut Book, message: Message) -> Option<Message> {
    take(book, message).expect(rt, "taken")
}

// What B's new book answers to an offer of A's and its signature.
fn revocation(rt: &impl Abort, alloc: Global, offer: Message, signature: Message) -> Message {
    let mut b = opened(rt, alloc, Side::B);
    assert!(rt; answer(rt, &mut b, offer).is_none());
    answer(rt, &mut b, signature).expect(rt, "an answer")
}

// A's book offers an HTLC and signs it to B's, whose revocation it takes.
fn played(rt: &impl Abort, alloc: Global, a: &mut Book, store: &mut Store) {
    let offer = offered(rt, a, 500);
    let signature = sign(alloc, a, store).expect(rt, "a signature");
    let revocation = revocation(rt, alloc, offer, signature);
    assert!(rt; answer(rt, a, revocation).is_none());
}

// Whether the book signs once the penalties are kept, and not before.
fn guards(rt: &impl Abort, alloc: Global, a: &mut Book, store: &mut Store) -> bool {
    drop(offered(rt, a, 501));
    let refusal = a.sign(SEAT, 0).err();
    keep_penalties(alloc, a, 0).expect(rt, "kept");
    refusal == Some(SignError::PenaltiesMissing(0)) && sign(alloc, a, store).is_ok()
}

// A's book signs twice, each time into the store.
fn sign_twice(rt: &impl Abort, alloc: Global, a: &mut Book, store: &mut Store) {
    let opening = open_side(alloc, 0, Side::A)
        .expect(rt, "an opening")
        .opening;
    assert!(rt; a.open(SEAT, opening) == Ok(0));
    played(rt, alloc, a, store);
    assert!(rt; guards(rt, alloc, a, store));
}

// A's book signs twice, into a new store at a path.
fn sign_at(host: &HostRuntime, rt: &impl Abort, path: &str) {
    begin(host, path).expect(rt, "a new store");
    let (mut a, mut store) = restart(host, path).expect(rt, "a store");
    sign_twice(rt, host.alloc(), &mut a, &mut store);
}

// A write that was cut off.
fn tear(host: &HostRuntime, rt: &impl Abort, path: &str) {
    let file = OpenOptions::new().append(true).open(host, path);
    let torn = file
        .expect(rt, "a file")
        .write_all(b"{\"history\":[{\"call\"");
    assert!(rt; torn.is_ok());
}

// The number of entries of the book in a store, and of its copy.
fn entries_at(host: &HostRuntime, rt: &impl Abort, path: &str) -> (usize, usize) {
    let (book, _store) = restart(host, path).expect(rt, "a book");
    let copy = copied(host.alloc(), &book).expect(rt, "a copy");
    (book.entries().len(), copy.entries().len())
}

// Closes the channel of the book in a store.
fn close_at(host: &HostRuntime, rt: &impl Abort, path: &str) {
    let (mut book, mut store) = restart(host, path).expect(rt, "a book");
    assert!(rt; close(host.alloc(), &mut book, &mut store).is_ok());
}

const PATH: &str = "a.history";

// Three entries stand in the line of the first signature, and four in that of the second: the revocation, the
// penalties, an offer and the signature. The torn line is cut off before the one of the close. After the revocation
// nothing is signed until the penalties are kept.
#[test]
fn loads_what_was_written(rt: HostRuntime) {
    sign_at(&rt, &rt, PATH);
    assert!(rt; entries_at(&rt, &rt, PATH) == (7, 7));
    tear(&rt, &rt, PATH);
    close_at(&rt, &rt, PATH);
    assert!(rt; entries_at(&rt, &rt, PATH) == (8, 8) && begin(&rt, PATH).is_err());
    assert!(rt; fs::remove_file(&rt, PATH).is_ok());
}

// Of 100,000 satoshis A has 80,000, and pays the fee of its peer's commitments and its own.
#[test]
fn tells_the_least_of_a_channel(rt: HostRuntime) {
    let a = opened(&rt, rt.alloc(), Side::A);
    assert!(rt; least_in(rt.alloc(), &a, 0).ok() == Some(Some(79_276)));
    assert!(rt; least_in(rt.alloc(), &a, 1).ok() == Some(None));
}

// Whether B's book refuses an offer's signature once it closed the channel.
fn shuts(rt: &impl Abort, b: &mut Book, offer: Message, signature: Message) -> bool {
    let number = b.close(SEAT, 0);
    assert!(rt; feerate_in(&offer).is_none() && answer(rt, b, offer).is_none());
    number == Ok(0) && matches!(take(b, signature), Err(StepError::ChannelClosed))
}

// A book that closed its channel takes the peer's updates, but does not answer its signature with a secret.
#[test]
fn takes_no_signature_after_the_close(rt: HostRuntime) {
    let mut a = opened(&rt, rt.alloc(), Side::A);
    let mut b = opened(&rt, rt.alloc(), Side::B);
    let offer = offered(&rt, &mut a, 500);
    let signature = a.sign(SEAT, 0).expect(&rt, "a signature");
    assert!(rt; shuts(&rt, &mut b, offer, signature));
}

#[test]
fn tells_the_feerate_of_a_message(rt: HostRuntime) {
    let update = Update::Fee {
        feerate_per_kw: 9_000,
    };
    assert!(rt; feerate_in(&Message::Step(PeerStep::Update(update))) == Some(9_000));
}

// How many messages a book gives again to another one's hello.
fn again(rt: &impl Abort, from: &Book, to: &Book) -> usize {
    let hello = to.channel(0).expect(rt, "a channel").hello();
    resent(rt, from.channel(0).expect(rt, "a channel"), &hello)
}

// Whether B's book, which has A's offer, refuses it from an A that forgot it.
fn refuses_anew(rt: &impl Abort, alloc: Global, b: &mut Book) -> bool {
    let offer = offered(rt, &mut opened(rt, alloc, Side::A), 500);
    take(b, offer).is_err()
}

// How many messages A's book gives again after an offer, after its signature, and B's after its revocation.
fn resume_both(rt: &impl Abort, alloc: Global, a: &mut Book, b: &mut Book) -> [usize; 3] {
    let offer = offered(rt, a, 500);
    let of_offer = again(rt, a, b);
    let signature = a.sign(SEAT, 0).expect(rt, "a signature");
    let of_signature = again(rt, a, b);
    assert!(rt; answer(rt, b, offer).is_none() && refuses_anew(rt, alloc, b));
    assert!(rt; answer(rt, b, signature).is_some());
    [of_offer, of_signature, again(rt, b, a)]
}

// By the channel that a book lends, an offer goes out again with its signature, and not without. So does a revocation.
#[test]
fn resumes_by_a_lent_channel(rt: HostRuntime) {
    let mut a = opened(&rt, rt.alloc(), Side::A);
    let mut b = opened(&rt, rt.alloc(), Side::B);
    assert!(rt; resume_both(&rt, rt.alloc(), &mut a, &mut b) == [0, 2, 1]);
}
