// Two books of one channel: an offer, a signature, its revocation, and the penalties for it.

ghost use Rattle.std.specs.Prelude.{◌≡◌};
ghost use Rattle.keys.specs.declared.bases.Base.TheVariants.{Funding};
ghost use Rattle.keys.specs.Derivation.{base_key};
ghost use Rattle.terms.specs.Agreement.{party};
ghost use Rattle.terms.specs.Sides.{other};

use book::{Book, Opening, Step};
use channel::{Message, opening_points, opening_token};
use forms::patterns;
use keys::Signer;
use parties::{FUNDING, party, view};
use penalty::{PenaltySet, RevokedState, penalties};
use std::alloc::Global;
use std::process::Abort;
use terms::{Side, Terms};
use updates::{OwnUpdate, Revocation};

// The terms of the channel of two signers.
fn terms_of(rt: &impl Abort, a: &Signer, b: &Signer) -> Terms
    ensures a { result.a.bases.funding.bytes ≡ base_key a.now.seed Funding }
    ensures b { result.b.bases.funding.bytes ≡ base_key b.now.seed Funding }
{
    let (of_a, of_b) = (party(a, 80_000_000), party(b, 20_000_000));
    parties::terms_of(FUNDING, 100_000, of_a, of_b).expect(rt, "terms")
}

// How a side opens the channel.
fn opening_of(
    rt: &impl Abort,
    alloc: Global,
    terms: &Terms,
    side: Side,
    seed: [u8; 32],
    peer: &Signer,
) -> Opening
    requires { (party (other side) terms.now).bases.funding.bytes ≡ base_key peer.now.seed Funding }
{
    let point = opening_points(&Signer::new(alloc, &seed)).first;
    let token = opening_token(alloc, terms, side.other(), peer, &point).expect(rt, "a token");
    let points = opening_points(peer);
    let (first, next) = (points.first, points.second);
    Opening::new(alloc, *terms, side, seed, first, next, token).expect(rt, "an opening")
}

// The sides have the seeds 01..01 and 02..02.
pub(crate) fn opening(rt: &impl Abort, alloc: Global, side: Side) -> Opening {
    let (a, b) = (Signer::new(alloc, &[1; 32]), Signer::new(alloc, &[2; 32]));
    let terms = terms_of(rt, &a, &b);
    match side {
        Side::A => opening_of(rt, alloc, &terms, Side::A, [1; 32], &b),
        Side::B => opening_of(rt, alloc, &terms, Side::B, [2; 32], &a),
    }
}

// A new book in which this side opened the channel.
pub(crate) fn opened(rt: &impl Abort, alloc: Global, side: Side) -> Book {
    let mut book = Book::new(alloc);
    assert!(rt; book.open(0, opening(rt, alloc, side)) == Ok(0));
    book
}

// A preimage, and its SHA-256 (Python's hashlib).
pub(crate) const PREIMAGE: [u8; 32] = [5; 32];

const HASH: [u8; 32] = [
    0xf8, 0x49, 0xd6, 0x73, 0x25, 0xfa, 0xcf, 0x04, 0x17, 0x7b, 0xc6, 0x63, 0xb2, 0xdc, 0x54, 0x40,
    0x51, 0x83, 0x1c, 0x58, 0x9e, 0xf5, 0x81, 0xd4, 0x12, 0xf2, 0xeb, 0xa4, 0x48, 0x34, 0xe7, 0x7c,
];

pub(crate) fn offer(amount_msat: u64, expiry_height: u32) -> Step {
    Step::Own(OwnUpdate::Offer {
        amount_msat,
        hash: HASH,
        expiry_height,
    })
}

// The step of whoever gets this message.
fn step_of(message: Message) -> Option<Step> {
    match message {
        Message::Step(step) => Some(Step::Peer(step)),
        Message::RevokeAndAck(_) => None,
    }
}

fn revocation_in(message: Option<Message>) -> Option<Revocation> {
    match message {
        Some(Message::RevokeAndAck(revocation)) => Some(revocation),
        _ => None,
    }
}

// What a book answers to a message.
fn answer(rt: &impl Abort, book: &mut Book, message: Message) -> Option<Message> {
    let step = step_of(message).expect(rt, "a step");
    book.step(0, 0, step).expect(rt, "taken")
}

// A book signs the channel to the other's, which answers with a revocation.
pub(crate) fn signed(rt: &impl Abort, from: &mut Book, to: &mut Book) -> Revocation {
    let message = from.sign(0, 0).expect(rt, "a signature");
    revocation_in(answer(rt, to, message)).expect(rt, "a revocation")
}

// A's book offers an HTLC and signs it to B's, which answers with a revocation.
pub(crate) fn offered(rt: &impl Abort, a: &mut Book, b: &mut Book, amount_msat: u64) -> Revocation {
    let sent = a.step(0, 0, offer(amount_msat, 500)).expect(rt, "an offer");
    assert!(rt; answer(rt, b, sent.expect(rt, "an update")).is_none());
    signed(rt, a, b)
}

// A state of B's with these balances and this number, revoked by the secret.
fn state_of(
    rt: &impl Abort,
    alloc: Global,
    balances_msat: [u64; 2],
    number: u64,
    secret: [u8; 32],
) -> RevokedState {
    let (a, b) = (Signer::new(alloc, &[1; 32]), Signer::new(alloc, &[2; 32]));
    let terms = terms_of(rt, &a, &b);
    let view = view(alloc, balances_msat, &[], &[]).expect(rt, "memory");
    RevokedState::new(terms, view, Side::B, number, secret).expect(rt, "a state")
}

// The millisatoshis that the two sides begin with, which B's commitment 0 pays.
pub(crate) const FIRST: [u64; 2] = [80_000_000, 20_000_000];

// The penalties of such a state.
pub(crate) fn penalties_of(
    rt: &impl Abort,
    alloc: Global,
    balances_msat: [u64; 2],
    number: u64,
    secret: [u8; 32],
) -> PenaltySet {
    let state = state_of(rt, alloc, balances_msat, number, secret);
    let patterns = patterns(alloc).expect(rt, "memory");
    penalties(alloc, &patterns, &state).expect(rt, "memory")
}
