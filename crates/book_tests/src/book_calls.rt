// What a book of A's answers, call by call.

use crate::rows::{Row, Summary, plays};
use crate::two_books::{FIRST, PREIMAGE};
use book::errors::{CloseError, KeepError, OpenError, SignError, StepError};
use terms::Side;
use updates::{ChannelError, OwnUpdate};

// A channel is opened on a funding output once, and there is no other channel.
const OPENED: [Row; 10] = [
    Row::HasOneChannel,
    Row::Keeps(1, 0, None),
    Row::Revoked(1, 0, Err(KeepError::NoSuchChannel)),
    Row::Open(Some(OpenError::SameFunding)),
    Row::Offer(1, Some(StepError::NoSuchChannel)),
    Row::Sign(1, Some(SignError::NoSuchChannel)),
    Row::Revoke(1, Err(StepError::NoSuchChannel)),
    Row::KeepNone(1, 0, Some(KeepError::NoSuchChannel)),
    Row::Sign(0, Some(SignError::NoUpdates)),
    Row::Entries(Side::A, 1),
];

#[test]
fn finds_no_other_channel(rt: HostRuntime) {
    plays(&rt, rt.alloc(), &OPENED);
}

// A revocation with a wrong secret changes nothing; the right one returns the number.
const REVOKED: [Row; 6] = [
    Row::Offered(1_000_000),
    Row::RevokeByZeros(Err(StepError::Refused(ChannelError::WrongSecret))),
    Row::Sign(0, Some(SignError::AwaitingRevocation)),
    Row::Revoke(0, Ok(0)),
    Row::Entries(Side::A, 4),
    Row::Entries(Side::B, 3),
];

#[test]
fn takes_the_secret_of_the_seed_alone(rt: HostRuntime) {
    plays(&rt, rt.alloc(), &REVOKED);
}

// The signing gate: after a revocation nothing is signed until its penalties are kept.
const GUARDED: [Row; 7] = [
    Row::Offered(1_000_000),
    Row::Revoke(0, Ok(0)),
    Row::Offer(0, None),
    Row::Sign(0, Some(SignError::PenaltiesMissing(0))),
    Row::KeepFirst(None),
    Row::Sign(0, None),
    Row::Entries(Side::A, 7),
];

#[test]
fn signs_once_penalties_are_kept(rt: HostRuntime) {
    plays(&rt, rt.alloc(), &GUARDED);
}

const KEPT: [Row; 7] = [
    Row::Offered(1_000_000),
    Row::Revoke(0, Ok(0)),
    Row::KeepNone(0, 1, Some(KeepError::NotRevoked)),
    Row::KeepNone(0, 0, Some(KeepError::OtherState)),
    Row::KeepFirst(None),
    Row::KeepNone(0, 0, Some(KeepError::AlreadyKept)),
    Row::Entries(Side::A, 5),
];

#[test]
fn keeps_a_set_once(rt: HostRuntime) {
    plays(&rt, rt.alloc(), &KEPT);
}

// Penalty sets that are built outside the book.
const BUILT: [Row; 9] = [
    Row::Offered(1_000_000),
    Row::Revoke(0, Ok(0)),
    Row::KeepSet(1, 0, FIRST, 0, Some(KeepError::NoSuchChannel)),
    Row::KeepSet(0, 1, FIRST, 0, Some(KeepError::NotRevoked)),
    Row::KeepSet(
        0,
        0,
        [70_000_000, 30_000_000],
        0,
        Some(KeepError::OtherState),
    ),
    Row::Entries(Side::A, 4),
    Row::KeepSet(0, 0, FIRST, 0, None),
    Row::KeepSet(0, 0, FIRST, 0, Some(KeepError::AlreadyKept)),
    Row::Entries(Side::A, 5),
];

#[test]
fn keeps_a_built_set_once(rt: HostRuntime) {
    plays(&rt, rt.alloc(), &BUILT);
}

// Only the low 48 bits of a number count (BOLT 3). A state with
// other bits above them is not the book's own, but its claims are.
const LIKE: [Row; 4] = [
    Row::Offered(1_000_000),
    Row::Revoke(0, Ok(0)),
    Row::KeepSet(0, 0, FIRST, 1 << 48, None),
    Row::Keeps(0, 0, Some(true)),
];

#[test]
fn keeps_the_same_claims_of_another_state(rt: HostRuntime) {
    plays(&rt, rt.alloc(), &LIKE);
}

// The penalties of a revoked commitment are filled by the channel's signer, in the book and outside of it, and by no
// other. A signer that knows only the seed lacks the secret.
const RELEASED: [Row; 9] = [
    Row::Offered(1_000_000),
    Row::Release(false),
    Row::ReleaseTwice(false),
    Row::Revoke(0, Ok(0)),
    Row::Release(true),
    Row::ReleaseTwice(true),
    Row::Entries(Side::A, 6),
    Row::FilledByChannel(2),
    Row::NotFilledBySeed,
];

#[test]
fn releases_penalties(rt: HostRuntime) {
    plays(&rt, rt.alloc(), &RELEASED);
}

// What is left of a release is released again, as often as it is asked: both of its inputs, or one of them where the other's output was spent. The new entry can be released again too, and has no more than it took. Other
// entries are no releases.
const RELEASED_AGAIN: [Row; 14] = [
    Row::Offered(1_000_000),
    Row::ReleaseAgain(2, 0, Err(21)),
    Row::Revoke(0, Ok(0)),
    Row::Release(true),
    Row::Entries(Side::A, 5),
    Row::ReleaseAgain(4, 0, Ok(2)),
    Row::ReleaseAgain(4, 1, Ok(1)),
    Row::ReleaseAgain(4, 2, Err(23)),
    Row::ReleaseAgain(6, 0, Ok(1)),
    Row::ReleaseAgain(5, 0, Ok(2)),
    Row::Entries(Side::A, 9),
    Row::ReleaseAgain(0, 0, Err(21)),
    Row::ReleaseAgain(9, 0, Err(20)),
    Row::Entries(Side::A, 9),
];

#[test]
fn releases_what_is_left(rt: HostRuntime) {
    plays(&rt, rt.alloc(), &RELEASED_AGAIN);
}

// The peer's commitment with the HTLC is its next one, until
// the peer revokes the first, whose penalties are then kept.
const KNOWN: [Row; 11] = [
    Row::Offered(5_000_000),
    Row::Knows(
        Side::A,
        Summary {
            own: 0,
            older: 0,
            theirs: 0,
            next: Some(1),
            revoked: &[],
            preimages: &[],
        },
    ),
    Row::Keeps(0, 0, None),
    Row::Revoked(0, 0, Err(KeepError::NotRevoked)),
    Row::Revoke(0, Ok(0)),
    Row::Keeps(0, 0, Some(false)),
    Row::Revoked(0, 0, Ok(0)),
    Row::KeepFirst(None),
    Row::Keeps(0, 0, Some(true)),
    Row::Revoked(0, 0, Err(KeepError::AlreadyKept)),
    Row::Knows(
        Side::A,
        Summary {
            own: 0,
            older: 0,
            theirs: 1,
            next: None,
            revoked: &[true],
            preimages: &[],
        },
    ),
];

#[test]
fn knows_what_is_revoked_and_kept(rt: HostRuntime) {
    plays(&rt, rt.alloc(), &KNOWN);
}

// Once B fulfils the HTLC, B knows its preimage, and A does not.
const FULFILLED: [Row; 5] = [
    Row::Offered(5_000_000),
    Row::Agreed,
    Row::Fulfilled,
    Row::Knows(
        Side::B,
        Summary {
            own: 1,
            older: 1,
            theirs: 1,
            next: None,
            revoked: &[false],
            preimages: &[PREIMAGE],
        },
    ),
    Row::Knows(
        Side::A,
        Summary {
            own: 1,
            older: 1,
            theirs: 1,
            next: None,
            revoked: &[false],
            preimages: &[],
        },
    ),
];

#[test]
fn knows_preimages(rt: HostRuntime) {
    plays(&rt, rt.alloc(), &FULFILLED);
}

// A closed channel is closed with the newest commitment, as often as it is asked. It signs nothing and makes no offer, failure or fee. It takes the revocation that comes, and its penalties are kept and
// released.
const CLOSED: [Row; 14] = [
    Row::Offered(1_000_000),
    Row::Close(Side::A, 1, Err(CloseError::NoSuchChannel)),
    Row::Close(Side::A, 0, Ok(0)),
    Row::Close(Side::A, 0, Ok(0)),
    Row::Offer(0, Some(StepError::ChannelClosed)),
    Row::Offer(1, Some(StepError::NoSuchChannel)),
    Row::Update(OwnUpdate::Fail { id: 0 }, Some(StepError::ChannelClosed)),
    Row::Update(
        OwnUpdate::SetFee { feerate_per_kw: 5 },
        Some(StepError::ChannelClosed),
    ),
    Row::Sign(0, Some(SignError::ChannelClosed)),
    Row::Revoke(0, Ok(0)),
    Row::Sign(0, Some(SignError::ChannelClosed)),
    Row::KeepFirst(None),
    Row::Release(true),
    Row::Entries(Side::A, 8),
];

#[test]
fn a_closed_channel_signs_nothing(rt: HostRuntime) {
    plays(&rt, rt.alloc(), &CLOSED);
}

// B closes with its commitment 1, takes no signature of A from then on, and still fulfils, so that it knows the preimage.
const FULFILLED_ONCE_CLOSED: [Row; 8] = [
    Row::Offered(5_000_000),
    Row::Agreed,
    Row::Close(Side::B, 0, Ok(1)),
    Row::KeepFirst(None),
    Row::Offer(0, None),
    Row::SignToB(Some(StepError::ChannelClosed)),
    Row::Fulfilled,
    Row::Knows(
        Side::B,
        Summary {
            own: 1,
            older: 1,
            theirs: 1,
            next: None,
            revoked: &[false],
            preimages: &[PREIMAGE],
        },
    ),
];

#[test]
fn a_closed_channel_takes_no_signature_and_fulfils(rt: HostRuntime) {
    plays(&rt, rt.alloc(), &FULFILLED_ONCE_CLOSED);
}
