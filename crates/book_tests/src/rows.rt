// Calls of A's book and questions to it, with their answers.

use crate::pairs::Pair;
use crate::two_books::PREIMAGE;
use book::Book;
use book::errors::{
    CloseError, KeepError, KnowError, OpenError, ReleaseError, SignError, StepError,
};
use filling::FillError;
use parties::FUNDING;
use resolve::Known;
use std::alloc::Global;
use std::process::Abort;
use terms::Side;
use updates::OwnUpdate;

/// The numbers of HTLCs in the known commitments, and what else is known.
#[derive(Clone, Copy)]
pub(crate) struct Summary {
    pub(crate) own: usize,
    pub(crate) older: usize,
    pub(crate) theirs: usize,
    pub(crate) next: Option<usize>,
    /// Whether the penalties of each revoked commitment are kept.
    pub(crate) revoked: &'static [bool],
    pub(crate) preimages: &'static [[u8; 32]],
}

/// A call or a question, with its answer. Where none is named, the channel is the first.
#[derive(Clone, Copy)]
pub(crate) enum Row {
    /// A opens the channel once more.
    Open(Option<OpenError>),
    /// A offers an HTLC of this amount and signs it, and B sends a revocation.
    Offered(u64),
    /// A takes that revocation, B signs the HTLC too, and A revokes.
    Agreed,
    /// B fulfils the HTLC.
    Fulfilled,
    /// A side closes a channel.
    Close(Side, u64, Result<u64, CloseError>),
    /// A makes an update of its own.
    Update(OwnUpdate, Option<StepError>),
    /// A signs to B.
    SignToB(Option<StepError>),
    /// A offers in a channel.
    Offer(u64, Option<StepError>),
    /// A signs a channel.
    Sign(u64, Option<SignError>),
    /// A takes, in a channel, the revocation that B sent.
    Revoke(u64, Result<u64, StepError>),
    /// A takes a revocation with a secret of zeros.
    RevokeByZeros(Result<u64, StepError>),
    /// A keeps no claims for a number of a channel.
    KeepNone(u64, u64, Option<KeepError>),
    /// A keeps the claims on B's commitment 0.
    KeepFirst(Option<KeepError>),
    /// A keeps, for a number of a channel, the set of a state with these balances and this number.
    KeepSet(u64, u64, [u64; 2], u64, Option<KeepError>),
    /// A releases the claims on B's commitment 0, or has no right to a key.
    Release(bool),
    /// The same, and the transaction is handed out twice.
    ReleaseTwice(bool),
    /// A releases again what is left of an entry of its book, where this number of the claims' outputs were spent. The answer is the number of inputs, or that of the refusal.
    ReleaseAgain(u64, usize, Result<usize, u8>),
    /// The channel's signer fills this number of claims.
    FilledByChannel(usize),
    /// A signer that knows only the seed has no right to a key.
    NotFilledBySeed,
    /// The number of entries of a side's book.
    Entries(Side, usize),
    /// Whether the penalties for a number of a channel are kept.
    Keeps(u64, u64, Option<bool>),
    /// The number of the state that is revoked in a channel.
    Revoked(u64, u64, Result<u64, KeepError>),
    /// What a side knows.
    Knows(Side, Summary),
    /// There is one channel, and it has the funding output of these tests.
    HasOneChannel,
}

fn book_of(pair: &Pair, side: Side) -> &Book {
    match side {
        Side::A => &pair.a,
        Side::B => &pair.b,
    }
}

// The number of the state that the book returns for a revoked commitment.
fn revoked_number(book: &Book, channel: u64, number: u64) -> Result<u64, KeepError> {
    match book.revoked(channel, number) {
        Ok(state) => Ok(state.number),
        Err(error) => Err(error),
    }
}

fn has_commitments(known: &Known, wanted: &Summary) -> bool {
    let next = match &known.next {
        Some(next) => Some(next.commitment().htlcs().len()),
        None => None,
    };
    known.own.commitment.commitment().htlcs().len() == wanted.own
        && known.older.len() == wanted.older
        && known.theirs.commitment().htlcs().len() == wanted.theirs
        && next == wanted.next
}

fn has_revoked(known: &Known, wanted: &[bool]) -> bool {
    let is_kept = match known.revoked.get(0) {
        Some(revoked) => Some(revoked.is_kept),
        None => None,
    };
    known.revoked.len() == wanted.len() && is_kept == wanted.first().copied()
}

fn is_known(known: &Known, wanted: &Summary) -> bool {
    has_commitments(known, wanted)
        && has_revoked(known, wanted.revoked)
        && known.preimages.values() == wanted.preimages
}

fn is_known_of(rt: &impl Abort, book: &Book, wanted: &Summary) -> bool {
    let known = book.known(0).expect(rt, "memory");
    is_known(&known, wanted)
}

fn knows(rt: &impl Abort, book: &Book, wanted: &Summary) -> bool {
    is_known_of(rt, book, wanted)
        && book.preimages(0) == wanted.preimages
        && book.preimages(1).is_empty()
}

fn knows_no_other(book: &Book) -> bool {
    book.known(1).err() == Some(KnowError::NoSuchChannel)
}

fn has_the_funding(rt: &impl Abort, alloc: Global, book: &Book) -> bool {
    let fundings = book.fundings(alloc).expect(rt, "memory");
    fundings.len() == 1 && fundings[0] == FUNDING
}

fn has_one_channel(rt: &impl Abort, alloc: Global, book: &Book) -> bool {
    book.channel_count() == 1
        && book.channel(0).is_some()
        && book.channel(1).is_none()
        && knows_no_other(book)
        && book.patterns().is_ok()
        && has_the_funding(rt, alloc, book)
}

fn is_released(refusal: Option<ReleaseError>, wanted: bool) -> bool {
    match refusal {
        None => wanted,
        Some(ReleaseError::Unfilled(FillError::NoRight)) => !wanted,
        _ => false,
    }
}

// Whether both sides' books are as a row says.
fn is_shown(rt: &impl Abort, alloc: Global, pair: &Pair, row: &Row) -> bool {
    match *row {
        Row::FilledByChannel(wanted) => pair.fill_by_channel(rt).ok() == Some(wanted),
        Row::NotFilledBySeed => matches!(pair.fill_by_seed(rt), Err(FillError::NoRight)),
        Row::Entries(side, wanted) => book_of(pair, side).entries().len() == wanted,
        Row::Keeps(channel, number, wanted) => pair.a.keeps(channel, number) == wanted,
        Row::Revoked(channel, number, wanted) => {
            revoked_number(&pair.a, channel, number) == wanted
        }
        Row::Knows(side, wanted) => knows(rt, book_of(pair, side), &wanted),
        Row::HasOneChannel => has_one_channel(rt, alloc, &pair.a),
        _ => false,
    }
}

// Whether a call has its answer.
fn is_answered(rt: &impl Abort, alloc: Global, pair: &mut Pair, row: &Row) -> bool {
    match *row {
        Row::Open(wanted) => pair.open_again(rt) == wanted,
        Row::Offered(amount_msat) => pair.offer_and_sign(rt, amount_msat),
        Row::Agreed => pair.agree(rt),
        Row::Fulfilled => pair.fulfil(PREIMAGE),
        Row::Close(side, channel, wanted) => pair.close(side, channel) == wanted,
        Row::Update(update, wanted) => pair.update(update) == wanted,
        Row::SignToB(wanted) => pair.sign_to_b(rt) == wanted,
        Row::Offer(channel, wanted) => pair.offer(channel) == wanted,
        Row::Sign(channel, wanted) => pair.sign(channel) == wanted,
        Row::Revoke(channel, wanted) => pair.revoke(channel) == wanted,
        Row::RevokeByZeros(wanted) => pair.revoke_by_zeros() == wanted,
        Row::KeepNone(channel, number, wanted) => pair.keep_none(channel, number) == wanted,
        Row::KeepFirst(wanted) => pair.keep_first(rt) == wanted,
        Row::KeepSet(channel, number, balances_msat, of, wanted) => {
            pair.keep_set(rt, channel, number, balances_msat, of) == wanted
        }
        Row::Release(wanted) => is_released(pair.release(rt), wanted),
        Row::ReleaseTwice(wanted) => is_released(pair.release_twice(rt), wanted),
        Row::ReleaseAgain(entry, spent, wanted) => pair.release_again(rt, entry, spent) == wanted,
        _ => is_shown(rt, alloc, pair, row),
    }
}

/// Plays the rows with two new books.
pub(crate) fn plays(rt: &impl Abort, alloc: Global, rows: &[Row]) {
    let mut pair = Pair::new(rt, alloc);
    for (index, row) in rows.iter().enumerate() {
        assert!(rt; is_answered(rt, alloc, &mut pair, row), "row {index}");
    }
}
