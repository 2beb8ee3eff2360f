// Calls as values: `Book::call` accepts each of the seven.

use crate::pairs::{Pair, batch_of, first_claims};
use crate::two_books::{offer, opening};
use book::{Book, Call, Reply};
use std::alloc::Global;
use std::process::Abort;
use terms::Side;
use updates::Revocation;

// The sorts of calls.
#[derive(Clone, Copy)]
enum Sort {
    Open,
    Step,
    Sign,
    Revoke,
    Keep,
    Release,
    Close,
}

const SORTS: [Sort; 7] = [
    Sort::Open,
    Sort::Step,
    Sort::Sign,
    Sort::Revoke,
    Sort::Keep,
    Sort::Release,
    Sort::Close,
];

// A call in the first channel, which B revoked.
fn call_of(rt: &impl Abort, alloc: Global, sort: Sort, came: Revocation) -> Call {
    let secret = came.secret;
    let channel = 0;
    match sort {
        Sort::Open => Call::Open(opening(rt, alloc, Side::A)),
        Sort::Step => Call::Step {
            channel,
            step: offer(1_000_000, 500),
        },
        Sort::Sign => Call::Sign { channel },
        Sort::Revoke => Call::Revoke {
            channel,
            revocation: came,
        },
        Sort::Keep => Call::Keep {
            channel,
            number: 0,
            claims: first_claims(rt, alloc, secret),
        },
        Sort::Release => Call::Release {
            channel,
            batch: batch_of(rt, alloc, first_claims(rt, alloc, secret)),
        },
        Sort::Close => Call::Close { channel },
    }
}

fn is_accepted(reply: &Reply) -> bool {
    match reply {
        Reply::Opened(answer) => answer.is_ok(),
        Reply::Stepped(answer) => answer.is_ok(),
        Reply::Signed(answer) => answer.is_ok(),
        Reply::Revoked(answer) => answer.is_ok(),
        Reply::Kept(answer) => answer.is_ok(),
        Reply::Released(answer) => answer.is_ok(),
        Reply::Closed(answer) => answer.is_ok(),
    }
}

// Whether a book accepts a call.
fn accepts(book: &mut Book, call: Call) -> bool {
    is_accepted(&book.call(0, call))
}

// The revocation that B sends after the same calls of another book.
fn revocation(rt: &impl Abort, alloc: Global) -> Revocation {
    let mut pair = Pair::new(rt, alloc);
    assert!(rt; pair.offer_and_sign(rt, 1_000_000));
    pair.came
}

#[test]
fn makes_each_call(rt: HostRuntime) {
    let came = revocation(&rt, rt.alloc());
    let mut book = Book::new(rt.alloc());
    for sort in SORTS {
        assert!(rt; accepts(&mut book, call_of(&rt, rt.alloc(), sort, came)));
    }
    assert!(rt; book.entries().len() == 7);
}
