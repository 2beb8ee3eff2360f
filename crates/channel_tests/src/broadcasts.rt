//! What a side can broadcast. The transactions themselves are tested with the plays of a channel.

use crate::opening::{deliver, offered, opened};
use channel::Channel;
use forms::patterns;
use publish::{signed_commitment, signed_htlc_tx};
use std::alloc::{AllocError, Global};
use std::process::Abort;
use terms::Side;
use tx::Tx;

/// The example of the page of `publish`.
fn closing_tx(alloc: Global, channel: &Channel) -> Result<Option<Tx>, AllocError> {
    signed_commitment(alloc, &patterns(alloc)?, channel, channel.number())
}

// A's side of a channel with an HTLC that it offered, on the commitments of both sides.
fn side_with_an_offer(rt: &impl Abort, alloc: Global) -> Channel {
    let mut a = opened(rt, alloc, Side::A);
    let mut b = opened(rt, alloc, Side::B);
    offered(rt, &mut a, &mut b);
    let tokens = b.signed().expect(rt, "tokens");
    deliver(rt, &mut b, &mut a, &tokens);
    a
}

// The number of outputs of a transaction, 0 if there is none; `None` where memory ran out.
fn outputs(tx: Result<Option<Tx>, AllocError>) -> Option<usize> {
    match tx {
        Err(_) => None,
        Ok(None) => Some(0),
        Ok(Some(tx)) => Some(tx.outputs().len()),
    }
}

// Pays both sides and the HTLC. The HTLC's timeout has one output, and there is no second HTLC.
fn closes(rt: &impl Abort, alloc: Global, side: &Channel) {
    let patterns = patterns(alloc).expect(rt, "memory");
    assert!(rt; outputs(closing_tx(alloc, side)) == Some(3));
    assert!(rt; outputs(signed_htlc_tx(alloc, &patterns, side, 1, 0, &[])) == Some(1));
    assert!(rt; outputs(signed_htlc_tx(alloc, &patterns, side, 1, 1, &[])) == Some(0));
}

#[test]
fn closes_with_its_newest_commitment(rt: HostRuntime) {
    let side = side_with_an_offer(&rt, rt.alloc());
    closes(&rt, rt.alloc(), &side);
}
