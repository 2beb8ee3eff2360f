//! What changes with a side's newest commitment.

use crate::names::side_name;
use page::Page;
use page::Piece::Count;
use terms::{Htlc, Side};
use world::World;

// Writes those of a side's HTLCs that are not among others of it.
fn tell_without(line: &mut Page, offerer: Side, htlcs: &[Htlc], others: &[Htlc]) {
    for htlc in htlcs {
        let mut is_among = false;
        for other in others {
            if other.id == htlc.id {
                is_among = true;
            }
        }
        if !is_among {
            line.element(
                r#"{"offerer":"%","id":%}"#,
                &[side_name(offerer), Count(htlc.id)],
            );
        }
    }
}

/// Writes a side's new newest commitment in a channel, and what changed from the one before.
pub fn tell_held(line: &mut Page, world: &World, side: Side, channel: u64) {
    let Some(own) = world.book(side).channel(channel) else {
        return;
    };
    let [.., before, now] = own.own_commitments() else {
        return;
    };
    let (a, b) = (&now.view.a, &now.view.b);
    let (new_a, new_b) = (a.offered.values(), b.offered.values());
    let (old_a, old_b) = (
        before.view.a.offered.values(),
        before.view.b.offered.values(),
    );
    line.write(
        r#","held":{"channel":%,"owner":"%","number":%,"feerate":%,"balance":{"A":%,"B":%},"in":["#,
        &[
            Count(channel),
            side_name(now.owner),
            Count(now.number),
            Count(u64::from(now.view.feerate_per_kw)),
            Count(a.balance_msat),
            Count(b.balance_msat),
        ],
    );
    tell_without(line, Side::A, new_a, old_a);
    tell_without(line, Side::B, new_b, old_b);
    line.push(r#"],"out":["#);
    tell_without(line, Side::A, old_a, new_a);
    tell_without(line, Side::B, old_b, new_b);
    line.push("]}");
}

/// Writes the commitment with which a side closed a channel: its newest one.
pub fn tell_closed(line: &mut Page, world: &World, side: Side, channel: u64) {
    if let Some(own) = world.book(side).channel(channel) {
        line.write(
            r#","closed":{"channel":%,"owner":"%","number":%}"#,
            &[Count(channel), side_name(side), Count(own.number())],
        );
    }
}
