//! Messages between the sides, and their effects.

use crate::names::side_name;
use crate::scenarios::commitments::tell_held;
use book::{Call, Step};
use channel::Message;
use page::Page;
use page::Piece::{Count, Hash, Text};
use terms::Side;
use updates::{PeerStep, Update};
use world::World;

// What is written of a message: its template, and the stages of an HTLC that is offered, fulfilled or failed in it.
#[derive(Clone, Copy)]
struct Words {
    message: &'static str,
    offered: &'static str,
    fulfilled: &'static str,
    failed: &'static str,
}

// Of a message on its way to a side.
const SENT: Words = Words {
    message: r#","sent":{"to":"%","channel":%,"message":"%","waiting":%}"#,
    offered: "offered",
    fulfilled: "fulfilled",
    failed: "failed",
};

// Of a message that was delivered to a side.
const DELIVERED: Words = Words {
    message: r#","delivered":{"to":"%","channel":%,"message":"%","waiting":%}"#,
    offered: "received",
    fulfilled: "fulfil_received",
    failed: "fail_received",
};

// Writes a message to a side, by its template.
fn tell_message(
    line: &mut Page,
    world: &World,
    template: &'static str,
    to: Side,
    channel: u64,
    message: &'static str,
) {
    let waiting = match world.inbox(to, channel) {
        Some(inbox) => inbox.len() as u64,
        None => 0,
    };
    line.write(
        template,
        &[side_name(to), Count(channel), Text(message), Count(waiting)],
    );
}

// Writes an update that is on its way to a side, or that it received, and the next stage of the HTLC in it.
fn tell_update(
    line: &mut Page,
    world: &World,
    words: &Words,
    to: Side,
    channel: u64,
    update: &Update,
) {
    let template = words.message;
    match update {
        Update::Add(htlc) => {
            let hash = htlc.hash;
            tell_message(line, world, template, to, channel, "update_add_htlc");
            line.write(
                r#","htlc":{"channel":%,"offerer":"%","id":%,"stage":"%","amount":%,"hash":"%","expiry":%}"#,
                &[
                    Count(channel),
                    side_name(to.other()),
                    Count(htlc.id),
                    Text(words.offered),
                    Count(htlc.amount_msat),
                    Hash(hash),
                    Count(u64::from(htlc.expiry_height)),
                ],
            );
        }
        Update::Fulfil { id, preimage } => {
            tell_message(line, world, template, to, channel, "update_fulfill_htlc");
            line.write(
                r#","htlc":{"channel":%,"offerer":"%","id":%,"stage":"%","preimage":"%"}"#,
                &[
                    Count(channel),
                    side_name(to),
                    Count(*id),
                    Text(words.fulfilled),
                    Hash(*preimage),
                ],
            );
        }
        Update::Fail { id } => {
            tell_message(line, world, template, to, channel, "update_fail_htlc");
            line.write(
                r#","htlc":{"channel":%,"offerer":"%","id":%,"stage":"%"}"#,
                &[
                    Count(channel),
                    side_name(to),
                    Count(*id),
                    Text(words.failed),
                ],
            );
        }
        Update::Fee { .. } => tell_message(line, world, template, to, channel, "update_fee"),
    }
}

/// Writes an update that a side made.
pub fn tell_own(line: &mut Page, world: &World, side: Side, channel: u64) {
    let to = side.other();
    if let Some(inbox) = world.inbox(to, channel) {
        if let Some(Message::Step(PeerStep::Update(update))) = inbox.back() {
            tell_update(line, world, &SENT, to, channel, update);
        }
    }
}

/// Writes that a side signed.
pub fn tell_signed(line: &mut Page, world: &World, side: Side, channel: u64) {
    let to = side.other();
    tell_message(line, world, SENT.message, to, channel, "commitment_signed");
    if let Some(own) = world.book(side).channel(channel) {
        if let Some(state) = own.peers_commitments().last() {
            line.write(
                r#","signed":{"channel":%,"owner":"%","number":%}"#,
                &[Count(channel), side_name(to), Count(state.number)],
            );
        }
    }
}

/// Writes that a side received a message, which its book took. It answers a signature with a revocation.
pub fn tell_delivered(line: &mut Page, world: &World, side: Side, channel: u64) {
    let Some(entry) = world.book(side).entries().last() else {
        return;
    };
    match &entry.call {
        Call::Step {
            step: Step::Peer(PeerStep::Update(update)),
            ..
        } => tell_update(line, world, &DELIVERED, side, channel, update),
        Call::Step { .. } => {
            tell_message(
                line,
                world,
                DELIVERED.message,
                side,
                channel,
                "commitment_signed",
            );
            tell_message(
                line,
                world,
                SENT.message,
                side.other(),
                channel,
                "revoke_and_ack",
            );
            tell_held(line, world, side, channel);
        }
        Call::Revoke { .. } => {
            tell_message(
                line,
                world,
                DELIVERED.message,
                side,
                channel,
                "revoke_and_ack",
            );
            if let Some(own) = world.book(side).channel(channel) {
                let number = own.peer_number().saturating_sub(1);
                line.write(
                    r#","revoked":{"channel":%,"owner":"%","number":%}"#,
                    &[Count(channel), side_name(side.other()), Count(number)],
                );
            }
        }
        _ => {}
    }
}
